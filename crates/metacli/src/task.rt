// What commands ask for, by the files that they read.
ghost use Rattle.std.specs.Prelude.{◌≡◌};
ghost use Rattle.command_words.specs.declared.command.Command.TheVariants.{Check, Code, Gadget};
ghost use Rattle.metacli.specs.Tasks.{task_of};
ghost use Rattle.metacli.specs.declared.task.NetworkTask.TheVariants.{Distance, Flood, Route, Run};
ghost use Rattle.metacli.specs.declared.task.Task.TheVariants.{On};

use crate::routing::Solution;
use crate::{Command, Required};

// `settle` and `stable` find their tables on one thread.
const ONE_WORKER: u32 = 1;

/// What a command asks for. A file is the place of its name in the words.
#[derive(Clone, Copy, Debug)]
pub enum Task {
    /// The run of a generated network, which reads no file.
    Demo {
        seed: u64,
        nodes: u32,
    },
    /// Something about the algebra of an expression file.
    Alone {
        file: usize,
        task: AlgebraTask,
    },
    /// The judgement of a report of routes on the network of a network file over it.
    Judge {
        file: usize,
        net: usize,
        report: usize,
    },
    /// Something about the network of a network file over it.
    On {
        file: usize,
        net: usize,
        task: NetworkTask,
    },
}

/// What is asked for about an algebra.
#[derive(Clone, Copy, Debug)]
pub enum AlgebraTask {
    /// Its verdicts, with these properties required.
    Check(Required),
    /// The code of its order.
    Code,
    /// The network that shows that it isn't monotone.
    Gadget,
}

/// What is asked for about a network.
#[derive(Clone, Copy, Debug)]
pub enum NetworkTask {
    /// The verdicts on its labels, with these properties required.
    Check(Required),
    /// The code of its labels.
    Code,
    /// All equally good next hops of the routes that no walk beats.
    Hops,
    /// Its routes, found by so many workers.
    Route {
        solution: Solution,
        workers: u32,
    },
    /// What its nodes come to, run by so many workers with so many turns, and their deliveries where they are traced.
    Run {
        workers: u32,
        turns: u64,
        is_traced: bool,
    },
    /// The routes that flooding nodes compute, run by so many workers with so many turns.
    Flood {
        workers: u32,
        turns: u64,
    },
    /// The values and next hops of distance-vector nodes, run by so many workers with so many turns.
    Distance {
        workers: u32,
        turns: u64,
    },
}

/// What the command asks for.
pub fn task_of(command: Command) -> Task
    ensures { result ≡ task_of command }
{
    match command {
        Command::Check { file, net, require } => check_task(file, net, require),
        Command::Code { file, net } => code_task(file, net),
        Command::Route { file, net, workers } => route_task(file, net, Solution::Unbeaten, workers),
        Command::Settle { file, net } => route_task(file, net, Solution::Settled, ONE_WORKER),
        Command::Stable { file, net } => route_task(file, net, Solution::AllStable, ONE_WORKER),
        Command::Run {
            file,
            net,
            workers,
            turns,
        } => run_task(file, net, workers, turns, false),
        Command::Trace {
            file,
            net,
            workers,
            turns,
        } => run_task(file, net, workers, turns, true),
        Command::Flood {
            file,
            net,
            workers,
            turns,
        } => flood_task(file, net, workers, turns),
        Command::Distance {
            file,
            net,
            workers,
            turns,
        } => distance_task(file, net, workers, turns),
        Command::Verify { file, net, report } => Task::Judge { file, net, report },
        Command::Hops { file, net } => Task::On {
            file,
            net,
            task: NetworkTask::Hops,
        },
        Command::Gadget { file } => gadget_task(file),
        Command::Demo { seed, nodes } => Task::Demo { seed, nodes },
    }
}

fn gadget_task(file: usize) -> Task
    ensures { result ≡ task_of (Gadget file) }
{
    Task::Alone {
        file,
        task: AlgebraTask::Gadget,
    }
}

fn check_task(file: usize, net: Option<usize>, require: Required) -> Task
    ensures { result ≡ task_of (Check file net require) }
{
    match net {
        None => Task::Alone {
            file,
            task: AlgebraTask::Check(require),
        },
        Some(net) => Task::On {
            file,
            net,
            task: NetworkTask::Check(require),
        },
    }
}

fn code_task(file: usize, net: Option<usize>) -> Task
    ensures { result ≡ task_of (Code file net) }
{
    match net {
        None => Task::Alone {
            file,
            task: AlgebraTask::Code,
        },
        Some(net) => Task::On {
            file,
            net,
            task: NetworkTask::Code,
        },
    }
}

fn route_task(file: usize, net: usize, solution: Solution, workers: u32) -> Task
    ensures { result ≡ On file net (Route solution workers) }
{
    Task::On {
        file,
        net,
        task: NetworkTask::Route { solution, workers },
    }
}

fn run_task(file: usize, net: usize, workers: u32, turns: u64, is_traced: bool) -> Task
    ensures { result ≡ On file net (Run workers turns is_traced) }
{
    Task::On {
        file,
        net,
        task: NetworkTask::Run {
            workers,
            turns,
            is_traced,
        },
    }
}

fn flood_task(file: usize, net: usize, workers: u32, turns: u64) -> Task
    ensures { result ≡ On file net (Flood workers turns) }
{
    Task::On {
        file,
        net,
        task: NetworkTask::Flood { workers, turns },
    }
}

fn distance_task(file: usize, net: usize, workers: u32, turns: u64) -> Task
    ensures { result ≡ On file net (Distance workers turns) }
{
    Task::On {
        file,
        net,
        task: NetworkTask::Distance { workers, turns },
    }
}
