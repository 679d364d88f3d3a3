ghost use Rattle.std.specs.Prelude.{◌≡◌, ◌<◌, length, map};
ghost use Rattle.std.specs.Result.{result_ok};
ghost use Rattle.metacli.specs.Outcome.{ComesOf, ComesTo, IsMadeAlone, IsMadeOn, WithAlgebra, WithNetwork, WithReport, word_at};
ghost use Rattle.net_graph.specs.Changes.{AreChanges};
ghost use Rattle.net_graph.specs.Views.{pure_change};
ghost use Rattle.topology_file.specs.Views.{pure_file};
ghost use Rattle.command_words.specs.Words.{Words};
ghost use Rattle.metacli.specs.Runs.{Runs};
ghost use Rattle.metacli.specs.Tasks.{CanBeDone, HasItsNumbers};
ghost use Rattle.metacli.specs.Views.{CanBeWritten, pure_outcome};

use crate::checking::{check, check_network};
use crate::coding::{code, code_network};
use crate::exchanging::distance;
use crate::flooding::flood;
use crate::generating::demo;
use crate::hopping::hops;
use crate::judging::verify;
use crate::outcome::{Outcome, Stop};
use crate::reading::{read_expression, read_network};
use crate::routing::route;
use crate::running::run;
use crate::task::{AlgebraTask, NetworkTask, Task, task_of};
use crate::wedging::gadget;
use crate::writing::{hand_on, write};
use crate::{Command, Ended, read_words};
use alg_model::Alg;
use meta_base::{Gate, Shelf, Sink, Text};
use std::alloc::{AllocGlobal, Global};
use std::sync::Wait;
use std::thread::Threads;
use topology_file::NetFile;

/// All that the program does: it reads what the words mean, reads the files that they name, decides,
/// and writes what was decided.
///
/// What comes back says all that was read, decided and answered, and the bytes written are the text of
/// that. Each refusal has its cause. Where the words mean a command, the files are in their grammars and no
/// fault came, the command is carried out unless memory is refused: [`crate::nothing_is_given_up`].
#[inline(always)]
pub fn run_meta<R: AllocGlobal + Threads + Wait + Sync, S: Shelf, K: Sink, G: Gate>(
    rt: &R,
    words: &[Text],
    shelf: &mut S,
    out: &mut K,
    gate: &G,
) -> Ended
    ensures { Runs words.now (S.now_is shelf.old) (S.now_is shelf.new) (K.holds out.old) (K.holds out.new) result }
{
    let alloc = rt.alloc();
    let (command, outcome) = decide(rt, words, shelf, gate);
    let written = write(alloc, out, &outcome);
    let answer = hand_on(out, written);
    outcome.ended(alloc, command, answer)
}

// The command of the words, and what it comes to.
#[tactic(auto, using(crate::proofs::Tasks::can_be_done))]
fn decide<R: AllocGlobal + Threads + Wait + Sync, S: Shelf, G: Gate>(
    rt: &R,
    words: &[Text],
    shelf: &mut S,
    gate: &G,
) -> (Option<Command>, Outcome)
    ensures command { result.0 ≡ result_ok (Words words.now) }
    ensures comes_to { ComesTo words.now (S.now_is shelf.old) (S.now_is shelf.new) (pure_outcome result.1) }
    ensures printable { CanBeWritten result.1 }
{
    match read_words(words) {
        Ok(command) => {
            let outcome = carry_out(rt, words, task_of(command), shelf, gate);
            (Some(command), outcome)
        }
        Err(fault) => (None, Outcome::refused(Stop::Words(fault))),
    }
}

// What the task comes to, whose files the words name.
fn carry_out<R: AllocGlobal + Threads + Wait + Sync, S: Shelf, G: Gate>(
    rt: &R,
    words: &[Text],
    task: Task,
    shelf: &mut S,
    gate: &G,
) -> Outcome
    requires { CanBeDone words.now task }
    ensures comes_to { ComesOf words.now task (S.now_is shelf.old) (S.now_is shelf.new) (pure_outcome result) }
    ensures printable { CanBeWritten result }
{
    match task {
        Task::Demo { seed, nodes } => demo(rt, seed, nodes, gate),
        Task::Alone { file, task } => with_algebra(rt.alloc(), shelf, name_at(words, file), task),
        Task::Judge { file, net, report } => {
            let file = name_at(words, file);
            let net = name_at(words, net);
            with_report(rt.alloc(), shelf, file, net, name_at(words, report))
        }
        Task::On { file, net, task } => {
            let file = name_at(words, file);
            let net = name_at(words, net);
            with_network(rt, shelf, file, net, task, gate)
        }
    }
}

// The word at that place.
fn name_at(words: &[Text], place: usize) -> &str
    requires { place < length words.now }
    ensures { result.now ≡ word_at words.now place }
{
    words[place].as_str()
}

// What the task comes to on the expression file of that name.
fn with_algebra<S: Shelf>(alloc: Global, shelf: &mut S, file: &str, task: AlgebraTask) -> Outcome
    ensures comes_to { WithAlgebra file.now (λ a old new o. (new ≡ old) × IsMadeAlone task a o)
        (S.now_is shelf.old) (S.now_is shelf.new) (pure_outcome result) }
    ensures printable { CanBeWritten result }
{
    match read_expression(alloc, shelf, file) {
        Ok(alg) => on_algebra(alloc, alg, task),
        Err(stop) => Outcome::refused(stop),
    }
}

// What it comes to on the algebra.
fn on_algebra(alloc: Global, alg: Alg, task: AlgebraTask) -> Outcome
    ensures made { IsMadeAlone task alg (pure_outcome result) }
    ensures printable { CanBeWritten result }
{
    match task {
        AlgebraTask::Check(require) => check(alloc, alg, require),
        AlgebraTask::Code => code(alloc, alg),
        AlgebraTask::Gadget => gadget(alloc, alg),
    }
}

// What the task comes to on the expression file and the network file of these names.
fn with_network<R: AllocGlobal + Threads + Wait + Sync, S: Shelf, G: Gate>(
    rt: &R,
    shelf: &mut S,
    file: &str,
    net: &str,
    task: NetworkTask,
    gate: &G,
) -> Outcome
    requires { HasItsNumbers task }
    ensures comes_to { WithAlgebra file.now
        (λ a. WithNetwork a net.now (λ f old new o. (new ≡ old) × IsMadeOn task a f o))
        (S.now_is shelf.old) (S.now_is shelf.new) (pure_outcome result) }
    ensures printable { CanBeWritten result }
{
    let alloc = rt.alloc();
    let alg = match read_expression(alloc, shelf, file) {
        Ok(alg) => alg,
        Err(stop) => return Outcome::refused(stop),
    };
    match read_network(alloc, shelf, &alg, net) {
        Ok(file) => on_network(rt, alg, file, task, gate),
        Err(stop) => Outcome::Stopped {
            alg: Some(alg),
            file: None,
            stop,
        },
    }
}

// What `verify` comes to with the files of these names.
fn with_report<S: Shelf>(
    alloc: Global,
    shelf: &mut S,
    file: &str,
    net: &str,
    report: &str,
) -> Outcome
    ensures comes_to { WithAlgebra file.now (λ a. WithNetwork a net.now (λ f. WithReport a f report.now))
        (S.now_is shelf.old) (S.now_is shelf.new) (pure_outcome result) }
    ensures printable { CanBeWritten result }
{
    let alg = match read_expression(alloc, shelf, file) {
        Ok(alg) => alg,
        Err(stop) => return Outcome::refused(stop),
    };
    match read_network(alloc, shelf, &alg, net) {
        Ok(file) => verify(alloc, shelf, alg, file, report),
        Err(stop) => Outcome::Stopped {
            alg: Some(alg),
            file: None,
            stop,
        },
    }
}

// What it comes to on the network over the algebra, with its changes.
fn on_network<R: AllocGlobal + Threads + Wait + Sync, G: Gate>(
    rt: &R,
    alg: Alg,
    file: NetFile,
    task: NetworkTask,
    gate: &G,
) -> Outcome
    requires numbers { HasItsNumbers task }
    requires over { file.net.alg ≡ alg }
    requires changes { AreChanges file.net (map pure_change file.changes) }
    ensures made { IsMadeOn task alg (pure_file file) (pure_outcome result) }
    ensures printable { CanBeWritten result }
{
    match task {
        NetworkTask::Check(require) => check_network(rt.alloc(), alg, file, require),
        NetworkTask::Code => code_network(rt.alloc(), alg, file),
        NetworkTask::Hops => hops(rt, alg, file),
        NetworkTask::Route { solution, workers } => route(rt, alg, file, solution, workers),
        NetworkTask::Run {
            workers,
            turns,
            is_traced,
        } => run(rt, alg, file, workers, turns, is_traced, gate),
        NetworkTask::Flood { workers, turns } => flood(rt, alg, file, workers, turns, gate),
        NetworkTask::Distance { workers, turns } => {
            distance(rt, alg, file, workers, turns, gate)
        }
    }
}
