ghost use Rattle.std.specs.Prelude.{◌≡◌};
ghost use Rattle.command_words.specs.Words.{words_fault_number};

/// What the program is asked to do. Its files are places in the words, where their names stand.
#[derive(Clone, Copy, Debug, PartialEq, Eq)]
pub enum Command {
    /// `check FILE [NET] [--require LIST]` asks which of the five properties the algebra of an expression file has,
    /// or, with a network file, the labels on its arcs. LIST names the properties that have to hold: one or more of
    /// `monotone`, `strict`, `isotone`, `cancellative` and `total`, separated by commas, none twice. Where the words
    /// don't say, none has to hold.
    Check {
        file: usize,
        net: Option<usize>,
        require: Required,
    },
    /// `code FILE [NET]` asks for the compiled code of the order of the algebra of an expression file, and, with a
    /// network file, of the label on each of its arcs.
    Code {
        file: usize,
        net: Option<usize>,
    },
    /// `route FILE NET [--workers W]` asks for link-state routes for every destination of a network file, found
    /// by so many workers: 1 to 16, and 4 where the words don't say.
    Route {
        file: usize,
        net: usize,
        workers: u32,
    },
    /// `settle FILE NET` asks for the one stable table of every destination of a network file, found without nodes
    /// that run.
    Settle {
        file: usize,
        net: usize,
    },
    /// `stable FILE NET` asks for the stable tables of each destination of a network file.
    Stable {
        file: usize,
        net: usize,
    },
    /// `run FILE NET [--workers W] [--turns N]` asks for the routes that path-vector nodes come to, phase by phase,
    /// run by so many workers, as for `route`, with so many turns for all phases: 0 to 1,000,000, and 100,000
    /// where the words don't say.
    Run {
        file: usize,
        net: usize,
        workers: u32,
        turns: u64,
    },
    /// `trace FILE NET [--workers W] [--turns N]` asks for the same as `run`, and for each phase's deliveries.
    Trace {
        file: usize,
        net: usize,
        workers: u32,
        turns: u64,
    },
    /// `flood FILE NET [--workers W] [--turns N]` asks for the routes that nodes find for themselves, each from what it was
    /// sent of the network, with so many workers and turns as for `run`.
    Flood {
        file: usize,
        net: usize,
        workers: u32,
        turns: u64,
    },
    /// `distance FILE NET [--workers W] [--turns N]` asks for the values and next hops of nodes that exchange values
    /// without paths, with so many workers and turns as for `run`.
    Distance {
        file: usize,
        net: usize,
        workers: u32,
        turns: u64,
    },
    /// `verify FILE NET REPORT` asks for a judgement of the table of routes in a report file: whether no walk beats its
    /// routes, and whether each is its node's choice.
    Verify {
        file: usize,
        net: usize,
        report: usize,
    },
    /// `hops FILE NET` asks for all equally good next hops of each row of `route`.
    Hops {
        file: usize,
        net: usize,
    },
    /// `gadget FILE` asks for a network of two routers on which the policy of an expression file, if it isn't
    /// monotone, has two stable states.
    Gadget {
        file: usize,
    },
    /// `demo SEED N` asks for a summary of what the nodes of a generated network come to, of 2 to 512 nodes, which
    /// the seed and this number determine.
    Demo {
        seed: u64,
        nodes: u32,
    },
}

/// Which of the five properties of labels have to hold.
#[derive(Clone, Copy, Debug, Default, PartialEq, Eq)]
pub struct Required {
    /// No label's image is preferred to the value.
    pub monotone: bool,
    /// Each value is preferred to a label's image.
    pub strict: bool,
    /// Each label keeps the order of values.
    pub isotone: bool,
    /// No label makes values equivalent that weren't.
    pub cancellative: bool,
    /// No label prohibits a value.
    pub total: bool,
}

/// What is wrong with the words of a command line. Of several faults the one reported is the first in this order:
/// `NoCommand`, `UnknownCommand`, `BadFlag`, `WrongCount`, then `BadNumber` or `BadList`. No command has both numbers
/// and a list.
#[derive(Clone, Copy, Debug, PartialEq, Eq)]
pub enum WordsFault {
    /// There are no words; printed as C1.
    NoCommand,
    /// The first word is no command; printed as C2.
    UnknownCommand,
    /// A flag has no value, since it is the last word, or there are too few or too many arguments; printed as C3.
    WrongCount,
    /// A number isn't spelled by 1 to 20 ASCII digits, or is out of its range; printed as C4.
    BadNumber,
    /// The command doesn't have a flag, or it is given twice; printed as C5.
    BadFlag,
    /// The list of `--require` isn't one or more of the five words, separated by commas, or has one of them twice;
    /// printed as C6.
    BadList,
}

impl WordsFault {
    /// The number that stands after the C of a printed fault.
    pub fn number(self) -> u8
        ensures { result ≡ words_fault_number self }
    {
        match self {
            WordsFault::NoCommand => 1,
            WordsFault::UnknownCommand => 2,
            WordsFault::WrongCount => 3,
            WordsFault::BadNumber => 4,
            WordsFault::BadFlag => 5,
            WordsFault::BadList => 6,
        }
    }
}
