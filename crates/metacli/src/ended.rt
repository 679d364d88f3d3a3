ghost use Rattle.std.specs.Prelude.{◌≡◌};
ghost use Rattle.metacli.specs.Answers.{status_of};

use crate::{Command, Rows, WordsFault};
use alg_classes::{Instance, Property};
use alg_model::Alg;
use code_gen::Listing;
use distance_runs::HopRow;
use meta_base::{ArcId, List, Which};
use net_graph::{Change, DestTable, Net};
use property_infer::{Verdict, Verdicts};
use raml_syntax::ExprFault;
use report_check::{Judgement, ManyHops, ReportFault};
use topology_file::NetFault;
use vector_runs::{Journal, Phase};

/// How a run ended.
#[derive(Debug, Drop)]
pub enum Answer {
    /// The command was carried out.
    Done,
    /// It was carried out until all turns were used, and something was on its way still.
    Spent,
    /// It was carried out, and this property, which was required, fails: the first such of the five in their order.
    Unmet(Property),
    /// The words mean no command.
    BadWords(WordsFault),
    /// The bytes of the expression file mean no algebra.
    BadExpr(ExprFault),
    /// The bytes of the network file mean no network over the algebra.
    BadNet(NetFault),
    /// The bytes of the report mean no tables on the network after its changes.
    BadReport(ReportFault),
    /// The label of this arc, which is one of the network after its changes, doesn't have a property that the command
    /// needs of all labels; it is the first such arc, and the instance shows it.
    Misses { arc: ArcId, instance: Instance },
    /// The file could not be begun or read to its end.
    ReadFault(Which),
    /// The text could not be written to its end.
    WriteFault,
    /// There was no memory.
    NoMemory,
    /// The file has more bytes than [`meta_base::MAX_FILE_BYTES`].
    TooLong(Which),
}

/// What a run came to. A field that its command doesn't make is `None` or empty.
#[derive(Debug, Drop)]
pub struct Ended {
    /// What the words asked for, where they mean a command.
    pub command: Option<Command>,
    /// The algebra of the expression file, where that was read and means one.
    pub alg: Option<Alg>,
    /// The network of the network file, before its changes, where that was read and means one.
    pub net: Option<Net>,
    /// The changes of the network file, each one that the network after those before it may have.
    pub changes: List<Change>,
    /// The verdicts, where `check` was carried out.
    pub verdicts: Option<Verdicts>,
    /// The code of the algebra's order and, where there is a network, of the label on each arc in file order of the
    /// network after all changes, where `code` was carried out.
    pub listing: Option<Listing>,
    /// The verdict on monotone, where `gadget` was carried out: no number of its instance is above those of a network
    /// file.
    pub gadget: Option<Verdict>,
    /// The tables of the report, where `verify` was carried out.
    pub report: Option<List<DestTable>>,
    /// What these are judged to be, on the network after all changes.
    pub judgement: Option<Judgement>,
    /// The rows with all their next hops, where `hops` was carried out, on the network after all changes: for each
    /// destination in order, each node in order.
    pub many: List<ManyHops>,
    /// The routes, where `route`, `settle`, `stable` or `flood` was carried out, on the network after all changes; those
    /// of the last phase, where `run` or `trace` was: for each destination in order, each node in order.
    pub rows: Rows,
    /// The rows of distance-vector nodes with their next hops, where `distance` was carried out, on the network after all
    /// changes: for each destination in order, each node in order.
    pub hops: List<HopRow>,
    /// The deliveries of the last phase, where `run` or `trace` was carried out, or of the run of nodes, where `flood` or
    /// `distance` was: by clock, then by listener.
    pub journal: Journal,
    /// The phases before the last, where `run` or `trace` was carried out.
    pub past: List<Phase>,
    /// The answer before anything was written.
    pub decided: Answer,
    /// The answer: `decided`, or `WriteFault` or `NoMemory` where writing ended early.
    pub answer: Answer,
}

/// The status that the program ends with: 0 done, 1 bad words, 2 a bad expression, network or report, 3 a property that a label
/// doesn't have or that was required and fails, 4 turns that were used up, 5 a read fault, 6 a write fault, 7 out of
/// memory, 8 a file that is too long.
pub fn status(answer: &Answer) -> u8
    ensures { result ≡ status_of answer.now }
{
    match answer {
        Answer::Done => 0,
        Answer::BadWords(_) => 1,
        Answer::BadExpr(_) | Answer::BadNet(_) | Answer::BadReport(_) => 2,
        Answer::Misses { .. } | Answer::Unmet(_) => 3,
        Answer::Spent => 4,
        Answer::ReadFault(_) => 5,
        Answer::WriteFault => 6,
        Answer::NoMemory => 7,
        Answer::TooLong(_) => 8,
    }
}
