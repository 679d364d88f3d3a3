// What a run comes to before anything is written, and the end that shows it.
ghost use Rattle.std.specs.Prelude.{◌≡◌, ◌≢◌, None, if◌then◌else◌};
ghost use Rattle.metacli.specs.Answers.{done, memory_refused, pure_answer, pure_stop, refused, spent, write_fault};
ghost use Rattle.std.specs.Prelude.{option_map};
ghost use Rattle.metacli.specs.Outcome.{Shows, met_or, stopped};
ghost use Rattle.metacli.specs.declared.outcome.Stop.TheVariants.{Memory};
ghost use Rattle.metacli.specs.Views.{AreParts, CanBeWritten, pure_outcome};
ghost use Rattle.topology_file.specs.Views.{pure_file};
ghost use Rattle.alg_classes.specs.Instances.{pure_instance, pure_property};
ghost use Rattle.report_text.specs.Refusals.{misses, pure_refusal};

use crate::routing::Solution;
use crate::{Answer, Command, Ended, Rows, WordsFault};
use alg_classes::Property;
use alg_model::Alg;
use code_gen::Listing;
use distance_runs::{DistanceRun, HopRow};
use flood_runs::FloodRun;
use meta_base::{List, NoMemory, Which};
use net_facts::Missing;
use net_graph::{DestTable, Net};
use property_infer::{Verdict, Verdicts};
use raml_syntax::ExprFault;
use report_check::{Judgement, ManyHops, ReportFault};
use report_text::Refusal;
use std::alloc::Global;
use topology_file::{NetFault, NetFile};
use vector_runs::{Journal, Phase, PhasedRun};
use word_tables::WordRows;

/// Why a command isn't carried out.
#[derive(Clone, Copy, Debug)]
pub enum Stop {
    Words(WordsFault),
    Expr(ExprFault),
    Network(NetFault),
    Report(ReportFault),
    Read(Which),
    Long(Which),
    Memory,
}

impl From<NoMemory> for Stop {
    ghost from_gives = { λ _ stop. stop ≡ Memory };

    fn from(_: NoMemory) -> Self {
        Stop::Memory
    }
}

impl Stop {
    /// The answer that says so.
    pub fn answer(self) -> Answer
        ensures { pure_answer result ≡ refused (pure_stop self) }
    {
        match self {
            Stop::Words(fault) => Answer::BadWords(fault),
            Stop::Expr(fault) => Answer::BadExpr(fault),
            Stop::Network(fault) => Answer::BadNet(fault),
            Stop::Report(fault) => Answer::BadReport(fault),
            Stop::Read(which) => Answer::ReadFault(which),
            Stop::Long(which) => Answer::TooLong(which),
            Stop::Memory => Answer::NoMemory,
        }
    }

    /// The refusal that is printed.
    pub fn refusal(self) -> Refusal
        ensures { pure_refusal result ≡ pure_stop self }
    {
        match self {
            Stop::Words(fault) => Refusal::Words(fault.number()),
            Stop::Expr(fault) => Refusal::Expr(fault),
            Stop::Network(fault) => Refusal::Network(fault),
            Stop::Report(fault) => Refusal::Report(fault),
            Stop::Read(which) => Refusal::Read(which),
            Stop::Long(which) => Refusal::Long(which),
            Stop::Memory => Refusal::Memory,
        }
    }
}

/// What a run comes to before anything is written.
#[derive(Debug, Drop)]
pub enum Outcome {
    /// It is refused, and this was read before.
    Stopped {
        alg: Option<Alg>,
        file: Option<NetFile>,
        stop: Stop,
    },
    Unfit(Unfit),
    Checked(Checked),
    Coded(Coded),
    Routed(Routed),
    Hopped(Hopped),
    Judged(Judged),
    Wedged(Wedged),
    Ran(Ran),
    Flooded(Flooded),
    Exchanged(Exchanged),
    Shown(Shown),
}

/// An arc of the network after its changes, which is `None` where there are none, has a label that isn't fit.
#[derive(Debug, Drop)]
pub struct Unfit {
    pub alg: Alg,
    pub file: NetFile,
    pub after: Option<Net>,
    pub missing: Missing,
}

/// The verdicts on an algebra, or on the labels of a network over it, and the first required property that fails.
#[derive(Debug, Drop)]
pub struct Checked {
    pub alg: Alg,
    pub file: Option<NetFile>,
    pub verdicts: Verdicts,
    pub unmet: Option<Property>,
}

/// The code of an algebra's order, and of the labels of a network over it after its changes, where there is one:
/// `after` is `None` where there are no changes.
#[derive(Debug, Drop)]
pub struct Coded {
    pub alg: Alg,
    pub file: Option<NetFile>,
    pub after: Option<Net>,
    pub listing: Listing,
}

/// The routes of a network over an algebra that were asked for.
#[derive(Debug, Drop)]
pub struct Routed {
    pub solution: Solution,
    pub alg: Alg,
    pub file: NetFile,
    pub rows: WordRows,
}

/// All equally good next hops on a network over an algebra, after its changes.
#[derive(Debug, Drop)]
pub struct Hopped {
    pub alg: Alg,
    pub file: NetFile,
    pub many: List<ManyHops>,
}

/// The tables of a report on the network after its changes, which is `None` where there are none, and their judgement.
#[derive(Debug, Drop)]
pub struct Judged {
    pub alg: Alg,
    pub file: NetFile,
    pub after: Option<Net>,
    pub tables: List<DestTable>,
    pub judgement: Judgement,
}

/// The verdict on monotone of an algebra, with an instance that a network file can hold.
#[derive(Debug, Drop)]
pub struct Wedged {
    pub alg: Alg,
    pub verdict: Verdict,
}

/// The phases of path-vector nodes on the network of a file, and on those after its changes.
#[derive(Debug, Drop)]
pub struct Ran {
    pub alg: Alg,
    pub file: NetFile,
    /// The networks after the first change, the first two, and so on.
    pub changed: List<Net>,
    /// Deliveries are printed.
    pub is_traced: bool,
    pub run: PhasedRun,
}

/// The flood of flooding nodes on the network of a file, after its changes.
#[derive(Debug, Drop)]
pub struct Flooded {
    pub alg: Alg,
    pub file: NetFile,
    pub run: FloodRun,
}

/// The exchange of values of distance-vector nodes on the network of a file, after its changes.
#[derive(Debug, Drop)]
pub struct Exchanged {
    pub alg: Alg,
    pub file: NetFile,
    pub run: DistanceRun,
}

/// The phase of path-vector nodes on a generated network, which is quiet.
#[derive(Debug, Drop)]
pub struct Shown {
    pub alg: Alg,
    pub file: NetFile,
    pub last: Phase,
}

impl Outcome {
    /// What comes of a refusal before anything was read.
    pub fn refused(stop: Stop) -> Outcome
        ensures is { pure_outcome result ≡ stopped None None (pure_stop stop) }
        ensures printable { CanBeWritten result }
    {
        Outcome::Stopped {
            alg: None,
            file: None,
            stop,
        }
    }

    /// The end that shows it, with the command and the answer to writing it.
    pub fn ended(self, alloc: Global, command: Option<Command>, answer: Answer) -> Ended
        ensures shows { Shows result command (pure_outcome self) }
        ensures answer { result.answer ≡ answer }
    {
        let Parts {
            alg,
            file,
            made,
            decided,
        } = self.parts(alloc);
        let (net, changes) = match file {
            Some(NetFile { net, changes }) => (Some(net), changes),
            None => (None, List::new(alloc)),
        };
        Ended {
            command,
            alg,
            net,
            changes,
            verdicts: made.verdicts,
            listing: made.listing,
            gadget: made.gadget,
            report: made.report,
            judgement: made.judgement,
            many: made.many,
            rows: made.rows,
            hops: made.hops,
            journal: made.journal,
            past: made.past,
            decided,
            answer,
        }
    }

    // What was read, what was made of it, and the answer to that.
    fn parts(self, alloc: Global) -> Parts
        ensures { AreParts result (pure_outcome self) }
    {
        match self {
            Outcome::Stopped { alg, file, stop } => stopped_parts(alloc, alg, file, stop),
            Outcome::Unfit(it) => it.parts(alloc),
            Outcome::Checked(it) => it.parts(alloc),
            Outcome::Coded(it) => it.parts(alloc),
            Outcome::Routed(it) => it.parts(alloc),
            Outcome::Hopped(it) => it.parts(alloc),
            Outcome::Judged(it) => it.parts(alloc),
            Outcome::Wedged(it) => it.parts(alloc),
            Outcome::Ran(it) => it.parts(alloc),
            Outcome::Flooded(it) => it.parts(alloc),
            Outcome::Exchanged(it) => it.parts(alloc),
            Outcome::Shown(it) => it.parts(alloc),
        }
    }
}

/// What was read, what was made of it, and the answer to that.
#[derive(Drop)]
pub struct Parts {
    alg: Option<Alg>,
    file: Option<NetFile>,
    made: Made,
    decided: Answer,
}

fn stopped_parts(alloc: Global, alg: Option<Alg>, file: Option<NetFile>, stop: Stop) -> Parts
    ensures { AreParts result (stopped alg (option_map pure_file file) (pure_stop stop)) }
{
    Parts {
        alg,
        file,
        made: Made::nothing(alloc),
        decided: stop.answer(),
    }
}

impl Unfit {
    fn parts(self, alloc: Global) -> Parts
        ensures { AreParts result (pure_outcome (Outcome.Unfit self)) }
    {
        Parts {
            alg: Some(self.alg),
            file: Some(self.file),
            made: Made::nothing(alloc),
            decided: missing_answer(self.missing),
        }
    }
}

impl Checked {
    fn parts(self, alloc: Global) -> Parts
        ensures { AreParts result (pure_outcome (Outcome.Checked self)) }
    {
        let mut made = Made::nothing(alloc);
        made.verdicts = Some(self.verdicts);
        Parts {
            alg: Some(self.alg),
            file: self.file,
            made,
            decided: checked_answer(self.unmet),
        }
    }
}

impl Coded {
    fn parts(self, alloc: Global) -> Parts
        ensures { AreParts result (pure_outcome (Outcome.Coded self)) }
    {
        let mut made = Made::nothing(alloc);
        made.listing = Some(self.listing);
        Parts {
            alg: Some(self.alg),
            file: self.file,
            made,
            decided: Answer::Done,
        }
    }
}

impl Routed {
    fn parts(self, alloc: Global) -> Parts
        ensures { AreParts result (pure_outcome (Outcome.Routed self)) }
    {
        let mut made = Made::nothing(alloc);
        made.rows = Rows::Words(self.rows);
        Parts {
            alg: Some(self.alg),
            file: Some(self.file),
            made,
            decided: Answer::Done,
        }
    }
}

impl Hopped {
    fn parts(self, alloc: Global) -> Parts
        ensures { AreParts result (pure_outcome (Outcome.Hopped self)) }
    {
        let mut made = Made::nothing(alloc);
        made.many = self.many;
        Parts {
            alg: Some(self.alg),
            file: Some(self.file),
            made,
            decided: Answer::Done,
        }
    }
}

impl Judged {
    fn parts(self, alloc: Global) -> Parts
        ensures { AreParts result (pure_outcome (Outcome.Judged self)) }
    {
        drop(self.after);
        let mut made = Made::nothing(alloc);
        made.report = Some(self.tables);
        made.judgement = Some(self.judgement);
        Parts {
            alg: Some(self.alg),
            file: Some(self.file),
            made,
            decided: Answer::Done,
        }
    }
}

impl Wedged {
    fn parts(self, alloc: Global) -> Parts
        ensures { AreParts result (pure_outcome (Outcome.Wedged self)) }
    {
        let mut made = Made::nothing(alloc);
        made.gadget = Some(self.verdict);
        Parts {
            alg: Some(self.alg),
            file: None,
            made,
            decided: Answer::Done,
        }
    }
}

impl Ran {
    fn parts(self, alloc: Global) -> Parts
        ensures { AreParts result (pure_outcome (Outcome.Ran self)) }
    {
        let PhasedRun {
            past,
            last,
            is_quiet,
        } = self.run;
        Parts {
            alg: Some(self.alg),
            file: Some(self.file),
            made: Made::of_phases(alloc, past, last),
            decided: end_answer(is_quiet),
        }
    }
}

impl Flooded {
    fn parts(self, alloc: Global) -> Parts
        ensures { AreParts result (pure_outcome (Outcome.Flooded self)) }
    {
        let FloodRun {
            rows,
            journal,
            is_quiet,
        } = self.run;
        let mut made = Made::nothing(alloc);
        made.rows = Rows::Listed(rows);
        made.journal = journal;
        Parts {
            alg: Some(self.alg),
            file: Some(self.file),
            made,
            decided: end_answer(is_quiet),
        }
    }
}

impl Exchanged {
    fn parts(self, alloc: Global) -> Parts
        ensures { AreParts result (pure_outcome (Outcome.Exchanged self)) }
    {
        let DistanceRun {
            hops,
            journal,
            is_quiet,
        } = self.run;
        let mut made = Made::nothing(alloc);
        made.hops = hops;
        made.journal = journal;
        Parts {
            alg: Some(self.alg),
            file: Some(self.file),
            made,
            decided: end_answer(is_quiet),
        }
    }
}

impl Shown {
    fn parts(self, alloc: Global) -> Parts
        ensures { AreParts result (pure_outcome (Outcome.Shown self)) }
    {
        Parts {
            alg: Some(self.alg),
            file: Some(self.file),
            made: Made::of_phases(alloc, List::new(alloc), self.last),
            decided: Answer::Done,
        }
    }
}

/// What a command made: a field that it doesn't make is `None` or empty.
#[derive(Drop)]
pub struct Made {
    verdicts: Option<Verdicts>,
    listing: Option<Listing>,
    gadget: Option<Verdict>,
    report: Option<List<DestTable>>,
    judgement: Option<Judgement>,
    many: List<ManyHops>,
    rows: Rows,
    hops: List<HopRow>,
    journal: Journal,
    past: List<Phase>,
}

impl Made {
    ghost use Rattle.std.specs.Prelude.{[]};
    ghost use Rattle.metacli.specs.declared.rows.Rows.TheVariants as Rows;

    // Nothing yet.
    fn nothing(alloc: Global) -> Made
        ensures { result ≡ record {
          verdicts = None;
          listing = None;
          gadget = None;
          report = None;
          judgement = None;
          many = [];
          rows = Rows.Listed [];
          hops = [];
          journal = [];
          past = [];
        } }
    {
        Made {
            verdicts: None,
            listing: None,
            gadget: None,
            report: None,
            judgement: None,
            many: List::new(alloc),
            rows: Rows::Listed(List::new(alloc)),
            hops: List::new(alloc),
            journal: Journal::new(alloc),
            past: List::new(alloc),
        }
    }

    // The phases of a run.
    fn of_phases(alloc: Global, past: List<Phase>, last: Phase) -> Made
        ensures { result ≡ record {
          verdicts = None;
          listing = None;
          gadget = None;
          report = None;
          judgement = None;
          many = [];
          rows = Rows.Listed last.rows;
          hops = [];
          journal = last.journal;
          past = past;
        } }
    {
        Made {
            verdicts: None,
            listing: None,
            gadget: None,
            report: None,
            judgement: None,
            many: List::new(alloc),
            rows: Rows::Listed(last.rows),
            hops: List::new(alloc),
            journal: last.journal,
            past,
        }
    }
}

// The answer to verdicts, by the first required property that fails.
pub(crate) fn checked_answer(unmet: Option<Property>) -> Answer
    ensures answer { pure_answer result ≡ met_or (option_map pure_property unmet) }
    ensures sink { pure_answer result ≢ write_fault }
    ensures memory { pure_answer result ≢ memory_refused }
{
    match unmet {
        Some(property) => Answer::Unmet(property),
        None => Answer::Done,
    }
}

// The answer to a run, a flood or an exchange that ended with nothing on its way, or with all turns used.
pub(crate) fn end_answer(is_quiet: bool) -> Answer
    ensures answer { pure_answer result ≡ if is_quiet then done else spent }
    ensures sink { pure_answer result ≢ write_fault }
    ensures memory { pure_answer result ≢ memory_refused }
{
    if is_quiet {
        Answer::Done
    } else {
        Answer::Spent
    }
}

// The answer that says so.
fn missing_answer(missing: Missing) -> Answer
    ensures { pure_answer result ≡ refused (misses missing.arc.0 (pure_instance missing.instance)) }
{
    Answer::Misses {
        arc: missing.arc,
        instance: missing.instance,
    }
}
