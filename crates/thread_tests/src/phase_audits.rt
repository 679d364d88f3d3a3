// Tests of audits over change scripts: the journal of each phase of a run leads from the nodes that the phase begins with
// to its rows, and spoiled journals break where they are spoiled.
ghost use Rattle.std.specs.Prelude.{◌≡◌, ◌<◌, ◌≤◌, map};
ghost use Rattle.node_core.specs.declared.node.TheConstants.{MAX_CLOCK};
ghost use Rattle.node_core.specs.Machine.{AreUnbegun};
ghost use Rattle.path_vector.specs.Node.{path_vector};
ghost use Rattle.path_vector.specs.Nodes.{state_of};
ghost use Rattle.quiet_ledger.specs.declared.book.TheConstants.{MAX_WORKERS};
ghost use Rattle.vector_runs.specs.Runs.{AreLater};

use crate::audits::{doubled, is_drained, replaced};
use crate::draws::{Draws, KINDS, Kind, script_lines};
use crate::phases::journal_of;
use alg_model::{Algebra, TreeAlgebra};
use meta_base::{ArcId, Delivery, List, NoMemory, OpenGate};
use net_graph::{Net, RouteRow};
use node_core::{Config, MAX_CLOCK, Replayed};
use path_vector::PvNode;
use quiet_ledger::MAX_WORKERS;
use std::alloc::Global;
use std::sync::Wait;
use std::test::Fail;
use std::thread::Threads;
use testkit_nodes::{
    are_rows, are_same_rows, carried_from, change_script, networks_after, new_nodes, rows_now,
};
use vector_runs::{Budget, Phase, run_phases};

// A phase and a place in its journal.
#[derive(Clone, Copy, Debug, PartialEq, Eq)]
struct Break {
    phase: usize,
    place: usize,
}

// What an audit finds: the rows at the end of each phase that its journal leads to, whether nothing is on its way at the
// end of the last of these, and where the journals break. A phase that begins while something is on its way, or that no
// network is left for, breaks at its first entry.
#[derive(Drop)]
struct Audit {
    ends: Vec<List<RouteRow>>,
    is_drained: bool,
    broken: Option<Break>,
}

impl Audit {
    fn new(alloc: Global) -> Audit {
        Audit {
            ends: Vec::new(alloc),
            is_drained: true,
            broken: None,
        }
    }

    // The journal of the next phase breaks at that place.
    fn break_at(&mut self, place: usize) {
        self.broken = Some(Break {
            phase: self.ends.len(),
            place,
        });
    }

    // Goes over the journals of phases that begin with these nodes, on the network and then on the later ones.
    fn go_on<'a, A: Algebra>(
        &mut self,
        alloc: Global,
        nodes: List<PvNode<'a, A>>,
        net: &'a Net,
        later: &'a [Net],
        journals: &[Vec<Delivery>],
    ) -> Result<(), NoMemory>
        requires nodes { AreUnbegun path_vector net.now 0 (map state_of nodes) }
        requires later { AreLater net.now later.now }
    {
        let [journal, others @ ..] = journals else {
            return Ok(());
        };
        match Config::replay(alloc, net, nodes, journal.as_slice())? {
            Replayed::Broken(place) => {
                self.break_at(place);
                Ok(())
            }
            Replayed::Reached(config) => {
                self.ends.push(rows_now(alloc, &config)?)?;
                self.is_drained = is_drained(&config);
                match later {
                    [next, rest @ ..] if self.is_drained => {
                        let nodes = carried_from(alloc, config, next)?;
                        self.go_on(alloc, nodes, next, rest, others)
                    }
                    _ => {
                        if !others.is_empty() {
                            self.break_at(0);
                        }
                        Ok(())
                    }
                }
            }
        }
    }
}

// The audit of these journals, from the new nodes of the first network on.
fn audit_of(
    alloc: Global,
    net: &Net,
    later: &[Net],
    journals: &[Vec<Delivery>],
) -> Result<Audit, NoMemory>
    requires { AreLater net.now later.now }
{
    let algebra = TreeAlgebra::new(net.alg());
    let nodes = new_nodes(alloc, &algebra, net)?;
    let mut audit = Audit::new(alloc);
    audit.go_on(alloc, nodes, net, later, journals)?;
    Ok(audit)
}

// What a run came to: the rows and the journal of each phase, and whether nothing was on its way in the end.
#[derive(Drop)]
struct Ran {
    rows: Vec<List<RouteRow>>,
    journals: Vec<Vec<Delivery>>,
    is_quiet: bool,
}

impl Ran {
    fn add(&mut self, alloc: Global, phase: Phase) -> Result<(), NoMemory> {
        let entries = phase.journal.entries(alloc)?;
        self.rows.push(phase.rows)?;
        self.journals.push(entries.into_vec())?;
        Ok(())
    }
}

fn run_with<A: Algebra + Sync, R: Threads + Wait + Sync>(
    rt: &R,
    alloc: Global,
    algebra: &A,
    net: &Net,
    later: &[Net],
    budget: Budget,
) -> Result<Ran, NoMemory>
where
    A::Sig: Send,
    A::Lab: Send,
    requires algebra { A.expression algebra.now ≡ net.now.alg.expression }
    requires later { AreLater net.now later.now }
    requires workers { (0 < budget.workers) × (budget.workers ≤ MAX_WORKERS) }
    requires turns { budget.turns ≤ MAX_CLOCK }
{
    let run = run_phases(rt, alloc, algebra, net, later, budget, &OpenGate)?;
    let mut ran = Ran {
        rows: Vec::new(alloc),
        journals: Vec::new(alloc),
        is_quiet: run.is_quiet,
    };
    for phase in run.past.into_vec() {
        ran.add(alloc, phase)?;
    }
    ran.add(alloc, run.last)?;
    Ok(ran)
}

fn run_over<R: Threads + Wait + Sync>(
    rt: &R,
    alloc: Global,
    net: &Net,
    later: &[Net],
    budget: Budget,
) -> Result<Ran, Fail>
    requires { AreLater net.now later.now }
{
    if budget.workers == 0 || budget.workers > MAX_WORKERS || budget.turns > MAX_CLOCK {
        return Err("there can't be so many workers or turns".into());
    }
    let algebra = TreeAlgebra::new(net.alg());
    Ok(run_with(rt, alloc, &algebra, net, later, budget)?)
}

// The journals of a text.
fn journals_of(alloc: Global, text: &str) -> Result<Vec<Vec<Delivery>>, Fail> {
    let mut journals = Vec::new(alloc);
    for journal in text.split(" / ") {
        journals.push(journal_of(alloc, journal)?)?;
    }
    Ok(journals)
}

// Both labels are 3 at first. Then a's label is 5, then its arc is gone, and then there is one with the label 2.
const PAIR: &[u8] = b"node a b
both a b : 3
origin x at b : 0
then link a b : 5
then drop a b
then link a b : 2
";

// b's route is delivered to a, and a's to b. a's row changes with the label, which b hears. a loses its row with the
// arc, which b hears on the arc that is left and moved up to 0. b sends a its route on the new arc 1, and a sends b its
// own.
const JOURNALS: &str = "1 0, 2 1 / 1 1 / 1 0 / 1 1, 2 0";

const ENDS: &[&str] = &["3 a b / 0 b", "5 a b / 0 b", "none / 0 b", "2 a b / 0 b"];

// Journals of the pair, with the phases and places where they break.
const AUDITS: &[(&str, Option<Break>)] = &[
    (JOURNALS, None),
    // The run ends early.
    ("1 0, 2 1 / 1 1", None),
    ("1 0, 2 1 / -", None),
    // Entries that are swapped, and phases.
    (
        "2 1, 1 0 / 1 1 / 1 0 / 1 1, 2 0",
        Some(Break { phase: 0, place: 0 }),
    ),
    (
        "1 0, 2 1 / 1 1 / 1 0 / 2 0, 1 1",
        Some(Break { phase: 3, place: 0 }),
    ),
    (
        "1 1 / 1 0, 2 1 / 1 0 / 1 1, 2 0",
        Some(Break { phase: 0, place: 0 }),
    ),
    (
        "1 0, 2 1 / 1 1 / 1 1, 2 0 / 1 0",
        Some(Break { phase: 2, place: 0 }),
    ),
    // Entries that are dropped: what they should take is on its way then.
    (
        "1 0, 2 1 / - / 1 0 / 1 1, 2 0",
        Some(Break { phase: 2, place: 0 }),
    ),
    (
        "1 0 / 1 1 / 1 0 / 1 1, 2 0",
        Some(Break { phase: 1, place: 0 }),
    ),
    (
        "1 0, 2 1 / 1 1 / 1 0 / 2 0",
        Some(Break { phase: 3, place: 0 }),
    ),
    // Entries that are doubled.
    (
        "1 0, 2 1 / 1 1, 1 1 / 1 0 / 1 1, 2 0",
        Some(Break { phase: 1, place: 1 }),
    ),
    (
        "1 0, 2 1 / 1 1 / 1 0 / 1 1, 1 1, 2 0",
        Some(Break { phase: 3, place: 1 }),
    ),
    // A clock one more, and one that goes on from the phase before.
    (
        "1 0, 2 1 / 2 1 / 1 0 / 1 1, 2 0",
        Some(Break { phase: 1, place: 0 }),
    ),
    (
        "1 0, 2 1 / 1 1 / 1 0 / 1 1, 3 0",
        Some(Break { phase: 3, place: 1 }),
    ),
    (
        "1 0, 2 1 / 3 1 / 1 0 / 1 1, 2 0",
        Some(Break { phase: 1, place: 0 }),
    ),
    // An arc of the network before, and one of none.
    (
        "1 0, 2 1 / 1 1 / 1 1 / 1 1, 2 0",
        Some(Break { phase: 2, place: 0 }),
    ),
    (
        "1 0, 2 1 / 1 1 / 1 0 / 1 2, 2 0",
        Some(Break { phase: 3, place: 0 }),
    ),
    // A phase more than there are networks.
    (
        "1 0, 2 1 / 1 1 / 1 0 / 1 1, 2 0 / -",
        Some(Break { phase: 4, place: 0 }),
    ),
];

// Whether the rows of the phases are those of the texts.
fn are_ends(
    alloc: Global,
    net: &Net,
    ends: &[List<RouteRow>],
    texts: &[&str],
) -> Result<bool, Fail> {
    let mut are = ends.len() == texts.len();
    for (rows, text) in ends.iter().zip(texts.iter()) {
        are = are && are_rows(alloc, net, rows.as_slice(), *text)?;
    }
    Ok(are)
}

// Whether the journals of that text break there, and lead to the rows of the pair where they don't.
fn breaks_so(
    alloc: Global,
    net: &Net,
    later: &[Net],
    text: &str,
    broken: Option<Break>,
) -> Result<bool, Fail>
    requires { AreLater net.now later.now }
{
    let journals = journals_of(alloc, text)?;
    let found = audit_of(alloc, net, later, &journals)?;
    let reached = found.ends.len().min(ENDS.len());
    Ok(
        found.broken == broken
            && (text == JOURNALS) == (reached == ENDS.len() && found.is_drained && broken.is_none())
            && (text != JOURNALS || are_ends(alloc, net, &found.ends, ENDS)?),
    )
}

fn breaks_over(alloc: Global, text: &str, broken: Option<Break>) -> Result<bool, Fail> {
    let file = change_script(alloc, "add(1..10)", PAIR)?;
    let later = networks_after(alloc, &file.net, file.changes.as_slice())?;
    let answer = breaks_so(alloc, &file.net, &later, text, broken);
    drop(later);
    drop(file);
    answer
}

#[test]
fn journals_of_a_script_are_audited(rt: HostRuntime) -> Result<(), Fail> {
    for (text, broken) in AUDITS {
        let is_right = breaks_over(rt.alloc(), *text, *broken)?;
        assert!(rt; is_right, "{text}");
    }
    Ok(())
}

// Whether the journals lead to the rows of the run's phases, and nothing is on its way then exactly where it is quiet.
fn is_reached(found: &Audit, ran: &Ran) -> bool {
    let mut are_same = found.broken.is_none() && found.ends.len() == ran.rows.len();
    for (end, rows) in found.ends.iter().zip(ran.rows.iter()) {
        are_same = are_same && are_same_rows(end.as_slice(), rows.as_slice());
    }
    are_same && found.is_drained == ran.is_quiet
}

// The journals with another one for that phase.
fn with_journal(
    alloc: Global,
    journals: &[Vec<Delivery>],
    phase: usize,
    spoiled: &[Delivery],
) -> Result<Vec<Vec<Delivery>>, NoMemory> {
    let mut others = Vec::new(alloc);
    for (number, journal) in journals.iter().enumerate() {
        let journal = if number == phase {
            spoiled
        } else {
            journal.as_slice()
        };
        others.push(Vec::from_slice(alloc, journal)?)?;
    }
    Ok(others)
}

// The place of a break, and the journal of its phase that is to break there.
#[derive(Clone, Copy)]
struct Spoiled<'a> {
    journal: &'a [Delivery],
    at: Break,
}

// Whether the journals break where that one of them is spoiled.
fn breaks_with(
    alloc: Global,
    net: &Net,
    later: &[Net],
    journals: &[Vec<Delivery>],
    spoiled: Spoiled<'_>,
) -> Result<bool, Fail>
    requires { AreLater net.now later.now }
{
    let others = with_journal(alloc, journals, spoiled.at.phase, spoiled.journal)?;
    let found = audit_of(alloc, net, later, &others)?;
    Ok(found.broken == Some(spoiled.at))
}

// Whether the journals break where that entry gets a later clock or an arc that isn't there, or is doubled.
fn breaks_at(
    alloc: Global,
    net: &Net,
    later: &[Net],
    journals: &[Vec<Delivery>],
    at: Break,
    entry: Delivery,
) -> Result<bool, Fail>
    requires { AreLater net.now later.now }
{
    let Break { phase, place } = at;
    if phase >= journals.len() {
        return Ok(false);
    }
    let journal = journals[phase].as_slice();
    let Delivery { clock, arc } = entry;
    let late = Delivery {
        clock: clock.saturating_add(1),
        arc,
    };
    let stray = Delivery {
        clock,
        arc: ArcId(u32::MAX),
    };
    let after = Break {
        phase,
        place: place.saturating_add(1),
    };
    let late = replaced(alloc, journal, place, late)?;
    let stray = replaced(alloc, journal, place, stray)?;
    let twice = doubled(alloc, journal, place, entry)?;
    let cases = [(&late, at), (&stray, at), (&twice, after)];
    for (journal, at) in cases {
        let journal = journal.as_slice();
        if !breaks_with(alloc, net, later, journals, Spoiled { journal, at })? {
            return Ok(false);
        }
    }
    Ok(true)
}

// Whether the run's journals lead to its rows, and break where one entry of one of them is spoiled.
fn is_audited(
    alloc: Global,
    net: &Net,
    later: &[Net],
    ran: &Ran,
    draws: &mut Draws,
) -> Result<bool, Fail>
    requires { AreLater net.now later.now }
{
    let found = audit_of(alloc, net, later, &ran.journals)?;
    let phases = ran.journals.len();
    if !is_reached(&found, ran) || phases == 0 || phases > 100 {
        return Ok(false);
    }
    let phase = draws.below(phases as u32) as usize;
    let journal = ran.journals[phase].as_slice();
    if journal.is_empty() || journal.len() > 1000 {
        return Ok(journal.is_empty());
    }
    let place = draws.below(journal.len() as u32) as usize;
    let entry = journal[place];
    let at = Break { phase, place };
    breaks_at(alloc, net, later, &ran.journals, at, entry)
}

// How many phases a run has; none where its journals are not as they have to be.
fn audited_phases<R: Threads + Wait + Sync>(
    rt: &R,
    alloc: Global,
    net: &Net,
    later: &[Net],
    draws: &mut Draws,
) -> Result<Option<usize>, Fail>
    requires { AreLater net.now later.now }
{
    let budget = Budget {
        workers: 1 + draws.below(5),
        turns: u64::from(draws.below(150)),
    };
    let ran = run_over(rt, alloc, net, later, budget)?;
    let is_well = is_audited(alloc, net, later, &ran, draws)?;
    Ok(if is_well { Some(ran.rows.len()) } else { None })
}

// The same over a change script.
fn audited_phases_over<R: Threads + Wait + Sync>(
    rt: &R,
    alloc: Global,
    kind: &Kind,
    lines: &str,
    draws: &mut Draws,
) -> Result<Option<usize>, Fail> {
    let file = change_script(alloc, kind.expression, lines.as_bytes())?;
    let later = networks_after(alloc, &file.net, file.changes.as_slice())?;
    let phases = audited_phases(rt, alloc, &file.net, &later, draws);
    drop(later);
    drop(file);
    phases
}

// How many change scripts of each kind are drawn.
const SCRIPTS: u32 = 20;

#[test]
fn journals_of_drawn_scripts_are_audited(rt: HostRuntime) -> Result<(), Fail> {
    let mut draws = Draws::new();
    let mut changed = 0u32;
    for kind in KINDS {
        for _ in 0..SCRIPTS {
            let lines = script_lines(rt.alloc(), &mut draws, kind)?;
            match audited_phases_over(&rt, rt.alloc(), kind, lines.as_str(), &mut draws)? {
                Some(phases) if phases > 1 => changed = changed.saturating_add(1),
                Some(_) => {}
                None => assert!(rt; false, "{lines}"),
            }
        }
    }
    assert!(rt; changed > SCRIPTS, "{changed} runs came to a change");
    Ok(())
}
