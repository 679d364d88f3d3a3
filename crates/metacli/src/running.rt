// What `run` and `trace` decide.
ghost use Rattle.std.specs.Prelude.{◌≡◌, IfOk, map};
ghost use Rattle.alg_model.specs.Carriers.{carrier_of};
ghost use Rattle.code_gen.specs.Widths.{HoldValues};
ghost use Rattle.command_words.specs.Words.{AreTurns, AreWorkers};
ghost use Rattle.net_graph.specs.Changes.{AreChanges};
ghost use Rattle.net_graph.specs.Nets.{IsNet};
ghost use Rattle.net_graph.specs.Views.{pure_change};
ghost use Rattle.topology_file.specs.Views.{pure_file};
ghost use Rattle.metacli.specs.After.{nets_after};
ghost use Rattle.metacli.specs.Outcome.{IsRunAs};
ghost use Rattle.metacli.specs.Runs.{IsRunThrough};
ghost use Rattle.metacli.specs.Views.{CanBeWritten, pure_outcome};
ghost use Rattle.vector_runs.specs.Runs.{AreLater, IsRun, pure_phase};

use crate::after::networks_after;
use crate::outcome::{Outcome, Ran, Stop};
use alg_model::Alg;
use code_gen::{CodeAlgebra, row_width, rows_have_their_width};
use label_code::{FixedRow, HeldRow, Words};
use meta_base::{Gate, List, NoMemory};
use net_graph::Net;
use std::alloc::AllocGlobal;
use std::sync::Wait;
use std::thread::Threads;
use topology_file::NetFile;
use vector_runs::{
    Budget, PhasedRun, enough_turns_are_quiet, phases_are_of_networks, quiet_phases_are_stable,
    run_phases, runs_are_short,
};

/// What `run` or `trace` comes to on a network over the algebra, through all its changes, with so many workers and
/// turns.
pub fn run<R: AllocGlobal + Threads + Wait + Sync, G: Gate>(
    rt: &R,
    alg: Alg,
    file: NetFile,
    workers: u32,
    turns: u64,
    is_traced: bool,
    gate: &G,
) -> Outcome
    requires workers { AreWorkers workers }
    requires turns { AreTurns turns }
    requires over { file.net.alg ≡ alg }
    requires changes { AreChanges file.net (map pure_change file.changes) }
    ensures ran { IsRunAs is_traced turns alg (pure_file file) (pure_outcome result) }
    ensures printable { CanBeWritten result }
{
    match run_through(rt, &file, workers, turns, gate) {
        Ok((changed, run)) => Outcome::Ran(Ran {
            alg,
            file,
            changed,
            is_traced,
            run,
        }),
        Err(NoMemory) => Outcome::Stopped {
            alg: Some(alg),
            file: Some(file),
            stop: Stop::Memory,
        },
    }
}

/// The networks after the file's changes, and a run through them by so many workers.
pub(crate) fn run_through<R: AllocGlobal + Threads + Wait + Sync, G: Gate>(
    rt: &R,
    file: &NetFile,
    workers: u32,
    turns: u64,
    gate: &G,
) -> Result<(List<Net>, PhasedRun), NoMemory>
    requires workers { AreWorkers workers }
    requires turns { AreTurns turns }
    requires changes { AreChanges file.now.net (map pure_change file.now.changes) }
    ensures changed { IfOk result (λ r. r.0 ≡ nets_after file.now.net (map pure_change file.now.changes)) }
    ensures run { IfOk result (λ r. IsRunThrough file.now.net r.0 turns r.1) }
{
    quiet_phases_are_stable();
    phases_are_of_networks();
    runs_are_short();
    enough_turns_are_quiet();
    let alloc = rt.alloc();
    let changed = List::from_vec(networks_after(alloc, &file.net, file.changes.as_slice())?);
    match run_on(rt, &file.net, changed.as_slice(), workers, turns, gate) {
        Ok(run) => Ok((changed, run)),
        Err(NoMemory) => {
            drop(changed);
            Err(NoMemory)
        }
    }
}

// A run through these networks, over rows that are as narrow as the algebra allows.
fn run_on<R: AllocGlobal + Threads + Wait + Sync, G: Gate>(
    rt: &R,
    net: &Net,
    changed: &[Net],
    workers: u32,
    turns: u64,
    gate: &G,
) -> Result<PhasedRun, NoMemory>
    requires changed { AreLater net.now changed.now }
    requires workers { AreWorkers workers }
    requires turns { AreTurns turns }
    ensures net { IsNet net.now }
    ensures run { IfOk result (λ run. IsRun net.now changed.now turns
        (map pure_phase run.past) (pure_phase run.last) run.is_quiet) }
{
    rows_have_their_width();
    match row_width(net.alg()) {
        Some(1) => run_over::<FixedRow<1>, R, G>(rt, net, changed, workers, turns, gate),
        Some(2) => run_over::<FixedRow<2>, R, G>(rt, net, changed, workers, turns, gate),
        Some(3) => run_over::<FixedRow<3>, R, G>(rt, net, changed, workers, turns, gate),
        Some(4) => run_over::<FixedRow<4>, R, G>(rt, net, changed, workers, turns, gate),
        _ => run_over::<Words, R, G>(rt, net, changed, workers, turns, gate),
    }
}

// The same over rows of this kind.
fn run_over<W: HeldRow + Send + Sync, R: AllocGlobal + Threads + Wait + Sync, G: Gate>(
    rt: &R,
    net: &Net,
    changed: &[Net],
    workers: u32,
    turns: u64,
    gate: &G,
) -> Result<PhasedRun, NoMemory>
    requires changed { AreLater net.now changed.now }
    requires workers { AreWorkers workers }
    requires turns { AreTurns turns }
    requires rows { HoldValues W.can_hold (carrier_of net.now.alg.expression) }
    ensures { IfOk result (λ run. IsRun net.now changed.now turns
        (map pure_phase run.past) (pure_phase run.last) run.is_quiet) }
{
    let alloc = rt.alloc();
    let algebra = CodeAlgebra::<W>::new(alloc, net.alg())?;
    let budget = Budget { workers, turns };
    run_phases(rt, alloc, &algebra, net, changed, budget, gate)
}
