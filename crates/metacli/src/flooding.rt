// What `flood` decides.
ghost use Rattle.std.specs.Prelude.{◌≡◌, Ok, map, IfOk};
ghost use Rattle.alg_model.specs.Carriers.{carrier_of};
ghost use Rattle.code_gen.specs.Widths.{HoldValues};
ghost use Rattle.command_words.specs.Words.{AreTurns, AreWorkers};
ghost use Rattle.flood_runs.specs.Floods.{IsFloodRun};
ghost use Rattle.net_graph.specs.Changes.{AreChanges};
ghost use Rattle.net_graph.specs.Nets.{IsNet};
ghost use Rattle.net_graph.specs.Views.{pure_change, pure_row};
ghost use Rattle.topology_file.specs.NetText.{changed_net};
ghost use Rattle.topology_file.specs.Views.{pure_file};
ghost use Rattle.metacli.specs.After.{last_of};
ghost use Rattle.metacli.specs.Found.{IsFoundFlood};
ghost use Rattle.metacli.specs.Outcome.{IsFit, IsFloodedAs};
ghost use Rattle.metacli.specs.Views.{CanBeWritten, pure_outcome};
ghost use Rattle.metacli.specs.declared.routing.Solution.TheVariants.{Unbeaten};

use crate::after::{last_of, net_after};
use crate::outcome::{Flooded, Outcome, Stop, Unfit};
use crate::routing::Solution;
use alg_model::Alg;
use code_gen::{CodeAlgebra, row_width, rows_have_their_width};
use flood_runs::{
    Budget, FloodRun, flood_rows_are_the_networks, floods_are_spent_exactly,
    quiet_floods_are_link_states, run_flood,
};
use label_code::{FixedRow, HeldRow, Words};
use meta_base::{Gate, NoMemory};
use net_facts::{Missing, first_missing};
use net_graph::Net;
use std::alloc::AllocGlobal;
use std::sync::Wait;
use std::thread::Threads;
use topology_file::NetFile;

/// What `flood` comes to on a network over the algebra, after all its changes, with so many workers and turns.
pub fn flood<R: AllocGlobal + Threads + Wait + Sync, G: Gate>(
    rt: &R,
    alg: Alg,
    file: NetFile,
    workers: u32,
    turns: u64,
    gate: &G,
) -> Outcome
    requires workers { AreWorkers workers }
    requires turns { AreTurns turns }
    requires over { file.net.alg ≡ alg }
    requires changes { AreChanges file.net (map pure_change file.changes) }
    ensures flooded { IsFloodedAs turns alg (pure_file file) (pure_outcome result) }
    ensures printable { CanBeWritten result }
{
    match flood_after(rt, &file, workers, turns, gate) {
        Ok((after, found)) => match found {
            Ok(run) => {
                drop(after);
                Outcome::Flooded(Flooded { alg, file, run })
            }
            Err(missing) => Outcome::Unfit(Unfit {
                alg,
                file,
                after,
                missing,
            }),
        },
        Err(NoMemory) => Outcome::Stopped {
            alg: Some(alg),
            file: Some(file),
            stop: Stop::Memory,
        },
    }
}

// The network after all changes, where there are any, and the flood on it, or the first arc that isn't fit.
fn flood_after<R: AllocGlobal + Threads + Wait + Sync, G: Gate>(
    rt: &R,
    file: &NetFile,
    workers: u32,
    turns: u64,
    gate: &G,
) -> Result<(Option<Net>, Result<FloodRun, Missing>), NoMemory>
    requires workers { AreWorkers workers }
    requires turns { AreTurns turns }
    requires changes { AreChanges file.now.net (map pure_change file.now.changes) }
    ensures after { IfOk result (λ found. last_of found.0 file.now.net ≡ changed_net (pure_file file.now)) }
    ensures found { IfOk result (λ found. IsFoundFlood (changed_net (pure_file file.now)) turns found.1) }
{
    let after = net_after(rt.alloc(), &file.net, file.changes.as_slice())?;
    match flood_on(rt, last_of(&after, &file.net), workers, turns, gate) {
        Ok(found) => Ok((after, found)),
        Err(NoMemory) => {
            drop(after);
            Err(NoMemory)
        }
    }
}

// The flood on a network whose labels are fit for routes that no walk beats, or else the first that isn't.
fn flood_on<R: AllocGlobal + Threads + Wait + Sync, G: Gate>(
    rt: &R,
    net: &Net,
    workers: u32,
    turns: u64,
    gate: &G,
) -> Result<Result<FloodRun, Missing>, NoMemory>
    requires workers { AreWorkers workers }
    requires turns { AreTurns turns }
    ensures { IfOk result (IsFoundFlood net.now turns) }
{
    match first_missing(rt.alloc(), net, Solution::Unbeaten.properties())? {
        Some(missing) => Ok(Err(missing)),
        None => Ok(Ok(fit_flood(rt, net, workers, turns, gate)?)),
    }
}

// The flood on a network whose labels are fit. It is spent exactly where it has too few turns, and its rows are the
// network's; where it is quiet, they are those of link state.
fn fit_flood<R: AllocGlobal + Threads + Wait + Sync, G: Gate>(
    rt: &R,
    net: &Net,
    workers: u32,
    turns: u64,
    gate: &G,
) -> Result<FloodRun, NoMemory>
    requires workers { AreWorkers workers }
    requires turns { AreTurns turns }
    requires fit { IsFit Unbeaten net.now }
    ensures { IfOk result (λ run. IsFoundFlood net.now turns (Ok run)) }
{
    floods_are_spent_exactly();
    quiet_floods_are_link_states();
    flood_rows_are_the_networks();
    flood_by_width(rt, net, workers, turns, gate)
}

// The flood, over rows that are as narrow as the algebra allows.
fn flood_by_width<R: AllocGlobal + Threads + Wait + Sync, G: Gate>(
    rt: &R,
    net: &Net,
    workers: u32,
    turns: u64,
    gate: &G,
) -> Result<FloodRun, NoMemory>
    requires workers { AreWorkers workers }
    requires turns { AreTurns turns }
    ensures net { IsNet net.now }
    ensures run { IfOk result (λ run. IsFloodRun net.now turns (map pure_row run.rows) run.journal run.is_quiet) }
{
    rows_have_their_width();
    match row_width(net.alg()) {
        Some(1) => flood_over::<FixedRow<1>, R, G>(rt, net, workers, turns, gate),
        Some(2) => flood_over::<FixedRow<2>, R, G>(rt, net, workers, turns, gate),
        Some(3) => flood_over::<FixedRow<3>, R, G>(rt, net, workers, turns, gate),
        Some(4) => flood_over::<FixedRow<4>, R, G>(rt, net, workers, turns, gate),
        _ => flood_over::<Words, R, G>(rt, net, workers, turns, gate),
    }
}

// The same over rows of this kind.
fn flood_over<W: HeldRow, R: AllocGlobal + Threads + Wait + Sync, G: Gate>(
    rt: &R,
    net: &Net,
    workers: u32,
    turns: u64,
    gate: &G,
) -> Result<FloodRun, NoMemory>
    requires workers { AreWorkers workers }
    requires turns { AreTurns turns }
    requires rows { HoldValues W.can_hold (carrier_of net.now.alg.expression) }
    ensures { IfOk result (λ run. IsFloodRun net.now turns (map pure_row run.rows) run.journal run.is_quiet) }
{
    let alloc = rt.alloc();
    let algebra = CodeAlgebra::<W>::new(alloc, net.alg())?;
    run_flood(rt, alloc, &algebra, net, Budget { workers, turns }, gate)
}
