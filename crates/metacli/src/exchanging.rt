// What `distance` decides.
ghost use Rattle.std.specs.Prelude.{◌≡◌, Ok, map, IfOk};
ghost use Rattle.alg_classes.specs.Instances.{pure_property};
ghost use Rattle.alg_model.specs.Carriers.{carrier_of};
ghost use Rattle.code_gen.specs.Widths.{HoldValues};
ghost use Rattle.command_words.specs.Words.{AreTurns, AreWorkers};
ghost use Rattle.distance_node.specs.Rows.{pure_hop_row};
ghost use Rattle.distance_runs.specs.Runs.{IsDistanceRun};
ghost use Rattle.net_graph.specs.Changes.{AreChanges};
ghost use Rattle.net_graph.specs.Nets.{IsNet};
ghost use Rattle.net_graph.specs.Views.{pure_change};
ghost use Rattle.topology_file.specs.NetText.{changed_net};
ghost use Rattle.topology_file.specs.Views.{pure_file};
ghost use Rattle.metacli.specs.After.{last_of};
ghost use Rattle.metacli.specs.Found.{IsFoundExchange};
ghost use Rattle.metacli.specs.Outcome.{IsExchangedAs, IsFitForExchange, asked_of_exchange};
ghost use Rattle.metacli.specs.Views.{CanBeWritten, pure_outcome};

use crate::after::{last_of, net_after};
use crate::outcome::{Exchanged, Outcome, Stop, Unfit};
use alg_classes::Property;
use alg_model::Alg;
use code_gen::{CodeAlgebra, row_width, rows_have_their_width};
use distance_runs::{
    Budget, DistanceRun, distance_rows_are_the_networks, quiet_hops_lead_along_best_walks,
    quiet_values_are_link_states, run_distance,
};
use label_code::{FixedRow, HeldRow, Words};
use meta_base::{Gate, NoMemory};
use net_facts::{Missing, first_missing};
use net_graph::Net;
use std::alloc::AllocGlobal;
use std::sync::Wait;
use std::thread::Threads;
use topology_file::NetFile;

// What all labels must have, in the order in which it is looked for.
fn needed() -> &'static [Property]
    ensures { map pure_property result.now ≡ asked_of_exchange }
{
    &[Property::Strict, Property::Isotone]
}

/// What `distance` comes to on a network over the algebra, after all its changes, with so many workers and turns.
pub fn distance<R: AllocGlobal + Threads + Wait + Sync, G: Gate>(
    rt: &R,
    alg: Alg,
    file: NetFile,
    workers: u32,
    turns: u64,
    gate: &G,
) -> Outcome
    requires workers { AreWorkers workers }
    requires turns { AreTurns turns }
    requires over { file.net.alg ≡ alg }
    requires changes { AreChanges file.net (map pure_change file.changes) }
    ensures exchanged { IsExchangedAs turns alg (pure_file file) (pure_outcome result) }
    ensures printable { CanBeWritten result }
{
    match exchange_after(rt, &file, workers, turns, gate) {
        Ok((after, found)) => match found {
            Ok(run) => {
                drop(after);
                Outcome::Exchanged(Exchanged { alg, file, run })
            }
            Err(missing) => Outcome::Unfit(Unfit {
                alg,
                file,
                after,
                missing,
            }),
        },
        Err(NoMemory) => Outcome::Stopped {
            alg: Some(alg),
            file: Some(file),
            stop: Stop::Memory,
        },
    }
}

// The network after all changes, where there are any, and the exchange on it, or the first arc that isn't fit.
fn exchange_after<R: AllocGlobal + Threads + Wait + Sync, G: Gate>(
    rt: &R,
    file: &NetFile,
    workers: u32,
    turns: u64,
    gate: &G,
) -> Result<(Option<Net>, Result<DistanceRun, Missing>), NoMemory>
    requires workers { AreWorkers workers }
    requires turns { AreTurns turns }
    requires changes { AreChanges file.now.net (map pure_change file.now.changes) }
    ensures after { IfOk result (λ found. last_of found.0 file.now.net ≡ changed_net (pure_file file.now)) }
    ensures found { IfOk result (λ found. IsFoundExchange (changed_net (pure_file file.now)) turns found.1) }
{
    let after = net_after(rt.alloc(), &file.net, file.changes.as_slice())?;
    match exchange_on(rt, last_of(&after, &file.net), workers, turns, gate) {
        Ok(found) => Ok((after, found)),
        Err(NoMemory) => {
            drop(after);
            Err(NoMemory)
        }
    }
}

// The exchange on a network whose labels are fit for it, or else the first arc whose label isn't.
fn exchange_on<R: AllocGlobal + Threads + Wait + Sync, G: Gate>(
    rt: &R,
    net: &Net,
    workers: u32,
    turns: u64,
    gate: &G,
) -> Result<Result<DistanceRun, Missing>, NoMemory>
    requires workers { AreWorkers workers }
    requires turns { AreTurns turns }
    ensures { IfOk result (IsFoundExchange net.now turns) }
{
    match first_missing(rt.alloc(), net, needed())? {
        Some(missing) => Ok(Err(missing)),
        None => Ok(Ok(fit_exchange(rt, net, workers, turns, gate)?)),
    }
}

// The exchange on a network whose labels are fit. Its rows are the network's; where it is quiet, next hops lead along
// walks that no walk beats, and values are as good as those of link state.
fn fit_exchange<R: AllocGlobal + Threads + Wait + Sync, G: Gate>(
    rt: &R,
    net: &Net,
    workers: u32,
    turns: u64,
    gate: &G,
) -> Result<DistanceRun, NoMemory>
    requires workers { AreWorkers workers }
    requires turns { AreTurns turns }
    requires fit { IsFitForExchange net.now }
    ensures { IfOk result (λ run. IsFoundExchange net.now turns (Ok run)) }
{
    quiet_hops_lead_along_best_walks();
    quiet_values_are_link_states();
    distance_rows_are_the_networks();
    exchange_by_width(rt, net, workers, turns, gate)
}

// The exchange, over rows that are as narrow as the algebra allows.
fn exchange_by_width<R: AllocGlobal + Threads + Wait + Sync, G: Gate>(
    rt: &R,
    net: &Net,
    workers: u32,
    turns: u64,
    gate: &G,
) -> Result<DistanceRun, NoMemory>
    requires workers { AreWorkers workers }
    requires turns { AreTurns turns }
    ensures net { IsNet net.now }
    ensures run { IfOk result (λ run.
        IsDistanceRun net.now turns (map pure_hop_row run.hops) run.journal run.is_quiet) }
{
    rows_have_their_width();
    match row_width(net.alg()) {
        Some(1) => exchange_over::<FixedRow<1>, R, G>(rt, net, workers, turns, gate),
        Some(2) => exchange_over::<FixedRow<2>, R, G>(rt, net, workers, turns, gate),
        Some(3) => exchange_over::<FixedRow<3>, R, G>(rt, net, workers, turns, gate),
        Some(4) => exchange_over::<FixedRow<4>, R, G>(rt, net, workers, turns, gate),
        _ => exchange_over::<Words, R, G>(rt, net, workers, turns, gate),
    }
}

// The same over rows of this kind.
fn exchange_over<W: HeldRow + Send + Sync, R: AllocGlobal + Threads + Wait + Sync, G: Gate>(
    rt: &R,
    net: &Net,
    workers: u32,
    turns: u64,
    gate: &G,
) -> Result<DistanceRun, NoMemory>
    requires workers { AreWorkers workers }
    requires turns { AreTurns turns }
    requires rows { HoldValues W.can_hold (carrier_of net.now.alg.expression) }
    ensures { IfOk result (λ run. IsDistanceRun net.now turns (map pure_hop_row run.hops) run.journal run.is_quiet) }
{
    let alloc = rt.alloc();
    let algebra = CodeAlgebra::<W>::new(alloc, net.alg())?;
    run_distance(rt, alloc, &algebra, net, Budget { workers, turns }, gate)
}
