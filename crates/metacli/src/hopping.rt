// What `hops` decides.
ghost use Rattle.std.specs.Prelude.{◌≡◌, Ok, map, IfOk};
ghost use Rattle.alg_model.specs.Carriers.{carrier_of};
ghost use Rattle.code_gen.specs.Widths.{HoldValues};
ghost use Rattle.command_words.specs.Words.{AreWorkers};
ghost use Rattle.link_state.specs.Tables.{AreTablesOf};
ghost use Rattle.net_graph.specs.Changes.{AreChanges};
ghost use Rattle.net_graph.specs.Views.{pure_change, rows_of};
ghost use Rattle.report_check.specs.Views.{pure_hops};
ghost use Rattle.topology_file.specs.NetText.{changed_net};
ghost use Rattle.topology_file.specs.Views.{pure_file};
ghost use Rattle.metacli.specs.After.{last_of};
ghost use Rattle.metacli.specs.Found.{AreFoundHops};
ghost use Rattle.metacli.specs.Outcome.{IsFit, IsHoppedAs, all_hops};
ghost use Rattle.metacli.specs.Views.{CanBeWritten, pure_outcome};
ghost use Rattle.metacli.specs.declared.routing.Solution.TheVariants.{Unbeaten};

use crate::after::{last_of, net_after};
use crate::outcome::{Hopped, Outcome, Stop, Unfit};
use crate::routing::Solution;
use alg_model::Alg;
use arc_labels::{label_forms, speaker_labels};
use best_first::best_first_is_optimal;
use code_gen::{CodeAlgebra, row_width, rows_have_their_width};
use label_code::{FixedRow, HeldRow, Words};
use link_state::all_tables;
use meta_base::{List, NoMemory};
use net_facts::{Missing, first_missing};
use net_graph::{DestTable, Net};
use report_check::{ManyHops, best_hops};
use std::alloc::{AllocGlobal, Global};
use std::thread::Threads;
use topology_file::NetFile;

// `hops` finds its tables on one thread.
const ONE_WORKER: u32 = 1;

/// What `hops` comes to on a network over the algebra, after all its changes.
pub fn hops<R: AllocGlobal + Threads + Sync>(rt: &R, alg: Alg, file: NetFile) -> Outcome
    requires over { file.net.alg ≡ alg }
    requires changes { AreChanges file.net (map pure_change file.changes) }
    ensures hopped { IsHoppedAs alg (pure_file file) (pure_outcome result) }
    ensures printable { CanBeWritten result }
{
    match hops_after(rt, &file) {
        Ok((after, found)) => outcome_of(alg, file, after, found),
        Err(NoMemory) => Outcome::Stopped {
            alg: Some(alg),
            file: Some(file),
            stop: Stop::Memory,
        },
    }
}

// The outcome of what was found on the network after the file's changes.
fn outcome_of(
    alg: Alg,
    file: NetFile,
    after: Option<Net>,
    found: Result<List<ManyHops>, Missing>,
) -> Outcome
    requires over { file.net.alg ≡ alg }
    requires after { last_of after file.net ≡ changed_net (pure_file file) }
    requires found { AreFoundHops (changed_net (pure_file file)) found }
    ensures hopped { IsHoppedAs alg (pure_file file) (pure_outcome result) }
    ensures printable { CanBeWritten result }
{
    match found {
        Ok(many) => {
            drop(after);
            Outcome::Hopped(Hopped { alg, file, many })
        }
        Err(missing) => Outcome::Unfit(Unfit {
            alg,
            file,
            after,
            missing,
        }),
    }
}

// The network after all changes, where there are any, and the next hops on it, or the first arc that isn't fit.
fn hops_after<R: AllocGlobal + Threads + Sync>(
    rt: &R,
    file: &NetFile,
) -> Result<(Option<Net>, Result<List<ManyHops>, Missing>), NoMemory>
    requires changes { AreChanges file.now.net (map pure_change file.now.changes) }
    ensures after { IfOk result (λ found. last_of found.0 file.now.net ≡ changed_net (pure_file file.now)) }
    ensures found { IfOk result (λ found. AreFoundHops (changed_net (pure_file file.now)) found.1) }
{
    let after = net_after(rt.alloc(), &file.net, file.changes.as_slice())?;
    match hops_on(rt, last_of(&after, &file.net)) {
        Ok(found) => Ok((after, found)),
        Err(NoMemory) => {
            drop(after);
            Err(NoMemory)
        }
    }
}

// The next hops on a network whose labels are fit for them, or else the first that isn't.
fn hops_on<R: AllocGlobal + Threads + Sync>(
    rt: &R,
    net: &Net,
) -> Result<Result<List<ManyHops>, Missing>, NoMemory>
    ensures { IfOk result (AreFoundHops net.now) }
{
    match first_missing(rt.alloc(), net, Solution::Unbeaten.properties())? {
        Some(missing) => Ok(Err(missing)),
        None => Ok(Ok(best_hops_on(rt, net)?)),
    }
}

// The next hops of the tables of all destinations, which no walk beats where labels are fit.
fn best_hops_on<R: AllocGlobal + Threads + Sync>(
    rt: &R,
    net: &Net,
) -> Result<List<ManyHops>, NoMemory>
    requires { IsFit Unbeaten net.now }
    ensures { IfOk result (λ many. AreFoundHops net.now (Ok many)) }
{
    best_first_is_optimal();
    let tables = tables_of(rt, net, ONE_WORKER)?;
    let room = net.node_count().saturating_mul(net.dest_count());
    hops_of(rt.alloc(), net, tables, room)
}

// The tables of all destinations, over rows that are as narrow as the algebra allows.
fn tables_of<R: AllocGlobal + Threads + Sync>(
    rt: &R,
    net: &Net,
    workers: u32,
) -> Result<List<DestTable>, NoMemory>
    requires { AreWorkers workers }
    ensures { IfOk result (AreTablesOf net.now) }
{
    rows_have_their_width();
    match row_width(net.alg()) {
        Some(1) => tables_over::<FixedRow<1>, R>(rt, net, workers),
        Some(2) => tables_over::<FixedRow<2>, R>(rt, net, workers),
        Some(3) => tables_over::<FixedRow<3>, R>(rt, net, workers),
        Some(4) => tables_over::<FixedRow<4>, R>(rt, net, workers),
        _ => tables_over::<Words, R>(rt, net, workers),
    }
}

// The same over rows of this kind.
fn tables_over<W: HeldRow + Send + Sync, R: AllocGlobal + Threads + Sync>(
    rt: &R,
    net: &Net,
    workers: u32,
) -> Result<List<DestTable>, NoMemory>
    requires workers { AreWorkers workers }
    requires rows { HoldValues W.can_hold (carrier_of net.now.alg.expression) }
    ensures { IfOk result (AreTablesOf net.now) }
{
    let algebra = CodeAlgebra::<W>::new(rt.alloc(), net.alg())?;
    let tables = all_tables(rt, &algebra, net, workers)?;
    Ok(tables)
}

// The next hops of the tables, by code over rows that are as narrow as the algebra allows.
fn hops_of(
    alloc: Global,
    net: &Net,
    tables: List<DestTable>,
    room: usize,
) -> Result<List<ManyHops>, NoMemory>
    requires { AreTablesOf net.now tables }
    ensures { IfOk result (λ many. map pure_hops many ≡ all_hops net.now 0 (map rows_of tables)) }
{
    rows_have_their_width();
    match row_width(net.alg()) {
        Some(1) => hops_over::<FixedRow<1>>(alloc, net, tables, room),
        Some(2) => hops_over::<FixedRow<2>>(alloc, net, tables, room),
        Some(3) => hops_over::<FixedRow<3>>(alloc, net, tables, room),
        Some(4) => hops_over::<FixedRow<4>>(alloc, net, tables, room),
        _ => hops_over::<Words>(alloc, net, tables, room),
    }
}

// The same over rows of this kind, in a list that has room for so many at once. A table is dropped before the next one is
// looked at.
fn hops_over<W: HeldRow>(
    alloc: Global,
    net: &Net,
    tables: List<DestTable>,
    room: usize,
) -> Result<List<ManyHops>, NoMemory>
    requires rows { HoldValues W.can_hold (carrier_of net.now.alg.expression) }
    requires tables { AreTablesOf net.now tables }
    ensures { IfOk result (λ many. map pure_hops many ≡ all_hops net.now 0 (map rows_of tables)) }
{
    let algebra = CodeAlgebra::<W>::new(alloc, net.alg())?;
    let forms = label_forms(alloc, &algebra, net)?;
    let labels = speaker_labels(alloc, &algebra, net, &forms)?;
    let mut many = Vec::with_capacity(alloc, room)?;
    for table in tables.into_vec() {
        let more = best_hops(alloc, &algebra, net, &labels, &table)?;
        many.append(&mut more.into_vec())?;
    }
    Ok(List::from_vec(many))
}
