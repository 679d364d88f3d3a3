// What `route`, `settle` and `stable` decide.
ghost use Rattle.std.specs.Prelude.{◌≡◌, IfOk, map};
ghost use Rattle.std.specs.List.{AllByRecursion};
ghost use Rattle.alg_model.specs.Carriers.{carrier_of};
ghost use Rattle.code_gen.specs.Widths.{HoldValues};
ghost use Rattle.command_words.specs.Words.{AreWorkers};
ghost use Rattle.net_graph.specs.Changes.{AreChanges};
ghost use Rattle.net_graph.specs.Views.{pure_change};
ghost use Rattle.net_graph.specs.RowTexts.{IsRowOf};
ghost use Rattle.net_graph.specs.Tables.{BestFirst, OnTablesFrom};
ghost use Rattle.word_tables.specs.Rows.{pure_word_rows, table_rows, HasWordsOn};
ghost use Rattle.topology_file.specs.Views.{pure_file};
ghost use Rattle.topology_file.specs.NetText.{changed_net};
ghost use Rattle.metacli.specs.After.{last_of};
ghost use Rattle.metacli.specs.Outcome.{AreRoutesOn, IsFit, IsRoutedAs, asked_of};
ghost use Rattle.metacli.specs.Found.{IsFoundOn};
ghost use Rattle.alg_classes.specs.Instances.{pure_property};
ghost use Rattle.metacli.specs.Views.{CanBeWritten, pure_outcome};

use crate::after::{last_of, net_after};
use crate::outcome::{Outcome, Routed, Stop, Unfit};
use alg_classes::Property;
use alg_model::{Alg, carrier_of};
use best_first::{best_first_is_optimal, best_first_rows_are_the_networks};
use code_gen::{CodeAlgebra, row_width, rows_have_their_width};
use label_code::{FixedRow, Words};
use link_state::all_fixed;
use meta_base::NoMemory;
use net_facts::{Missing, first_missing};
use net_graph::Net;
use settled_laws::{best_first_is_stable, stable_rows_are_settled, strict_is_monotone};
use std::alloc::AllocGlobal;
use std::thread::Threads;
use topology_file::NetFile;
use word_tables::{TableRow, WordRows};

/// Which routes of a network are asked for.
#[derive(Clone, Copy, Debug)]
pub enum Solution {
    /// Those that no walk beats, by `route`.
    Unbeaten,
    /// Those of the one stable table of each destination, by `settle`.
    Settled,
    /// All stable tables of each destination, by `stable`: where all labels are monotone, there is one.
    AllStable,
}

impl Solution {
    // What all labels must have, in the order in which it is looked for.
    pub(crate) fn properties(self) -> &'static [Property]
        ensures { map pure_property result.now ≡ asked_of self }
    {
        match self {
            Solution::Unbeaten => &[Property::Monotone, Property::Isotone],
            Solution::Settled => &[Property::Strict],
            Solution::AllStable => &[Property::Monotone],
        }
    }
}

/// What `route`, `settle` or `stable` comes to on a network over the algebra, after all its changes, with so many
/// workers.
pub fn route<R: AllocGlobal + Threads + Sync>(
    rt: &R,
    alg: Alg,
    file: NetFile,
    solution: Solution,
    workers: u32,
) -> Outcome
    requires workers { AreWorkers workers }
    requires over { file.net.alg ≡ alg }
    requires changes { AreChanges file.net (map pure_change file.changes) }
    ensures routed { IsRoutedAs solution alg (pure_file file) (pure_outcome result) }
    ensures printable { CanBeWritten result }
{
    match found_after(rt, &file, solution, workers) {
        Ok((after, found)) => outcome_of(alg, file, solution, after, found),
        Err(NoMemory) => Outcome::Stopped {
            alg: Some(alg),
            file: Some(file),
            stop: Stop::Memory,
        },
    }
}

// The outcome of what was found on the network after the file's changes.
fn outcome_of(
    alg: Alg,
    file: NetFile,
    solution: Solution,
    after: Option<Net>,
    found: Result<WordRows, Missing>,
) -> Outcome
    requires over { file.net.alg ≡ alg }
    requires after { last_of after file.net ≡ changed_net (pure_file file) }
    requires found { IsFoundOn solution (changed_net (pure_file file)) found }
    ensures routed { IsRoutedAs solution alg (pure_file file) (pure_outcome result) }
    ensures printable { CanBeWritten result }
{
    match found {
        Ok(rows) => {
            drop(after);
            Outcome::Routed(Routed {
                solution,
                alg,
                file,
                rows,
            })
        }
        Err(missing) => Outcome::Unfit(Unfit {
            alg,
            file,
            after,
            missing,
        }),
    }
}

// The network after all changes, where there are any, and what is found on it.
fn found_after<R: AllocGlobal + Threads + Sync>(
    rt: &R,
    file: &NetFile,
    solution: Solution,
    workers: u32,
) -> Result<(Option<Net>, Result<WordRows, Missing>), NoMemory>
    requires workers { AreWorkers workers }
    requires changes { AreChanges file.now.net (map pure_change file.now.changes) }
    ensures after { IfOk result (λ found. last_of found.0 file.now.net ≡ changed_net (pure_file file.now)) }
    ensures found { IfOk result (λ found. IsFoundOn solution (changed_net (pure_file file.now)) found.1) }
{
    let after = net_after(rt.alloc(), &file.net, file.changes.as_slice())?;
    match found_on(rt, last_of(&after, &file.net), solution, workers) {
        Ok(found) => Ok((after, found)),
        Err(NoMemory) => {
            drop(after);
            Err(NoMemory)
        }
    }
}

// The routes of a network whose labels are fit for them, or else the first that isn't.
fn found_on<R: AllocGlobal + Threads + Sync>(
    rt: &R,
    net: &Net,
    solution: Solution,
    workers: u32,
) -> Result<Result<WordRows, Missing>, NoMemory>
    requires { AreWorkers workers }
    ensures { IfOk result (IsFoundOn solution net.now) }
{
    match first_missing(rt.alloc(), net, solution.properties())? {
        Some(missing) => Ok(Err(missing)),
        None => Ok(Ok(all_routes(rt, net, solution, workers)?)),
    }
}

// The routes of all nodes for all destinations. What is made best first is the one stable table where labels are
// monotone, and is beaten by no walk where they are isotone too.
fn all_routes<R: AllocGlobal + Threads + Sync>(
    rt: &R,
    net: &Net,
    solution: Solution,
    workers: u32,
) -> Result<WordRows, NoMemory>
    requires workers { AreWorkers workers }
    requires fit { IsFit solution net.now }
    ensures routes { IfOk result (λ rows. AreRoutesOn solution net.now (pure_word_rows rows)) }
    ensures rows { IfOk result (λ rows. AllByRecursion (IsRowOf net.now) (pure_word_rows rows)) }
    ensures words { IfOk result (HasWordsOn net.now) }
{
    best_first_is_optimal();
    best_first_is_stable();
    stable_rows_are_settled();
    strict_is_monotone();
    best_first_rows_are_the_networks();
    let _nodes = net.node_count();
    let rows = rows_of(rt, net, workers)?;
    Ok(rows)
}

// The rows of all destinations, each made best first, as words that are as few as the algebra allows.
fn rows_of<R: AllocGlobal + Threads + Sync>(
    rt: &R,
    net: &Net,
    workers: u32,
) -> Result<WordRows, NoMemory>
    requires { AreWorkers workers }
    ensures best { IfOk result (λ rows. OnTablesFrom (BestFirst net.now) 0 (table_rows rows)) }
    ensures words { IfOk result (HasWordsOn net.now) }
{
    rows_have_their_width();
    match row_width(net.alg()) {
        Some(1) => rows_over::<FixedRow<1>, R>(rt, net, workers),
        Some(2) => rows_over::<FixedRow<2>, R>(rt, net, workers),
        Some(3) => rows_over::<FixedRow<3>, R>(rt, net, workers),
        Some(4) => rows_over::<FixedRow<4>, R>(rt, net, workers),
        _ => rows_over::<Words, R>(rt, net, workers),
    }
}

// The same by rows of words of this kind.
fn rows_over<W: TableRow + Send + Sync, R: AllocGlobal + Threads + Sync>(
    rt: &R,
    net: &Net,
    workers: u32,
) -> Result<WordRows, NoMemory>
    requires workers { AreWorkers workers }
    requires rows { HoldValues W.can_hold (carrier_of net.now.alg.expression) }
    ensures best { IfOk result (λ rows. OnTablesFrom (BestFirst net.now) 0 (table_rows rows)) }
    ensures words { IfOk result (HasWordsOn net.now) }
{
    let algebra = CodeAlgebra::<W>::new(rt.alloc(), net.alg())?;
    let found = all_fixed(rt, &algebra, net, workers)?;
    let _dests = net.dest_count();
    let carrier = carrier_of(rt.alloc(), net.alg())?;
    let rows = WordRows::of(rt.alloc(), carrier, found)?;
    Ok(rows)
}
