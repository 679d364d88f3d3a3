// The summary of a network's routes.
ghost use Rattle.std.specs.Prelude.{◌≡◌, ◌≤◌, ◌<◌, ◌+◌, ◌-◌, ◌*◌, ℕ, IfOk, OnOk, cond, length, map};
ghost use Rattle.std.specs.List.{range_with_len};
ghost use Rattle.meta_base.specs.Appending.{Gains};
ghost use Rattle.alg_model.specs.Expressions.{number};
ghost use Rattle.alg_model.specs.Views.{pure_value};
ghost use Rattle.net_graph.specs.Views.{pure_row};
ghost use Rattle.report_text.specs.Numbers.{max_summed};
ghost use Rattle.report_text.specs.SummaryTexts.{AreSummed, IsSummed, is_reached, number_for, reach_text, reached, reaches_text, size_text, summary_end_text, summary_text, value_number, value_sum};

use crate::rows::push_dest;
use alg_model::{Amount, Value};
use meta_base::{DestId, NoMemory, Text, push_number};
use net_graph::{Net, RouteRow};
use std::alloc::Global;

/// The greatest number of a value that a summary sums: the sum of as many rows as can be numbered stays a `u128`.
pub const MAX_SUMMED: Amount = 1 << 61;

/// The bound of summaries is the number of the specification.
pub fn numbers_are_specified()
    ensures { MAX_SUMMED ≡ max_summed }
{}

// How many routes a destination has, and the sum of their values.
#[derive(Clone, Copy)]
struct Tally {
    reached: usize,
    sum: Amount,
}

// The number of a value that is one.
fn number_of(value: &Value) -> Amount
    requires { (n : ℕ) × (pure_value value.now ≡ number n) × (n ≤ MAX_SUMMED) }
    ensures number { result ≡ value_number (pure_value value.now) }
    ensures bounded { result ≤ MAX_SUMMED }
{
    match value {
        Value::Number(number) => *number,
        _ => unreachable!(),
    }
}

impl Tally {
    // That of a destination among these rows.
    fn of(rows: &[RouteRow], dest: DestId) -> Tally
        requires { AreSummed (map pure_row rows.now) }
        ensures { result ≡ record {
          reached = reached dest.0 (map pure_row rows.now);
          sum = value_sum dest.0 (map pure_row rows.now);
        } }
    {
        let mut tally = Tally { reached: 0, sum: 0 };
        for row in rows {
            tally.add(row, dest);
        }
        tally
    }

    // Adds a row, where it is one of the destination's.
    fn add(&mut self, row: &RouteRow, dest: DestId)
        requires row { IsSummed (pure_row row.now) }
        requires reached { self.old.reached ≤ MAX_SUMMED }
        requires sum { self.old.sum ≤ MAX_SUMMED * MAX_SUMMED }
        ensures reached { self.new.reached ≡ cond (is_reached dest.0 (pure_row row.now)) 1 0 + self.old.reached }
        ensures sum { self.new.sum ≡ number_for dest.0 (pure_row row.now) + self.old.sum }
        ensures bounded { self.new.sum ≤ self.old.sum + MAX_SUMMED }
    {
        if row.dest != dest {
            return;
        }
        if let Some(route) = &row.route {
            self.reached += 1;
            self.sum += number_of(&route.value);
        }
    }
}

fn push_size(out: &mut String, net: &Net) -> Result<(), NoMemory>
    ensures { OnOk result (Gains out.old (size_text net.now) out.new) }
{
    out.push_str("nodes ")?;
    push_number(out, net.node_count() as u128)?;
    out.push_str(" arcs ")?;
    push_number(out, net.arc_count() as u128)?;
    Ok(out.push_str("\n")?)
}

fn push_reach(out: &mut String, net: &Net, rows: &[RouteRow], dest: DestId) -> Result<(), NoMemory>
    requires dest { dest.0 < length net.now.dests }
    requires rows { AreSummed (map pure_row rows.now) }
    ensures { OnOk result (Gains out.old (reach_text net.now (map pure_row rows.now) dest.0) out.new) }
{
    let tally = Tally::of(rows, dest);
    push_dest(out, net, dest)?;
    out.push_str(" reached ")?;
    push_number(out, tally.reached as u128)?;
    out.push_str(" sum ")?;
    push_number(out, tally.sum)?;
    Ok(out.push_str("\n")?)
}

// The word at the end of a summary.
const SUMMARY_END: &str = "quiet\n";

/// The first line of a summary: how many nodes and arcs the network has. It is refused for want of memory alone.
pub fn size_line(alloc: Global, net: &Net) -> Result<Text, NoMemory>
    ensures { IfOk result (λ text. text ≡ size_text net.now) }
{
    let mut out = String::new(alloc);
    push_size(&mut out, net)?;
    Ok(Text::from_string(out))
}

/// The line of a destination in a summary: how many of its rows have a route, and the sum of their values, which
/// are numbers of at most [`MAX_SUMMED`]. There are at most 2^32 rows. It is refused for want of memory alone.
pub fn reach_line(
    alloc: Global,
    net: &Net,
    rows: &[RouteRow],
    dest: DestId,
) -> Result<Text, NoMemory>
    requires dest { dest.0 < length net.now.dests }
    requires rows { AreSummed (map pure_row rows.now) }
    ensures { IfOk result (λ text. text ≡ reach_text net.now (map pure_row rows.now) dest.0) }
{
    let mut out = String::new(alloc);
    push_reach(&mut out, net, rows, dest)?;
    Ok(Text::from_string(out))
}

/// The last line of a summary: nothing was on its way when the run ended. It is refused for want of memory alone.
pub fn summary_end_line(alloc: Global) -> Result<Text, NoMemory>
    ensures { IfOk result (λ text. text ≡ summary_end_text) }
{
    Text::copy(alloc, SUMMARY_END)
}

/// For these lines alone; the program appends them to a text. The lines of a summary: the size of the network, for each
/// destination how many of these rows have a route to it and the sum of their values, and that nothing was on its way
/// in the end. The values are numbers of at most [`MAX_SUMMED`], and there are at most 2^32 rows. It is refused for
/// want of memory alone.
pub fn summary_lines(alloc: Global, net: &Net, rows: &[RouteRow]) -> Result<Text, NoMemory>
    requires { AreSummed (map pure_row rows.now) }
    ensures { IfOk result (λ text. text ≡ summary_text net.now (map pure_row rows.now)) }
{
    let mut out = String::new(alloc);
    push_size(&mut out, net)?;
    push_reaches(&mut out, net, rows, 0)?;
    out.push_str(SUMMARY_END)?;
    Ok(Text::from_string(out))
}

// The lines of the destinations from one on.
fn push_reaches(out: &mut String, net: &Net, rows: &[RouteRow], from: usize) -> Result<(), NoMemory>
    requires from { from ≤ length net.now.dests }
    requires rows { AreSummed (map pure_row rows.now) }
    ensures { OnOk result (Gains out.old (reaches_text net.now (map pure_row rows.now)
        (range_with_len from (length net.now.dests - from))) out.new) }
{
    if from == net.dest_count() {
        return Ok(());
    }
    push_reach(out, net, rows, DestId(from as u32))?;
    push_reaches(out, net, rows, from + 1)
}
