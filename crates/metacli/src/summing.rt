// Putting the lines of summaries.
ghost use Rattle.std.specs.Prelude.{length, map};
ghost use Rattle.std.specs.List.{range_with_len};
ghost use Rattle.net_graph.specs.Views.{pure_row};
ghost use Rattle.report_text.specs.SummaryTexts.{AreSummed, reaches_text, summary_text};
ghost use Rattle.metacli.specs.Texts.{PutsText};

use crate::putting::{Cut, put_line};
use meta_base::{DestId, Sink};
use net_graph::{Net, RouteRow};
use report_text::{reach_line, size_line, summary_end_line};
use std::alloc::Global;

/// Puts the summary of rows of a network whose nodes ran until nothing was on its way.
pub(crate) fn put_summary<K: Sink>(
    alloc: Global,
    out: &mut K,
    net: &Net,
    rows: &[RouteRow],
) -> Result<(), Cut>
    requires { AreSummed (map pure_row rows.now) }
    ensures { PutsText (K.holds out.old) (summary_text net.now (map pure_row rows.now))
        result (K.holds out.new) }
{
    put_line(out, size_line(alloc, net))?;
    put_reaches(alloc, out, net, rows)?;
    put_line(out, summary_end_line(alloc))
}

// Puts the lines of all destinations.
fn put_reaches<K: Sink>(alloc: Global, out: &mut K, net: &Net, rows: &[RouteRow]) -> Result<(), Cut>
    requires { AreSummed (map pure_row rows.now) }
    ensures { PutsText (K.holds out.old) (reaches_text net.now (map pure_row rows.now)
        (range_with_len 0 (length net.now.dests))) result (K.holds out.new) }
{
    for dest in 0..net.dest_count() {
        put_line(out, reach_line(alloc, net, rows, DestId(dest as u32)))?;
    }
    Ok(())
}
