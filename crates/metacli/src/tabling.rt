// Putting the lines of stable tables.
ghost use Rattle.std.specs.Prelude.{◌≡◌, ◌<◌, length};
ghost use Rattle.std.specs.List.{AllByRecursion, range_with_len};
ghost use Rattle.alg_model.specs.Formation.{IsCarrier};
ghost use Rattle.alg_model.specs.Views.{pure_carrier};
ghost use Rattle.net_graph.specs.RowTexts.{IsRowOf};
ghost use Rattle.net_graph.specs.Tables.{carrier as net_carrier};
ghost use Rattle.row_lines.specs.RowLines.{net_of};
ghost use Rattle.word_tables.specs.Rows.{pure_word_rows, HasWordsOn};
ghost use Rattle.word_tables.specs.Tables.{word_rows, AreWordsOf};
ghost use Rattle.metacli.specs.Texts.{PutsText, one_table_text, tables_text};

use crate::lending::put_table;
use crate::putting::{Cut, put_line};
use alg_model::Carrier;
use meta_base::{DestId, Sink};
use net_graph::Net;
use report_text::{stable_line, table_line};
use row_lines::RowLines;
use std::alloc::Global;
use word_tables::{WordRows, WordTable};

// How many stable tables a destination has, and the number of each.
const ONE_TABLE: usize = 1;

/// Puts the one stable table of each destination.
pub(crate) fn put_all_tables<K: Sink>(
    alloc: Global,
    out: &mut K,
    net: &Net,
    rows: &WordRows,
) -> Result<(), Cut>
    requires words { HasWordsOn net.now rows.now }
    requires rows { AllByRecursion (IsRowOf net.now) (pure_word_rows rows.now) }
    ensures { PutsText (K.holds out.old) (tables_text net.now (range_with_len 0 (length net.now.dests))
        (pure_word_rows rows.now)) result (K.holds out.new) }
{
    let mut lines = RowLines::new(alloc, net)?;
    let tables = rows.tables.as_slice();
    for dest in 0..net.dest_count() {
        put_stable(
            alloc,
            out,
            net,
            &mut lines,
            DestId(dest as u32),
            &rows.carrier,
            &tables[dest],
        )?;
    }
    Ok(())
}

// Puts the stable table of a destination.
fn put_stable<K: Sink>(
    alloc: Global,
    out: &mut K,
    net: &Net,
    lines: &mut RowLines<'_>,
    dest: DestId,
    carrier: &Carrier,
    table: &WordTable,
) -> Result<(), Cut>
    requires net { net_of lines.old ≡ net.now }
    requires dest { dest.0 < length net.now.dests }
    requires carrier { pure_carrier carrier.now ≡ net_carrier net.now }
    requires may_be { IsCarrier (pure_carrier carrier.now) }
    requires words { AreWordsOf (pure_carrier carrier.now) table.now }
    requires rows { AllByRecursion (IsRowOf net.now) (word_rows (pure_carrier carrier.now) table.now) }
    ensures text { PutsText (K.holds out.old)
        (one_table_text net.now dest.0 (word_rows (pure_carrier carrier.now) table.now)) result (K.holds out.new) }
    ensures net { net_of lines.new ≡ net.now }
{
    put_line(out, stable_line(alloc, net, dest, ONE_TABLE))?;
    put_line(out, table_line(alloc, ONE_TABLE))?;
    put_table(out, lines, carrier, table)
}
