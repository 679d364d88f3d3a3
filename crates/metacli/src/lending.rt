// Putting the lines of rows whose values are words.
ghost use Rattle.std.specs.Prelude.{◌≡◌};
ghost use Rattle.std.specs.List.{AllByRecursion};
ghost use Rattle.alg_model.specs.Formation.{IsCarrier};
ghost use Rattle.alg_model.specs.Views.{pure_carrier};
ghost use Rattle.net_graph.specs.RowTexts.{IsRowOf};
ghost use Rattle.net_graph.specs.Tables.{carrier as net_carrier};
ghost use Rattle.row_lines.specs.RowLines.{net_of};
ghost use Rattle.word_tables.specs.Found.{found_rows, AreFoundWords};
ghost use Rattle.word_tables.specs.Rows.{pure_word_rows, HasWordsOn};
ghost use Rattle.word_tables.specs.Tables.{word_rows, AreWordsOf};
ghost use Rattle.metacli.specs.Texts.{PutsText, rows_text};

use crate::putting::Cut;
use alg_model::Carrier;
use label_code::HeldRow;
use meta_base::{Sink, put_all};
use net_graph::Net;
use row_lines::RowLines;
use std::alloc::Global;
use word_tables::{FoundTable, WordRows, WordTable};

/// Puts the lines of all rows of a network.
pub(crate) fn put_word_rows<K: Sink>(
    alloc: Global,
    out: &mut K,
    net: &Net,
    rows: &WordRows,
) -> Result<(), Cut>
    requires words { HasWordsOn net.now rows.now }
    requires rows { AllByRecursion (IsRowOf net.now) (pure_word_rows rows.now) }
    ensures { PutsText (K.holds out.old) (rows_text net.now (pure_word_rows rows.now)) result (K.holds out.new) }
{
    let mut lines = RowLines::new(alloc, net)?;
    for table in rows.tables.as_slice() {
        put_table(out, &mut lines, &rows.carrier, table)?;
    }
    Ok(())
}

/// Puts the lines of a table of the network whose lines they are.
pub(crate) fn put_table<K: Sink>(
    out: &mut K,
    lines: &mut RowLines<'_>,
    carrier: &Carrier,
    table: &WordTable,
) -> Result<(), Cut>
    requires carrier { pure_carrier carrier.now ≡ net_carrier (net_of lines.old) }
    requires may_be { IsCarrier (pure_carrier carrier.now) }
    requires words { AreWordsOf (pure_carrier carrier.now) table.now }
    requires rows { AllByRecursion (IsRowOf (net_of lines.old)) (word_rows (pure_carrier carrier.now) table.now) }
    ensures text { PutsText (K.holds out.old)
        (rows_text (net_of lines.old) (word_rows (pure_carrier carrier.now) table.now)) result (K.holds out.new) }
    ensures net { net_of lines.new ≡ net_of lines.old }
{
    match table {
        WordTable::One(found) => put_found(out, lines, carrier, found),
        WordTable::Two(found) => put_found(out, lines, carrier, found),
        WordTable::Three(found) => put_found(out, lines, carrier, found),
        WordTable::Four(found) => put_found(out, lines, carrier, found),
        WordTable::Any(found) => put_found(out, lines, carrier, found),
    }
}

// The same of a table whose form of rows is known, so that no row is asked for its own.
fn put_found<K: Sink, W: HeldRow>(
    out: &mut K,
    lines: &mut RowLines<'_>,
    carrier: &Carrier,
    found: &FoundTable<W>,
) -> Result<(), Cut>
    requires carrier { pure_carrier carrier.now ≡ net_carrier (net_of lines.old) }
    requires may_be { IsCarrier (pure_carrier carrier.now) }
    requires words { AreFoundWords W.held (pure_carrier carrier.now) found.now }
    requires rows { AllByRecursion (IsRowOf (net_of lines.old))
        (found_rows W.held (pure_carrier carrier.now) found.now) }
    ensures text { PutsText (K.holds out.old)
        (rows_text (net_of lines.old) (found_rows W.held (pure_carrier carrier.now) found.now))
        result (K.holds out.new) }
    ensures net { net_of lines.new ≡ net_of lines.old }
{
    for node in 0..found.node_count() {
        lines.write_lent(carrier, found.row(node))?;
        put_all(out, lines.line())?;
    }
    Ok(())
}
