ghost use Rattle.std.specs.Prelude.{◌≡◌, ◌≤◌, length, map, IfOk, IfErr};
ghost use Rattle.net_graph.specs.Tables.{OnTablesFrom, TableOf};
ghost use Rattle.net_graph.specs.Views.{rows_of};
ghost use Rattle.report_check.specs.Faults.{IsReportRefusedBy};
ghost use Rattle.report_check.specs.Numbers.{max_report_bytes};
ghost use Rattle.report_check.specs.ReportText.{ReportText};
ghost use Rattle.report_check.specs.Views.{AreOfDests};

use crate::draft::{add_line, empty_draft, is_whole};
use crate::{ReportError, ReportFault, ReportKind};
use meta_base::List;
use net_graph::{DestTable, Net};
use sig_text::values_are_reported;
use std::alloc::Global;
use topology_file::split_line;

/// The most bytes of a report.
pub const MAX_REPORT_BYTES: usize = 4_194_304;

/// The bound of a report's bytes is the number of the specification.
pub fn numbers_are_specified()
    ensures { MAX_REPORT_BYTES ≡ max_report_bytes }
{}

/// The tables that the bytes of a report mean over the network, one for each destination, in order.
///
/// The report is cut into lines as a network file is, but `#` is no comment and a line has no bound of its own. A line
/// is one of these, or has no word:
///
/// - `NODE DEST none`: the node has no route for the destination.
/// - `NODE DEST VALUE NODE ..`: it has a route of that value, along one or more nodes. A value is read as by
///   [`sig_text::read_value_to`] with [`net_graph::MAX_ROW_NUMBER`], so printed sums are read back. Whether the nodes
///   are a walk isn't asked.
/// - `quiet N` or `spent N`, with N of 1 to 20 digits: at most one such line, after the last row.
///
/// Rows stand for all destinations in order and, in each, for all nodes in order. Where the network has no node there
/// is none.
///
/// # Errors
///
/// The first line that breaks a rule is [`ReportError::Bad`] with its number, from 1 on, and the first rule that it
/// breaks, in the order of [`crate::ReportKind`]. [`ReportError::NoMemory`] comes where there is no memory for the
/// tables.
pub fn read_report(alloc: Global, net: &Net, source: &[u8]) -> Result<List<DestTable>, ReportError>
    requires { length source.now ≤ MAX_REPORT_BYTES }
    ensures tables { IfOk result (λ tables. ReportText net.now source.now (map rows_of tables)) }
    ensures table_of { IfOk result (λ tables. OnTablesFrom (TableOf net.now) 0 (map rows_of tables)) }
    ensures dests { IfOk result (λ tables. AreOfDests 0 tables) }
    ensures count { IfOk result (λ tables. length tables ≡ length net.now.dests) }
    ensures fault { IfErr result (IsReportRefusedBy net.now source.now) }
{
    // What is read of a value is what its text spells.
    values_are_reported();
    let mut draft = empty_draft(alloc, net)?;
    let mut number: u32 = 1;
    let mut rest = source;
    while let Some((line, others)) = split_line(rest) {
        draft = match add_line(alloc, net, draft, line) {
            Ok(next) => next,
            Err(error) => return Err(error.at(number)),
        };
        number += 1;
        rest = others;
    }
    if !is_whole(net, &draft) {
        return Err(ReportError::Bad(ReportFault {
            line: number,
            kind: ReportKind::RowsMissing,
        }));
    }
    Ok(List::from_vec(draft.tables))
}
