// A report that is being read.
ghost use Rattle.std.specs.Prelude.{◌≡◌, ◌≤◌, Ok, true, length, map, IfOk, IfErr, IfSome};
ghost use Rattle.alg_model.specs.Bounds.{AtMost};
ghost use Rattle.alg_model.specs.Carriers.{In};
ghost use Rattle.alg_model.specs.Views.{pure_value};
ghost use Rattle.meta_base.specs.NodePaths.{numbers};
ghost use Rattle.net_graph.specs.declared.route.TheConstants.{MAX_ROW_NUMBER};
ghost use Rattle.net_graph.specs.Tables.{carrier, IsRouteOf, OnTablesFrom, TableOf};
ghost use Rattle.net_graph.specs.Views.{pure_row, rows_of};
ghost use Rattle.report_check.specs.declared.draft.LineError.TheVariants.{NoMemory as NoMemoryLeft};
ghost use Rattle.report_check.specs.declared.report.TheConstants.{MAX_REPORT_BYTES};
ghost use Rattle.report_check.specs.ReportText.{after_end, after_none, after_route, after_said, as_value, dest_in, is_next as is_next_row, first_tables as first_tables_of, is_whole as is_whole_report, no_rows, node_in, path_in, said_in, unless_over, with_row as with_one_row};
ghost use Rattle.report_check.specs.Said.{error_at, progress_of, row_spelled, IsDraft, IsRefusedAs};
ghost use Rattle.report_check.specs.Views.{AreOfDests};
ghost use Rattle.topology_file.specs.Texts.{words_of};

use crate::lines::{Said, line_says};
use crate::{MAX_REPORT_BYTES, ReportError, ReportFault, ReportKind};
use alg_model::Value;
use meta_base::{DestId, List, NoMemory, NodeId};
use net_graph::{DestTable, MAX_ROW_NUMBER, Net, Route, RouteRow};
use sig_text::{LitError, read_value_to};
use std::alloc::Global;
use topology_file::split_word;

/// What the lines so far give: the tables that are whole, the rows of the next one, and whether the end of the run was
/// stated.
#[derive(Debug, Drop)]
pub struct Draft {
    pub tables: Vec<DestTable>,
    pub rows: Vec<RouteRow>,
    pub is_over: bool,
}

/// Why a line gave nothing.
#[derive(Clone, Copy, Debug)]
pub enum LineError {
    /// It breaks a rule.
    Bad(ReportKind),
    /// There was no memory for what it adds.
    NoMemory,
}

impl From<NoMemory> for LineError {
    ghost from_gives = { λ _ e. e ≡ NoMemoryLeft };

    fn from(_: NoMemory) -> Self {
        LineError::NoMemory
    }
}

impl LineError {
    /// The error of a text of which this is the first bad line.
    pub fn at(self, line: u32) -> ReportError
        ensures { result ≡ error_at line self }
    {
        match self {
            LineError::Bad(kind) => ReportError::Bad(ReportFault { line, kind }),
            LineError::NoMemory => ReportError::NoMemory,
        }
    }
}

/// What no line gives.
pub fn empty_draft(alloc: Global, net: &Net) -> Result<Draft, NoMemory>
    ensures progress { IfOk result (λ draft. progress_of draft ≡ no_rows net.now) }
    ensures draft { IfOk result (IsDraft net.now) }
{
    Ok(Draft {
        tables: first_tables(alloc, net)?,
        rows: Vec::new(alloc),
        is_over: false,
    })
}

// The tables that need no row. Only where the network has no node is there one of each destination.
fn first_tables(alloc: Global, net: &Net) -> Result<Vec<DestTable>, NoMemory>
    ensures tables { IfOk result (λ tables. map rows_of tables.items ≡ first_tables_of net.now) }
    ensures table_of { IfOk result (λ tables. OnTablesFrom (TableOf net.now) 0 (map rows_of tables.items)) }
    ensures dests { IfOk result (λ tables. AreOfDests 0 tables.items) }
{
    let mut tables = Vec::with_capacity(alloc, net.dest_count())?;
    if net.node_count() > 0 {
        return Ok(tables);
    }
    for dest in 0..net.dest_count() {
        tables.push(DestTable {
            dest: DestId(dest as u32),
            rows: List::new(alloc),
        })?;
    }
    Ok(tables)
}

/// Whether there is a table for each destination.
pub fn is_whole(net: &Net, draft: &Draft) -> bool
    ensures { result ≡ is_whole_report net.now (progress_of draft.now) }
{
    draft.tables.len() == net.dest_count()
}

/// What there is with the line.
pub fn add_line(alloc: Global, net: &Net, draft: Draft, line: &[u8]) -> Result<Draft, LineError>
    requires draft { IsDraft net.now draft }
    requires line { length line.now ≤ MAX_REPORT_BYTES }
    ensures ok { IfOk result (λ next. after_said (row_spelled net.now) net.now (progress_of draft) (said_in line.now) ≡
        Ok (progress_of next)) }
    ensures draft { IfOk result (IsDraft net.now) }
    ensures bad { IfErr result (IsRefusedAs
        (after_said (row_spelled net.now) net.now (progress_of draft) (said_in line.now))) }
{
    match line_says(line) {
        Said::Silent => Ok(draft),
        Said::NoRoute { node, dest } => add_none(alloc, net, draft, node, dest),
        Said::Route {
            node,
            dest,
            value,
            path,
        } => add_route(alloc, net, draft, node, dest, value, path),
        Said::Ending => add_end(net, draft),
        Said::Bad => Err(LineError::Bad(ReportKind::BadLine)),
    }
}

// The end of the run stands once, after the last row.
fn add_end(net: &Net, draft: Draft) -> Result<Draft, LineError>
    requires draft { IsDraft net.now draft }
    ensures ok { IfOk result (λ next. unless_over (progress_of draft) (after_end net.now (progress_of draft)) ≡
        Ok (progress_of next)) }
    ensures draft { IfOk result (IsDraft net.now) }
    ensures bad { IfErr result (IsRefusedAs
        (unless_over (progress_of draft) (after_end net.now (progress_of draft)))) }
{
    if draft.is_over || !is_whole(net, &draft) {
        return Err(LineError::Bad(ReportKind::BadLine));
    }
    Ok(Draft {
        is_over: true,
        ..draft
    })
}

// The row of a node that has no route.
fn add_none(
    alloc: Global,
    net: &Net,
    draft: Draft,
    node: &[u8],
    dest: &[u8],
) -> Result<Draft, LineError>
    requires draft { IsDraft net.now draft }
    ensures ok { IfOk result (λ next. unless_over (progress_of draft)
        (after_none net.now (progress_of draft) node.now dest.now) ≡ Ok (progress_of next)) }
    ensures draft { IfOk result (IsDraft net.now) }
    ensures bad { IfErr result (IsRefusedAs (unless_over (progress_of draft)
        (after_none net.now (progress_of draft) node.now dest.now))) }
{
    if draft.is_over {
        return Err(LineError::Bad(ReportKind::BadLine));
    }
    let node = node_of(net, node)?;
    let dest = dest_of(net, dest)?;
    if !is_next(net, &draft, node, dest) {
        return Err(LineError::Bad(ReportKind::WrongRow));
    }
    let row = RouteRow {
        node,
        dest,
        route: None,
    };
    Ok(with_row(alloc, net, draft, row)?)
}

// The row of a node that has a route.
fn add_route(
    alloc: Global,
    net: &Net,
    draft: Draft,
    node: &[u8],
    dest: &[u8],
    value: &[u8],
    path: &[u8],
) -> Result<Draft, LineError>
    requires draft { IsDraft net.now draft }
    requires path { length path.now ≤ MAX_REPORT_BYTES }
    ensures ok { IfOk result (λ next. unless_over (progress_of draft) (after_route (row_spelled net.now) net.now
        (progress_of draft) node.now dest.now value.now (words_of path.now)) ≡ Ok (progress_of next)) }
    ensures draft { IfOk result (IsDraft net.now) }
    ensures bad { IfErr result (IsRefusedAs (unless_over (progress_of draft) (after_route (row_spelled net.now) net.now
        (progress_of draft) node.now dest.now value.now (words_of path.now)))) }
{
    if draft.is_over {
        return Err(LineError::Bad(ReportKind::BadLine));
    }
    let node = node_of(net, node)?;
    let dest = dest_of(net, dest)?;
    let path = path_of(alloc, net, path)?;
    if !is_next(net, &draft, node, dest) {
        return Err(LineError::Bad(ReportKind::WrongRow));
    }
    let value = value_of(alloc, net, value)?;
    let row = RouteRow {
        node,
        dest,
        route: Some(Route { value, path }),
    };
    Ok(with_row(alloc, net, draft, row)?)
}

// The node of that name.
fn node_of(net: &Net, name: &[u8]) -> Result<NodeId, LineError>
    ensures node { IfOk result (λ node. node_in net.now name.now ≡ Ok node.0) }
    ensures bad { IfErr result (IsRefusedAs (node_in net.now name.now)) }
{
    match net.node_named(name) {
        Some(node) => Ok(node),
        None => Err(LineError::Bad(ReportKind::UnknownName)),
    }
}

// The destination of that name.
fn dest_of(net: &Net, name: &[u8]) -> Result<DestId, LineError>
    ensures dest { IfOk result (λ dest. dest_in net.now name.now ≡ Ok dest.0) }
    ensures bad { IfErr result (IsRefusedAs (dest_in net.now name.now)) }
{
    match net.dest_named(name) {
        Some(dest) => Ok(dest),
        None => Err(LineError::Bad(ReportKind::UnknownName)),
    }
}

// The nodes of the names that are the words of the text.
fn path_of(alloc: Global, net: &Net, names: &[u8]) -> Result<List<NodeId>, LineError>
    ensures path { IfOk result (λ path. path_in net.now (words_of names.now) ≡ Ok (numbers path)) }
    ensures few { IfOk result (λ path. length path ≤ length names.now) }
    ensures bad { IfErr result (IsRefusedAs (path_in net.now (words_of names.now))) }
{
    let mut path = List::new(alloc);
    let mut rest = names;
    while let Some((name, others)) = split_word(rest) {
        path.push(node_of(net, name)?)?;
        rest = others;
    }
    Ok(path)
}

// The value that the text spells, as a row may have it.
fn value_of(alloc: Global, net: &Net, text: &[u8]) -> Result<Value, LineError>
    ensures ok { IfOk result (λ v. as_value (row_spelled net.now text.now) ≡ Ok (pure_value v)) }
    ensures value_in { IfOk result (λ v. In (carrier net.now) (pure_value v)) }
    ensures bound { IfOk result (λ v. AtMost MAX_ROW_NUMBER (pure_value v)) }
    ensures bad { IfErr result (IsRefusedAs (as_value (row_spelled net.now text.now))) }
{
    match read_value_to(alloc, net.alg(), text, MAX_ROW_NUMBER) {
        Ok(value) => Ok(value),
        Err(LitError::Bad(fault)) => Err(LineError::Bad(ReportKind::BadValue(fault))),
        Err(LitError::NoMemory) => Err(LineError::NoMemory),
    }
}

// Whether the row of the node for the destination is the next one.
fn is_next(net: &Net, draft: &Draft, node: NodeId, dest: DestId) -> bool
    ensures { result ≡ is_next_row net.now (progress_of draft.now) node.0 dest.0 }
{
    !is_whole(net, draft)
        && node.0 as usize == draft.rows.len()
        && dest.0 as usize == draft.tables.len()
}

// What there is with the next row. The last one of its destination ends a table.
fn with_row(alloc: Global, net: &Net, draft: Draft, row: RouteRow) -> Result<Draft, NoMemory>
    requires draft { IsDraft net.now draft }
    requires next { is_next_row net.now (progress_of draft) row.node.0 row.dest.0 ≡ true }
    requires route { IfSome (pure_row row).route (IsRouteOf net.now) }
    ensures progress { IfOk result (λ next. progress_of next ≡
        with_one_row net.now (progress_of draft) (pure_row row)) }
    ensures draft { IfOk result (IsDraft net.now) }
{
    let Draft {
        mut tables,
        rows,
        is_over,
    } = draft;
    let mut rows = with_room(alloc, net, rows)?;
    let dest = row.dest;
    rows.push(row)?;
    if rows.len() != net.node_count() {
        return Ok(Draft {
            tables,
            rows,
            is_over,
        });
    }
    tables.push(DestTable {
        dest,
        rows: List::from_vec(rows),
    })?;
    Ok(Draft {
        tables,
        rows: Vec::new(alloc),
        is_over,
    })
}

// The same rows. The first one of a table takes the memory for all.
fn with_room(alloc: Global, net: &Net, rows: Vec<RouteRow>) -> Result<Vec<RouteRow>, NoMemory>
    ensures { IfOk result (λ more. more.items ≡ rows.items) }
{
    if !rows.is_empty() {
        return Ok(rows);
    }
    Ok(Vec::with_capacity(alloc, net.node_count())?)
}
