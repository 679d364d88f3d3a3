// Whether trees meet the formation rules.
ghost use Rattle.std.specs.Prelude.{◌≡◌, ◌↔◌, ◌<◌, ◌+◌, ◌==◌, true, ℕ, List, MatchOption};
ghost use Rattle.std.specs.List.{list_any, list_all};
ghost use Rattle.std.specs.Str.{bytes_eq};
ghost use Rattle.alg_model.specs.Views.{expression_of};
ghost use Rattle.alg_model.specs.Formation.{MeetsRanges, MeetsCarriers, MeetsNames, node_count, ranks_rise, are_ranks, is_place_or_none, is_row_over, is_table_count, is_table, is_table_name, are_distinct, are_named, row_name};

use crate::carrier::have_same_carrier;
use crate::names::Named;
use crate::{MAX_MARKS, MAX_SIMPLE_SYMBOLS, MAX_TABLE_NAMES, TableRow, TableSpec, Tree};
use meta_base::Text;
use meta_base::bytes::is_word;

fn ranks_rise(rank: u8, ranks: &[u8]) -> bool
    ensures { result ≡ ranks_rise rank ranks.now }
{
    match ranks {
        [first, rest @ ..] => {
            (*first == rank || u16::from(*first) == u16::from(rank) + 1) && ranks_rise(*first, rest)
        }
        [] => true,
    }
}

fn are_ranks(ranks: &[u8]) -> bool
    ensures { result ≡ are_ranks ranks.now }
{
    match ranks {
        [first, rest @ ..] => *first == 0 && ranks_rise(*first, rest),
        [] => true,
    }
}

fn is_place_or_none(count: usize, image: Option<u8>) -> bool
    ensures { result ≡ is_place_or_none count image }
{
    match image {
        Some(place) => usize::from(place) < count,
        None => true,
    }
}

fn is_row_over(count: usize, row: &TableRow) -> bool
    ensures { result ≡ is_row_over count row.now }
{
    let images = row.images.as_slice();
    images.len() == count && are_places(count, images)
}

fn are_places(count: usize, images: &[Option<u8>]) -> bool
    ensures { result ≡ list_all (is_place_or_none count) images.now }
{
    images.iter().all(|image| is_place_or_none(count, *image))
}

fn is_table_count(count: usize) -> bool
    ensures { result ≡ is_table_count count }
{
    1 <= count && count <= MAX_TABLE_NAMES
}

fn is_table(table: &TableSpec) -> bool
    ensures { result ≡ is_table table.now }
{
    let names = table.names.as_slice().len();
    let rows = table.rows.as_slice();
    let ranks = table.ranks.as_slice();
    is_table_count(names)
        && is_table_count(rows.len())
        && ranks.len() == names
        && are_ranks(ranks)
        && are_rows_over(names, rows)
}

fn are_rows_over(count: usize, rows: &[TableRow]) -> bool
    ensures { result ≡ list_all (is_row_over count) rows.now }
{
    rows.iter().all(|row| is_row_over(count, row))
}

/// Whether the tree meets the rule on ranges.
pub fn meets_ranges(tree: &Tree) -> bool
    ensures { (result ≡ true) ↔ MeetsRanges (expression_of tree.now) }
{
    match tree {
        Tree::Add { low, high } | Tree::Cap { low, high, .. } => low <= high,
        Tree::Worst { top, low, high } | Tree::Width { top, low, high } => {
            low <= high && high <= top
        }
        Tree::Pref { .. } | Tree::Orig { .. } | Tree::Gate => true,
        Tree::Seq { symbols } => 1 <= *symbols,
        Tree::SimSeq { symbols } => 1 <= *symbols && *symbols <= MAX_SIMPLE_SYMBOLS,
        Tree::Tags { count } | Tree::Guard { count } => 1 <= *count && *count <= MAX_MARKS,
        Tree::Table(table) => is_table(table),
        Tree::Lex(a, b)
        | Tree::Scoped(a, b)
        | Tree::Union(a, b)
        | Tree::Sum(a, b)
        | Tree::Plus(a, b) => meets_ranges(a) && meets_ranges(b),
        Tree::Left(a) | Tree::Right(a) => meets_ranges(a),
    }
}

/// Whether the tree meets the rule on carriers.
pub fn meets_carriers(tree: &Tree) -> bool
    ensures { (result ≡ true) ↔ MeetsCarriers (expression_of tree.now) }
{
    match tree {
        Tree::Lex(a, b) | Tree::Scoped(a, b) | Tree::Union(a, b) | Tree::Sum(a, b) => {
            meets_carriers(a) && meets_carriers(b)
        }
        Tree::Plus(a, b) => meets_carriers(a) && meets_carriers(b) && have_same_carrier(a, b),
        Tree::Left(a) | Tree::Right(a) => meets_carriers(a),
        Tree::Add { .. }
        | Tree::Cap { .. }
        | Tree::Worst { .. }
        | Tree::Width { .. }
        | Tree::Pref { .. }
        | Tree::Orig { .. }
        | Tree::Seq { .. }
        | Tree::SimSeq { .. }
        | Tree::Tags { .. }
        | Tree::Guard { .. }
        | Tree::Gate
        | Tree::Table(_) => true,
    }
}

/// How much room for nodes the tree leaves, if it has room.
#[tactic(auto, using(crate::proofs::Nodes::some_node))]
pub fn room_after(tree: &Tree, room: usize) -> Option<usize>
    ensures { MatchOption result (room < node_count (expression_of tree.now))
        (λ left. left + node_count (expression_of tree.now) ≡ room) }
{
    let room = room.checked_sub(1)?;
    match tree {
        Tree::Lex(a, b)
        | Tree::Scoped(a, b)
        | Tree::Union(a, b)
        | Tree::Sum(a, b)
        | Tree::Plus(a, b) => room_after(b, room_after(a, room)?),
        Tree::Left(a) | Tree::Right(a) => room_after(a, room),
        Tree::Add { .. }
        | Tree::Cap { .. }
        | Tree::Worst { .. }
        | Tree::Width { .. }
        | Tree::Pref { .. }
        | Tree::Orig { .. }
        | Tree::Seq { .. }
        | Tree::SimSeq { .. }
        | Tree::Tags { .. }
        | Tree::Guard { .. }
        | Tree::Gate
        | Tree::Table(_) => Some(room),
    }
}

fn is_table_name(name: &[u8]) -> bool
    ensures { result ≡ is_table_name name.now }
{
    is_word(name) && name != b"none".as_slice()
}

// Whether one of them has this name.
fn is_among<N: Named>(name: &[u8], items: &[N]) -> bool
    ensures { result ≡ list_any (λ item. bytes_eq (N.name_of item) name.now) items.now }
{
    items.iter().any(|item| item.name() == name)
}

fn are_distinct<N: Named>(items: &[N]) -> bool
    ensures { result ≡ are_distinct N.name_of items.now }
{
    match items {
        [item, rest @ ..] => !is_among(item.name(), rest) && are_distinct(rest),
        [] => true,
    }
}

fn have_table_names<N: Named>(items: &[N]) -> bool
    ensures { result ≡ list_all (λ item. is_table_name (N.name_of item)) items.now }
{
    items.iter().all(|item| is_table_name(item.name()))
}

fn are_named<N: Named>(items: &[N]) -> bool
    ensures { result ≡ are_named N.name_of items.now }
{
    have_table_names(items) && are_distinct(items)
}

/// Whether the tree meets the rule on names.
pub fn meets_names(tree: &Tree) -> bool
    ensures { (result ≡ true) ↔ MeetsNames (expression_of tree.now) }
{
    match tree {
        Tree::Table(table) => {
            are_named(table.names.as_slice()) && are_named(table.rows.as_slice())
        }
        Tree::Lex(a, b)
        | Tree::Scoped(a, b)
        | Tree::Union(a, b)
        | Tree::Sum(a, b)
        | Tree::Plus(a, b) => meets_names(a) && meets_names(b),
        Tree::Left(a) | Tree::Right(a) => meets_names(a),
        Tree::Add { .. }
        | Tree::Cap { .. }
        | Tree::Worst { .. }
        | Tree::Width { .. }
        | Tree::Pref { .. }
        | Tree::Orig { .. }
        | Tree::Seq { .. }
        | Tree::SimSeq { .. }
        | Tree::Tags { .. }
        | Tree::Guard { .. }
        | Tree::Gate => true,
    }
}
