// Algebras as expression files.
ghost use Rattle.std.specs.Prelude.{◌≡◌, ◌++◌, slice_index_or, decimal, codes, string_bytes, OnOk, IfOk, []};
ghost use Rattle.meta_base.specs.Appending.{Gains};
ghost use Rattle.alg_model.specs.Views.{expression_of};
ghost use Rattle.raml_syntax.specs.Heads.{ranged_of, counted_of, paired_of, single_of};
ghost use Rattle.raml_syntax.specs.Syntax.{ranged_word, counted_word, paired_word, single_word};
ghost use Rattle.raml_syntax.specs.Printed.{ranged_text, counted_text, paired_text, single_text, rank_text, more_values_text, values_text, maps_of, map_text, more_maps_text, maps_text, row_text, rows_text, table_text, expression_text, header_text, alg_text};

use crate::heads::{
    Counted, Paired, Ranged, Single, counted_word, paired_word, ranged_word, single_word,
};
use alg_model::{Alg, Edition, TableRow, TableSpec, Tree};
use meta_base::{NoMemory, Text, push_number};
use std::alloc::Global;

/// For whoever writes an algebra as a file; the program prints none. The text of an algebra as a file of one `main`,
/// after a header where its edition is the second. It means that algebra ([`crate::printed_text_means_the_algebra`]).
pub fn print_alg(alloc: Global, alg: &Alg) -> Result<Text, NoMemory>
    ensures { IfOk result (λ text. text ≡ alg_text alg.now) }
{
    let mut out = String::new(alloc);
    out.push_str(header_text(alg.edition()))?;
    out.push_str("main ")?;
    push_tree(&mut out, alg.tree())?;
    out.push_str(";\n")?;
    Ok(Text::from_string(out))
}

// The header of a text of this edition: a text without one is of the first.
fn header_text(edition: Edition) -> &'static str
    ensures { result.now ≡ header_text edition }
{
    match edition {
        Edition::One => "",
        Edition::Two => "raml 2;",
    }
}

#[cycle(trees)]
fn push_tree(out: &mut String, tree: &Tree) -> Result<(), NoMemory>
    ensures { OnOk result (Gains out.old (expression_text (expression_of tree.now)) out.new) }
{
    match tree {
        Tree::Add { low, high } => push_add(out, *low, *high),
        Tree::Cap { top, low, high } => push_ranged(out, Ranged::Cap, *top, *low, *high),
        Tree::Worst { top, low, high } => push_ranged(out, Ranged::Worst, *top, *low, *high),
        Tree::Width { top, low, high } => push_ranged(out, Ranged::Width, *top, *low, *high),
        Tree::Pref { top } => push_counted(out, Counted::Pref, *top),
        Tree::Orig { top } => push_counted(out, Counted::Orig, *top),
        Tree::Seq { symbols } => push_counted(out, Counted::Seq, *symbols),
        Tree::SimSeq { symbols } => push_counted(out, Counted::SimSeq, *symbols),
        Tree::Tags { count } => push_counted(out, Counted::Tags, *count),
        Tree::Guard { count } => push_counted(out, Counted::Guard, *count),
        Tree::Gate => Ok(out.push_str("gate")?),
        Tree::Table(table) => push_table(out, table),
        Tree::Lex(a, b) => push_paired(out, Paired::Lex, a, b),
        Tree::Scoped(a, b) => push_paired(out, Paired::Scoped, a, b),
        Tree::Union(a, b) => push_paired(out, Paired::Union, a, b),
        Tree::Sum(a, b) => push_paired(out, Paired::Sum, a, b),
        Tree::Plus(a, b) => push_paired(out, Paired::Plus, a, b),
        Tree::Left(a) => push_single(out, Single::Left, a),
        Tree::Right(a) => push_single(out, Single::Right, a),
    }
}

fn push_add(out: &mut String, low: u64, high: u64) -> Result<(), NoMemory>
    ensures { OnOk result (Gains out.old
        (codes "add(" ++ decimal low ++ codes ".." ++ decimal high ++ codes ")") out.new) }
{
    out.push_str("add(")?;
    push_number(out, u128::from(low))?;
    out.push_str("..")?;
    push_number(out, u128::from(high))?;
    out.push_str(")")?;
    Ok(())
}

fn push_ranged(
    out: &mut String,
    head: Ranged,
    top: u64,
    low: u64,
    high: u64,
) -> Result<(), NoMemory>
    ensures { OnOk result (Gains out.old (ranged_text (ranged_of head) top low high) out.new) }
{
    out.push_str(ranged_word(head))?;
    out.push_str("(")?;
    push_number(out, u128::from(top))?;
    out.push_str(";")?;
    push_number(out, u128::from(low))?;
    out.push_str("..")?;
    push_number(out, u128::from(high))?;
    out.push_str(")")?;
    Ok(())
}

fn push_counted(out: &mut String, head: Counted, n: u64) -> Result<(), NoMemory>
    ensures { OnOk result (Gains out.old (counted_text (counted_of head) n) out.new) }
{
    out.push_str(counted_word(head))?;
    out.push_str("(")?;
    push_number(out, u128::from(n))?;
    out.push_str(")")?;
    Ok(())
}

#[cycle(trees)]
fn push_paired(out: &mut String, head: Paired, a: &Tree, b: &Tree) -> Result<(), NoMemory>
    ensures { OnOk result (Gains out.old
        (paired_text (paired_of head) (expression_text (expression_of a.now)) (expression_text (expression_of b.now)))
        out.new) }
{
    out.push_str(paired_word(head))?;
    out.push_str("(")?;
    push_tree(out, a)?;
    out.push_str(",")?;
    push_tree(out, b)?;
    out.push_str(")")?;
    Ok(())
}

#[cycle(trees)]
fn push_single(out: &mut String, head: Single, a: &Tree) -> Result<(), NoMemory>
    ensures { OnOk result (Gains out.old
        (single_text (single_of head) (expression_text (expression_of a.now))) out.new) }
{
    out.push_str(single_word(head))?;
    out.push_str("(")?;
    push_tree(out, a)?;
    out.push_str(")")?;
    Ok(())
}

fn push_table(out: &mut String, table: &TableSpec) -> Result<(), NoMemory>
    ensures { OnOk result (Gains out.old (table_text table.now) out.new) }
{
    let names = table.names.as_slice();
    out.push_str("table{")?;
    push_values(out, names, table.ranks.as_slice())?;
    push_rows(out, names, table.rows.as_slice())?;
    out.push_str("}")?;
    Ok(())
}

fn push_values(out: &mut String, names: &[Text], ranks: &[u8]) -> Result<(), NoMemory>
    ensures { OnOk result (Gains out.old (values_text names.now ranks.now) out.new) }
{
    match (names, ranks) {
        ([name, names @ ..], [rank, ranks @ ..]) => {
            out.push_str(name.as_str())?;
            push_more_values(out, *rank, names, ranks)
        }
        _ => Ok(()),
    }
}

// The values after one of the rank `before`.
fn push_more_values(
    out: &mut String,
    before: u8,
    names: &[Text],
    ranks: &[u8],
) -> Result<(), NoMemory>
    ensures { OnOk result (Gains out.old (more_values_text before names.now ranks.now) out.new) }
{
    match names {
        [name, names @ ..] => match ranks {
            [rank, ranks @ ..] => {
                out.push_str(rank_mark(before, *rank))?;
                out.push_str(name.as_str())?;
                push_more_values(out, *rank, names, ranks)
            }
            [] => Ok(()),
        },
        [] => Ok(()),
    }
}

fn rank_mark(before: u8, rank: u8) -> &'static str
    ensures { result.now ≡ rank_text before rank }
{
    if rank == before { "=" } else { "<" }
}

fn push_rows(out: &mut String, names: &[Text], rows: &[TableRow]) -> Result<(), NoMemory>
    ensures { OnOk result (Gains out.old (rows_text names.now rows.now) out.new) }
{
    match rows {
        [row, rows @ ..] => {
            push_row(out, names, row)?;
            push_rows(out, names, rows)
        }
        [] => Ok(()),
    }
}

fn push_row(out: &mut String, names: &[Text], row: &TableRow) -> Result<(), NoMemory>
    ensures { OnOk result (Gains out.old (row_text names.now row.now) out.new) }
{
    out.push_str(";")?;
    out.push_str(row.name.as_str())?;
    out.push_str(":")?;
    push_maps(out, names, names, row.images.as_slice())
}

// The maps of a row, where `names` and `images` are what is left of its values.
fn push_maps(
    out: &mut String,
    all: &[Text],
    names: &[Text],
    images: &[Option<u8>],
) -> Result<(), NoMemory>
    ensures { OnOk result (Gains out.old (maps_text (maps_of all.now names.now images.now)) out.new) }
{
    match names {
        [name, names @ ..] => match images {
            [Some(place), images @ ..] => {
                push_map(out, name, name_at(all, *place))?;
                push_more_maps(out, all, names, images)
            }
            [None, images @ ..] => push_maps(out, all, names, images),
            [] => Ok(out.push_str("none")?),
        },
        [] => Ok(out.push_str("none")?),
    }
}

// The maps after others, each after a comma.
fn push_more_maps(
    out: &mut String,
    all: &[Text],
    names: &[Text],
    images: &[Option<u8>],
) -> Result<(), NoMemory>
    ensures { OnOk result (Gains out.old (more_maps_text (maps_of all.now names.now images.now)) out.new) }
{
    match names {
        [name, names @ ..] => match images {
            [Some(place), images @ ..] => {
                out.push_str(",")?;
                push_map(out, name, name_at(all, *place))?;
                push_more_maps(out, all, names, images)
            }
            [None, images @ ..] => push_more_maps(out, all, names, images),
            [] => Ok(()),
        },
        [] => Ok(()),
    }
}

fn push_map(out: &mut String, source: &Text, target: &str) -> Result<(), NoMemory>
    ensures { OnOk result (Gains out.old (map_text (record { source = source.now; target = target.now })) out.new) }
{
    out.push_str(source.as_str())?;
    out.push_str("->")?;
    out.push_str(target)?;
    Ok(())
}

// The name at a place; the images of an algebra are places of names.
fn name_at(names: &[Text], place: u8) -> &str
    ensures { result.now ≡ slice_index_or names.now place [] }
{
    match names.get(usize::from(place)) {
        Some(name) => name.as_str(),
        None => "",
    }
}
