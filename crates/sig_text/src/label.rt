// The label at the front of a text.
ghost use Rattle.std.specs.Prelude.{◌≡◌, ◌&&◌, ◌≤◌, ◌<◌, nat_lt, nat_le, option_and_then, length, IfOk, IfSome};
ghost use Rattle.alg_model.specs.Views.{expression_of};
ghost use Rattle.alg_model.specs.Formation.{MeetsRanges};
ghost use Rattle.alg_model.specs.Forms.{form_expression};
ghost use Rattle.alg_model.specs.Expressions.{lex, scoped, union, sum, left, pref, number_label, symbol_label, pair_label, both_label, first_label, second_label, const_label, outer, inner};
ghost use Rattle.alg_model.specs.declared.alg.TheConstants.{MAX_MARKS, MAX_TABLE_NAMES};
ghost use Rattle.sig_text.specs.declared.faults.LitFault.TheVariants.{NotALabel};
ghost use Rattle.sig_text.specs.Literals.{where_true, both_of, one_of, tag_label, guard_label};
ghost use Rattle.sig_text.specs.Sequences.{parts_of};
ghost use Rattle.sig_text.specs.Views.{value_outcome, label_outcome, Takes, TakesLabel, TakesTwo, TakesOuter, TakesInner};
ghost use Rattle.sig_text.specs.declared.bytes.TheConstants.{MAX_LITERAL_NUMBER};
ghost use Rattle.sig_text.specs.Reading.{take_word, keep_at, gate_at, row_at, ranged_at, symbol_at, tag_at, guard_at};

use crate::LitFault;
use crate::faults::{ReadStop, both, boxed};
use crate::parts::{
    Next, Scope, Side, mark_at, marked_at, next_part, number_at, scope_at, side_at, word_at,
};
use crate::value::value_at;
use alg_model::{
    Amount, Label, LabelForm, MAX_MARKS, MAX_TABLE_NAMES, TableRow, Tree, Value, place_of,
};
use meta_base::NoMemory;
use std::alloc::Global;

/// The label of the tree's algebra that begins the text with no number above the greatest, or the first
/// fault in it, and what comes after it.
#[cycle(label_at)]
pub fn label_at<'a>(
    alloc: Global,
    tree: &Tree,
    greatest: Amount,
    text: &'a [u8],
) -> Result<(Result<Label, LitFault>, &'a [u8]), ReadStop>
    requires ranges { MeetsRanges (expression_of tree.now) }
    requires greatest { greatest ≤ MAX_LITERAL_NUMBER }
    ensures { TakesLabel greatest (expression_of tree.now) text.now result }
{
    form_label_at(alloc, tree.label_form(), greatest, text)
}

// The same of what the labels look like.
#[cycle(label_at)]
fn form_label_at<'a>(
    alloc: Global,
    form: LabelForm<'_>,
    greatest: Amount,
    text: &'a [u8],
) -> Result<(Result<Label, LitFault>, &'a [u8]), ReadStop>
    requires ranges { MeetsRanges (form_expression form) }
    requires greatest { greatest ≤ MAX_LITERAL_NUMBER }
    ensures { TakesLabel greatest (form_expression form.entry) text.now result }
{
    match form {
        LabelForm::Numbers(low, high) => ranged_at(low, high, greatest, text),
        LabelForm::UpTo(top) => bounded_at(top, greatest, text),
        LabelForm::Keep | LabelForm::Right(_) => keep_at(text),
        LabelForm::Symbol(symbols) => symbol_at(symbols, greatest, text),
        LabelForm::Tag(count) => tag_at(count, greatest, text),
        LabelForm::Guard(count) => guard_at(count, greatest, text),
        LabelForm::Gate => gate_at(text),
        LabelForm::Table(table) => row_at(table.rows.as_slice(), text),
        LabelForm::Lex(a, b) => lex_at(alloc, a, b, greatest, text),
        LabelForm::Sum(a, b) => sum_at(alloc, a, b, greatest, text),
        LabelForm::Scoped(a, b) => scoped_at(alloc, a, b, greatest, text),
        LabelForm::Union(a, b) | LabelForm::Plus(a, b) => sided_at(alloc, a, b, greatest, text),
        LabelForm::Left(a) => const_at(alloc, a, greatest, text),
    }
}

#[cycle(label_at)]
fn lex_at<'a>(
    alloc: Global,
    a: &Tree,
    b: &Tree,
    greatest: Amount,
    text: &'a [u8],
) -> Result<(Result<Label, LitFault>, &'a [u8]), ReadStop>
    requires first { MeetsRanges (expression_of a.now) }
    requires second { MeetsRanges (expression_of b.now) }
    requires greatest { greatest ≤ MAX_LITERAL_NUMBER }
    ensures { TakesLabel greatest (lex (expression_of a.now) (expression_of b.now)) text.now result }
{
    let ((l, m), rest) = two_at(alloc, a, b, b',', greatest, text)?;
    Ok((pair_of(alloc, l, m)?, rest))
}

#[cycle(label_at)]
fn sum_at<'a>(
    alloc: Global,
    a: &Tree,
    b: &Tree,
    greatest: Amount,
    text: &'a [u8],
) -> Result<(Result<Label, LitFault>, &'a [u8]), ReadStop>
    requires first { MeetsRanges (expression_of a.now) }
    requires second { MeetsRanges (expression_of b.now) }
    requires greatest { greatest ≤ MAX_LITERAL_NUMBER }
    ensures { TakesLabel greatest (sum (expression_of a.now) (expression_of b.now)) text.now result }
{
    let ((l, m), rest) = two_at(alloc, a, b, b'|', greatest, text)?;
    Ok((both_of(alloc, l, m)?, rest))
}

// A label of each of two algebras, in parentheses and with that mark between them.
#[cycle(label_at)]
fn two_at<'a>(
    alloc: Global,
    a: &Tree,
    b: &Tree,
    between: u8,
    greatest: Amount,
    text: &'a [u8],
) -> Result<((Result<Label, LitFault>, Result<Label, LitFault>), &'a [u8]), ReadStop>
    requires first { MeetsRanges (expression_of a.now) }
    requires second { MeetsRanges (expression_of b.now) }
    requires greatest { greatest ≤ MAX_LITERAL_NUMBER }
    ensures { TakesTwo greatest between (expression_of a.now) (expression_of b.now) text.now result }
{
    let (l, text) = label_at(alloc, a, greatest, mark_at(text, b'(')?)?;
    let (m, text) = label_at(alloc, b, greatest, mark_at(text, between)?)?;
    Ok(((l, m), mark_at(text, b')')?))
}

#[cycle(label_at)]
fn scoped_at<'a>(
    alloc: Global,
    a: &Tree,
    b: &Tree,
    greatest: Amount,
    text: &'a [u8],
) -> Result<(Result<Label, LitFault>, &'a [u8]), ReadStop>
    requires first { MeetsRanges (expression_of a.now) }
    requires second { MeetsRanges (expression_of b.now) }
    requires greatest { greatest ≤ MAX_LITERAL_NUMBER }
    ensures { TakesLabel greatest (scoped (expression_of a.now) (expression_of b.now)) text.now result }
{
    match scope_at(text)? {
        (Scope::Outer, text) => outer_at(alloc, a, b, greatest, text),
        (Scope::Inner, text) => inner_at(alloc, b, greatest, text),
    }
}

#[cycle(label_at)]
fn outer_at<'a>(
    alloc: Global,
    a: &Tree,
    b: &Tree,
    greatest: Amount,
    text: &'a [u8],
) -> Result<(Result<Label, LitFault>, &'a [u8]), ReadStop>
    requires first { MeetsRanges (expression_of a.now) }
    requires second { MeetsRanges (expression_of b.now) }
    requires greatest { greatest ≤ MAX_LITERAL_NUMBER }
    ensures { TakesOuter greatest (expression_of a.now) (expression_of b.now) text.now result }
{
    let (l, text) = label_at(alloc, a, greatest, mark_at(text, b'(')?)?;
    let (v, text) = value_at(alloc, b, greatest, mark_at(text, b',')?)?;
    let text = mark_at(text, b')')?;
    Ok((outer_of(alloc, l, v)?, text))
}

#[cycle(label_at)]
fn inner_at<'a>(
    alloc: Global,
    b: &Tree,
    greatest: Amount,
    text: &'a [u8],
) -> Result<(Result<Label, LitFault>, &'a [u8]), ReadStop>
    requires ranges { MeetsRanges (expression_of b.now) }
    requires greatest { greatest ≤ MAX_LITERAL_NUMBER }
    ensures { TakesInner greatest (expression_of b.now) text.now result }
{
    let (m, text) = label_at(alloc, b, greatest, mark_at(text, b'(')?)?;
    let text = mark_at(text, b')')?;
    Ok((inner_of(alloc, m)?, text))
}

#[cycle(label_at)]
fn sided_at<'a>(
    alloc: Global,
    a: &Tree,
    b: &Tree,
    greatest: Amount,
    text: &'a [u8],
) -> Result<(Result<Label, LitFault>, &'a [u8]), ReadStop>
    requires first { MeetsRanges (expression_of a.now) }
    requires second { MeetsRanges (expression_of b.now) }
    requires greatest { greatest ≤ MAX_LITERAL_NUMBER }
    ensures { TakesLabel greatest (union (expression_of a.now) (expression_of b.now)) text.now result }
{
    match side_at(text)? {
        (Side::First, text) => {
            let (l, text) = label_at(alloc, a, greatest, text)?;
            Ok((first_of(alloc, l)?, text))
        }
        (Side::Second, text) => {
            let (m, text) = label_at(alloc, b, greatest, text)?;
            Ok((second_of(alloc, m)?, text))
        }
    }
}

fn const_at<'a>(
    alloc: Global,
    tree: &Tree,
    greatest: Amount,
    text: &'a [u8],
) -> Result<(Result<Label, LitFault>, &'a [u8]), ReadStop>
    requires ranges { MeetsRanges (expression_of tree.now) }
    requires greatest { greatest ≤ MAX_LITERAL_NUMBER }
    ensures { TakesLabel greatest (left (expression_of tree.now)) text.now result }
{
    let (v, rest) = value_at(alloc, tree, greatest, text)?;
    Ok((const_of(v), rest))
}

fn ranged_at(
    low: u64,
    high: u64,
    greatest: Amount,
    text: &[u8],
) -> Result<(Result<Label, LitFault>, &[u8]), ReadStop>
    requires { greatest ≤ MAX_LITERAL_NUMBER }
    ensures { Takes label_outcome (ranged_at greatest low high (parts_of text.now)) result }
{
    let (n, rest) = number_at(text, greatest)?;
    Ok((number_between(low, high, n), rest))
}

fn number_between(low: u64, high: u64, n: Amount) -> Result<Label, LitFault>
    ensures { label_outcome result ≡ where_true (nat_le low n && nat_le n high) NotALabel (number_label n) }
{
    if Amount::from(low) <= n && n <= Amount::from(high) {
        Ok(Label::Number(n as u64))
    } else {
        Err(LitFault::NotALabel)
    }
}

fn bounded_at(
    top: u64,
    greatest: Amount,
    text: &[u8],
) -> Result<(Result<Label, LitFault>, &[u8]), ReadStop>
    requires { greatest ≤ MAX_LITERAL_NUMBER }
    ensures { TakesLabel greatest (pref top) text.now result }
{
    let (n, rest) = number_at(text, greatest)?;
    Ok((number_up_to(top, n), rest))
}

fn number_up_to(top: u64, n: Amount) -> Result<Label, LitFault>
    ensures { label_outcome result ≡ where_true (nat_le n top) NotALabel (number_label n) }
{
    if n <= Amount::from(top) {
        Ok(Label::Number(n as u64))
    } else {
        Err(LitFault::NotALabel)
    }
}

fn symbol_at(
    count: u64,
    greatest: Amount,
    text: &[u8],
) -> Result<(Result<Label, LitFault>, &[u8]), ReadStop>
    requires { greatest ≤ MAX_LITERAL_NUMBER }
    ensures { Takes label_outcome (symbol_at greatest count (parts_of text.now)) result }
{
    let (n, rest) = number_at(text, greatest)?;
    Ok((symbol_below(count, n), rest))
}

fn symbol_below(count: u64, n: Amount) -> Result<Label, LitFault>
    ensures { label_outcome result ≡ where_true (nat_lt n count) NotALabel (symbol_label n) }
{
    if n < Amount::from(count) {
        Ok(Label::Symbol(n as u64))
    } else {
        Err(LitFault::NotALabel)
    }
}

fn keep_at(text: &[u8]) -> Result<(Result<Label, LitFault>, &[u8]), ReadStop>
    ensures { Takes label_outcome (option_and_then keep_at (take_word (parts_of text.now))) result }
{
    match word_at(text)? {
        (b"keep", rest) => Ok((Ok(Label::Keep), rest)),
        _ => Err(ReadStop::NoShape),
    }
}

fn tag_at(
    count: u64,
    greatest: Amount,
    text: &[u8],
) -> Result<(Result<Label, LitFault>, &[u8]), ReadStop>
    requires count { count ≤ MAX_MARKS }
    requires greatest { greatest ≤ MAX_LITERAL_NUMBER }
    ensures { Takes label_outcome (tag_at greatest count (parts_of text.now)) result }
{
    if let Next::Word(b"keep", rest) = next_part(text) {
        return Ok((Ok(Label::Keep), rest));
    }
    let ((mark, n), rest) = marked_at(text, b'+', b'-', greatest)?;
    Ok((tag_of(count, mark, n), rest))
}

// The label that adds the number, or takes it away.
fn tag_of(count: u64, mark: u8, n: Amount) -> Result<Label, LitFault>
    requires { count ≤ MAX_MARKS }
    ensures { label_outcome result ≡ where_true (nat_lt n count) NotALabel (tag_label mark n) }
{
    if n >= Amount::from(count) {
        Err(LitFault::NotALabel)
    } else if mark == b'+' {
        Ok(Label::Mark(n as u8))
    } else {
        Ok(Label::Unmark(n as u8))
    }
}

fn guard_at(
    count: u64,
    greatest: Amount,
    text: &[u8],
) -> Result<(Result<Label, LitFault>, &[u8]), ReadStop>
    requires count { count ≤ MAX_MARKS }
    requires greatest { greatest ≤ MAX_LITERAL_NUMBER }
    ensures { Takes label_outcome (guard_at greatest count (parts_of text.now)) result }
{
    let ((mark, n), rest) = marked_at(text, b'?', b'!', greatest)?;
    Ok((guard_of(count, mark, n), rest))
}

// The label that asks for the number, or bars it.
fn guard_of(count: u64, mark: u8, n: Amount) -> Result<Label, LitFault>
    requires { count ≤ MAX_MARKS }
    ensures { label_outcome result ≡ where_true (nat_lt n count) NotALabel (guard_label mark n) }
{
    if n >= Amount::from(count) {
        Err(LitFault::NotALabel)
    } else if mark == b'?' {
        Ok(Label::Need(n as u8))
    } else {
        Ok(Label::Bar(n as u8))
    }
}

fn gate_at(text: &[u8]) -> Result<(Result<Label, LitFault>, &[u8]), ReadStop>
    ensures { Takes label_outcome (option_and_then gate_at (take_word (parts_of text.now))) result }
{
    match word_at(text)? {
        (b"allow", rest) => Ok((Ok(Label::Allow), rest)),
        (b"deny", rest) => Ok((Ok(Label::Deny), rest)),
        _ => Err(ReadStop::NoShape),
    }
}

fn row_at<'a>(
    rows: &[TableRow],
    text: &'a [u8],
) -> Result<(Result<Label, LitFault>, &'a [u8]), ReadStop>
    requires { length rows.now ≤ MAX_TABLE_NAMES }
    ensures { Takes label_outcome (row_at rows.now (parts_of text.now)) result }
{
    let (word, rest) = word_at(text)?;
    let label = match place_of(rows, word) {
        Some(place) => Ok(Label::Row(place)),
        None => Err(LitFault::NotALabel),
    };
    Ok((label, rest))
}

fn pair_of(
    alloc: Global,
    first: Result<Label, LitFault>,
    second: Result<Label, LitFault>,
) -> Result<Result<Label, LitFault>, NoMemory>
    ensures { IfOk result (λ l. label_outcome l ≡ both_of pair_label (label_outcome first) (label_outcome second)) }
{
    Ok(both(boxed(alloc, first)?, boxed(alloc, second)?).map(|(l, m)| Label::Pair(l, m)))
}

fn both_of(
    alloc: Global,
    first: Result<Label, LitFault>,
    second: Result<Label, LitFault>,
) -> Result<Result<Label, LitFault>, NoMemory>
    ensures { IfOk result (λ l. label_outcome l ≡ both_of both_label (label_outcome first) (label_outcome second)) }
{
    Ok(both(boxed(alloc, first)?, boxed(alloc, second)?).map(|(l, m)| Label::Both(l, m)))
}

fn outer_of(
    alloc: Global,
    label: Result<Label, LitFault>,
    value: Result<Value, LitFault>,
) -> Result<Result<Label, LitFault>, NoMemory>
    ensures { IfOk result (λ out. label_outcome out ≡ both_of outer (label_outcome label) (value_outcome value)) }
{
    Ok(both(boxed(alloc, label)?, value).map(|(l, v)| Label::Outer(l, v)))
}

fn inner_of(
    alloc: Global,
    label: Result<Label, LitFault>,
) -> Result<Result<Label, LitFault>, NoMemory>
    ensures { IfOk result (λ inside. label_outcome inside ≡ one_of inner (label_outcome label)) }
{
    Ok(boxed(alloc, label)?.map(Label::Inner))
}

fn first_of(
    alloc: Global,
    label: Result<Label, LitFault>,
) -> Result<Result<Label, LitFault>, NoMemory>
    ensures { IfOk result (λ side. label_outcome side ≡ one_of first_label (label_outcome label)) }
{
    Ok(boxed(alloc, label)?.map(Label::First))
}

fn second_of(
    alloc: Global,
    label: Result<Label, LitFault>,
) -> Result<Result<Label, LitFault>, NoMemory>
    ensures { IfOk result (λ side. label_outcome side ≡ one_of second_label (label_outcome label)) }
{
    Ok(boxed(alloc, label)?.map(Label::Second))
}

fn const_of(value: Result<Value, LitFault>) -> Result<Label, LitFault>
    ensures { label_outcome result ≡ one_of const_label (value_outcome value) }
{
    Ok(Label::Const(value?))
}
