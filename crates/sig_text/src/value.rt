// The value at the front of a text.
ghost use Rattle.std.specs.Prelude.{◌≡◌, ◌&&◌, ◌≤◌, true, nat_lt, nat_le, option_and_then, length, Some, None, Err, IfOk, IfSome, ◌<◌};
ghost use Rattle.std.specs.List.{list_all};
ghost use Rattle.alg_model.specs.Views.{expression_of};
ghost use Rattle.alg_model.specs.Carriers.{carrier_of, distinct};
ghost use Rattle.alg_model.specs.Formation.{MeetsRanges};
ghost use Rattle.alg_model.specs.Expressions.{whole, up_to, seqs, simseqs, sets, pairs, sides, number, symbols, pair, first, second};
ghost use Rattle.alg_model.specs.declared.alg.TheConstants.{MAX_MARKS, MAX_TABLE_NAMES};
ghost use Rattle.sig_text.specs.declared.faults.LitFault.TheVariants.{NotInCarrier};
ghost use Rattle.sig_text.specs.declared.faults.ReadStop.TheVariants.{NoShape};
ghost use Rattle.sig_text.specs.Literals.{where_true, both_of, one_of, set_of, value_of};
ghost use Rattle.sig_text.specs.Shapes.{list_shape};
ghost use Rattle.sig_text.specs.Sequences.{parts_of};
ghost use Rattle.sig_text.specs.Views.{value_outcome, Takes, TakesValue};
ghost use Rattle.sig_text.specs.declared.bytes.TheConstants.{MAX_LITERAL_NUMBER};
ghost use Rattle.sig_text.specs.Reading.{take_word, set_from, unit_at, name_at};

use crate::LitFault;
use crate::faults::{ReadStop, both, boxed};
use crate::parts::{Side, list_at, mark_at, number_at, side_at, word_at};
use alg_model::{Amount, Form, MAX_MARKS, MAX_TABLE_NAMES, Tree, Value, place_of};
use meta_base::{List, NoMemory, Text};
use std::alloc::Global;
use std::collections::BTreeSet;

/// The value of the tree's algebra that begins the text with no number above the greatest, or the first
/// fault in it, and what comes after it.
#[cycle(value_at)]
pub fn value_at<'a>(
    alloc: Global,
    tree: &Tree,
    greatest: Amount,
    text: &'a [u8],
) -> Result<(Result<Value, LitFault>, &'a [u8]), ReadStop>
    requires ranges { MeetsRanges (expression_of tree.now) }
    requires greatest { greatest ≤ MAX_LITERAL_NUMBER }
    ensures { TakesValue greatest (carrier_of (expression_of tree.now)) text.now result }
{
    match tree.value_form() {
        Form::Whole => whole_at(greatest, text),
        Form::UpTo(top) | Form::DownFrom(top) => bounded_at(top, greatest, text),
        Form::Seqs(symbols) => symbols_at(alloc, symbols, greatest, text),
        Form::SimSeqs(symbols) => simple_at(alloc, symbols, greatest, text),
        Form::Sets(count) => set_at(alloc, count, greatest, text),
        Form::One => unit_at(text),
        Form::Named(names, _) => name_at(names, text),
        Form::Pair(a, b) => pair_at(alloc, a, b, greatest, text),
        Form::Side(a, b) => sided_at(alloc, a, b, greatest, text),
    }
}

#[cycle(value_at)]
fn pair_at<'a>(
    alloc: Global,
    a: &Tree,
    b: &Tree,
    greatest: Amount,
    text: &'a [u8],
) -> Result<(Result<Value, LitFault>, &'a [u8]), ReadStop>
    requires first { MeetsRanges (expression_of a.now) }
    requires second { MeetsRanges (expression_of b.now) }
    requires greatest { greatest ≤ MAX_LITERAL_NUMBER }
    ensures { TakesValue greatest (pairs (carrier_of (expression_of a.now)) (carrier_of (expression_of b.now)))
        text.now result }
{
    let (u, text) = value_at(alloc, a, greatest, mark_at(text, b'(')?)?;
    let (v, text) = value_at(alloc, b, greatest, mark_at(text, b',')?)?;
    let text = mark_at(text, b')')?;
    Ok((pair_of(alloc, u, v)?, text))
}

#[cycle(value_at)]
fn sided_at<'a>(
    alloc: Global,
    a: &Tree,
    b: &Tree,
    greatest: Amount,
    text: &'a [u8],
) -> Result<(Result<Value, LitFault>, &'a [u8]), ReadStop>
    requires first { MeetsRanges (expression_of a.now) }
    requires second { MeetsRanges (expression_of b.now) }
    requires greatest { greatest ≤ MAX_LITERAL_NUMBER }
    ensures { TakesValue greatest (sides (carrier_of (expression_of a.now)) (carrier_of (expression_of b.now)))
        text.now result }
{
    match side_at(text)? {
        (Side::First, text) => {
            let (u, text) = value_at(alloc, a, greatest, text)?;
            Ok((first_of(alloc, u)?, text))
        }
        (Side::Second, text) => {
            let (v, text) = value_at(alloc, b, greatest, text)?;
            Ok((second_of(alloc, v)?, text))
        }
    }
}

fn whole_at(greatest: Amount, text: &[u8]) -> Result<(Result<Value, LitFault>, &[u8]), ReadStop>
    requires { greatest ≤ MAX_LITERAL_NUMBER }
    ensures { TakesValue greatest whole text.now result }
{
    let (n, rest) = number_at(text, greatest)?;
    Ok((Ok(Value::Number(n)), rest))
}

fn bounded_at(
    top: u64,
    greatest: Amount,
    text: &[u8],
) -> Result<(Result<Value, LitFault>, &[u8]), ReadStop>
    requires { greatest ≤ MAX_LITERAL_NUMBER }
    ensures { TakesValue greatest (up_to top) text.now result }
{
    let (n, rest) = number_at(text, greatest)?;
    Ok((number_up_to(top, n), rest))
}

fn number_up_to(top: u64, n: Amount) -> Result<Value, LitFault>
    ensures { value_outcome result ≡ where_true (nat_le n top) NotInCarrier (number n) }
{
    if n <= Amount::from(top) {
        Ok(Value::Number(n))
    } else {
        Err(LitFault::NotInCarrier)
    }
}

fn symbols_at(
    alloc: Global,
    count: u64,
    greatest: Amount,
    text: &[u8],
) -> Result<(Result<Value, LitFault>, &[u8]), ReadStop>
    requires { greatest ≤ MAX_LITERAL_NUMBER }
    ensures { TakesValue greatest (seqs count) text.now result }
{
    let (numbers, rest) = list_at(alloc, text, b'[', b']', greatest)?;
    Ok((symbols_from(alloc, count, &numbers)?, rest))
}

fn simple_at(
    alloc: Global,
    count: u64,
    greatest: Amount,
    text: &[u8],
) -> Result<(Result<Value, LitFault>, &[u8]), ReadStop>
    requires { greatest ≤ MAX_LITERAL_NUMBER }
    ensures { TakesValue greatest (simseqs count) text.now result }
{
    let (numbers, rest) = list_at(alloc, text, b'[', b']', greatest)?;
    Ok((simple_from(alloc, count, &numbers)?, rest))
}

// The sequence of these numbers, if each is a symbol.
fn symbols_from(
    alloc: Global,
    count: u64,
    numbers: &[Amount],
) -> Result<Result<Value, LitFault>, NoMemory>
    ensures { IfOk result (λ value. value_outcome value ≡ value_of (seqs count) (list_shape numbers.now)) }
{
    sequence_of(alloc, count, are_below(count, numbers), numbers)
}

// The sequence of these numbers, if each is a symbol and none is there twice.
fn simple_from(
    alloc: Global,
    count: u64,
    numbers: &[Amount],
) -> Result<Result<Value, LitFault>, NoMemory>
    ensures { IfOk result (λ value. value_outcome value ≡ value_of (simseqs count) (list_shape numbers.now)) }
{
    let are_in = are_simple(alloc, count, numbers)?;
    sequence_of(alloc, count, are_in, numbers)
}

fn are_simple(alloc: Global, count: u64, numbers: &[Amount]) -> Result<bool, NoMemory>
    ensures { IfOk result (λ are. are ≡ (list_all (λ n. nat_lt n count) numbers.now && distinct numbers.now)) }
{
    if !are_below(count, numbers) {
        return Ok(false);
    }
    are_distinct(alloc, numbers)
}

// The sequence of these numbers, if they make one.
fn sequence_of(
    alloc: Global,
    count: u64,
    are_in: bool,
    numbers: &[Amount],
) -> Result<Result<Value, LitFault>, NoMemory>
    requires { are_in ≡ true → list_all (λ n. nat_lt n count) numbers.now ≡ true }
    ensures { IfOk result (λ value. value_outcome value ≡ where_true are_in NotInCarrier (symbols numbers.now)) }
{
    if !are_in {
        return Ok(Err(LitFault::NotInCarrier));
    }
    Ok(Ok(Value::Symbols(symbols_of(alloc, count, numbers)?)))
}

// The symbols of these numbers, each of which is below the count.
fn symbols_of(alloc: Global, count: u64, numbers: &[Amount]) -> Result<List<u64>, NoMemory>
    requires { list_all (λ n. nat_lt n count) numbers.now ≡ true }
    ensures { IfOk result (λ symbols. symbols ≡ numbers.now) }
{
    let mut symbols = List::new(alloc);
    for n in numbers {
        symbols.push(*n as u64)?;
    }
    Ok(symbols)
}

fn set_at(
    alloc: Global,
    count: u64,
    greatest: Amount,
    text: &[u8],
) -> Result<(Result<Value, LitFault>, &[u8]), ReadStop>
    requires count { count ≤ MAX_MARKS }
    requires greatest { greatest ≤ MAX_LITERAL_NUMBER }
    ensures { TakesValue greatest (sets count) text.now result }
{
    let (numbers, rest) = list_at(alloc, text, b'{', b'}', greatest)?;
    let value = set_from(alloc, count, &numbers)?;
    Ok((value, rest))
}

// The set of these numbers, none of which may be there twice.
fn set_from(
    alloc: Global,
    count: u64,
    numbers: &[Amount],
) -> Result<Result<Value, LitFault>, ReadStop>
    requires { count ≤ MAX_MARKS }
    ensures found { IfOk result (λ value. set_from count numbers.now ≡ Some (value_outcome value)) }
    ensures none { result ≡ Err NoShape → set_from count numbers.now ≡ None }
{
    if !are_distinct(alloc, numbers)? {
        Err(ReadStop::NoShape)
    } else if are_below(count, numbers) {
        Ok(Ok(Value::Marks(set_of(count, numbers))))
    } else {
        Ok(Err(LitFault::NotInCarrier))
    }
}

// The set of these numbers, as a word with their bits.
fn set_of(count: u64, numbers: &[Amount]) -> u64
    requires count { count ≤ MAX_MARKS }
    requires numbers { list_all (λ n. nat_lt n count) numbers.now ≡ true }
    ensures { result ≡ set_of numbers.now }
{
    match numbers {
        [] => 0,
        [n, rest @ ..] => 1 << *n | set_of(count, rest),
    }
}

fn are_below(count: u64, numbers: &[Amount]) -> bool
    ensures { result ≡ list_all (λ n. nat_lt n count) numbers.now }
{
    numbers.iter().all(|n| *n < Amount::from(count))
}

// Whether no number is there twice.
fn are_distinct(alloc: Global, numbers: &[Amount]) -> Result<bool, NoMemory>
    ensures { IfOk result (λ are. are ≡ distinct numbers.now) }
{
    let mut seen = BTreeSet::new(alloc);
    for n in numbers {
        if !seen.insert(*n)? {
            return Ok(false);
        }
    }
    Ok(true)
}

fn unit_at(text: &[u8]) -> Result<(Result<Value, LitFault>, &[u8]), ReadStop>
    ensures { Takes value_outcome (option_and_then unit_at (take_word (parts_of text.now))) result }
{
    match word_at(text)? {
        (b"unit", rest) => Ok((Ok(Value::Unit), rest)),
        _ => Err(ReadStop::NoShape),
    }
}

fn name_at<'a>(
    names: &[Text],
    text: &'a [u8],
) -> Result<(Result<Value, LitFault>, &'a [u8]), ReadStop>
    requires { length names.now ≤ MAX_TABLE_NAMES }
    ensures { Takes value_outcome (name_at names.now (parts_of text.now)) result }
{
    let (word, rest) = word_at(text)?;
    let value = match place_of(names, word) {
        Some(place) => Ok(Value::Name(place)),
        None => Err(LitFault::NotInCarrier),
    };
    Ok((value, rest))
}

fn pair_of(
    alloc: Global,
    first: Result<Value, LitFault>,
    second: Result<Value, LitFault>,
) -> Result<Result<Value, LitFault>, NoMemory>
    ensures { IfOk result (λ both. value_outcome both ≡ both_of pair (value_outcome first) (value_outcome second)) }
{
    Ok(both(boxed(alloc, first)?, boxed(alloc, second)?).map(|(u, v)| Value::Pair(u, v)))
}

fn first_of(
    alloc: Global,
    value: Result<Value, LitFault>,
) -> Result<Result<Value, LitFault>, NoMemory>
    ensures { IfOk result (λ side. value_outcome side ≡ one_of first (value_outcome value)) }
{
    Ok(boxed(alloc, value)?.map(Value::First))
}

fn second_of(
    alloc: Global,
    value: Result<Value, LitFault>,
) -> Result<Result<Value, LitFault>, NoMemory>
    ensures { IfOk result (λ side. value_outcome side ≡ one_of second (value_outcome value)) }
{
    Ok(boxed(alloc, value)?.map(Value::Second))
}
