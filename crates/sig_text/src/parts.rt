// The parts of a literal, read one at a time from the front of a text.
ghost use Rattle.std.specs.Prelude.{◌≡◌, ◌≤◌, [], OnOk, Err};
ghost use Rattle.sig_text.specs.Parts.{part_at};
ghost use Rattle.sig_text.specs.Sequences.{parts_of};
ghost use Rattle.sig_text.specs.Views.{IsStep, IsFront, Takes, Leaves};
ghost use Rattle.sig_text.specs.declared.bytes.TheConstants.{MAX_LITERAL_NUMBER};
ghost use Rattle.sig_text.specs.Reading.{take_mark, take_number, take_word, take_side, take_list, items_until, take_either, take_marked, take_scope};
ghost use Rattle.sig_text.specs.declared.faults.ReadStop.TheVariants.{NoShape};

use crate::bytes::{split_number, split_word};
use crate::faults::ReadStop;
use alg_model::Amount;
use meta_base::bytes::{after_blanks, is_digit, is_letter};
use std::alloc::Global;

/// What stands at the front of a text, and after it the rest of the text.
#[derive(Clone, Copy, Debug)]
pub enum Next<'a> {
    End,
    Word(&'a [u8], &'a [u8]),
    Number(Amount, &'a [u8]),
    /// Digits that spell a number above [`crate::MAX_LITERAL_NUMBER`].
    TooLarge,
    Mark(u8, &'a [u8]),
}

/// What stands at the front of a text, after blanks.
#[tactic(auto, using(crate::proofs::Sequences::step_front))]
pub fn next_part(text: &[u8]) -> Next<'_>
    ensures { IsFront result (parts_of text.now) }
{
    next_at(after_blanks(text))
}

// The same of a text that begins with no blank.
fn next_at(text: &[u8]) -> Next<'_>
    ensures { IsStep result (part_at text.now) }
{
    match text {
        [] => Next::End,
        [byte, ..] if is_letter(*byte) => {
            let (word, rest) = split_word(text);
            Next::Word(word, rest)
        }
        [byte, ..] if is_digit(*byte) => match split_number(text) {
            (Some(n), rest) => Next::Number(n, rest),
            (None, _) => Next::TooLarge,
        },
        [byte, rest @ ..] => Next::Mark(*byte, rest),
    }
}

/// Only blanks are left.
pub fn end_at(text: &[u8]) -> Result<(), ReadStop>
    ensures found { OnOk result (parts_of text.now ≡ []) }
    ensures none { result ≡ Err NoShape → parts_of text.now ≡ [] → ⊥ }
{
    match next_part(text) {
        Next::End => Ok(()),
        _ => Err(ReadStop::NoShape),
    }
}

/// What comes after that mark.
pub fn mark_at(text: &[u8], wanted: u8) -> Result<&[u8], ReadStop>
    ensures { Leaves (take_mark wanted (parts_of text.now)) result }
{
    match next_part(text) {
        Next::Mark(mark, rest) if mark == wanted => Ok(rest),
        _ => Err(ReadStop::NoShape),
    }
}

/// A number that is at most the greatest, and what comes after it.
pub fn number_at(text: &[u8], greatest: Amount) -> Result<(Amount, &[u8]), ReadStop>
    requires { greatest ≤ MAX_LITERAL_NUMBER }
    ensures { Takes (λ n. n) (take_number greatest (parts_of text.now)) result }
{
    match next_part(text) {
        Next::Number(n, rest) if n <= greatest => Ok((n, rest)),
        _ => Err(ReadStop::NoShape),
    }
}

/// A word, and what comes after it.
pub fn word_at(text: &[u8]) -> Result<(&[u8], &[u8]), ReadStop>
    ensures { Takes (λ w. w.now) (take_word (parts_of text.now)) result }
{
    match next_part(text) {
        Next::Word(word, rest) => Ok((word, rest)),
        _ => Err(ReadStop::NoShape),
    }
}

/// The side that a value or a label is of.
#[derive(Clone, Copy, Debug)]
pub enum Side {
    First,
    Second,
}

/// The side that `l:` or `r:` says, and what comes after it.
pub fn side_at(text: &[u8]) -> Result<(Side, &[u8]), ReadStop>
    ensures { Takes (λ side. side) (take_side (parts_of text.now)) result }
{
    let (word, rest) = word_at(text)?;
    let rest = mark_at(rest, b':')?;
    match word {
        b"l" => Ok((Side::First, rest)),
        b"r" => Ok((Side::Second, rest)),
        _ => Err(ReadStop::NoShape),
    }
}

/// Which part of a pair a label changes.
#[derive(Clone, Copy, Debug)]
pub enum Scope {
    /// The first, and it sets the second.
    Outer,
    /// The second.
    Inner,
}

/// The scope that `out` or `in` says, and what comes after it.
pub fn scope_at(text: &[u8]) -> Result<(Scope, &[u8]), ReadStop>
    ensures { Takes (λ scope. scope) (take_scope (parts_of text.now)) result }
{
    match word_at(text)? {
        (b"out", rest) => Ok((Scope::Outer, rest)),
        (b"in", rest) => Ok((Scope::Inner, rest)),
        _ => Err(ReadStop::NoShape),
    }
}

// One of two marks, and what comes after it.
fn either_at(text: &[u8], one: u8, other: u8) -> Result<(u8, &[u8]), ReadStop>
    ensures { Takes (λ mark. mark) (take_either one other (parts_of text.now)) result }
{
    match next_part(text) {
        Next::Mark(mark, rest) if mark == one || mark == other => Ok((mark, rest)),
        _ => Err(ReadStop::NoShape),
    }
}

/// One of two marks and a number, and what comes after them.
pub fn marked_at(
    text: &[u8],
    one: u8,
    other: u8,
    greatest: Amount,
) -> Result<((u8, Amount), &[u8]), ReadStop>
    requires { greatest ≤ MAX_LITERAL_NUMBER }
    ensures { Takes (λ marked. marked) (take_marked greatest one other (parts_of text.now)) result }
{
    let (mark, rest) = either_at(text, one, other)?;
    let (n, rest) = number_at(rest, greatest)?;
    Ok(((mark, n), rest))
}

/// The numbers between two marks, with commas between them, and what comes after.
pub fn list_at(
    alloc: Global,
    text: &[u8],
    opening: u8,
    closing: u8,
    greatest: Amount,
) -> Result<(Vec<Amount>, &[u8]), ReadStop>
    requires { greatest ≤ MAX_LITERAL_NUMBER }
    ensures { Takes (λ ns. ns.items) (take_list greatest opening closing (parts_of text.now)) result }
{
    let text = mark_at(text, opening)?;
    match next_part(text) {
        Next::Mark(mark, rest) if mark == closing => Ok((Vec::new(alloc), rest)),
        _ => items_until(alloc, text, closing, greatest),
    }
}

// The numbers up to that mark, of which there is one at least.
fn items_until(
    alloc: Global,
    text: &[u8],
    closing: u8,
    greatest: Amount,
) -> Result<(Vec<Amount>, &[u8]), ReadStop>
    requires { greatest ≤ MAX_LITERAL_NUMBER }
    ensures { Takes (λ ns. ns.items) (items_until greatest closing [] (parts_of text.now)) result }
{
    let mut numbers = Vec::new(alloc);
    let mut text = text;
    loop {
        let (n, after) = number_at(text, greatest)?;
        numbers.push(n)?;
        match next_part(after) {
            Next::Mark(mark, rest) if mark == closing => return Ok((numbers, rest)),
            Next::Mark(b',', rest) => text = rest,
            _ => return Err(ReadStop::NoShape),
        }
    }
}
