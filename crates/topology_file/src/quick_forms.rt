// Lines of arcs at the front of a text, read in one pass.
ghost use Rattle.std.specs.Prelude.{◌≡◌, ◌≤◌, true, length, take, drop, IfSome};
ghost use Rattle.meta_base.specs.Bytes.{front, after_front};
ghost use Rattle.net_graph.specs.Nets.{is_name_byte};
ghost use Rattle.topology_file.specs.Keys.{AreBytes, key_from};
ghost use Rattle.topology_file.specs.Views.{pure_arc_line};
ghost use Rattle.topology_file.specs.QuickForms.{begins_with, ends_name, has_name_length, is_said_byte, word_of, BeginsNamed, IsColonThen, IsAfterEnd, EndsLine, BeginsWithLine};

use crate::MAX_LINE_BYTES;
use crate::forms::{ArcLine, Ways};
use crate::names::is_name_part;
use crate::texts::{after_one, split_at_byte};
use crate::word::{Word, key_with};
use meta_base::bytes::{after_blanks, is_blank};

// Kept out of the loop over lines, where there are too few registers for it.
/// The text of the lines after the first, if that is one of an arc, whose parts are written where they are lent. Where it
/// is `None` the first line may still be one, and what is written isn't said.
#[inline(never)]
pub fn arc_line<'a>(text: &'a [u8], line: &mut ArcLine<'a>) -> Option<&'a [u8]>
    ensures { IfSome result (λ others. BeginsWithLine text.now others.now (pure_arc_line line.new)) }
{
    let (ways, rest) = split_ways(text)?;
    line.ways = ways;
    let rest = split_name(rest, &mut line.listener)?;
    let rest = split_name(rest, &mut line.speaker)?;
    let rest = split_said(after_colon(rest)?, &mut line.label);
    let rest = after_end(rest);
    let others = after_line(rest)?;
    if text.len().saturating_sub(rest.len()) > MAX_LINE_BYTES {
        return None;
    }
    Some(others)
}

// Which arcs the first word asks for, and the text after it.
#[tactic(auto, using(crate::proofs::QuickForms::link_first, crate::proofs::QuickForms::both_first))]
fn split_ways(text: &[u8]) -> Option<(Ways, &[u8])>
    ensures { IfSome result (λ split. BeginsNamed text.now (word_of split.0) split.1.now) }
{
    match text {
        [b'l', b'i', b'n', b'k', rest @ ..] if is_name_ended(rest) => Some((Ways::One, rest)),
        [b'b', b'o', b't', b'h', rest @ ..] if is_name_ended(rest) => Some((Ways::Both, rest)),
        _ => None,
    }
}

// The text after the first word, which is a name and is written where it is lent. Where it is `None` there may still be
// one.
fn split_name<'a>(text: &'a [u8], name: &mut Word<'a>) -> Option<&'a [u8]>
    ensures { IfSome result (λ rest. BeginsNamed text.now name.new rest.now) }
{
    let text = after_blanks(text);
    let (first, rest) = split_after_name(text);
    if !is_of_name_length(first.text()) || !is_name_ended(rest) {
        return None;
    }
    *name = first;
    Some(rest)
}

// The text after a colon, if nothing but blanks stands before it.
fn after_colon(text: &[u8]) -> Option<&[u8]>
    ensures { IfSome result (λ literal. IsColonThen text.now literal.now) }
{
    let rest = after_blanks(text);
    if !begins_with(rest, b':') {
        return None;
    }
    Some(after_one(rest))
}

fn begins_with(text: &[u8], wanted: u8) -> bool
    ensures { result ≡ begins_with wanted text.now }
{
    match text {
        [] => false,
        [byte, ..] => *byte == wanted,
    }
}

// The bytes up to the first that is in no name, and the text from there on.
fn split_after_name(text: &[u8]) -> (Word<'_>, &[u8])
    ensures front { result.0 ≡ front is_name_byte text.now }
    ensures after_front { result.1.now ≡ after_front is_name_byte text.now }
{
    let (len, key) = name_front(text);
    let (name, rest) = text.split_at(len);
    (Word::keyed(name, key), rest)
}

// How many these bytes are, and their key.
fn name_front(text: &[u8]) -> (usize, u64)
    ensures within { result.0 ≤ length text.now }
    ensures front { take result.0 text.now ≡ front is_name_byte text.now }
    ensures after_front { drop result.0 text.now ≡ after_front is_name_byte text.now }
    ensures key { key_from 0 (front is_name_byte text.now) ≡ result.1 }
{
    let mut len = 0;
    let mut key = 0;
    for byte in text {
        if !is_name_part(*byte) {
            break;
        }
        key = key_with(key, *byte);
        len += 1;
    }
    (len, key)
}

// Kept apart for the same reason.
// The text from the first byte on that may end what a line says. The bytes before it are written where they are lent.
#[inline(never)]
fn split_said<'a>(text: &'a [u8], said: &mut Word<'a>) -> &'a [u8]
    ensures front { said.new ≡ front is_said_byte text.now }
    ensures after_front { result.now ≡ after_front is_said_byte text.now }
{
    let (len, key) = said_front(text);
    let (bytes, rest) = text.split_at(len);
    *said = Word::keyed(bytes, key);
    rest
}

// How many these bytes are, and their key.
fn said_front(text: &[u8]) -> (usize, u64)
    ensures within { result.0 ≤ length text.now }
    ensures front { take result.0 text.now ≡ front is_said_byte text.now }
    ensures after_front { drop result.0 text.now ≡ after_front is_said_byte text.now }
    ensures key { key_from 0 (front is_said_byte text.now) ≡ result.1 }
    ensures bytes { AreBytes (front is_said_byte text.now) }
{
    let mut len = 0;
    let mut key = 0;
    for byte in text {
        if matches!(*byte, b'\n' | b'\r' | b'#') {
            break;
        }
        key = key_with(key, *byte);
        len += 1;
    }
    (len, key)
}

// The text after a carriage return or a comment.
#[tactic(auto, using(crate::proofs::QuickForms::after_return, crate::proofs::QuickForms::after_comment, crate::proofs::QuickForms::after_nothing))]
fn after_end(text: &[u8]) -> &[u8]
    ensures { IsAfterEnd text.now result.now }
{
    if begins_with(text, b'\r') {
        return after_one(text);
    }
    if begins_with(text, b'#') {
        let (_, rest) = split_at_byte(text, b'\n');
        return rest;
    }
    text
}

// The text of the other lines, if a line ends here.
fn after_line(rest: &[u8]) -> Option<&[u8]>
    ensures { IfSome result (λ others. EndsLine rest.now others.now) }
{
    match rest {
        [] => Some(rest),
        [b'\n', others @ ..] => Some(others),
        _ => None,
    }
}

fn is_of_name_length(name: &[u8]) -> bool
    ensures { result ≡ has_name_length name.now }
{
    1 <= name.len() && name.len() <= 32
}

// Whether a blank or a colon comes first.
fn is_name_ended(rest: &[u8]) -> bool
    ensures { result ≡ ends_name rest.now }
{
    match rest {
        [] => false,
        [byte, ..] => is_blank(*byte) || *byte == b':',
    }
}
