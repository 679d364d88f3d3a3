// The values of a table.
ghost use Rattle.std.specs.Prelude.{◌≡◌, ◌+◌, ◌*◌, ◌<◌, ◌≤◌, ◌^◌, ◌&&◌, true, length, not, nat_le, IfOk, OnOk};
ghost use Rattle.std.specs.Str.{IsAscii, bytes_eq};
ghost use Rattle.alg_model.specs.declared.alg.TheConstants.{MAX_TABLE_NAMES};
ghost use Rattle.raml_syntax.specs.Leaves.{IsReady};
ghost use Rattle.raml_syntax.specs.Marks.{own_name};
ghost use Rattle.raml_syntax.specs.Sequences.{One, Reads};
ghost use Rattle.raml_syntax.specs.Syntax.{is_among, is_none};
ghost use Rattle.raml_syntax.specs.Tested.{Tested};
ghost use Rattle.raml_syntax.specs.Values.{Values, after_value, rank_following};

use crate::expect::{refused, take, take_word};
use crate::{AlgError, ExprKind};
use alg_model::MAX_TABLE_NAMES;
use meta_base::{List, NoMemory, Text};
use raml_lex::{Token, TokenKind, Tokens};
use std::alloc::Global;

/// What the mark after a value leads to.
#[derive(Clone, Copy, Debug)]
pub enum AfterValue {
    // `=` or `<`: a value of the same rank, or of the next.
    Value { is_tied: bool },
    // `;`
    Rows,
}

/// The names and ranks of the values of a table.
#[derive(Debug, Drop)]
pub struct ValueList {
    pub names: List<Text>,
    pub ranks: List<u8>,
}

/// Whether the word is `none`, which names no value and no row.
pub fn is_none(word: &[u8]) -> bool
    ensures { result ≡ is_none word.now }
{
    is_same(word, b"none")
}

// Whether two words, of one length, have the same last byte.
#[inline(always)]
fn ends_alike(name: &[u8], word: &[u8]) -> bool
    requires { length name.now ≡ length word.now }
    ensures { name.now ≡ word.now → result ≡ true }
{
    word.is_empty() || name[word.len() - 1] == word[word.len() - 1]
}

// The number that four bytes make, which no other four make.
#[inline(always)]
fn number_of(a: u8, b: u8, c: u8, d: u8) -> u32
    ensures { result ≡ a + b * 256 + c * 65536 + d * 16777216 }
{
    u32::from_le_bytes([a, b, c, d])
}

// Whether two words, of one length, have the same bytes, which are compared in turn.
fn are_alike_in_turn(name: &[u8], word: &[u8]) -> bool
    requires { length name.now ≡ length word.now }
    ensures { result ≡ bytes_eq name.now word.now }
{
    for place in 0..name.len() {
        if name[place] != word[place] {
            return false;
        }
    }
    true
}

// Whether two words, of one length, have the same bytes. Words are short: the first four bytes are compared at once, and
// those after them in turn.
fn are_spelled_alike(name: &[u8], word: &[u8]) -> bool
    requires { length name.now ≡ length word.now }
    ensures { result ≡ bytes_eq name.now word.now }
{
    match (name, word) {
        ([a, b, c, d, name @ ..], [e, f, g, h, word @ ..]) => {
            number_of(*a, *b, *c, *d) == number_of(*e, *f, *g, *h) && are_alike_in_turn(name, word)
        }
        _ => are_alike_in_turn(name, word),
    }
}

/// Whether both are the same word. Names of a table are mostly alike at their front, so the last byte is compared
/// first.
#[inline(always)]
#[tactic(auto, using(crate::proofs::Words::other_words))]
pub fn is_same(name: &[u8], word: &[u8]) -> bool
    ensures { result ≡ bytes_eq name.now word.now }
{
    name.len() == word.len() && ends_alike(name, word) && are_spelled_alike(name, word)
}

/// Whether the word is one of the names.
pub fn is_among(names: &[Text], word: &[u8]) -> bool
    ensures { result ≡ is_among names.now word.now }
{
    names
        .iter()
        .any(|name| is_same(name.as_str().as_bytes(), word))
}

fn copied(alloc: Global, word: &[u8]) -> Result<Text, NoMemory>
    requires { IsAscii word.now }
    ensures { IfOk result (λ text. text ≡ word.now) }
{
    match str::from_utf8(word) {
        Ok(text) => Text::copy(alloc, text),
        Err(_) => unreachable!(),
    }
}

/// The word as the name of a value or of a row, after so many of them.
pub fn new_name(
    alloc: Global,
    word: Token<'_>,
    before: usize,
    is_there: bool,
) -> Result<Text, AlgError>
    requires { IsAscii word.text.now }
    ensures { Tested (not (is_none word.entry.text.now) && not is_there && nat_le (before + 1) MAX_TABLE_NAMES)
        word.entry.place word.entry.text.now result }
{
    if is_none(word.text) || is_there || before >= MAX_TABLE_NAMES {
        return Err(refused(ExprKind::BadTable, word.place));
    }
    Ok(copied(alloc, word.text)?)
}

fn read_value_name(alloc: Global, tokens: &mut Tokens<'_>, names: &[Text]) -> Result<Text, AlgError>
    requires { IsReady tokens.old }
    ensures ready { OnOk result (IsReady tokens.new) }
    ensures room { OnOk result (length names.now < MAX_TABLE_NAMES) }
    ensures name { Reads (One (own_name names.now)) tokens.old result tokens.new }
{
    let word = take_word(tokens)?;
    new_name(alloc, word, names.len(), is_among(names, word.text))
}

fn take_after_value(tokens: &mut Tokens<'_>) -> Result<AfterValue, AlgError>
    requires { IsReady tokens.old }
    ensures ready { OnOk result (IsReady tokens.new) }
    ensures mark { Reads (One after_value) tokens.old result tokens.new }
{
    let token = take(tokens)?;
    match token.kind {
        TokenKind::Equals => Ok(AfterValue::Value { is_tied: true }),
        TokenKind::Less => Ok(AfterValue::Value { is_tied: false }),
        TokenKind::Semicolon => Ok(AfterValue::Rows),
        _ => Err(refused(ExprKind::Unexpected, token.place)),
    }
}

// The rank of a value after one of this rank.
fn rank_following(rank: u8, is_tied: bool) -> u8
    requires { rank + 1 < 2 ^ 8 }
    ensures { result ≡ rank_following rank is_tied }
{
    if is_tied { rank } else { rank + 1 }
}

/// Reads the values, and the semicolon after them.
pub fn read_values(alloc: Global, tokens: &mut Tokens<'_>) -> Result<ValueList, AlgError>
    requires { IsReady tokens.old }
    ensures ready { OnOk result (IsReady tokens.new) }
    ensures few { IfOk result (λ values. length values.names ≤ MAX_TABLE_NAMES) }
    ensures values { Reads Values tokens.old result tokens.new }
{
    let mut names = List::new(alloc);
    let mut ranks = List::new(alloc);
    let first = read_value_name(alloc, tokens, names.as_slice())?;
    names.push(first)?;
    ranks.push(0)?;
    let mut rank = 0;
    while let AfterValue::Value { is_tied } = take_after_value(tokens)? {
        let name = read_value_name(alloc, tokens, names.as_slice())?;
        names.push(name)?;
        rank = rank_following(rank, is_tied);
        ranks.push(rank)?;
    }
    Ok(ValueList { names, ranks })
}
