// The maps of a table's row.
ghost use Rattle.std.specs.Prelude.{◌≡◌, ◌<◌, ◌≤◌, ◌&&◌, ◌||◌, [], true, get_or, length, map, not, option_map, IfOk, IfSome, OnOk};
ghost use Rattle.std.specs.List.{find, list_any};
ghost use Rattle.std.specs.Str.{bytes_eq};
ghost use Rattle.alg_model.specs.declared.alg.TheConstants.{MAX_TABLE_NAMES};
ghost use Rattle.alg_model.specs.Names.{place_of};
ghost use Rattle.raml_lex.specs.Lexers.{Lexer};
ghost use Rattle.raml_lex.specs.Tokens.{word};
ghost use Rattle.raml_syntax.specs.Differing.{differ};
ghost use Rattle.raml_syntax.specs.Leaves.{IsReady};
ghost use Rattle.raml_syntax.specs.Maps.{Maps, Target, after_map, after_row, is_new_source, sources, target_mark};
ghost use Rattle.raml_syntax.specs.Meaning.{image_place};
ghost use Rattle.raml_syntax.specs.Sequences.{One, Reads, map_ok};
ghost use Rattle.raml_syntax.specs.Syntax.{is_among, is_none};
ghost use Rattle.raml_syntax.specs.Tested.{ReadsFollowing};

use crate::expect::{refused, take, take_mark, take_word};
use crate::values::{is_among, is_none, is_same};
use crate::{AlgError, ExprKind};
use meta_base::{List, NoMemory, Text};
use raml_lex::{Token, TokenKind, Tokens};
use std::alloc::Global;
use std::marker::Model;

/// What the mark after a row leads to.
#[derive(Clone, Copy, Debug)]
pub enum AfterRow {
    // `;`
    Row,
    // `}`
    End,
}

/// What the mark after a map leads to.
#[derive(Clone, Copy, Debug)]
pub enum AfterMap {
    // `,`
    Map,
    // The row is over.
    After(AfterRow),
}

/// `source -> target`
#[derive(Debug, Drop)]
pub struct Map<'a> {
    source: &'a [u8],
    target: &'a [u8],
}

impl<'a> Model for Map<'a> {
    ghost use Rattle.raml_syntax.specs.Syntax.{MapSyntax};

    ghost Value = { MapSyntax };

    ghost view = { λ m. record { source = m.source.now; target = m.target.now } };
}

impl<'a> Map<'a> {
    fn source(&self) -> &'a [u8]
        ensures { result.now ≡ self.now.source }
    {
        self.source
    }

    fn target(&self) -> &'a [u8]
        ensures { result.now ≡ self.now.target }
    {
        self.target
    }
}

// Whether one of the maps has this source.
fn is_mapped(maps: &[Map<'_>], word: &[u8]) -> bool
    ensures { result ≡ list_any (λ m. bytes_eq m.source word.now) maps.now }
{
    maps.iter().any(|map| is_same(map.source(), word))
}

// Whether the word is one of the names, which are looked at from that place on, and then from the first. Maps mostly
// name the values in their order, and lead to a value near their source.
#[tactic(auto, using(crate::proofs::Among::among_parts))]
fn is_among_from(names: &[Text], place: usize, word: &[u8]) -> bool
    ensures { result ≡ is_among names.now word.now }
{
    let (before, from) = names.split_at(place.min(names.len()));
    is_among(from, word) || is_among(before, word)
}

// Whether the words before were the names before that place, in their order, and the word is the name there.
fn are_in_order(were_in_order: bool, names: &[Text], place: usize, word: &[u8]) -> bool
    ensures { result ≡ true
        → (were_in_order ≡ true) × (place < length names.now) × (get_or names.now place [] ≡ word.now) }
{
    were_in_order && place < names.len() && is_same(names[place].as_str().as_bytes(), word)
}

// Whether the word may be the source of a map after these. It may where it is the next of the names, and the sources
// before it are those before.
#[tactic(auto, using(crate::proofs::Words::among_sources))]
fn is_source(names: &[Text], maps: &[Map<'_>], is_next: bool, word: &[u8]) -> bool
    requires { is_next ≡ true → is_new_source names.now (sources maps.now) word.now ≡ true }
    ensures { result ≡ is_new_source names.now (sources maps.now) word.now }
{
    is_next || is_among_from(names, maps.len(), word) && !is_mapped(maps, word)
}

// Whether the word may be the target of a map of the value at that place.
fn is_target(names: &[Text], place: usize, word: &[u8]) -> bool
    ensures { result ≡ (is_none word.now || is_among names.now word.now) }
{
    is_none(word) || is_among_from(names, place, word)
}

// The first map of this source.
fn first_map_of<'m, 'a>(maps: &'m [Map<'a>], name: &[u8]) -> Option<&'m Map<'a>>
    ensures { option_map (λ m. m.now) result ≡ find (λ m. bytes_eq m.source name.now) maps.now }
{
    maps.iter().find(|map| is_same(map.source(), name))
}

// The map of this source, the only one. The map at that place is looked at first: maps mostly name the values in
// their order.
fn map_of<'m, 'a>(maps: &'m [Map<'a>], place: usize, name: &[u8]) -> Option<&'m Map<'a>>
    requires { differ (sources maps.now) ≡ true }
    ensures { option_map (λ m. m.now) result ≡ find (λ m. bytes_eq m.source name.now) maps.now }
{
    if place < maps.len() && is_same(maps[place].source(), name) {
        Some(&maps[place])
    } else {
        first_map_of(maps, name)
    }
}

// Where the first of the names stands that is this word.
fn position_in(names: &[Text], word: &[u8]) -> Option<usize>
    ensures place { result ≡ place_of names.now word.now }
    ensures within { IfSome result (λ place. place < length names.now) }
{
    names
        .iter()
        .position(|name| is_same(name.as_str().as_bytes(), word))
}

// The same among names no two of which are the same, which are looked at from that place on, and then from the first.
fn position_from(names: &[Text], place: usize, word: &[u8]) -> Option<usize>
    requires { differ names.now ≡ true }
    ensures place { result ≡ place_of names.now word.now }
    ensures within { IfSome result (λ place. place < length names.now) }
{
    let (before, from) = names.split_at(place.min(names.len()));
    match position_in(from, word) {
        Some(place) => Some(before.len() + place),
        None => position_in(names, word),
    }
}

// The same as a place of a table.
fn place_from(names: &[Text], place: usize, word: &[u8]) -> Option<u8>
    requires few { length names.now ≤ MAX_TABLE_NAMES }
    requires distinct { differ names.now ≡ true }
    ensures { result ≡ place_of names.now word.now }
{
    let place = position_from(names, place, word)?;
    Some(place as u8)
}

// The place of the image of the value of this name, which stands at that place.
fn image_place(names: &[Text], maps: &[Map<'_>], place: usize, name: &[u8]) -> Option<u8>
    requires few { length names.now ≤ MAX_TABLE_NAMES }
    requires distinct { differ names.now ≡ true }
    requires sources { differ (sources maps.now) ≡ true }
    ensures { result ≡ image_place names.now maps.now name.now }
{
    let map = map_of(maps, place, name)?;
    place_from(names, place, map.target())
}

/// The places of the images of all values.
pub fn images(alloc: Global, names: &[Text], maps: &[Map<'_>]) -> Result<List<Option<u8>>, NoMemory>
    requires few { length names.now ≤ MAX_TABLE_NAMES }
    requires distinct { differ names.now ≡ true }
    requires sources { differ (sources maps.now) ≡ true }
    ensures { IfOk result (λ images. images ≡ map (image_place names.now maps.now) names.now) }
{
    let mut images = List::from_vec(Vec::with_capacity(alloc, names.len())?);
    for name in names {
        images.push(image_place(
            names,
            maps,
            images.as_slice().len(),
            name.as_str().as_bytes(),
        ))?;
    }
    Ok(images)
}

fn take_after_row(tokens: &mut Tokens<'_>) -> Result<AfterRow, AlgError>
    requires { IsReady tokens.old }
    ensures ready { OnOk result (IsReady tokens.new) }
    ensures mark { Reads (One after_row) tokens.old result tokens.new }
{
    let token = take(tokens)?;
    match token.kind {
        TokenKind::Semicolon => Ok(AfterRow::Row),
        TokenKind::RightBrace => Ok(AfterRow::End),
        _ => Err(refused(ExprKind::Unexpected, token.place)),
    }
}

// Takes the mark after a map, mostly a comma straight after it.
#[inline(always)]
fn take_after_map(tokens: &mut Tokens<'_>) -> Result<AfterMap, AlgError>
    requires { IsReady tokens.old }
    ensures ready { OnOk result (IsReady tokens.new) }
    ensures mark { Reads (One after_map) tokens.old result tokens.new }
{
    match tokens.next_at_hand(TokenKind::Comma) {
        Some(_) => Ok(AfterMap::Map),
        None => take_any_after_map(tokens),
    }
}

// The same after any gap, whichever it is.
#[inline(never)]
fn take_any_after_map(tokens: &mut Tokens<'_>) -> Result<AfterMap, AlgError>
    requires { IsReady tokens.old }
    ensures ready { OnOk result (IsReady tokens.new) }
    ensures mark { Reads (One after_map) tokens.old result tokens.new }
{
    let token = take(tokens)?;
    match token.kind {
        TokenKind::Comma => Ok(AfterMap::Map),
        TokenKind::Semicolon => Ok(AfterMap::After(AfterRow::Row)),
        TokenKind::RightBrace => Ok(AfterMap::After(AfterRow::End)),
        _ => Err(refused(ExprKind::Unexpected, token.place)),
    }
}

// Reads the target of a map of the value at that place.
#[inline(always)]
fn read_target<'a>(
    tokens: &mut Tokens<'a>,
    names: &[Text],
    place: usize,
) -> Result<&'a [u8], AlgError>
    requires { IsReady tokens.old }
    ensures ready { OnOk result (IsReady tokens.new) }
    ensures target { Reads (One (target_mark names.now)) tokens.old (map_ok (λ w. w.now) result) tokens.new }
{
    let word = take_word(tokens)?;
    if is_target(names, place, word.text) {
        Ok(word.text)
    } else {
        Err(refused(ExprKind::BadTable, word.place))
    }
}

// Reads a map whose source was taken before, after these maps. The source may be known to be the next of the names.
#[inline(always)]
fn read_map<'a>(
    tokens: &mut Tokens<'a>,
    names: &[Text],
    maps: &[Map<'a>],
    is_next: bool,
    source: Token<'a>,
) -> Result<Map<'a>, AlgError>
    requires ready { IsReady tokens.old }
    requires next { is_next ≡ true → is_new_source names.now (sources maps.now) source.text.now ≡ true }
    ensures ready { OnOk result (IsReady tokens.new) }
    ensures source { IfOk result (λ m. m.source ≡ source.entry.text.now) }
    ensures map { ReadsFollowing (is_new_source names.now (sources maps.now) source.entry.text.now)
        source.entry.place (Target names.now source.entry.text.now) tokens.old result tokens.new }
{
    if !is_source(names, maps, is_next, source.text) {
        return Err(refused(ExprKind::BadTable, source.place));
    }
    take_mark(tokens, TokenKind::Arrow)?;
    let target = read_target(tokens, names, maps.len())?;
    Ok(Map {
        source: source.text,
        target,
    })
}

/// Reads what stands after a row's colon, and the mark after the row.
pub fn read_maps<'a>(
    alloc: Global,
    tokens: &mut Tokens<'a>,
    names: &[Text],
) -> Result<(List<Map<'a>>, AfterRow), AlgError>
    requires ready { IsReady tokens.old }
    requires distinct { differ names.now ≡ true }
    ensures ready { OnOk result (IsReady tokens.new) }
    ensures maps { Reads (Maps names.now) tokens.old result tokens.new }
{
    let first = take_word(tokens)?;
    if is_none(first.text) {
        return Ok((List::new(alloc), take_after_row(tokens)?));
    }
    let mut maps = List::from_vec(Vec::with_capacity(alloc, names.len())?);
    let mut in_order = are_in_order(true, names, 0, first.text);
    maps.push(read_map(tokens, names, maps.as_slice(), in_order, first)?)?;
    loop {
        if let AfterMap::After(after) = take_after_map(tokens)? {
            return Ok((maps, after));
        }
        let source = take_word(tokens)?;
        in_order = are_in_order(in_order, names, maps.as_slice().len(), source.text);
        maps.push(read_map(tokens, names, maps.as_slice(), in_order, source)?)?;
    }
}
