// Expression files: a header, if there is one, then `let`s, and then `main`.
ghost use Rattle.std.specs.Prelude.{◌≡◌, ◌≤◌, true, false, [], length, Some, MatchOption, IfSome, IfNone, IfOk, IfErr, OnOk};
ghost use Rattle.meta_base.specs.declared.limits.TheConstants.{MAX_FILE_BYTES};
ghost use Rattle.raml_lex.specs.Tokens.{end, step_of};
ghost use Rattle.alg_model.specs.Views.{expression_of};
ghost use Rattle.raml_syntax.specs.Syntax.{is_among};
ghost use Rattle.raml_syntax.specs.Meaning.{edition_of};
ghost use Rattle.raml_syntax.specs.Marks.{let_name, is_profile};
ghost use Rattle.raml_syntax.specs.ExprText.{ExprText, Trails};
ghost use Rattle.raml_syntax.specs.Leaves.{IsReady, IsRefusal};
ghost use Rattle.raml_syntax.specs.Sequences.{One, Reads, map_ok};
ghost use Rattle.raml_syntax.specs.Forest.{IsTree, tree_at};
ghost use Rattle.raml_syntax.specs.Definitions.{names_of, Keeps};
ghost use Rattle.raml_syntax.specs.Statements.{is_keyword, is_reserved, keyword_word, start, Opens, Body, Let, Statement, IsAlgError};
ghost use Rattle.raml_syntax.specs.Headers.{is_opening, opening_word, alg_read, Starts, Profile, ReadsText, LeadsText};

use crate::definitions::Definitions;
use crate::expect::{kind_of, refused, take_mark, take_number, take_word};
use crate::expression::read_expression;
use crate::forest::TreeId;
use crate::heads::head_of;
use crate::{AlgError, ExprKind};
use alg_model::{Alg, Edition, Tree};
use raml_lex::{TokenKind, Tokens};
use std::alloc::Global;

// The word that a statement begins with.
#[derive(Clone, Copy)]
enum Keyword {
    Let,
    Main,
}

// The keyword of this word, if it is one.
fn keyword_of(word: &[u8]) -> Option<Keyword>
    ensures { MatchOption result (is_keyword word.now ≡ false) (λ key. keyword_word key ≡ word.now) }
{
    match word {
        b"let" => Some(Keyword::Let),
        b"main" => Some(Keyword::Main),
        _ => None,
    }
}

// The word that a file begins with.
#[derive(Clone, Copy)]
enum Opening {
    Header,
    Statement(Keyword),
}

// What a file that begins with this word opens with, if it may begin with it.
fn opening_of(word: &[u8]) -> Option<Opening>
    ensures { MatchOption result (is_opening word.now ≡ false) (λ opening. opening_word opening ≡ word.now) }
{
    match word {
        b"raml" => Some(Opening::Header),
        _ => keyword_of(word).map(Opening::Statement),
    }
}

// Takes the word that begins a file.
fn take_opening(tokens: &mut Tokens<'_>) -> Result<Opening, AlgError>
    requires { IsReady tokens.old }
    ensures ready { OnOk result (IsReady tokens.new) }
    ensures reads { Reads Starts tokens.old result tokens.new }
{
    let word = take_word(tokens)?;
    match opening_of(word.text) {
        Some(opening) => Ok(opening),
        None => Err(refused(ExprKind::Unexpected, word.place)),
    }
}

// The edition of the profile of this number, if there is one.
fn edition_of(profile: u64) -> Option<Edition>
    ensures some { IfSome result (λ edition. (is_profile profile ≡ true) × (edition ≡ edition_of (Some profile))) }
    ensures none { IfNone result (is_profile profile ≡ false) }
{
    match profile {
        1 => Some(Edition::One),
        2 => Some(Edition::Two),
        _ => None,
    }
}

// Reads a header after its word.
fn read_profile(tokens: &mut Tokens<'_>) -> Result<Edition, AlgError>
    requires { IsReady tokens.old }
    ensures ready { OnOk result (IsReady tokens.new) }
    ensures reads { Reads Profile tokens.old result tokens.new }
{
    let (profile, place) = take_number(tokens)?;
    let Some(edition) = edition_of(profile) else {
        return Err(refused(ExprKind::UnknownProfile, place));
    };
    take_mark(tokens, TokenKind::Semicolon)?;
    Ok(edition)
}

// Takes the word that begins a statement.
fn take_keyword(tokens: &mut Tokens<'_>) -> Result<Keyword, AlgError>
    requires { IsReady tokens.old }
    ensures ready { OnOk result (IsReady tokens.new) }
    ensures reads { Reads Opens tokens.old result tokens.new }
{
    let word = take_word(tokens)?;
    match keyword_of(word.text) {
        Some(keyword) => Ok(keyword),
        None => Err(refused(ExprKind::Unexpected, word.place)),
    }
}

// Whether the grammar keeps the word for itself. Outside tables it doesn't keep `none`.
fn is_reserved(word: &[u8]) -> bool
    ensures { result ≡ is_reserved word.now }
{
    head_of(word).is_some() || keyword_of(word).is_some()
}

// Takes a name that may still be defined.
fn take_new_name<'a>(
    tokens: &mut Tokens<'a>,
    definitions: &Definitions<'_>,
) -> Result<&'a [u8], AlgError>
    requires { IsReady tokens.old }
    ensures ready { OnOk result (IsReady tokens.new) }
    ensures reads { Reads (One (let_name definitions.now.defined)) tokens.old
        (map_ok (λ name. name.now) result) tokens.new }
    ensures fresh { IfOk result (λ name. is_among (names_of definitions.now.defined) name.now ≡ false) }
{
    let word = take_word(tokens)?;
    if is_reserved(word.text) || definitions.has(word.text) {
        return Err(refused(ExprKind::NameTwice, word.place));
    }
    Ok(word.text)
}

// Reads an expression and its semicolon.
fn read_body(
    alloc: Global,
    tokens: &mut Tokens<'_>,
    definitions: &mut Definitions<'_>,
) -> Result<TreeId, AlgError>
    requires { IsReady tokens.old }
    ensures ready { OnOk result (IsReady tokens.new) }
    ensures reads { Reads (Body definitions.old.defined) tokens.old
        (map_ok (tree_at definitions.new.trees) result) tokens.new }
    ensures keeps { OnOk result (Keeps definitions.old definitions.new) }
    ensures tree { IfOk result (IsTree definitions.new.trees) }
{
    let mut nodes = 0;
    let tree = read_expression(alloc, tokens, definitions, &mut nodes)?;
    take_mark(tokens, TokenKind::Semicolon)?;
    Ok(tree)
}

// Reads a `let` after its word, and defines its name.
fn read_let<'a>(
    alloc: Global,
    tokens: &mut Tokens<'a>,
    definitions: &mut Definitions<'a>,
) -> Result<(), AlgError>
    requires { IsReady tokens.old }
    ensures ready { OnOk result (IsReady tokens.new) }
    ensures reads { Reads (Let definitions.old.defined) tokens.old
        (map_ok (λ _. definitions.new.defined) result) tokens.new }
{
    let name = take_new_name(tokens, definitions)?;
    take_mark(tokens, TokenKind::Equals)?;
    let tree = read_body(alloc, tokens, definitions)?;
    definitions.define(name, tree)?;
    Ok(())
}

// Reads the expression of `main` and its semicolon, and makes its tree.
fn read_main(
    alloc: Global,
    tokens: &mut Tokens<'_>,
    definitions: &mut Definitions<'_>,
) -> Result<Tree, AlgError>
    requires { IsReady tokens.old }
    ensures ready { OnOk result (IsReady tokens.new) }
    ensures reads { Reads (Body definitions.old.defined) tokens.old (map_ok expression_of result) tokens.new }
{
    let main = read_body(alloc, tokens, definitions)?;
    Ok(definitions.forest().tree(alloc, main)?)
}

// Reads the statements of a file after the word of the first, up to the semicolon of `main`.
fn read_statements(alloc: Global, tokens: &mut Tokens<'_>, first: Keyword) -> Result<Tree, AlgError>
    requires { IsReady tokens.old }
    ensures ready { OnOk result (IsReady tokens.new) }
    ensures reads { Reads (Statement [] first) tokens.old (map_ok expression_of result) tokens.new }
{
    let mut definitions = Definitions::new(alloc);
    let mut keyword = first;
    loop {
        match keyword {
            Keyword::Let => read_let(alloc, tokens, &mut definitions)?,
            Keyword::Main => return read_main(alloc, tokens, &mut definitions),
        }
        keyword = take_keyword(tokens)?;
    }
}

// Reads the header, if there is one, and the word that begins the first statement. The bound of the
// edition holds for what comes after the header.
fn read_opening(tokens: &mut Tokens<'_>) -> Result<(Edition, Keyword), AlgError>
    requires { tokens.old ≡ start tokens.old.rest }
    ensures ready { OnOk result (IsReady tokens.new) }
    ensures leads { IfOk result (λ r. LeadsText tokens.old.rest r.0 r.1 tokens.new) }
    ensures fault { IfErr result (IsAlgError tokens.old.rest) }
{
    match take_opening(tokens)? {
        Opening::Statement(keyword) => Ok((Edition::One, keyword)),
        Opening::Header => {
            let edition = read_profile(tokens)?;
            tokens.set_greatest(edition.greatest_number());
            Ok((edition, take_keyword(tokens)?))
        }
    }
}

// Reads a file up to the semicolon of `main`.
fn read_file(alloc: Global, tokens: &mut Tokens<'_>) -> Result<(Edition, Tree), AlgError>
    requires { tokens.old ≡ start tokens.old.rest }
    ensures ready { OnOk result (IsReady tokens.new) }
    ensures reads { ReadsText tokens.old.rest (map_ok alg_read result) tokens.new }
{
    let (edition, first) = read_opening(tokens)?;
    let tree = read_statements(alloc, tokens, first)?;
    Ok((edition, tree))
}

// Refuses what stands after the file, other than spaces and comments.
fn expect_end(tokens: &mut Tokens<'_>) -> Result<(), AlgError>
    requires { IsReady tokens.old }
    ensures end { OnOk result (step_of tokens.old.greatest tokens.old.rest ≡ end) }
    ensures fault { IfErr result (IsRefusal Trails tokens.old) }
{
    match tokens.next() {
        None => Ok(()),
        Some(Ok(token)) => Err(refused(ExprKind::TrailingText, token.place)),
        Some(Err(fault)) => Err(refused(kind_of(fault.kind), fault.place)),
    }
}

/// The algebra that the bytes of an expression file mean: any number of `let name = expression;`, and
/// then `main expression;`, where a name stands for the expression of its `let`. A header `raml 1;` or
/// `raml 2;` may stand before them; it says the profile, which is 1 without a header. The file has at
/// most [`meta_base::MAX_FILE_BYTES`] bytes.
///
/// [`AlgError::Bad`] comes exactly where the file means none, with its first fault and the place of
/// that. [`AlgError::NoMemory`] comes where there was no memory for the names and their trees. A tree is
/// kept once, and a name stands for it at no cost of its own, so the memory taken grows with the bytes of
/// the file alone. So does the time: a `plus` compares the carriers of its sides, which have fewer than
/// [`alg_model::MAX_TREE_NODES`] nodes. The stack used depends on that bound and not on the file.
pub fn read_alg(alloc: Global, source: &[u8]) -> Result<Alg, AlgError>
    requires { length source.now ≤ MAX_FILE_BYTES }
    ensures algebra { IfOk result (ExprText source.now) }
    ensures fault { IfErr result (IsAlgError source.now) }
{
    let mut tokens = Tokens::new(source);
    let (edition, tree) = read_file(alloc, &mut tokens)?;
    expect_end(&mut tokens)?;
    // What breaks a rule was refused at its own token.
    Ok(Alg::formed(tree, edition))
}
