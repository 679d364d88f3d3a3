// Base algebras of numbers, after the words that begin them.
ghost use Rattle.std.specs.Prelude.{◌≡◌, IfOk, OnOk, []};
ghost use Rattle.raml_lex.specs.Views.{tok_of};
ghost use Rattle.alg_model.specs.Views.{expression_of};
ghost use Rattle.alg_model.specs.Formation.{node_count};
ghost use Rattle.raml_syntax.specs.Tests.{is_in_range};
ghost use Rattle.raml_syntax.specs.Leaves.{IsReady, IsMark};
ghost use Rattle.raml_syntax.specs.Sequences.{Reads, map_ok};
ghost use Rattle.raml_syntax.specs.Heads.{ranged_of, counted_of};
ghost use Rattle.raml_syntax.specs.Forms.{NumberBefore, Last, finished, AddTail, RangedTail, CountedTail};

use crate::expect::{refused, take_mark, take_number};
use crate::heads::{Counted, Ranged};
use crate::{AlgError, ExprKind};
use alg_model::Tree;
use raml_lex::{TokenKind, Tokens};

// A base algebra whose last number is still to come.
#[derive(Clone, Copy)]
enum Begun {
    Add { low: u64 },
    Ranged { kind: Ranged, top: u64, low: u64 },
    Counted(Counted),
}

impl Begun {
    // Whether it meets the rule on ranges with this last number.
    fn accepts(self, last: u64) -> bool
        ensures { result ≡ is_in_range (finished self last) }
    {
        match self {
            Begun::Add { low } => low <= last,
            Begun::Ranged { kind, top, low } => kind.accepts(top, low, last),
            Begun::Counted(kind) => kind.accepts(last),
        }
    }

    // The algebra with this last number.
    fn finish(self, last: u64) -> Tree
        ensures { expression_of result ≡ finished self last }
    {
        match self {
            Begun::Add { low } => Tree::Add { low, high: last },
            Begun::Ranged { kind, top, low } => kind.tree(top, low, last),
            Begun::Counted(kind) => kind.tree(last),
        }
    }
}

// A number and the mark after it.
fn read_number_before(tokens: &mut Tokens<'_>, mark: TokenKind) -> Result<u64, AlgError>
    requires ready { IsReady tokens.old }
    requires mark { IsMark mark }
    ensures ready { OnOk result (IsReady tokens.new) }
    ensures reads { Reads (NumberBefore (tok_of mark [])) tokens.old result tokens.new }
{
    let (number, _) = take_number(tokens)?;
    take_mark(tokens, mark)?;
    Ok(number)
}

// The last number and the parenthesis after it. A number that breaks the rule on ranges is refused
// at its own place.
fn read_last(tokens: &mut Tokens<'_>, begun: Begun) -> Result<Tree, AlgError>
    requires { IsReady tokens.old }
    ensures ready { OnOk result (IsReady tokens.new) }
    ensures reads { Reads (Last (finished begun)) tokens.old (map_ok expression_of result) tokens.new }
    ensures node { IfOk result (λ tree. node_count (expression_of tree) ≡ 1) }
{
    let (last, place) = take_number(tokens)?;
    if !begun.accepts(last) {
        return Err(refused(ExprKind::BadRange, place));
    }
    take_mark(tokens, TokenKind::RightParen)?;
    Ok(begun.finish(last))
}

/// Reads `(low..high)`.
pub fn read_add(tokens: &mut Tokens<'_>) -> Result<Tree, AlgError>
    requires { IsReady tokens.old }
    ensures ready { OnOk result (IsReady tokens.new) }
    ensures reads { Reads AddTail tokens.old (map_ok expression_of result) tokens.new }
    ensures node { IfOk result (λ tree. node_count (expression_of tree) ≡ 1) }
{
    take_mark(tokens, TokenKind::LeftParen)?;
    let low = read_number_before(tokens, TokenKind::Dots)?;
    read_last(tokens, Begun::Add { low })
}

/// Reads `(top; low..high)`.
pub fn read_ranged(tokens: &mut Tokens<'_>, kind: Ranged) -> Result<Tree, AlgError>
    requires { IsReady tokens.old }
    ensures ready { OnOk result (IsReady tokens.new) }
    ensures reads { Reads (RangedTail (ranged_of kind)) tokens.old (map_ok expression_of result) tokens.new }
    ensures node { IfOk result (λ tree. node_count (expression_of tree) ≡ 1) }
{
    take_mark(tokens, TokenKind::LeftParen)?;
    let top = read_number_before(tokens, TokenKind::Semicolon)?;
    let low = read_number_before(tokens, TokenKind::Dots)?;
    read_last(tokens, Begun::Ranged { kind, top, low })
}

/// Reads `(number)`.
pub fn read_counted(tokens: &mut Tokens<'_>, kind: Counted) -> Result<Tree, AlgError>
    requires { IsReady tokens.old }
    ensures ready { OnOk result (IsReady tokens.new) }
    ensures reads { Reads (CountedTail (counted_of kind)) tokens.old (map_ok expression_of result) tokens.new }
    ensures node { IfOk result (λ tree. node_count (expression_of tree) ≡ 1) }
{
    take_mark(tokens, TokenKind::LeftParen)?;
    read_last(tokens, Begun::Counted(kind))
}
