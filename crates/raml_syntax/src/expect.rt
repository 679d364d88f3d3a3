// Single tokens: the one that is wanted, or the fault of what stands in its place.
ghost use Rattle.std.specs.Prelude.{◌≡◌, ◌≤◌, IfOk, IfErr, OnOk, [], Ok, Err};
ghost use Rattle.raml_lex.specs.Tokens.{word};
ghost use Rattle.raml_lex.specs.Tokens as tok;
ghost use Rattle.raml_lex.specs.Lexers.{next_place};
ghost use Rattle.raml_lex.specs.Views.{tok_of};
ghost use Rattle.raml_syntax.specs.Faults.{kind_of};
ghost use Rattle.raml_syntax.specs.Leaves.{IsReady, TakesAt, EndsWith, Misses, MissesNumber, IsRefusal, IsTok, IsWord, IsMark};
ghost use Rattle.raml_syntax.specs.Reading.{TakesOne};
ghost use Rattle.raml_syntax.specs.declared.faults.AlgError.TheVariants.{Bad};

use crate::{AlgError, ExprFault, ExprKind};
use meta_base::Place;
use raml_lex::{LexKind, Token, TokenKind, Tokens};

/// The refusal of what stands at the place.
pub fn refused(kind: ExprKind, place: Place) -> AlgError
    ensures { result ≡ Bad (record { kind = kind; place = place }) }
{
    AlgError::Bad(ExprFault { kind, place })
}

/// The fault of bytes that are no token, where a number may stand.
pub fn kind_of(kind: LexKind) -> ExprKind
    ensures { result ≡ kind_of kind }
{
    match kind {
        LexKind::BadByte => ExprKind::BadByte,
        LexKind::NumberTooLarge => ExprKind::NumberTooLarge,
    }
}

/// The next token, whatever it is.
pub fn take<'a>(tokens: &mut Tokens<'a>) -> Result<Token<'a>, AlgError>
    requires { IsReady tokens.old }
    ensures ready { OnOk result (IsReady tokens.new) }
    ensures token { IfOk result (λ t. TakesAt (tok_of t.kind t.text.now) t.place tokens.old tokens.new) }
    ensures fault { IfErr result (IsRefusal EndsWith tokens.old) }
{
    match tokens.next() {
        Some(Ok(token)) => Ok(token),
        Some(Err(fault)) => Err(refused(
            match fault.kind {
                LexKind::BadByte => ExprKind::BadByte,
                LexKind::NumberTooLarge => ExprKind::Unexpected,
            },
            fault.place,
        )),
        None => Err(refused(ExprKind::EndOfText, tokens.place())),
    }
}

/// Takes a mark of this kind.
pub fn take_mark(tokens: &mut Tokens<'_>, kind: TokenKind) -> Result<(), AlgError>
    requires ready { IsReady tokens.old }
    requires kind { IsMark kind }
    ensures ready { OnOk result (IsReady tokens.new) }
    ensures mark { OnOk result (TakesOne (tok_of kind []) tokens.old tokens.new) }
    ensures fault { IfErr result (IsRefusal (Misses (IsTok (tok_of kind []))) tokens.old) }
{
    take_mark_at(tokens, kind)?;
    Ok(())
}

/// Takes a mark of this kind, and answers its place.
#[inline(always)]
pub fn take_mark_at(tokens: &mut Tokens<'_>, kind: TokenKind) -> Result<Place, AlgError>
    requires ready { IsReady tokens.old }
    requires kind { IsMark kind }
    ensures ready { OnOk result (IsReady tokens.new) }
    ensures mark { IfOk result (λ place. TakesAt (tok_of kind []) place tokens.old tokens.new) }
    ensures fault { IfErr result (IsRefusal (Misses (IsTok (tok_of kind []))) tokens.old) }
{
    match tokens.next_at_hand(kind) {
        Some(token) => Ok(token.place),
        None => take_any_mark_at(tokens, kind),
    }
}

// The same after any gap.
#[inline(never)]
fn take_any_mark_at(tokens: &mut Tokens<'_>, kind: TokenKind) -> Result<Place, AlgError>
    requires ready { IsReady tokens.old }
    requires kind { IsMark kind }
    ensures ready { OnOk result (IsReady tokens.new) }
    ensures mark { IfOk result (λ place. TakesAt (tok_of kind []) place tokens.old tokens.new) }
    ensures fault { IfErr result (IsRefusal (Misses (IsTok (tok_of kind []))) tokens.old) }
{
    let token = take(tokens)?;
    if token.kind == kind {
        Ok(token.place)
    } else {
        Err(refused(ExprKind::Unexpected, token.place))
    }
}

/// Takes a word.
#[inline(always)]
pub fn take_word<'a>(tokens: &mut Tokens<'a>) -> Result<Token<'a>, AlgError>
    requires { IsReady tokens.old }
    ensures ready { OnOk result (IsReady tokens.new) }
    ensures word { IfOk result (λ t. TakesAt (word t.text.now) t.place tokens.old tokens.new) }
    ensures fault { IfErr result (IsRefusal (Misses IsWord) tokens.old) }
{
    match tokens.next_at_hand(TokenKind::Word) {
        Some(token) => Ok(token),
        None => take_any_word(tokens),
    }
}

// The same after any gap.
#[inline(never)]
fn take_any_word<'a>(tokens: &mut Tokens<'a>) -> Result<Token<'a>, AlgError>
    requires { IsReady tokens.old }
    ensures ready { OnOk result (IsReady tokens.new) }
    ensures word { IfOk result (λ t. TakesAt (word t.text.now) t.place tokens.old tokens.new) }
    ensures fault { IfErr result (IsRefusal (Misses IsWord) tokens.old) }
{
    let token = take(tokens)?;
    if token.kind == TokenKind::Word {
        Ok(token)
    } else {
        Err(refused(ExprKind::Unexpected, token.place))
    }
}

/// Takes a number, which is answered with its place. A number that is too large is at fault as such.
pub fn take_number(tokens: &mut Tokens<'_>) -> Result<(u64, Place), AlgError>
    requires { IsReady tokens.old }
    ensures ready { OnOk result (IsReady tokens.new) }
    ensures number { IfOk result (λ n. TakesAt (tok.number n.0) n.1 tokens.old tokens.new) }
    ensures fault { IfErr result (IsRefusal MissesNumber tokens.old) }
{
    match tokens.next() {
        Some(Ok(token)) => match token.kind {
            TokenKind::Number(number) => Ok((number, token.place)),
            _ => Err(refused(ExprKind::Unexpected, token.place)),
        },
        Some(Err(fault)) => Err(refused(kind_of(fault.kind), fault.place)),
        None => Err(refused(ExprKind::EndOfText, tokens.place())),
    }
}
