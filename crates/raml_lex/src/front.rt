// The token at the front of a text.
ghost use Rattle.std.specs.Prelude.{◌≡◌, true};
ghost use Rattle.raml_lex.specs.KnownFronts.{IsFront, begins, begins_letter, begins_pair, mark_len, stands};
ghost use Rattle.raml_lex.specs.Tokens.{token_at};
ghost use Rattle.raml_lex.specs.Views.{step_for, Fits};

use crate::bytes::{number_at_front, word_len};
use crate::{LexKind, TokenKind};
use meta_base::bytes::{is_digit, is_letter};

/// What stands at the front: nothing, a fault, or a token with the number of its bytes.
#[derive(Clone, Copy, Debug)]
pub enum Front {
    End,
    Bad(LexKind),
    Found(TokenKind, usize),
}

/// The longest token of a text that begins with no space and no comment.
#[inline(always)]
pub fn token_at_front(text: &[u8], greatest: u64) -> Front
    ensures step { step_for result text.now ≡ token_at greatest text.now }
    ensures fits { Fits result text.now }
{
    match text {
        [] => Front::End,
        [byte, ..] if is_letter(*byte) => Front::Found(TokenKind::Word, word_len(text)),
        [byte, ..] if is_digit(*byte) => match number_at_front(text, greatest) {
            Some((number, len)) => Front::Found(TokenKind::Number(number), len),
            None => Front::Bad(LexKind::NumberTooLarge),
        },
        [b'(', ..] => Front::Found(TokenKind::LeftParen, 1),
        [b')', ..] => Front::Found(TokenKind::RightParen, 1),
        [b'{', ..] => Front::Found(TokenKind::LeftBrace, 1),
        [b'}', ..] => Front::Found(TokenKind::RightBrace, 1),
        [b',', ..] => Front::Found(TokenKind::Comma, 1),
        [b';', ..] => Front::Found(TokenKind::Semicolon, 1),
        [b':', ..] => Front::Found(TokenKind::Colon, 1),
        [b'=', ..] => Front::Found(TokenKind::Equals, 1),
        [b'<', ..] => Front::Found(TokenKind::Less, 1),
        [b'.', b'.', ..] => Front::Found(TokenKind::Dots, 2),
        [b'-', b'>', ..] => Front::Found(TokenKind::Arrow, 2),
        _ => Front::Bad(LexKind::BadByte),
    }
}

#[inline(always)]
fn begins_letter(text: &[u8]) -> bool
    ensures { result ≡ begins_letter text.now }
{
    match text {
        [] => false,
        [first, ..] => is_letter(*first),
    }
}

#[inline(always)]
fn begins(byte: u8, text: &[u8]) -> bool
    ensures { result ≡ begins byte text.now }
{
    match text {
        [] => false,
        [first, ..] => *first == byte,
    }
}

#[inline(always)]
fn begins_pair(byte: u8, second: u8, text: &[u8]) -> bool
    ensures { result ≡ begins_pair byte second text.now }
{
    match text {
        [] => false,
        [first, rest @ ..] => *first == byte && begins(second, rest),
    }
}

/// Whether a word, or a mark of this kind, stands at the front. Of numbers it says nothing.
#[inline(always)]
pub fn stands(kind: TokenKind, text: &[u8]) -> bool
    ensures { result ≡ stands kind text.now }
{
    match kind {
        TokenKind::Word => begins_letter(text),
        TokenKind::Number(_) => false,
        TokenKind::LeftParen => begins(b'(', text),
        TokenKind::RightParen => begins(b')', text),
        TokenKind::LeftBrace => begins(b'{', text),
        TokenKind::RightBrace => begins(b'}', text),
        TokenKind::Comma => begins(b',', text),
        TokenKind::Semicolon => begins(b';', text),
        TokenKind::Colon => begins(b':', text),
        TokenKind::Dots => begins_pair(b'.', b'.', text),
        TokenKind::Equals => begins(b'=', text),
        TokenKind::Less => begins(b'<', text),
        TokenKind::Arrow => begins_pair(b'-', b'>', text),
    }
}

// How many bytes a mark has.
#[inline(always)]
fn mark_len(mark: TokenKind) -> usize
    ensures { result ≡ mark_len mark }
{
    match mark {
        TokenKind::Dots | TokenKind::Arrow => 2,
        _ => 1,
    }
}

/// How many bytes the token has that stands at the front.
#[inline(always)]
pub fn len_at_front(kind: TokenKind, text: &[u8]) -> usize
    requires { stands kind text.now ≡ true }
    ensures { IsFront kind text.now result }
{
    if kind == TokenKind::Word {
        word_len(text)
    } else {
        mark_len(kind)
    }
}
