ghost use Rattle.std.specs.Prelude.{◌≡◌, ◌≤◌, [], length, is_some, IfSome, IfOk, IfErr, IfNone, IsNone, OnSome, Some, None, Ok, Err};

use crate::cursor::Cursor;
use crate::front::{Front, len_at_front, stands, token_at_front};
use crate::gap::{after_space, gap_end};
use crate::{LexFault, Token, TokenKind};
use meta_base::{MAX_FILE_BYTES, MAX_NUMBER, Place};
use std::marker::Model;

/// The tokens of a text, one after another.
///
/// Contracts see the bytes that were taken, those that are left, the greatest number that a token may
/// hold, and the fault that was met, if one was. The text is the bytes taken and then those left.
#[derive(Debug, Drop)]
pub struct Tokens<'a> {
    source: &'a [u8],
    // Where it stands, after the bytes that were taken.
    here: Cursor,
    greatest: u64,
    fault: Option<LexFault>,
}

impl<'a> Model for Tokens<'a> {
    ghost use Rattle.std.specs.Prelude.{take, drop, ◌≤◌, ◌≡◌, length};
    ghost use Rattle.raml_lex.specs.Lexers.{Lexer};
    ghost use Rattle.raml_lex.specs.Sources.{IsCursor};

    ghost Value = { Lexer };

    ghost view = { λ t. record {
      before = take t.here.at t.source.now;
      rest = drop t.here.at t.source.now;
      greatest = t.greatest;
      fault = t.fault;
    } };

    ghost invariant = { λ t. IsCursor t.source.now t.here };
}

impl<'a> Tokens<'a> {
    ghost use Rattle.raml_lex.specs.Lexers.{Lexer, Found, Ended, Faulted};
    ghost use Rattle.raml_lex.specs.Places.{place_after};
    ghost use Rattle.raml_lex.specs.Tokens.{step_of, end};
    ghost use Rattle.raml_lex.specs.KnownFronts.{after_blank, stands};

    /// The tokens of the source, none of which was taken. The source has at most
    /// [`meta_base::MAX_FILE_BYTES`] bytes, and a number is at most [`meta_base::MAX_NUMBER`] until
    /// [`Tokens::set_greatest`] sets another bound.
    pub fn new(source: &'a [u8]) -> Tokens<'a>
        requires { length source.now ≤ MAX_FILE_BYTES }
        ensures { result ≡ record { before = []; rest = source.now; greatest = MAX_NUMBER; fault = None } }
    {
        Tokens {
            source,
            here: Cursor::new(),
            greatest: MAX_NUMBER,
            fault: None,
        }
    }

    /// The place after the bytes that were taken: once `next` has answered `None`, just past the last
    /// byte of the source.
    pub fn place(&self) -> Place
        ensures { result ≡ place_after self.now.before }
    {
        self.here.place()
    }

    /// Sets the greatest number that a token may hold: it is the bound of the tokens that come after.
    pub fn set_greatest(&mut self, greatest: u64)
        ensures { self.new ≡ record self.old { greatest = greatest } }
    {
        self.greatest = greatest;
    }

    /// The next token, or `None` exactly where only spaces and comments are left.
    ///
    /// The longest token is taken. Its text is a slice of the source, and only spaces and comments
    /// stand between it and the token before. [`LexKind::BadByte`](crate::LexKind) comes exactly at a
    /// byte outside comments that begins no token, and `NumberTooLarge` exactly at a run of digits
    /// whose value is above the greatest; the same fault comes again at each later call. The
    /// time of all calls together grows with the bytes of the source alone.
    pub fn next(&mut self) -> Option<Result<Token<'a>, LexFault>>
        ensures end { IfNone result (Ended self.old self.new) }
        ensures token { IfSome result (λ r. IfOk r (λ t. Found self.old t self.new)) }
        ensures fault { IfSome result (λ r. IfErr r (λ f. Faulted self.old f self.new)) }
        ensures end_only { IsNone self.old.fault → step_of self.old.greatest self.old.rest ≡ end → IsNone result }

        // A fault that was met is answered again, and nothing changes.
        ensures again { IfSome self.old.fault (λ f. result ≡ Some (Err f)) }
        ensures kept { OnSome self.old.fault (self.new ≡ self.old) }
    {
        if let Some(fault) = self.fault {
            return Some(Err(fault));
        }
        let start = gap_end(self.source, &self.here);
        let (_, text) = self.source.split_at(start.at);
        match token_at_front(text, self.greatest) {
            Front::End => {
                self.here = start;
                None
            }
            Front::Bad(kind) => {
                let fault = LexFault {
                    kind,
                    place: start.place(),
                };
                self.fault = Some(fault);
                Some(Err(fault))
            }
            Front::Found(kind, len) => {
                self.here = start.after(len);
                let (text, _) = text.split_at(len);
                Some(Ok(Token {
                    kind,
                    text,
                    place: start.place(),
                }))
            }
        }
    }

    /// The next token where it is a word, or the mark of this kind, and stands here or after one blank, as most
    /// do. Elsewhere it answers `None` and nothing is taken: [`Tokens::next`] says what stands next.
    #[inline(always)]
    pub fn next_at_hand(&mut self, kind: TokenKind) -> Option<Token<'a>>
        requires { self.old.fault ≡ None }
        ensures exactly { is_some result ≡ stands kind (after_blank self.old.rest) }
        ensures kind { IfSome result (λ t. t.kind ≡ kind) }
        ensures token { IfSome result (λ t. Found self.old t self.new) }
        ensures kept { IfNone result (self.new ≡ self.old) }
    {
        let start = after_space(self.source, &self.here);
        let (_, text) = self.source.split_at(start.at);
        if !stands(kind, text) {
            return None;
        }
        let len = len_at_front(kind, text);
        self.here = start.after(len);
        let (text, _) = text.split_at(len);
        Some(Token {
            kind,
            text,
            place: start.place(),
        })
    }
}
