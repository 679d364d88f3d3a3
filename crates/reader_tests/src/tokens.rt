// Tests of `raml_lex`: tokens with their places, and faults that stay.
ghost use Rattle.std.specs.Prelude.{◌≤◌, length};
ghost use Rattle.meta_base.specs.declared.limits.TheConstants.{MAX_FILE_BYTES};

use meta_base::{MAX_FILE_BYTES, Place};
use raml_lex::{LexFault, LexKind, Token, TokenKind, Tokens};
use std::process::Abort;
use std::test::Fail;

// A kind, a text, a line and a column.
type Expected<'a> = (TokenKind, &'a [u8], u32, u32);

fn is_token(found: Option<Result<Token<'_>, LexFault>>, expected: &Expected<'_>) -> bool {
    match found {
        Some(Ok(token)) => {
            token.kind == expected.0
                && token.text == expected.1
                && token.place.line == expected.2
                && token.place.column == expected.3
        }
        _ => false,
    }
}

fn is_end(found: Option<Result<Token<'_>, LexFault>>, end: Option<LexFault>) -> bool {
    match (found, end) {
        (None, None) => true,
        (Some(Err(fault)), Some(expected)) => fault == expected,
        _ => false,
    }
}

// The tokens of the source are these, and then comes the end of them, again and again.
fn check(rt: &impl Abort, source: &[u8], expected: &[Expected<'_>], end: Option<LexFault>)
    requires { length source.now ≤ MAX_FILE_BYTES }
{
    let mut tokens = Tokens::new(source);
    for token in expected {
        assert!(rt; is_token(tokens.next(), token));
    }
    for _ in 0..3 {
        assert!(rt; is_end(tokens.next(), end));
    }
}

// A fault of this kind at this line and column.
fn fault(kind: LexKind, line: u32, column: u32) -> Option<LexFault> {
    Some(LexFault {
        kind,
        place: Place { line, column },
    })
}

#[test]
fn words_numbers_and_marks(rt: HostRuntime) {
    use TokenKind::*;

    check(&rt, b"", &[], None);
    check(&rt, b" \t\r\n# to the end", &[], None);
    check(
        &rt,
        b"main add(007..4294967295); # (\r .\n\t_x9#\n{a<b=c:d->e}",
        &[
            (Word, b"main", 1, 1),
            (Word, b"add", 1, 6),
            (LeftParen, b"(", 1, 9),
            (Number(7), b"007", 1, 10),
            (Dots, b"..", 1, 13),
            (Number(4294967295), b"4294967295", 1, 15),
            (RightParen, b")", 1, 25),
            (Semicolon, b";", 1, 26),
            (Word, b"_x9", 2, 2),
            (LeftBrace, b"{", 3, 1),
            (Word, b"a", 3, 2),
            (Less, b"<", 3, 3),
            (Word, b"b", 3, 4),
            (Equals, b"=", 3, 5),
            (Word, b"c", 3, 6),
            (Colon, b":", 3, 7),
            (Word, b"d", 3, 8),
            (Arrow, b"->", 3, 9),
            (Word, b"e", 3, 11),
            (RightBrace, b"}", 3, 12),
        ],
        None,
    );
}

#[test]
fn faults_stay(rt: HostRuntime) {
    use TokenKind::*;

    check(
        &rt,
        b"9a,\n 1...2",
        &[
            (Number(9), b"9", 1, 1),
            (Word, b"a", 1, 2),
            (Comma, b",", 1, 3),
            (Number(1), b"1", 2, 2),
            (Dots, b"..", 2, 3),
        ],
        fault(LexKind::BadByte, 2, 5),
    );
    check(&rt, b"- >", &[], fault(LexKind::BadByte, 1, 1));
    check(&rt, b"#\xff\n\xff", &[], fault(LexKind::BadByte, 2, 1));
    check(
        &rt,
        b" 04294967296a",
        &[],
        fault(LexKind::NumberTooLarge, 1, 2),
    );
}

// The longest source is read in time that grows with its bytes alone: were each token to look at
// all that is left, this would not end.
#[test]
fn the_longest_source(rt: HostRuntime) -> Result<(), Fail> {
    let source = vec![in rt.alloc(); b'('; MAX_FILE_BYTES]?;
    let mut tokens = Tokens::new(&source);
    let mut seen = 0usize;
    for _ in 0..MAX_FILE_BYTES {
        if let Some(Ok(_)) = tokens.next() {
            seen = seen.saturating_add(1);
        }
    }
    assert_eq!(rt; seen, MAX_FILE_BYTES);
    assert!(rt; tokens.next().is_none());
    assert_eq!(rt;
        tokens.place(),
        Place {
            line: 1,
            column: 4194305
        }
    );

    // So is a token alone that is as long as that.
    let digits = vec![in rt.alloc(); b'0'; MAX_FILE_BYTES]?;
    let mut tokens = Tokens::new(&digits);
    match tokens.next() {
        Some(Ok(token)) => assert_eq!(rt; token.kind, TokenKind::Number(0)),
        _ => panic!(rt; "no number"),
    }
    let letters = vec![in rt.alloc(); b'a'; MAX_FILE_BYTES]?;
    let mut tokens = Tokens::new(&letters);
    match tokens.next() {
        Some(Ok(token)) => assert_eq!(rt; token.kind, TokenKind::Word),
        _ => panic!(rt; "no word"),
    }
    Ok(())
}
