use meta_base::Place;

/// What a token is.
#[derive(Clone, Copy, Debug, PartialEq, Eq)]
pub enum TokenKind {
    /// A letter or `_`, and then letters, digits and `_`, all of them ASCII.
    Word,
    /// A run of digits, and its value in base ten. Leading zeros are allowed.
    Number(u64),
    /// `(`
    LeftParen,
    /// `)`
    RightParen,
    /// `{`
    LeftBrace,
    /// `}`
    RightBrace,
    /// `,`
    Comma,
    /// `;`
    Semicolon,
    /// `:`
    Colon,
    /// `..`
    Dots,
    /// `=`
    Equals,
    /// `<`
    Less,
    /// `->`
    Arrow,
}

/// A token: its kind, the slice of the source that spells it, and the place of its first byte.
#[derive(Clone, Copy, Debug)]
pub struct Token<'a> {
    pub kind: TokenKind,
    pub text: &'a [u8],
    pub place: Place,
}

/// Why a text has no further token.
#[derive(Clone, Copy, Debug, PartialEq, Eq)]
pub enum LexKind {
    /// A byte outside comments that begins no token. A single `.` or `-` is one.
    BadByte,
    /// A run of digits whose value is above the greatest number.
    NumberTooLarge,
}

/// A fault, and the place of the byte or of the number that is at fault.
#[derive(Clone, Copy, Debug, PartialEq, Eq)]
pub struct LexFault {
    pub kind: LexKind,
    pub place: Place,
}
