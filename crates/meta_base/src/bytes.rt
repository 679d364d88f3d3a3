//! Kinds of bytes, as all texts of the project read them: ASCII alone.
ghost use Rattle.std.specs.Prelude.{◌≡◌};
ghost use Rattle.std.specs.List.{list_all};
ghost use Rattle.meta_base.specs.Bytes.{is_space, is_blank, is_digit, is_letter, is_word_byte, is_word, after_front};

/// Whether the byte is a space, a tab, a line feed or a carriage return.
pub fn is_space(byte: u8) -> bool
    ensures { result ≡ is_space byte }
{
    matches!(byte, b' ' | b'\t' | b'\n' | b'\r')
}

/// Whether the byte is a space or a tab, which separate the words of a line.
pub fn is_blank(byte: u8) -> bool
    ensures { result ≡ is_blank byte }
{
    matches!(byte, b' ' | b'\t')
}

/// What comes after the blanks at the front.
pub fn after_blanks(text: &[u8]) -> &[u8]
    ensures { result.now ≡ after_front is_blank text.now }
{
    let mut rest = text;
    while let [byte, after @ ..] = rest {
        if !is_blank(*byte) {
            return rest;
        }
        rest = after;
    }
    rest
}

/// Whether the byte is `0` to `9`.
pub fn is_digit(byte: u8) -> bool
    ensures { result ≡ is_digit byte }
{
    byte.is_ascii_digit()
}

/// Whether the byte begins a word: `a` to `z`, `A` to `Z` or `_`.
pub fn is_letter(byte: u8) -> bool
    ensures { result ≡ is_letter byte }
{
    byte.is_ascii_alphabetic() || byte == b'_'
}

/// Whether the byte goes on with a word: what begins one, or a digit.
pub fn is_word_byte(byte: u8) -> bool
    ensures { result ≡ is_word_byte byte }
{
    is_letter(byte) || is_digit(byte)
}

// Whether all bytes go on with a word.
fn are_word_bytes(text: &[u8]) -> bool
    ensures { result ≡ list_all is_word_byte text.now }
{
    text.iter().all(|byte| is_word_byte(*byte))
}

/// Whether the text is one word: a byte that begins one, and then bytes that go on with it.
pub fn is_word(text: &[u8]) -> bool
    ensures { result ≡ is_word text.now }
{
    match text {
        [first, rest @ ..] => is_letter(*first) && are_word_bytes(rest),
        [] => false,
    }
}
