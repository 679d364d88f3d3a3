// The lines of a text, what a line says, and the words of that.
ghost use Rattle.std.specs.Prelude.{◌≡◌, ◌<◌, [], ◌∷◌, drop, length, MatchOption, IfSome};
ghost use Rattle.meta_base.specs.Bytes.{front, after_front};
ghost use Rattle.topology_file.specs.Texts.{is_not, is_no_blank, lines_of, said_of, without_return, words_of};

use memchr::memchr;
use meta_base::bytes::{after_blanks, is_blank};

/// The text before the first such byte, and the text from there on.
#[tactic(auto, using(crate::proofs::Splits::front_taken, crate::proofs::Splits::after_left, crate::proofs::Splits::stops_there, crate::proofs::Splits::stops_nowhere))]
pub fn split_at_byte(text: &[u8], wanted: u8) -> (&[u8], &[u8])
    ensures front { result.0.now ≡ front (is_not wanted) text.now }
    ensures after_front { result.1.now ≡ after_front (is_not wanted) text.now }
{
    match memchr(wanted, text) {
        Some(len) => text.split_at(len),
        None => text.split_at(text.len()),
    }
}

/// What comes after the first byte, if there is one.
pub fn after_one(text: &[u8]) -> &[u8]
    ensures { result.now ≡ drop 1 text.now }
{
    match text {
        [] => text,
        [_, rest @ ..] => rest,
    }
}

/// The first line, without its line feed, and the text of the other lines; `None` where there is no line.
pub fn split_line(text: &[u8]) -> Option<(&[u8], &[u8])>
    ensures lines { MatchOption result (lines_of text.now ≡ []) (λ split.
        lines_of text.now ≡ split.0.now ∷ lines_of split.1.now) }
    ensures shorter { IfSome result (λ split. length split.1.now < length text.now) }
{
    if text.is_empty() {
        return None;
    }
    Some(first_line(text))
}

/// The first line of a text that isn't empty, without its line feed, and the text of the other lines.
#[tactic(auto, using(crate::proofs::Splits::lines_first, crate::proofs::Splits::line_shorter))]
pub fn first_line(text: &[u8]) -> (&[u8], &[u8])
    requires { 0 < length text.now }
    ensures lines { lines_of text.now ≡ result.0.now ∷ lines_of result.1.now }
    ensures shorter { length result.1.now < length text.now }
{
    let (line, rest) = split_at_byte(text, b'\n');
    (line, after_one(rest))
}

/// The line without one carriage return at its end.
pub fn without_return(line: &[u8]) -> &[u8]
    ensures { result.now ≡ without_return line.now }
{
    match line {
        [front @ .., b'\r'] => front,
        _ => line,
    }
}

/// What a line says: it loses one carriage return at its end, and its comment.
pub fn said(line: &[u8]) -> &[u8]
    ensures { result.now ≡ said_of line.now }
{
    let (said, _) = split_at_byte(without_return(line), b'#');
    said
}

// The bytes up to the first blank, and the text from there on.
fn split_at_blank(text: &[u8]) -> (&[u8], &[u8])
    ensures front { result.0.now ≡ front is_no_blank text.now }
    ensures after_front { result.1.now ≡ after_front is_no_blank text.now }
{
    let mut len = 0;
    for byte in text {
        if is_blank(*byte) {
            break;
        }
        len += 1;
    }
    text.split_at(len)
}

/// The first word of a line, and the text of the other words; `None` where there is no word. Blanks separate them.
#[tactic(auto, using(crate::proofs::Splits::words_first, crate::proofs::Splits::words_none, crate::proofs::Splits::word_shorter))]
pub fn split_word(text: &[u8]) -> Option<(&[u8], &[u8])>
    ensures words { MatchOption result (words_of text.now ≡ []) (λ split.
        words_of text.now ≡ split.0.now ∷ words_of split.1.now) }
    ensures shorter { IfSome result (λ split. length split.1.now < length text.now) }
{
    let text = after_blanks(text);
    if text.is_empty() {
        return None;
    }
    Some(split_at_blank(text))
}
