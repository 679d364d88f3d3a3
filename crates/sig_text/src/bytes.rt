// Words and runs of digits at the front of a text.
ghost use Rattle.std.specs.Prelude.{◌≡◌, ◌≤◌, IfSome};
ghost use Rattle.meta_base.specs.Bytes.{is_digit, is_word_byte, front, after_front, number_from};
ghost use Rattle.sig_text.specs.Numbers.{max_literal_number};
ghost use Rattle.sig_text.specs.Sequences.{within};
ghost use Rattle.sig_text.specs.declared.bytes.TheConstants.{MAX_LITERAL_NUMBER};

use alg_model::Amount;
use meta_base::bytes::{is_digit, is_word_byte};

/// The greatest number that any literal may hold: [`crate::read_value_to`] takes no greater bound.
pub const MAX_LITERAL_NUMBER: Amount = 1 << 119;

/// The bound of literals is the number of the specification.
pub fn numbers_are_specified()
    ensures { MAX_LITERAL_NUMBER ≡ max_literal_number }
{}

/// The bytes of a word at the front, and what comes after them.
pub fn split_word(text: &[u8]) -> (&[u8], &[u8])
    ensures front { result.0.now ≡ front is_word_byte text.now }
    ensures after_front { result.1.now ≡ after_front is_word_byte text.now }
{
    let mut len = 0;
    for byte in text {
        if !is_word_byte(*byte) {
            break;
        }
        len += 1;
    }
    text.split_at(len)
}

// The number, unless it is above that of any literal.
fn if_any_literal_holds(n: Amount) -> Option<Amount>
    ensures { result ≡ within MAX_LITERAL_NUMBER n }
{
    if n <= MAX_LITERAL_NUMBER {
        Some(n)
    } else {
        None
    }
}

/// The number that the digits at the front spell, unless it is above that of any literal, and what comes
/// after them. Past that bound the digits are only skipped, so no sum overflows.
#[tactic(auto, using(crate::proofs::Numbers::number_from_le))]
pub fn split_number(text: &[u8]) -> (Option<Amount>, &[u8])
    ensures number { result.0 ≡ within MAX_LITERAL_NUMBER (number_from 0 (front is_digit text.now)) }
    ensures bound { IfSome result.0 (λ n. n ≤ MAX_LITERAL_NUMBER) }
    ensures after_front { result.1.now ≡ after_front is_digit text.now }
{
    let mut len = 0;
    let mut n: Amount = 0;
    for byte in text {
        if !is_digit(*byte) {
            break;
        }
        if n <= MAX_LITERAL_NUMBER {
            n = 10 * n + Amount::from(*byte - b'0');
        }
        len += 1;
    }
    (if_any_literal_holds(n), &text[len..])
}
