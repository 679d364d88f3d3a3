// The longest fronts of one kind of bytes.
ghost use Rattle.std.specs.Prelude.{◌≡◌, ◌+◌, ◌-◌, ◌*◌, ◌<◌, ◌≤◌, take, drop, length, nat_le, Some, None, if◌then◌else◌};
ghost use Rattle.meta_base.specs.Bytes.{is_digit, is_word_byte, front, after_front};
ghost use Rattle.raml_lex.specs.Numbers.{SpellsAtMost, at_most};

use meta_base::bytes::is_digit;

// Of each byte 1 if it goes on with a word, and else 0.
const WORD_BYTES: [u8; 256] = [
    0, 0, 0, 0, 0, 0, 0, 0, 0, 0, 0, 0, 0, 0, 0, 0, 0, 0, 0, 0, 0, 0, 0, 0, 0, 0, 0, 0, 0, 0, 0, 0,
    0, 0, 0, 0, 0, 0, 0, 0, 0, 0, 0, 0, 0, 0, 0, 0, 1, 1, 1, 1, 1, 1, 1, 1, 1, 1, 0, 0, 0, 0, 0, 0,
    0, 1, 1, 1, 1, 1, 1, 1, 1, 1, 1, 1, 1, 1, 1, 1, 1, 1, 1, 1, 1, 1, 1, 1, 1, 1, 1, 0, 0, 0, 0, 1,
    0, 1, 1, 1, 1, 1, 1, 1, 1, 1, 1, 1, 1, 1, 1, 1, 1, 1, 1, 1, 1, 1, 1, 1, 1, 1, 1, 0, 0, 0, 0, 0,
    0, 0, 0, 0, 0, 0, 0, 0, 0, 0, 0, 0, 0, 0, 0, 0, 0, 0, 0, 0, 0, 0, 0, 0, 0, 0, 0, 0, 0, 0, 0, 0,
    0, 0, 0, 0, 0, 0, 0, 0, 0, 0, 0, 0, 0, 0, 0, 0, 0, 0, 0, 0, 0, 0, 0, 0, 0, 0, 0, 0, 0, 0, 0, 0,
    0, 0, 0, 0, 0, 0, 0, 0, 0, 0, 0, 0, 0, 0, 0, 0, 0, 0, 0, 0, 0, 0, 0, 0, 0, 0, 0, 0, 0, 0, 0, 0,
    0, 0, 0, 0, 0, 0, 0, 0, 0, 0, 0, 0, 0, 0, 0, 0, 0, 0, 0, 0, 0, 0, 0, 0, 0, 0, 0, 0, 0, 0, 0, 0,
];

// Whether the byte goes on with a word, by one look.
#[inline]
#[tactic(auto, using(crate::proofs::WordBytes::table_says))]
fn is_word_part(byte: u8) -> bool
    ensures { result ≡ is_word_byte byte }
{
    WORD_BYTES[byte as usize] == 1
}

/// How many bytes of a word stand at the front.
pub fn word_len(text: &[u8]) -> usize
    ensures within { result ≤ length text.now }
    ensures front { take result text.now ≡ front is_word_byte text.now }
    ensures after_front { drop result text.now ≡ after_front is_word_byte text.now }
{
    let mut len = 0;
    for byte in text {
        if !is_word_part(*byte) {
            break;
        }
        len += 1;
    }
    len
}

// The number with one more digit after it, if it is at most the greatest.
fn with_digit(number: u64, digit: u8, greatest: u64) -> Option<u64>
    requires { digit < 10 }
    ensures { result ≡ at_most greatest (10 * number + digit) }
{
    let wide = 10 * u128::from(number) + u128::from(digit);
    if wide <= u128::from(greatest) {
        Some(wide as u64)
    } else {
        None
    }
}

/// The number that the digits at the front spell and how many they are, if it is at most the greatest.
pub fn number_at_front(text: &[u8], greatest: u64) -> Option<(u64, usize)>
    ensures { SpellsAtMost greatest text.now result }
{
    let mut len = 0;
    let mut number = 0;
    for byte in text {
        if !is_digit(*byte) {
            break;
        }
        number = with_digit(number, *byte - b'0', greatest)?;
        len += 1;
    }
    Some((number, len))
}
