ghost use Rattle.std.specs.Prelude.{◌≡◌, ◌≤◌, IfSome};
ghost use Rattle.std.specs.List.{list_all};
ghost use Rattle.meta_base.specs.Bytes.{is_digit};
ghost use Rattle.command_words.specs.Numbers.{number_within};

use meta_base::bytes::is_digit;

// How many digits a number may have.
const MOST_DIGITS: usize = 20;

/// The number that the word spells, if 1 to 20 ASCII digits spell it and it is in the range.
pub fn number_within(least: u64, greatest: u64, word: &str) -> Option<u64>
    ensures number { result ≡ number_within least greatest word.now }
    ensures bounded { IfSome result (λ n. n ≤ greatest) }
{
    if word.len() > MOST_DIGITS || !are_digits(word.as_bytes()) {
        return None;
    }
    let number = word.parse::<u64>().ok()?;
    if least <= number && number <= greatest {
        Some(number)
    } else {
        None
    }
}

// Whether all bytes are digits.
fn are_digits(text: &[u8]) -> bool
    ensures { result ≡ list_all is_digit text.now }
{
    text.iter().all(|byte| is_digit(*byte))
}
