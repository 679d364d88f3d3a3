// Parts of lines that are looked up among those that were met before.
ghost use Rattle.std.specs.Prelude.{◌≡◌, true};
ghost use Rattle.topology_file.specs.Keys.{IsKeyed, next_key};

use std::marker::Model;

// So many bytes, or fewer, are known by a key of their number.
const KEY_BYTES: usize = 8;

/// A part of a line, with a key that is made of its last bytes. Contracts see the part.
#[derive(Debug, Drop)]
pub struct Word<'a> {
    text: &'a [u8],
    key: u64,
}

impl<'a> Model for Word<'a> {
    ghost use Rattle.std.specs.Prelude.{ℕ, List};
    ghost use Rattle.topology_file.specs.Keys.{IsKeyed};

    ghost Value = { List ℕ };

    ghost view = { λ w. w.text.now };

    ghost invariant = { λ w. IsKeyed w.text.now w.key };
}

impl<'a> Word<'a> {
    /// The text.
    pub fn of(text: &'a [u8]) -> Word<'a>
        ensures { result ≡ text.now }
    {
        let mut key = 0;
        for byte in text {
            key = key_with(key, *byte);
        }
        Word { text, key }
    }

    /// The text with its key.
    #[inline]
    pub fn keyed(text: &'a [u8], key: u64) -> Word<'a>
        requires { IsKeyed text.now key }
        ensures { result ≡ text.now }
    {
        Word { text, key }
    }

    /// The same part.
    pub fn copy(&self) -> Word<'a>
        ensures { result ≡ self.now }
    {
        Word {
            text: self.text,
            key: self.key,
        }
    }

    /// Lends the text.
    #[inline]
    pub fn text(&self) -> &'a [u8]
        ensures { result.now ≡ self.now }
    {
        self.text
    }

    /// A number that is rarely one of another part too.
    #[inline]
    pub fn hash(&self) -> u64 {
        let first = match self.text {
            [a, b, c, d, e, f, g, h, _, ..] => u64::from_le_bytes([*a, *b, *c, *d, *e, *f, *g, *h]),
            _ => 0,
        };
        (self.key ^ first).wrapping_mul(0x9e37_79b9_7f4a_7c15)
    }

    /// Both are the same bytes.
    #[inline]
    #[tactic(auto, using(crate::proofs::Keys::same_words))]
    pub fn is_same(&self, other: &Word<'_>) -> bool
        ensures { result ≡ true → self.now ≡ other.now }
    {
        if self.key != other.key || self.text.len() != other.text.len() {
            return false;
        }
        self.text.len() <= KEY_BYTES || self.text == other.text
    }
}

/// The key of a part that has this byte more.
#[inline]
pub fn key_with(key: u64, byte: u8) -> u64
    ensures { result ≡ next_key key byte }
{
    key.wrapping_mul(256).wrapping_add(u64::from(byte))
}
