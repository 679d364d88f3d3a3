// Operations that read a word and write one in its place.
ghost use Rattle.std.specs.Prelude.{◌≡◌, ◌≢◌, ◌∷◌, ◌==◌, ◌<◌, Some, length, slice_get, if◌then◌else◌};
ghost use Rattle.std.specs.Int.{bit_at};
ghost use Rattle.label_code.specs.Effects.{effect, writes, looks, denies, misses};
ghost use Rattle.label_code.specs.Steps.{effect_in_place, effect_of};

use crate::pieces::item;
use crate::{Op, Word};

// What an operation does that reads a word and writes one in its place.
#[derive(Clone, Copy)]
pub(crate) enum InPlace<'a> {
    // It writes this word, and leaves these to be read.
    Writes(Word, &'a [Word]),
    // It prohibits the value.
    Prohibits,
    // It isn't such an operation.
    Other,
}

// What the operation does on a row of the word and the rest, if it writes a word in place of one. Most do.
#[inline(always)]
pub(crate) fn in_place<'a>(op: &Op, word: Word, rest: &'a [Word]) -> InPlace<'a>
    requires { effect op.now (word ∷ rest.now) ≢ misses }
    ensures { effect_of result ≡ effect_in_place op.now (word ∷ rest.now) }
{
    match op {
        Op::Add(n) => InPlace::Writes(word + n, rest),
        Op::Cap(n, top) => writes_where(word + n <= *top, word + n, rest),
        Op::Max(n) => InPlace::Writes(word.max(*n), rest),
        Op::Min(n) => InPlace::Writes(word.min(*n), rest),
        Op::Copy => InPlace::Writes(word, rest),
        Op::SetBit(k) => InPlace::Writes(word | 1 << *k, rest),
        Op::ClearBit(k) => InPlace::Writes(word & (Word::MAX - (1 << *k)), rest),
        Op::NeedBit(k) => writes_where(is_set(word, *k), word, rest),
        Op::BarBit(k) => writes_where(!is_set(word, *k), word, rest),
        Op::Look(entries) => looks_up(entries.as_slice(), word, rest),
        _ => InPlace::Other,
    }
}

// Writes the word where that is allowed, and else prohibits.
fn writes_where<'a>(allowed: bool, word: Word, rest: &'a [Word]) -> InPlace<'a>
    ensures { effect_of result ≡ Some (if allowed then writes word rest.now else denies) }
{
    if allowed {
        InPlace::Writes(word, rest)
    } else {
        InPlace::Prohibits
    }
}

// Writes the entry at that place, or prohibits where it is none.
fn looks_up<'a>(entries: &[Option<Word>], place: Word, rest: &'a [Word]) -> InPlace<'a>
    requires { place < length entries.now }
    ensures { effect_of result ≡ Some (looks (slice_get entries.now place) rest.now) }
{
    match item(entries, place) {
        Some(entry) => InPlace::Writes(entry, rest),
        None => InPlace::Prohibits,
    }
}

// Whether the bit is set.
fn is_set(word: Word, k: u8) -> bool
    requires { k < 64 }
    ensures { result ≡ (bit_at word k == 1) }
{
    (word >> k) & 1 == 1
}
