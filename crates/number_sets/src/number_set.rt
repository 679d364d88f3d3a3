ghost use Rattle.std.specs.Prelude.{◌≡◌, ◌==◌, ◌||◌, ℕ, [], true, OnOk, OnErr, IfOk, length, ◌≤◌};
ghost use Rattle.number_sets.specs.NumberSets.{has_number, HasRoomFor};

use meta_base::NoMemory;
use std::alloc::Global;
use std::marker::Model;

// How many numbers a word says of.
const WORD_BITS: u32 = u64::BITS;

/// A set of numbers, which takes memory for the greatest: a bit for each number up to it. Contracts see its words.
#[derive(Debug, Drop)]
pub struct NumberSet {
    words: Vec<u64>,
}

impl Model for NumberSet {
    ghost use Rattle.std.specs.Prelude.{List, ℕ};

    ghost Value = { List ℕ };

    ghost view = { λ s. s.words.items };
}

impl NumberSet {
    /// No number. It takes no memory.
    pub fn new(alloc: Global) -> NumberSet
        ensures { result ≡ [] }
    {
        NumberSet {
            words: Vec::new(alloc),
        }
    }

    /// Whether the number is in the set.
    pub fn contains(&self, number: u32) -> bool
        ensures { result ≡ has_number self.now number }
    {
        match self.words.get((number / WORD_BITS) as usize) {
            Some(word) => (*word >> (number % WORD_BITS)) & 1 == 1,
            None => false,
        }
    }

    /// Makes room for the number, so that [`NumberSet::note`] can add it. The set has the numbers that it had, after a
    /// refusal too, which is for want of memory alone.
    pub fn make_room(&mut self, number: u32) -> Result<(), NoMemory>
        ensures room { OnOk result (HasRoomFor self.new number) }
        ensures same { (i : ℕ) → has_number self.new i ≡ has_number self.old i }
    {
        let place = (number / WORD_BITS) as usize;
        if place >= self.words.len() {
            grow(&mut self.words, place + 1)?;
        }
        Ok(())
    }

    /// Adds a number that there is room for.
    pub fn note(&mut self, number: u32)
        requires { HasRoomFor self.old number }
        ensures { (i : ℕ) → has_number self.new i ≡ (has_number self.old i || number == i) }
    {
        self.words[(number / WORD_BITS) as usize] |= 1 << (number % WORD_BITS);
    }

    /// Adds the number. After a refusal, which is for want of memory alone, the set has the numbers that it had.
    pub fn insert(&mut self, number: u32) -> Result<(), NoMemory>
        ensures ok { OnOk result ((i : ℕ) → has_number self.new i ≡ (has_number self.old i || number == i)) }
        ensures err { OnErr result ((i : ℕ) → has_number self.new i ≡ has_number self.old i) }
    {
        self.make_room(number)?;
        self.note(number);
        Ok(())
    }

    /// Whether both sets have the same words, and so the same numbers.
    pub fn is_same(&self, other: &NumberSet) -> bool
        ensures { result ≡ true → self.now ≡ other.now }
    {
        self.words.as_slice() == other.words.as_slice()
    }
}

// Adds words of no number, until there are so many.
#[inline(never)]
fn grow(words: &mut Vec<u64>, count: usize) -> Result<(), NoMemory>
    ensures room { OnOk result (count ≤ length words.new.items) }
    ensures same { (i : ℕ) → has_number words.new.items i ≡ has_number words.old.items i }
{
    for _made in words.len()..count {
        words.push(0)?;
    }
    Ok(())
}
