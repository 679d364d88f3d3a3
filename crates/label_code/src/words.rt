ghost use Rattle.std.specs.Prelude.{◌≡◌, ◌<◌, [], ◌∷◌, ◌++◌, IfOk, OnOk};

use crate::{Output, Word};
use meta_base::NoMemory;
use std::alloc::Global;
use std::marker::Model;

/// How many words of a row stand in the value itself.
pub const HERE: usize = 4;

#[derive(Clone, Copy, Debug)]
struct Short {
    words: [Word; HERE],
    len: usize,
}

#[derive(Debug, Drop)]
enum Store {
    Here(Short),
    There(Vec<Word>),
}

/// A row of words, which contracts see as the list of them. A row of up to [`HERE`] words takes no memory of its own.
#[derive(Debug, Drop)]
pub struct Words {
    store: Store,
}

impl Model for Words {
    ghost use Rattle.std.specs.Prelude.{List, ℕ};
    ghost use Rattle.label_code.specs.Rows.{words_of, has_room};

    ghost Value = { List ℕ };

    ghost view = { λ s. words_of s.store };

    ghost invariant = { λ s. has_room s.store };
}

impl Words {
    /// The row of no words. It takes no memory.
    pub fn new() -> Words
        ensures { result ≡ [] }
    {
        Words {
            store: Store::Here(Short {
                words: [0; HERE],
                len: 0,
            }),
        }
    }

    /// Lends the words in order.
    pub fn as_slice(&self) -> &[Word]
        ensures { result.now ≡ self.now }
    {
        match &self.store {
            Store::Here(short) => &short.words[..short.len],
            Store::There(words) => words,
        }
    }

    /// Takes all words away, and keeps the room.
    pub fn clear(&mut self)
        ensures { self.new ≡ [] }
    {
        match &mut self.store {
            Store::Here(short) => short.len = 0,
            Store::There(words) => words.clear(),
        }
    }

    // Adds a word where the row has no room in place. It stands apart, so that whoever adds a word where there is room
    // need not clear the place for what is moved here.
    #[cold]
    #[inline(never)]
    fn push_elsewhere(&mut self, alloc: Global, word: Word) -> Result<(), NoMemory>
        ensures { OnOk result (self.new ≡ self.old ++ word ∷ []) }
    {
        match &mut self.store {
            Store::Here(short) => {
                let mut more = Vec::from_slice(alloc, &short.words[..short.len])?;
                more.push(word)?;
                self.store = Store::There(more);
            }
            Store::There(words) => words.push(word)?,
        }
        Ok(())
    }

    // Adds the words one after another, which moves those that stand in place once there is no more room for them.
    fn extend_in_turn(&mut self, alloc: Global, words: &[Word]) -> Result<(), NoMemory>
        ensures { OnOk result (self.new ≡ self.old ++ words.now) }
    {
        for word in words {
            self.push(alloc, *word)?;
        }
        Ok(())
    }

    /// A row of the same words. It takes memory where they are more than [`HERE`].
    pub fn copy(&self, alloc: Global) -> Result<Words, NoMemory>
        ensures { IfOk result (λ copied. copied ≡ self.now) }
    {
        let store = match &self.store {
            Store::Here(short) => Store::Here(*short),
            Store::There(words) => Store::There(Vec::from_slice(alloc, words)?),
        };
        Ok(Words { store })
    }
}

impl Output for Words {
    ghost written = { λ s. s };

    #[inline(always)]
    fn push(&mut self, alloc: Global, word: Word) -> Result<(), NoMemory> {
        match &mut self.store {
            Store::Here(short) if short.len < HERE => {
                short.words[short.len] = word;
                short.len += 1;
                Ok(())
            }
            Store::Here(_) => self.push_elsewhere(alloc, word),
            Store::There(words) => {
                words.push(word)?;
                Ok(())
            }
        }
    }

    fn extend(&mut self, alloc: Global, words: &[Word]) -> Result<(), NoMemory> {
        match &mut self.store {
            Store::Here(_) => self.extend_in_turn(alloc, words),
            Store::There(there) => {
                there.extend_from_slice(words)?;
                Ok(())
            }
        }
    }
}
