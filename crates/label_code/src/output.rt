ghost use Rattle.std.specs.Prelude.{◌≡◌, ℕ, List, [], ◌∷◌, ◌++◌, OnOk};

use crate::Word;
use meta_base::NoMemory;
use std::alloc::Global;

/// What takes the words that the machine writes, one after the other. After a refusal for want of memory nothing is
/// said of the words that it has.
pub trait Output {
    /// The words that it has taken.
    ghost written: { Self → List ℕ };

    /// Takes a word.
    fn push(&mut self, alloc: Global, word: Word) -> Result<(), NoMemory>
        ensures { OnOk result (written self.new ≡ written self.old ++ word ∷ []) };

    /// Takes these words in order.
    fn extend(&mut self, alloc: Global, words: &[Word]) -> Result<(), NoMemory>
        ensures { OnOk result (written self.new ≡ written self.old ++ words.now) }
    {
        for word in words {
            self.push(alloc, *word)?;
        }
        Ok(())
    }
}

impl Output for Vec<Word> {
    ghost written = { λ s. s.items };

    fn push(&mut self, _alloc: Global, word: Word) -> Result<(), NoMemory> {
        self.push(word)?;
        Ok(())
    }

    fn extend(&mut self, _alloc: Global, words: &[Word]) -> Result<(), NoMemory> {
        self.extend_from_slice(words)?;
        Ok(())
    }
}
