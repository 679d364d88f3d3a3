ghost use Rattle.std.specs.Prelude.{◌≡◌, ℕ, List, Bool, true, IfOk};
ghost use Rattle.label_code.specs.Machine.{RunCode, Fits};
ghost use Rattle.label_code.specs.Rows.{Reports, MakesOnly};

use crate::{Op, Run, Word, Words, execute};
use meta_base::NoMemory;
use std::alloc::Global;

/// A row as a mechanism holds it, which contracts see as the list of its words: [`Words`] where rows may have any
/// length, and [`crate::FixedRow`] where all have the same few words.
pub trait HeldRow: Drop {
    /// The words of the row.
    ghost held: { Self → List ℕ };

    /// It can be a row of these words.
    ghost can_hold: { List ℕ → Bool };

    /// The row of these words, which it can hold.
    fn of(words: Words) -> Self
        requires { can_hold words ≡ true }
        ensures { held result ≡ words };

    /// Lends the words in order.
    fn as_slice(&self) -> &[Word]
        ensures { result.now ≡ held self.now };

    /// A row of the same words. It is refused for want of memory alone.
    fn copy(&self, alloc: Global) -> Result<Self, NoMemory>
        ensures { IfOk result (λ copied. held copied ≡ held self.now) };

    /// Makes it what the code makes of a row, which the code fits and whose new row it can hold: `Made` where it is the
    /// new row, and `Prohibited` where the label prohibits the value. Where it isn't `Made`, nothing is said of it.
    /// It is refused for want of memory alone.
    fn rewrite(&mut self, alloc: Global, code: &[Op], row: &[Word]) -> Result<Run, NoMemory>
        requires fits { Fits code.now row.now }
        requires holds { MakesOnly can_hold (RunCode code.now row.now) }
        ensures { IfOk result (λ run. Reports run (held self.new) (RunCode code.now row.now)) };
}

impl HeldRow for Words {
    ghost held = { λ s. s };

    ghost can_hold = { λ row. true };

    fn of(words: Words) -> Words {
        words
    }

    fn as_slice(&self) -> &[Word] {
        self.as_slice()
    }

    fn copy(&self, alloc: Global) -> Result<Words, NoMemory> {
        self.copy(alloc)
    }

    #[tactic(auto, using(crate::specs::CodeLaws::after_none))]
    fn rewrite(&mut self, alloc: Global, code: &[Op], row: &[Word]) -> Result<Run, NoMemory> {
        self.clear();
        let run = execute(alloc, code, row, self)?;
        Ok(run)
    }
}
