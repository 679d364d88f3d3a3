// The codes of many labels, each kept once.
ghost use Rattle.std.specs.Prelude.{◌≡◌, ◌<◌, [], ◌∷◌, ◌++◌, ℕ, Some, length, slice_get, slice_index_or, OnOk};
ghost use Rattle.code_gen.specs.Codes.{codes_at};

use label_code::{LabelCode, Op};
use meta_base::NoMemory;
use std::alloc::Global;
use std::marker::Model;

/// The codes of labels in order, which contracts see as the list of them. Labels that share a code have it once.
#[derive(Debug, Drop)]
pub struct LabelCodes {
    codes: Vec<LabelCode>,
    // Of each label the place of its code.
    numbers: Vec<usize>,
}

impl Model for LabelCodes {
    ghost use Rattle.std.specs.Prelude.{◌<◌, List, vec_len};
    ghost use Rattle.std.specs.List.{AllByRecursion};
    ghost use Rattle.label_code.specs.declared.operations.Op.{Op};
    ghost use Rattle.code_gen.specs.Codes.{codes_at};

    ghost Value = { List (List Op) };

    ghost view = { λ s. codes_at s.codes.items s.numbers.items };

    ghost invariant = { λ s. AllByRecursion (λ n. n < vec_len s.codes) s.numbers.items };
}

impl LabelCodes {
    /// The codes of no labels. It takes no memory.
    pub fn new(alloc: Global) -> LabelCodes
        ensures { result ≡ [] }
    {
        LabelCodes {
            codes: Vec::new(alloc),
            numbers: Vec::new(alloc),
        }
    }

    /// Appends the code of a label. It is refused for want of memory alone, and then it isn't said which codes are there.
    pub fn push(&mut self, code: LabelCode) -> Result<(), NoMemory>
        ensures { OnOk result (self.new ≡ self.old ++ code ∷ []) }
    {
        let number = self.codes.len();
        self.codes.push(code)?;
        self.numbers.push(number)?;
        Ok(())
    }

    /// Appends a label that shares the code of an earlier one. It is refused for want of memory alone, and then it isn't
    /// said which codes are there.
    pub fn share(&mut self, earlier: usize) -> Result<(), NoMemory>
        requires { earlier < length self.old }
        ensures { OnOk result (self.new ≡ self.old ++ slice_index_or self.old earlier [] ∷ []) }
    {
        let number = self.numbers[earlier];
        self.numbers.push(number)?;
        Ok(())
    }

    /// Lends the code of the label at that place.
    pub fn code(&self, place: usize) -> &[Op]
        requires { place < length self.now }
        ensures { slice_get self.now place ≡ Some result.now }
    {
        self.codes[self.numbers[place]].as_slice()
    }

    /// Lends the numbers of the codes, by label. Labels with the same number have the same code, so what is made of a
    /// code need be made once for all of them.
    pub fn numbers(&self) -> &[usize]
        ensures count { length result.now ≡ length self.now }
        ensures shared { (i j : ℕ) → slice_get result.now i ≡ slice_get result.now j →
            slice_get self.now i ≡ slice_get self.now j }
    {
        &self.numbers
    }
}
