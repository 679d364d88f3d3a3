ghost use Rattle.std.specs.Prelude.{◌≡◌, ◌⊎◌, [], false, true, replicate, set, slice_index_or};

use std::alloc::Global;
use std::marker::Model;

/// Which labels of a network were looked at already, by their numbers ([`crate::LabelNumbers`]). Where there was no
/// memory for marks no label is ever marked, so whoever asks looks at a label again, and nothing is refused. Contracts
/// see the list of the marks.
#[derive(Debug, Drop)]
pub struct LabelMarks {
    marks: Vec<bool>,
}

impl Model for LabelMarks {
    ghost use Rattle.std.specs.Prelude.{Bool, List};

    ghost Value = { List Bool };

    ghost view = { λ s. s.marks.items };
}

impl LabelMarks {
    /// None of so many labels is marked.
    pub fn new(alloc: Global, count: usize) -> LabelMarks
        ensures { (result ≡ replicate count false) ⊎ (result ≡ []) }
    {
        match vec![in alloc; false; count] {
            Ok(marks) => LabelMarks { marks },
            Err(_) => LabelMarks {
                marks: Vec::new(alloc),
            },
        }
    }

    /// Whether the label of that number is marked.
    pub fn has(&self, number: usize) -> bool
        ensures { result ≡ slice_index_or self.now number false }
    {
        match self.marks.get(number) {
            Some(mark) => *mark,
            None => false,
        }
    }

    /// Marks the label of that number, where there is memory for marks.
    pub fn mark(&mut self, number: usize)
        ensures { self.new ≡ set self.old number true }
    {
        if let Some(mark) = self.marks.get_mut(number) {
            *mark = true;
        }
    }
}
