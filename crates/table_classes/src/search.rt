// Searches for an example against a fact of a row.
ghost use Rattle.std.specs.Prelude.{◌<◌, ℕ, length, MatchOption};
ghost use Rattle.table_classes.specs.Rows.{value_fact, pair_fact};
ghost use Rattle.table_classes.specs.Found.{FailsBetween, IsAnswerOf, value_example, pair_example};

use crate::fact::{PairFact, ValueFact};
use crate::row::Row;

impl Row<'_> {
    // The first value that refutes the fact, if one does.
    pub(crate) fn find_value(&self, fact: ValueFact) -> Option<u8>
        ensures { IsAnswerOf self.now (value_fact fact) (value_example result) }
    {
        for u in 0..self.count() {
            if self.fails_at(fact, u) {
                return Some(u);
            }
        }
        None
    }

    // The first pair of values that refutes the fact, if one does.
    pub(crate) fn find_pair(&self, fact: PairFact) -> Option<(u8, u8)>
        ensures { IsAnswerOf self.now (pair_fact fact) (pair_example result) }
    {
        for u in 0..self.count() {
            if let Some(v) = self.find_second(fact, u) {
                return Some((u, v));
            }
        }
        None
    }

    // The first value that with u before it refutes the fact, if one does.
    fn find_second(&self, fact: PairFact, u: u8) -> Option<u8>
        requires { u < length self.now.names }
        ensures { MatchOption result
            ((v : ℕ) → v < length self.now.names → ¬ FailsBetween self.now (pair_fact fact) u v)
            (λ v. (v < length self.now.names) × FailsBetween self.now (pair_fact fact) u v) }
    {
        let image = self.image(u);
        for v in 0..self.count() {
            if self.fails_between(fact, u, image, v) {
                return Some(v);
            }
        }
        None
    }
}
