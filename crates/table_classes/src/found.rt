ghost use Rattle.std.specs.Prelude.{◌≡◌, option_map};
ghost use Rattle.alg_model.specs.declared.tree.Value.{Name};
ghost use Rattle.alg_model.specs.declared.alg.TheConstants.{MAX_INSTANCE_NUMBER};
ghost use Rattle.alg_classes.specs.Classes.{ExampleAtMost, pure_example};
ghost use Rattle.table_classes.specs.Rows.{pair_fact, value_fact};
ghost use Rattle.table_classes.specs.Found.{AreAnswersOf, IsAnswerOf, found_examples, found_profile, found_class, named_pair};

use crate::fact::{PairFact, ValueFact};
use crate::row::Row;
use alg_classes::{Class, Example, Examples, Fact, Profile};
use alg_model::{Label, Value};

// Where each fact of a row fails: the places of an example, and none where the fact holds.
#[derive(Clone, Copy, Debug)]
pub(crate) struct Found {
    outside: Option<u8>,
    inside: Option<u8>,
    not_mono: Option<u8>,
    not_strict: Option<u8>,
    not_iso: Option<(u8, u8)>,
    not_canc: Option<(u8, u8)>,
    not_cond: Option<(u8, u8)>,
    not_narrow: Option<(u8, u8)>,
}

impl Found {
    // What a search for each fact finds.
    pub(crate) fn of(row: &Row<'_>) -> Found
        ensures { AreAnswersOf row.now result }
    {
        Found {
            outside: row.find_value(ValueFact::Total),
            inside: row.find_value(ValueFact::Dead),
            not_mono: row.find_value(ValueFact::Monotone),
            not_strict: row.find_value(ValueFact::Strict),
            not_iso: row.find_pair(PairFact::Isotone),
            not_canc: row.find_pair(PairFact::Cancellative),
            not_cond: row.find_pair(PairFact::Condensed),
            not_narrow: row.find_pair(PairFact::Narrow),
        }
    }

    // A fact holds exactly if no example of it was found.
    pub(crate) fn profile(&self) -> Profile
        ensures { result ≡ found_profile self.now }
    {
        Profile {
            total: self.outside.is_none(),
            dead: self.inside.is_none(),
            mono: self.not_mono.is_none(),
            strict: self.not_strict.is_none(),
            iso: self.not_iso.is_none(),
            canc: self.not_canc.is_none(),
            cond: self.not_cond.is_none(),
            narrow: self.not_narrow.is_none(),
        }
    }

    // The class of the label of this row.
    pub(crate) fn class(&self, label: Label) -> Class
        ensures { result ≡ found_class label self.now }
    {
        Class {
            profile: self.profile(),
            label,
            examples: self.examples(),
        }
    }

    // An example for each fact that fails.
    pub(crate) fn examples(&self) -> Examples
        ensures { result ≡ found_examples self.now }
    {
        Examples {
            outside: value_at(self.outside),
            inside: value_at(self.inside),
            not_mono: value_at(self.not_mono),
            not_strict: value_at(self.not_strict),
            not_iso: values_at(self.not_iso),
            not_canc: values_at(self.not_canc),
            not_cond: values_at(self.not_cond),
            not_narrow: values_at(self.not_narrow),
        }
    }
}

impl Row<'_> {
    // The first example against the fact, if there is one.
    pub(crate) fn example(&self, fact: Fact) -> Option<Example>
        ensures answer { IsAnswerOf self.now fact (option_map pure_example result) }
        ensures bound { ExampleAtMost MAX_INSTANCE_NUMBER (option_map pure_example result) }
    {
        match fact {
            Fact::Total => self.value_example(ValueFact::Total),
            Fact::Dead => self.value_example(ValueFact::Dead),
            Fact::Monotone => self.value_example(ValueFact::Monotone),
            Fact::Strict => self.value_example(ValueFact::Strict),
            Fact::Isotone => self.pair_example(PairFact::Isotone),
            Fact::Cancellative => self.pair_example(PairFact::Cancellative),
            Fact::Condensed => self.pair_example(PairFact::Condensed),
            Fact::Narrow => self.pair_example(PairFact::Narrow),
        }
    }

    // The first value that refutes the fact.
    fn value_example(&self, fact: ValueFact) -> Option<Example>
        ensures answer { IsAnswerOf self.now (value_fact fact) (option_map pure_example result) }
        ensures bound { ExampleAtMost MAX_INSTANCE_NUMBER (option_map pure_example result) }
    {
        Example::at(value_at(self.find_value(fact)))
    }

    // The first pair of values that refutes the fact.
    fn pair_example(&self, fact: PairFact) -> Option<Example>
        ensures answer { IsAnswerOf self.now (pair_fact fact) (option_map pure_example result) }
        ensures bound { ExampleAtMost MAX_INSTANCE_NUMBER (option_map pure_example result) }
    {
        Example::between(values_at(self.find_pair(fact)))
    }
}

// The value at the place that was found.
fn value_at(place: Option<u8>) -> Option<Value>
    ensures { result ≡ option_map Name place }
{
    place.map(Value::Name)
}

// The values at the places that were found.
fn values_at(places: Option<(u8, u8)>) -> Option<(Value, Value)>
    ensures { result ≡ option_map named_pair places }
{
    let (u, v) = places?;
    Some((Value::Name(u), Value::Name(v)))
}
