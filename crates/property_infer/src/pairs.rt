// What is asked of the parts of a pair to show that a fact fails of it, and what their examples make.
ghost use Rattle.std.specs.Prelude.{◌≡◌, option_map, IfOk};
ghost use Rattle.alg_classes.specs.Pairs as rule;
ghost use Rattle.alg_model.specs.Expressions as pure;
ghost use Rattle.alg_model.specs.Views.{pure_value};
ghost use Rattle.alg_model.specs.declared.edition.Edition.{Edition};
ghost use Rattle.alg_classes.specs.Classes.{pure_example};
ghost use Rattle.property_infer.specs.Asked.{IsAction, MakesPair};
ghost use Rattle.property_infer.specs.PairAnswers.{IsAlike, IsOfWorse};

use crate::action::Action;
use alg_classes::{Example, Fact};
use alg_model::Value;
use meta_base::NoMemory;
use std::alloc::Global;

/// What is asked of two actions, one on each part of a pair.
#[derive(Clone, Copy, Debug)]
pub(crate) enum OfPair {
    /// An example against a fact of each.
    Both(Fact, Fact),
    /// A value that the first sends to none, beside any.
    OutsideFirst,
    /// A value that the second sends to none, beside any.
    OutsideSecond,
    /// Two values of the first that have images, the first preferred; of the second one that has an image, and one that
    /// has none.
    Split,
}

// What is asked of the actions on the parts, that their examples show whether the fact holds of the pair.
pub(crate) fn asked_of_pair(x: Action<'_>, y: Action<'_>, fact: Fact) -> OfPair
    requires first { (e : Edition) × IsAction e x }
    requires second { (e : Edition) × IsAction e y }
    ensures { MakesPair x.entry y.entry fact result }
{
    match fact {
        Fact::Total => total_asked(x, y),
        Fact::Dead => OfPair::Both(Fact::Dead, Fact::Dead),
        Fact::Monotone | Fact::Strict => worse_asked(x, y, fact),
        Fact::Isotone => isotone_asked(x, y),
        Fact::Cancellative | Fact::Condensed | Fact::Narrow => alike_asked(x, y, fact),
    }
}

fn total_asked(x: Action<'_>, y: Action<'_>) -> OfPair
    requires first { (e : Edition) × IsAction e x }
    requires second { (e : Edition) × IsAction e y }
    ensures { MakesPair x.entry y.entry Fact.Total result }
{
    if x.profile().total {
        OfPair::OutsideSecond
    } else {
        OfPair::OutsideFirst
    }
}

// Whether no image is preferred to its value, or each is worse.
fn worse_asked(x: Action<'_>, y: Action<'_>, fact: Fact) -> OfPair
    requires worse { IsOfWorse fact }
    requires first { (e : Edition) × IsAction e x }
    requires second { (e : Edition) × IsAction e y }
    ensures { MakesPair x.entry y.entry fact result }
{
    if x.profile().mono {
        OfPair::Both(Fact::Strict, fact)
    } else {
        OfPair::Both(Fact::Monotone, Fact::Dead)
    }
}

fn isotone_asked(x: Action<'_>, y: Action<'_>) -> OfPair
    requires first { (e : Edition) × IsAction e x }
    requires second { (e : Edition) × IsAction e y }
    ensures { MakesPair x.entry y.entry Fact.Isotone result }
{
    if !x.profile().iso {
        return OfPair::Both(Fact::Isotone, Fact::Dead);
    }
    let second = y.profile();
    if !second.iso {
        OfPair::Both(Fact::Dead, Fact::Isotone)
    } else if !second.total {
        OfPair::Split
    } else {
        OfPair::Both(Fact::Cancellative, Fact::Condensed)
    }
}

// A fact that the pair has where both parts have it.
fn alike_asked(x: Action<'_>, y: Action<'_>, fact: Fact) -> OfPair
    requires alike { IsAlike fact }
    requires first { (e : Edition) × IsAction e x }
    requires second { (e : Edition) × IsAction e y }
    ensures { MakesPair x.entry y.entry fact result }
{
    if x.profile().has(fact) {
        OfPair::Both(Fact::Dead, fact)
    } else {
        OfPair::Both(fact, Fact::Dead)
    }
}

// The pair of two values.
fn pair(alloc: Global, u: Value, v: Value) -> Result<Value, NoMemory>
    ensures { IfOk result (λ w. pure_value w ≡ pure.pair (pure_value u) (pure_value v)) }
{
    Ok(Value::Pair(Box::new(alloc, u)?, Box::new(alloc, v)?))
}

// The example of pairs that one of each part makes, if both are there.
pub(crate) fn beside(
    alloc: Global,
    x: Option<Example>,
    y: Option<Example>,
) -> Result<Option<Example>, NoMemory>
    ensures { IfOk result (λ z. option_map pure_example z
        ≡ rule.beside (option_map pure_example x) (option_map pure_example y)) }
{
    let Some(x) = x else {
        return Ok(None);
    };
    let Some(y) = y else {
        return Ok(None);
    };
    Ok(Some(match (x, y) {
        (Example::At(u), Example::At(v)) => Example::At(pair(alloc, u, v)?),
        (Example::At(w), Example::Between(u, v)) => {
            let again = w.copy(alloc)?;
            Example::Between(pair(alloc, w, u)?, pair(alloc, again, v)?)
        }
        (Example::Between(u, v), Example::At(w)) => {
            let again = w.copy(alloc)?;
            Example::Between(pair(alloc, u, w)?, pair(alloc, v, again)?)
        }
        (Example::Between(t, u), Example::Between(v, w)) => {
            Example::Between(pair(alloc, t, w)?, pair(alloc, u, v)?)
        }
    }))
}

// Two values as one example, if both are there.
pub(crate) fn spanned(x: Option<Example>, y: Option<Example>) -> Option<Example>
    ensures { option_map pure_example result
        ≡ rule.spanned (option_map pure_example x) (option_map pure_example y) }
{
    match x? {
        Example::At(u) => match y? {
            Example::At(v) => Some(Example::Between(u, v)),
            Example::Between(_, _) => None,
        },
        Example::Between(_, _) => None,
    }
}
