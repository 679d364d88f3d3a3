// What is asked of the two sides of a sum's or a union's values to show that a fact fails, and what their examples make.
ghost use Rattle.std.specs.Prelude.{◌≡◌, option_map, IfOk};
ghost use Rattle.alg_model.specs.Expressions as pure;
ghost use Rattle.alg_model.specs.Views.{pure_value};
ghost use Rattle.alg_model.specs.declared.edition.Edition.{Edition};
ghost use Rattle.alg_classes.specs.Classes.{pure_example};
ghost use Rattle.property_infer.specs.Asked.{IsAction, MakesSides};
ghost use Rattle.property_infer.specs.SideAnswers.{IsAcross, IsOfEach};
ghost use Rattle.union_classes.specs.Sums as rule;

use crate::action::Action;
use alg_classes::{Example, Fact};
use alg_model::Value;
use meta_base::NoMemory;
use std::alloc::Global;

/// What is asked of two actions, one on each side.
#[derive(Clone, Copy, Debug)]
pub(crate) enum OfSides {
    /// An example of the first side against the same fact.
    First,
    /// An example of the second side against it.
    Second,
    /// A value of the first side that is an example against this fact, and one of the second that has an image.
    Across(Fact),
}

// What is asked of the actions on the sides, that their examples show whether the fact holds of both together.
pub(crate) fn asked_of_sides(x: Action<'_>, y: Action<'_>, fact: Fact) -> OfSides
    requires first { (e : Edition) × IsAction e x }
    requires second { (e : Edition) × IsAction e y }
    ensures { MakesSides x.entry y.entry fact result }
{
    match fact {
        Fact::Total | Fact::Dead | Fact::Monotone | Fact::Strict | Fact::Cancellative => {
            asked_of_each(x, y, fact)
        }
        Fact::Isotone => asked_of_all(x, y, fact, Fact::Total),
        Fact::Condensed | Fact::Narrow => asked_of_all(x, y, fact, Fact::Dead),
    }
}

// A fact that holds of both where it holds of each.
fn asked_of_each(x: Action<'_>, y: Action<'_>, fact: Fact) -> OfSides
    requires each { IsOfEach fact }
    requires first { (e : Edition) × IsAction e x }
    requires second { (e : Edition) × IsAction e y }
    ensures { MakesSides x.entry y.entry fact result }
{
    if x.profile().has(fact) {
        OfSides::Second
    } else {
        OfSides::First
    }
}

// A fact that may fail between the sides, where it holds of each: a value of the first that is an example against the
// other fact shows it.
fn asked_of_all(x: Action<'_>, y: Action<'_>, fact: Fact, between: Fact) -> OfSides
    requires across { IsAcross fact between }
    requires first { (e : Edition) × IsAction e x }
    requires second { (e : Edition) × IsAction e y }
    ensures { MakesSides x.entry y.entry fact result }
{
    if !x.profile().has(fact) {
        OfSides::First
    } else if !y.profile().has(fact) {
        OfSides::Second
    } else {
        OfSides::Across(between)
    }
}

// The value, as one of the first side.
fn first(alloc: Global, u: Value) -> Result<Value, NoMemory>
    ensures { IfOk result (λ value. pure_value value ≡ pure.first (pure_value u)) }
{
    Ok(Value::First(Box::new(alloc, u)?))
}

// The value, as one of the second side.
fn second(alloc: Global, v: Value) -> Result<Value, NoMemory>
    ensures { IfOk result (λ value. pure_value value ≡ pure.second (pure_value v)) }
{
    Ok(Value::Second(Box::new(alloc, v)?))
}

// The example, if it is there, of the first side's values.
pub(crate) fn on_first(alloc: Global, x: Option<Example>) -> Result<Option<Example>, NoMemory>
    ensures { IfOk result (λ z. option_map pure_example z ≡ option_map rule.on_first (option_map pure_example x)) }
{
    Ok(match x {
        Some(Example::At(u)) => Some(Example::At(first(alloc, u)?)),
        Some(Example::Between(u, v)) => {
            Some(Example::Between(first(alloc, u)?, first(alloc, v)?))
        }
        None => None,
    })
}

// The example, if it is there, of the second side's values.
pub(crate) fn on_second(alloc: Global, y: Option<Example>) -> Result<Option<Example>, NoMemory>
    ensures { IfOk result (λ z. option_map pure_example z ≡ option_map rule.on_second (option_map pure_example y)) }
{
    Ok(match y {
        Some(Example::At(v)) => Some(Example::At(second(alloc, v)?)),
        Some(Example::Between(u, v)) => {
            Some(Example::Between(second(alloc, u)?, second(alloc, v)?))
        }
        None => None,
    })
}

// A value of the first side and one of the second, if both are there.
pub(crate) fn across(
    alloc: Global,
    x: Option<Example>,
    y: Option<Example>,
) -> Result<Option<Example>, NoMemory>
    ensures { IfOk result (λ z. option_map pure_example z
        ≡ rule.across (option_map pure_example x) (option_map pure_example y)) }
{
    match x {
        Some(Example::At(u)) => match y {
            Some(Example::At(v)) => {
                Ok(Some(Example::Between(first(alloc, u)?, second(alloc, v)?)))
            }
            Some(Example::Between(_, _)) => Ok(None),
            None => Ok(None),
        },
        Some(Example::Between(_, _)) => Ok(None),
        None => Ok(None),
    }
}
