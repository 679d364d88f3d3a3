// Examples of labels that act on both sides, from those of the sides.
ghost use Rattle.std.specs.Prelude.{◌≡◌, option_map, IfOk};
ghost use Rattle.alg_model.specs.Expressions as pure;
ghost use Rattle.alg_model.specs.Views.{pure_value};
ghost use Rattle.alg_classes.specs.Classes.{pure_at, pure_between, pure_examples};
ghost use Rattle.alg_classes.specs.Constants.{denied_examples};
ghost use Rattle.union_classes.specs.Made.{AreExamples};
ghost use Rattle.union_classes.specs.Sums as rule;

use alg_classes::Examples;
use alg_model::Value;
use meta_base::NoMemory;
use std::alloc::Global;

// The value, as one of the first side.
fn first(alloc: Global, u: &Value) -> Result<Value, NoMemory>
    ensures { IfOk result (λ value. pure_value value ≡ pure.first (pure_value u.now)) }
{
    Ok(Value::First(Box::new(alloc, u.copy(alloc)?)?))
}

// The value, as one of the second side.
fn second(alloc: Global, v: &Value) -> Result<Value, NoMemory>
    ensures { IfOk result (λ value. pure_value value ≡ pure.second (pure_value v.now)) }
{
    Ok(Value::Second(Box::new(alloc, v.copy(alloc)?)?))
}

// The first side's example if there is one, else the second's.
fn of_either(alloc: Global, x: &Option<Value>, y: &Option<Value>) -> Result<Option<Value>, NoMemory>
    ensures { IfOk result (λ o. option_map pure_at o ≡
        rule.of_either (option_map pure_at x.now) (option_map pure_at y.now)) }
{
    Ok(match (x, y) {
        (Some(u), _) => Some(first(alloc, u)?),
        (None, Some(v)) => Some(second(alloc, v)?),
        (None, None) => None,
    })
}

// The same of two values.
fn two_of_either(
    alloc: Global,
    x: &Option<(Value, Value)>,
    y: &Option<(Value, Value)>,
) -> Result<Option<(Value, Value)>, NoMemory>
    ensures { IfOk result (λ o. option_map pure_between o ≡
        rule.of_either (option_map pure_between x.now) (option_map pure_between y.now)) }
{
    Ok(match (x, y) {
        (Some((u, v)), _) => Some((first(alloc, u)?, first(alloc, v)?)),
        (None, Some((u, v))) => Some((second(alloc, u)?, second(alloc, v)?)),
        (None, None) => None,
    })
}

// A value of the first side and one of the second, if both are there.
fn across(
    alloc: Global,
    x: &Option<Value>,
    y: &Option<Value>,
) -> Result<Option<(Value, Value)>, NoMemory>
    ensures { IfOk result (λ o. option_map pure_between o ≡
        rule.across (option_map pure_at x.now) (option_map pure_at y.now)) }
{
    Ok(match (x, y) {
        (Some(u), Some(v)) => Some((first(alloc, u)?, second(alloc, v)?)),
        _ => None,
    })
}

// What shows that iso fails: an example of either side, or a value of the first that is sent to none and one
// of the second that isn't.
fn not_iso(alloc: Global, x: &Examples, y: &Examples) -> Result<Option<(Value, Value)>, NoMemory>
    ensures { IfOk result (λ o. option_map pure_between o ≡
        rule.or_else (rule.of_either (option_map pure_between x.now.not_iso) (option_map pure_between y.now.not_iso))
        (rule.across (option_map pure_at x.now.outside) (option_map pure_at y.now.inside))) }
{
    match two_of_either(alloc, &x.not_iso, &y.not_iso)? {
        Some(example) => Ok(Some(example)),
        None => across(alloc, &x.outside, &y.inside),
    }
}

// What shows that cond fails: an example of either side, or a value of each that has an image.
fn not_cond(alloc: Global, x: &Examples, y: &Examples) -> Result<Option<(Value, Value)>, NoMemory>
    ensures { IfOk result (λ o. option_map pure_between o ≡
        rule.or_else (rule.of_either (option_map pure_between x.now.not_cond) (option_map pure_between y.now.not_cond))
        (rule.across (option_map pure_at x.now.inside) (option_map pure_at y.now.inside))) }
{
    match two_of_either(alloc, &x.not_cond, &y.not_cond)? {
        Some(example) => Ok(Some(example)),
        None => across(alloc, &x.inside, &y.inside),
    }
}

// The same for narrow.
fn not_narrow(alloc: Global, x: &Examples, y: &Examples) -> Result<Option<(Value, Value)>, NoMemory>
    ensures { IfOk result (λ o. option_map pure_between o ≡
        rule.or_else (rule.of_either (option_map pure_between x.now.not_narrow) (option_map pure_between y.now.not_narrow))
        (rule.across (option_map pure_at x.now.inside) (option_map pure_at y.now.inside))) }
{
    match two_of_either(alloc, &x.not_narrow, &y.not_narrow)? {
        Some(example) => Ok(Some(example)),
        None => across(alloc, &x.inside, &y.inside),
    }
}

/// The examples of a label that acts on both sides. They are refused for want of memory alone.
pub fn beside(alloc: Global, x: &Examples, y: &Examples) -> Result<Examples, NoMemory>
    ensures { IfOk result (λ z. AreExamples z (rule.beside_examples (pure_examples x.now) (pure_examples y.now))) }
{
    Ok(Examples {
        inside: of_either(alloc, &x.inside, &y.inside)?,
        outside: of_either(alloc, &x.outside, &y.outside)?,
        not_mono: of_either(alloc, &x.not_mono, &y.not_mono)?,
        not_strict: of_either(alloc, &x.not_strict, &y.not_strict)?,
        not_iso: not_iso(alloc, x, y)?,
        not_canc: two_of_either(alloc, &x.not_canc, &y.not_canc)?,
        not_cond: not_cond(alloc, x, y)?,
        not_narrow: not_narrow(alloc, x, y)?,
    })
}

/// The examples of a label that sends all values of a side to none, of which this is one. They are refused
/// for want of memory alone.
pub fn denied(alloc: Global, value: &Value) -> Result<Examples, NoMemory>
    ensures { IfOk result (λ z. AreExamples z (denied_examples (pure_value value.now))) }
{
    Ok(Examples {
        inside: None,
        outside: Some(value.copy(alloc)?),
        not_mono: None,
        not_strict: None,
        not_iso: None,
        not_canc: None,
        not_cond: None,
        not_narrow: None,
    })
}
