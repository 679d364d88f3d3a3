// The rule of lexical pairs.
ghost use Rattle.std.specs.Prelude.{◌≡◌, option_map, IfOk};
ghost use Rattle.std.specs.Option.{option_or};
ghost use Rattle.alg_model.specs.Expressions as pure;
ghost use Rattle.alg_model.specs.Views.{pure_value};
ghost use Rattle.alg_classes.specs.declared.fact.Fact.{Fact};
ghost use Rattle.alg_classes.specs.declared.fact.Fact.TheVariants as fact;
ghost use Rattle.alg_classes.specs.Classes.{pure_at, pure_between, pure_examples};
ghost use Rattle.alg_classes.specs.Pairs as rule;

use crate::{Examples, Profile};
use alg_model::Value;
use meta_base::NoMemory;
use std::alloc::Global;

/// The profile of a label of pairs, of which `l` acts on the first part and `m` on the second. The rules
/// are this project's own; they are exact.
pub fn pair_profile(l: &Profile, m: &Profile) -> Profile
    ensures { result ≡ rule.pair_profile l.now m.now }
{
    Profile {
        total: l.total && m.total,
        dead: is_dead(l, m),
        mono: is_monotone(l, m),
        strict: is_strict(l, m),
        iso: is_isotone(l, m),
        canc: is_dead(l, m) || l.canc && m.canc,
        cond: is_dead(l, m) || l.cond && m.cond,
        narrow: is_dead(l, m) || l.narrow && m.narrow,
    }
}

fn is_dead(l: &Profile, m: &Profile) -> bool
    ensures { result ≡ (rule.pair_profile l.now m.now).dead }
{
    l.dead || m.dead
}

// The first part decides, or else it is at best kept, and the second decides.
fn is_monotone(l: &Profile, m: &Profile) -> bool
    ensures { result ≡ (rule.pair_profile l.now m.now).mono }
{
    is_dead(l, m) || l.strict || l.mono && m.mono
}

fn is_strict(l: &Profile, m: &Profile) -> bool
    ensures { result ≡ (rule.pair_profile l.now m.now).strict }
{
    is_dead(l, m) || l.strict || l.mono && m.strict
}

// Each part keeps its order, and the second can't turn that of the first: no first parts that have images
// are in order, or each second part has an image, and where first parts come to be equivalent, the second
// ones do too.
fn is_isotone(l: &Profile, m: &Profile) -> bool
    ensures { result ≡ (rule.pair_profile l.now m.now).iso }
{
    is_dead(l, m) || l.iso && m.iso && (l.narrow || m.total && (l.canc || m.cond))
}

/// The examples of such a label from those of its parts. Each carrier has a value, so that one is inside
/// or outside. It is refused for want of memory alone.
pub fn pair_examples(alloc: Global, x: &Examples, y: &Examples) -> Result<Examples, NoMemory>
    ensures { IfOk result (λ z. (k : Fact) →
        pure_examples z k ≡ rule.pair_examples (pure_examples x.now) (pure_examples y.now) k) }
{
    Ok(Examples {
        inside: at_both(alloc, &x.inside, &y.inside)?,
        outside: outside(alloc, x, y)?,
        not_mono: not_mono(alloc, x, y)?,
        not_strict: not_strict(alloc, x, y)?,
        not_iso: not_iso(alloc, x, y)?,
        not_canc: of_either(alloc, &x.not_canc, &x.inside, &y.not_canc, &y.inside)?,
        not_cond: of_either(alloc, &x.not_cond, &x.inside, &y.not_cond, &y.inside)?,
        not_narrow: of_either(alloc, &x.not_narrow, &x.inside, &y.not_narrow, &y.inside)?,
    })
}

// A pair that is sent to none: a part is.
fn outside(alloc: Global, x: &Examples, y: &Examples) -> Result<Option<Value>, NoMemory>
    ensures { IfOk result (λ z. option_map pure_at z
        ≡ rule.pair_examples (pure_examples x.now) (pure_examples y.now) fact.Total) }
{
    match at_both(alloc, &x.outside, some_value(y))? {
        None => at_both(alloc, some_value(x), &y.outside),
        found => Ok(found),
    }
}

// A pair whose image is preferred to it: that of the first part is, or else the first part is at best kept,
// and the image of the second is preferred to that.
fn not_mono(alloc: Global, x: &Examples, y: &Examples) -> Result<Option<Value>, NoMemory>
    ensures { IfOk result (λ z. option_map pure_at z
        ≡ rule.pair_examples (pure_examples x.now) (pure_examples y.now) fact.Monotone) }
{
    match at_both(alloc, &x.not_mono, &y.inside)? {
        None => at_both(alloc, &x.not_strict, &y.not_mono),
        found => Ok(found),
    }
}

// A pair that has an image and isn't preferred to it.
fn not_strict(alloc: Global, x: &Examples, y: &Examples) -> Result<Option<Value>, NoMemory>
    ensures { IfOk result (λ z. option_map pure_at z
        ≡ rule.pair_examples (pure_examples x.now) (pure_examples y.now) fact.Strict) }
{
    match at_both(alloc, &x.not_mono, &y.inside)? {
        None => at_both(alloc, &x.not_strict, &y.not_strict),
        found => Ok(found),
    }
}

// Two pairs whose order is turned: that of a part is; or else the first parts are in order, and the second
// ones turn it where the first pair has no image, or where the images of the first parts are equivalent.
fn not_iso(alloc: Global, x: &Examples, y: &Examples) -> Result<Option<(Value, Value)>, NoMemory>
    ensures { IfOk result (λ z. option_map pure_between z
        ≡ rule.pair_examples (pure_examples x.now) (pure_examples y.now) fact.Isotone) }
{
    match of_either(alloc, &x.not_iso, &x.inside, &y.not_iso, &y.inside)? {
        None => {}
        found => return Ok(found),
    }
    match crosswise_with(alloc, &x.not_narrow, &y.inside, &y.outside)? {
        None => crosswise(alloc, &x.not_canc, &y.not_cond),
        found => Ok(found),
    }
}

// Two values of the first part with one of the second that has an image, or else the other way round.
fn of_either(
    alloc: Global,
    x: &Option<(Value, Value)>,
    x_inside: &Option<Value>,
    y: &Option<(Value, Value)>,
    y_inside: &Option<Value>,
) -> Result<Option<(Value, Value)>, NoMemory>
    ensures { IfOk result (λ z. option_map pure_between z ≡ option_or
        (rule.beside (option_map pure_between x.now) (option_map pure_at y_inside.now))
        (rule.beside (option_map pure_at x_inside.now) (option_map pure_between y.now))) }
{
    match with_second(alloc, x, y_inside)? {
        None => with_first(alloc, x_inside, y),
        found => Ok(found),
    }
}

// A value that has an image, or else one that has none.
fn some_value(x: &Examples) -> &Option<Value>
    ensures { option_map pure_at result.now ≡ rule.some_value (pure_examples x.now) }
{
    match x.inside {
        None => &x.outside,
        Some(_) => &x.inside,
    }
}

fn at_both(alloc: Global, x: &Option<Value>, y: &Option<Value>) -> Result<Option<Value>, NoMemory>
    ensures { IfOk result (λ z. option_map pure_at z
        ≡ rule.beside (option_map pure_at x.now) (option_map pure_at y.now)) }
{
    match (x, y) {
        (Some(u), Some(v)) => Ok(Some(pair(alloc, u, v)?)),
        _ => Ok(None),
    }
}

fn with_first(
    alloc: Global,
    x: &Option<Value>,
    y: &Option<(Value, Value)>,
) -> Result<Option<(Value, Value)>, NoMemory>
    ensures { IfOk result (λ z. option_map pure_between z
        ≡ rule.beside (option_map pure_at x.now) (option_map pure_between y.now)) }
{
    match (x, y) {
        (Some(w), Some((u, v))) => Ok(Some((pair(alloc, w, u)?, pair(alloc, w, v)?))),
        _ => Ok(None),
    }
}

fn with_second(
    alloc: Global,
    x: &Option<(Value, Value)>,
    y: &Option<Value>,
) -> Result<Option<(Value, Value)>, NoMemory>
    ensures { IfOk result (λ z. option_map pure_between z
        ≡ rule.beside (option_map pure_between x.now) (option_map pure_at y.now)) }
{
    match (x, y) {
        (Some((u, v)), Some(w)) => Ok(Some((pair(alloc, u, w)?, pair(alloc, v, w)?))),
        _ => Ok(None),
    }
}

// The better of the first parts with the worse of the second, and the other way round.
fn crosswise(
    alloc: Global,
    x: &Option<(Value, Value)>,
    y: &Option<(Value, Value)>,
) -> Result<Option<(Value, Value)>, NoMemory>
    ensures { IfOk result (λ z. option_map pure_between z
        ≡ rule.beside (option_map pure_between x.now) (option_map pure_between y.now)) }
{
    match (x, y) {
        (Some((t, u)), Some((v, w))) => Ok(Some((pair(alloc, t, w)?, pair(alloc, u, v)?))),
        _ => Ok(None),
    }
}

// The same of a second part that has an image and one that has none.
fn crosswise_with(
    alloc: Global,
    x: &Option<(Value, Value)>,
    inside: &Option<Value>,
    outside: &Option<Value>,
) -> Result<Option<(Value, Value)>, NoMemory>
    ensures { IfOk result (λ z. option_map pure_between z ≡ rule.beside
        (option_map pure_between x.now)
        (rule.spanned (option_map pure_at inside.now) (option_map pure_at outside.now))) }
{
    match (x, inside, outside) {
        (Some((t, u)), Some(v), Some(w)) => Ok(Some((pair(alloc, t, w)?, pair(alloc, u, v)?))),
        _ => Ok(None),
    }
}

// The pair of two equal values.
fn pair(alloc: Global, u: &Value, v: &Value) -> Result<Value, NoMemory>
    ensures { IfOk result (λ w. pure_value w ≡ pure.pair (pure_value u.now) (pure_value v.now)) }
{
    Ok(Value::Pair(
        Box::new(alloc, u.copy(alloc)?)?,
        Box::new(alloc, v.copy(alloc)?)?,
    ))
}
