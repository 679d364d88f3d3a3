// What is tested of values beside membership: that two are one, and how great their numbers are.
ghost use Rattle.std.specs.Prelude.{◌≡◌, nat_le};
ghost use Rattle.std.specs.Bool.{Decides};
ghost use Rattle.std.specs.List.{list_all};
ghost use Rattle.alg_model.specs.Bounds.{AtMost};
ghost use Rattle.alg_model.specs.Views.{pure_value};
ghost use Rattle.alg_model.specs.Tests.{same_value, is_at_most};

use crate::{Amount, Value};

/// Whether the values are one and the same. Two values may be equivalent in an algebra's preference and yet be
/// two. It takes no memory.
pub fn same_value(a: &Value, b: &Value) -> bool
    ensures test { result ≡ same_value (pure_value a.now) (pure_value b.now) }
    ensures same { Decides result (pure_value a.now ≡ pure_value b.now) }
{
    are_same(a, b)
}

fn are_same(a: &Value, b: &Value) -> bool
    ensures { result ≡ same_value (pure_value a.now) (pure_value b.now) }
{
    match (a, b) {
        (Value::Number(m), Value::Number(n)) => m == n,
        (Value::Symbols(ms), Value::Symbols(ns)) => ms.as_slice() == ns.as_slice(),
        (Value::Marks(m), Value::Marks(n)) => m == n,
        (Value::Unit, Value::Unit) => true,
        (Value::Name(j), Value::Name(k)) => j == k,
        (Value::Pair(u, v), Value::Pair(x, y)) => are_same(u, x) && are_same(v, y),
        (Value::First(u), Value::First(x)) => are_same(u, x),
        (Value::Second(v), Value::Second(y)) => are_same(v, y),
        _ => false,
    }
}

/// Whether no number of the value is above this one. It takes no memory.
pub fn is_at_most(greatest: Amount, value: &Value) -> bool
    ensures test { result ≡ is_at_most greatest (pure_value value.now) }
    ensures at_most { Decides result (AtMost greatest (pure_value value.now)) }
{
    has_at_most(greatest, value)
}

fn has_at_most(greatest: Amount, value: &Value) -> bool
    ensures { result ≡ is_at_most greatest (pure_value value.now) }
{
    match value {
        Value::Number(n) => *n <= greatest,
        Value::Symbols(ns) => are_at_most(greatest, ns.as_slice()),
        Value::Marks(_) | Value::Unit | Value::Name(_) => true,
        Value::Pair(u, v) => has_at_most(greatest, u) && has_at_most(greatest, v),
        Value::First(u) => has_at_most(greatest, u),
        Value::Second(v) => has_at_most(greatest, v),
    }
}

// Whether no symbol is above the number.
fn are_at_most(greatest: Amount, ns: &[u64]) -> bool
    ensures { result ≡ list_all (λ n. nat_le n greatest) ns.now }
{
    ns.iter().all(|n| Amount::from(*n) <= greatest)
}
