ghost use Rattle.std.specs.Prelude.{◌≡◌, slice_index};
ghost use Rattle.alg_model.specs.Views.{expression_of, pure_value};
ghost use Rattle.alg_model.specs.Carriers.{carrier_of, In, Order};

use crate::{Alg, Form, Tree, Value};
use std::cmp::Ordering;

/// Which of two values of the algebra is preferred: `Less` is the first, `Greater` the second, and
/// `Equal` says that they are equivalent. It is a total preorder. It takes no memory.
pub fn order(alg: &Alg, u: &Value, v: &Value) -> Ordering
    requires first { In (carrier_of alg.now.expression) (pure_value u.now) }
    requires second { In (carrier_of alg.now.expression) (pure_value v.now) }
    ensures { result ≡ Order (carrier_of alg.now.expression) (pure_value u.now) (pure_value v.now) }
{
    compare(alg.tree(), u, v)
}

// Which of two values of the tree's algebra is preferred.
fn compare(tree: &Tree, u: &Value, v: &Value) -> Ordering
    requires first { In (carrier_of (expression_of tree.now)) (pure_value u.now) }
    requires second { In (carrier_of (expression_of tree.now)) (pure_value v.now) }
    ensures { result ≡ Order (carrier_of (expression_of tree.now)) (pure_value u.now) (pure_value v.now) }
{
    match tree.value_form() {
        Form::Whole | Form::UpTo(_) => match (u, v) {
            (Value::Number(m), Value::Number(n)) => m.cmp(n),
            _ => Ordering::Equal,
        },
        Form::DownFrom(_) => match (u, v) {
            (Value::Number(m), Value::Number(n)) => n.cmp(m),
            _ => Ordering::Equal,
        },
        Form::Seqs(_) | Form::SimSeqs(_) => match (u, v) {
            (Value::Symbols(ms), Value::Symbols(ns)) => {
                ms.as_slice().len().cmp(&ns.as_slice().len())
            }
            _ => Ordering::Equal,
        },
        Form::Sets(_) | Form::One => Ordering::Equal,
        Form::Named(_, ranks) => match (u, v) {
            (Value::Name(j), Value::Name(k)) => rank_at(ranks, *j).cmp(&rank_at(ranks, *k)),
            _ => Ordering::Equal,
        },
        Form::Pair(a, b) => match (u, v) {
            (Value::Pair(u1, u2), Value::Pair(v1, v2)) => match compare(a, u1, v1) {
                Ordering::Equal => compare(b, u2, v2),
                unequal => unequal,
            },
            _ => Ordering::Equal,
        },
        Form::Side(a, b) => match (u, v) {
            (Value::First(u), Value::First(v)) => compare(a, u, v),
            (Value::First(_), Value::Second(_)) => Ordering::Less,
            (Value::Second(_), Value::First(_)) => Ordering::Greater,
            (Value::Second(u), Value::Second(v)) => compare(b, u, v),
            _ => Ordering::Equal,
        },
    }
}

/// The rank of the value at that place of a table, or 0 where it has none. A table of an algebra has a rank for each
/// place.
pub fn rank_at(ranks: &[u8], place: u8) -> u8
    ensures { result ≡ slice_index ranks.now place }
{
    ranks.get(usize::from(place)).copied().unwrap_or(0)
}
