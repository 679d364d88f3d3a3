ghost use Rattle.std.specs.Prelude.{◌≡◌, ◌≤◌, ◌++◌, ◌∷◌, [], IfOk, IfSome, length, ◌-◌, option_map};
ghost use Rattle.alg_model.specs.Bounds.{AtMost};
ghost use Rattle.alg_model.specs.Carriers.{In};
ghost use Rattle.alg_model.specs.Expressions.{symbols};
ghost use Rattle.alg_model.specs.Formation.{IsCarrier};
ghost use Rattle.alg_model.specs.Views.{pure_carrier, pure_value};
ghost use Rattle.alg_model.specs.declared.alg.TheConstants.{MAX_INSTANCE_NUMBER, MAX_TABLE_NAMES};
ghost use Rattle.alg_model.specs.declared.edition.TheConstants.{MAX_LABEL_NUMBER};
ghost use Rattle.alg_classes.specs.Constants.{some_worse, two_apart, pure_two, IsWorseIfAny, AreApartIfAny, TwoAtMost};
ghost use Rattle.alg_classes.specs.Flat.{best, numbers_below, worse_than};
ghost use Rattle.alg_classes.specs.Worst.{worst, IsWorstIfAny};

use crate::{has_worse, is_flat};
use alg_model::{Amount, Carrier, Value};
use meta_base::{List, NoMemory, Text};
use std::alloc::Global;

/// A value of the carrier to which none is preferred. It is refused for want of memory alone.
pub fn best(alloc: Global, carrier: &Carrier) -> Result<Value, NoMemory>
    ensures value { IfOk result (λ v. pure_value v ≡ best (pure_carrier carrier.now)) }
    ensures small { IfOk result (λ v. AtMost MAX_LABEL_NUMBER (pure_value v)) }
{
    Ok(match carrier {
        Carrier::Whole | Carrier::UpTo(_) => Value::Number(0),
        Carrier::DownFrom(top) => Value::Number(Amount::from(*top)),
        Carrier::Seqs(_) | Carrier::SimSeqs(_) => Value::Symbols(List::new(alloc)),
        Carrier::Sets(_) => Value::Marks(0),
        Carrier::One => Value::Unit,
        Carrier::Named(_, _) => Value::Name(0),
        Carrier::Pair(c, d) => Value::Pair(
            Box::new(alloc, best(alloc, c)?)?,
            Box::new(alloc, best(alloc, d)?)?,
        ),
        Carrier::Side(c, _) => Value::First(Box::new(alloc, best(alloc, c)?)?),
    })
}

// The numbers below the count, in order.
fn numbers_below(alloc: Global, count: u64) -> Result<List<u64>, NoMemory>
    ensures { IfOk result (λ ns. ns ≡ numbers_below count) }
{
    let mut numbers = List::new(alloc);
    for number in 0..count {
        numbers.push(number)?;
    }
    Ok(numbers)
}

// The longest sequence without a repeat.
#[tactic(auto, using(crate::specs::FlatLaws::below_at_most))]
fn longest(alloc: Global, count: u64) -> Result<Value, NoMemory>
    ensures value { IfOk result (λ v. pure_value v ≡ symbols (numbers_below count)) }
    ensures small { IfOk result (λ v. AtMost MAX_LABEL_NUMBER (pure_value v)) }
{
    Ok(Value::Symbols(numbers_below(alloc, count)?))
}

// The sequence with one symbol more, which each carrier of sequences has.
#[tactic(auto, using(crate::specs::FlatLaws::longer_at_most))]
fn longer(alloc: Global, ns: &List<u64>) -> Result<Value, NoMemory>
    requires { AtMost MAX_LABEL_NUMBER (symbols ns.now) }
    ensures value { IfOk result (λ v. pure_value v ≡ symbols (ns.now ++ 0 ∷ [])) }
    ensures small { IfOk result (λ v. AtMost MAX_INSTANCE_NUMBER (pure_value v)) }
{
    let mut longer = List::from_vec(Vec::from_slice(alloc, ns.as_slice())?);
    longer.push(0)?;
    Ok(Value::Symbols(longer))
}

// The place of the last name of a table.
fn last_place(names: &[Text]) -> u8
    requires some { 1 ≤ length names.now }
    requires few { length names.now ≤ MAX_TABLE_NAMES }
    ensures { result ≡ length names.now - 1 }
{
    (names.len() - 1) as u8
}

// An equal value.
#[tactic(auto, using(crate::specs::FlatLaws::value_fits))]
fn copy(alloc: Global, value: &Value) -> Result<Value, NoMemory>
    requires { AtMost MAX_LABEL_NUMBER (pure_value value.now) }
    ensures value { IfOk result (λ copied. pure_value copied ≡ pure_value value.now) }
    ensures small { IfOk result (λ copied. AtMost MAX_INSTANCE_NUMBER (pure_value copied)) }
{
    value.copy(alloc)
}

// A worse value of the carrier than this one, if there is one, and else some value.
#[tactic(auto, using(crate::specs::FlatLaws::value_fits))]
fn worse(alloc: Global, carrier: &Carrier, value: &Value) -> Result<Value, NoMemory>
    requires carrier { IsCarrier (pure_carrier carrier.now) }
    requires small { AtMost MAX_LABEL_NUMBER (pure_value value.now) }
    ensures value { IfOk result (λ w. pure_value w ≡ worse_than (pure_carrier carrier.now) (pure_value value.now)) }
    ensures small { IfOk result (λ w. AtMost MAX_INSTANCE_NUMBER (pure_value w)) }
{
    match (carrier, value) {
        (Carrier::Whole, Value::Number(n)) => Ok(Value::Number(*n + 1)),
        (Carrier::UpTo(top), Value::Number(_)) => Ok(Value::Number(Amount::from(*top))),
        (Carrier::DownFrom(_), Value::Number(_)) => Ok(Value::Number(0)),
        (Carrier::Seqs(_), Value::Symbols(ns)) => longer(alloc, ns),
        (Carrier::SimSeqs(count), Value::Symbols(_)) => longest(alloc, *count),
        (Carrier::Named(names, _), Value::Name(_)) => Ok(Value::Name(last_place(names.as_slice()))),
        (Carrier::Pair(c, d), Value::Pair(u, v)) => {
            if has_worse(&**c, u) {
                Ok(Value::Pair(
                    Box::new(alloc, worse(alloc, c, u)?)?,
                    Box::new(alloc, copy(alloc, v)?)?,
                ))
            } else {
                Ok(Value::Pair(
                    Box::new(alloc, copy(alloc, u)?)?,
                    Box::new(alloc, worse(alloc, d, v)?)?,
                ))
            }
        }
        (Carrier::Side(_, d), Value::First(_)) => {
            Ok(Value::Second(Box::new(alloc, best(alloc, d)?)?))
        }
        (Carrier::Side(_, d), Value::Second(v)) => {
            Ok(Value::Second(Box::new(alloc, worse(alloc, d, v)?)?))
        }
        _ => copy(alloc, value),
    }
}

/// A worse value of the carrier than this one, or `None` if there is none. It is refused for want of
/// memory alone.
pub fn worse_than(
    alloc: Global,
    carrier: &Carrier,
    value: &Value,
) -> Result<Option<Value>, NoMemory>
    requires carrier { IsCarrier (pure_carrier carrier.now) }
    requires small { AtMost MAX_LABEL_NUMBER (pure_value value.now) }
    ensures value { IfOk result (λ w.
        option_map pure_value w ≡ some_worse (pure_carrier carrier.now) (pure_value value.now)) }
    ensures worse { In (pure_carrier carrier.now) (pure_value value.now) →
        IfOk result (IsWorseIfAny (pure_carrier carrier.now) (pure_value value.now)) }
    ensures small { IfOk result (λ w. IfSome w (λ w. AtMost MAX_INSTANCE_NUMBER (pure_value w))) }
{
    if has_worse(carrier, value) {
        Ok(Some(worse(alloc, carrier, value)?))
    } else {
        Ok(None)
    }
}

// The worst value of the carrier, if there is one.
fn worst_value(alloc: Global, carrier: &Carrier) -> Result<Option<Value>, NoMemory>
    requires { IsCarrier (pure_carrier carrier.now) }
    ensures value { IfOk result (λ w. option_map pure_value w ≡ worst (pure_carrier carrier.now)) }
    ensures small { IfOk result (λ w. IfSome w (λ w. AtMost MAX_LABEL_NUMBER (pure_value w))) }
{
    match carrier {
        Carrier::Whole | Carrier::Seqs(_) => Ok(None),
        Carrier::UpTo(top) => Ok(Some(Value::Number(Amount::from(*top)))),
        Carrier::DownFrom(_) => Ok(Some(Value::Number(0))),
        Carrier::SimSeqs(count) => Ok(Some(longest(alloc, *count)?)),
        Carrier::Sets(_) => Ok(Some(Value::Marks(0))),
        Carrier::One => Ok(Some(Value::Unit)),
        Carrier::Named(names, _) => Ok(Some(Value::Name(last_place(names.as_slice())))),
        Carrier::Pair(c, d) => match (worst_value(alloc, c)?, worst_value(alloc, d)?) {
            (Some(u), Some(v)) => Ok(Some(Value::Pair(Box::new(alloc, u)?, Box::new(alloc, v)?))),
            _ => Ok(None),
        },
        Carrier::Side(_, d) => match worst_value(alloc, d)? {
            Some(v) => Ok(Some(Value::Second(Box::new(alloc, v)?))),
            None => Ok(None),
        },
    }
}

/// A value of the carrier than which none is worse, or `None` if each has a worse one. It is refused for
/// want of memory alone.
pub fn worst(alloc: Global, carrier: &Carrier) -> Result<Option<Value>, NoMemory>
    requires { IsCarrier (pure_carrier carrier.now) }
    ensures value { IfOk result (λ w. option_map pure_value w ≡ worst (pure_carrier carrier.now)) }
    ensures worst { IfOk result (λ w. IsWorstIfAny (pure_carrier carrier.now) (option_map pure_value w)) }
    ensures small { IfOk result (λ w. IfSome w (λ w. AtMost MAX_LABEL_NUMBER (pure_value w))) }
{
    worst_value(alloc, carrier)
}

/// Two values of the carrier, the first preferred to the second, or `None` if all are equivalent. It is
/// refused for want of memory alone.
pub fn apart(alloc: Global, carrier: &Carrier) -> Result<Option<(Value, Value)>, NoMemory>
    requires { IsCarrier (pure_carrier carrier.now) }
    ensures values { IfOk result (λ p. option_map pure_two p ≡ two_apart (pure_carrier carrier.now)) }
    ensures apart { IfOk result (AreApartIfAny (pure_carrier carrier.now)) }
    ensures small { IfOk result (λ p. IfSome p (TwoAtMost MAX_INSTANCE_NUMBER)) }
{
    if is_flat(carrier) {
        Ok(None)
    } else {
        let first = best(alloc, carrier)?;
        let second = worse(alloc, carrier, &first)?;
        Ok(Some((first, second)))
    }
}
