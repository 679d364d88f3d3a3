ghost use Rattle.std.specs.Prelude.{◌≡◌};
ghost use Rattle.alg_model.specs.Carriers.{In};
ghost use Rattle.alg_model.specs.Views.{pure_value};
ghost use Rattle.alg_model.specs.Expressions.{PureCarrier, PureValue};
ghost use Rattle.alg_model.specs.Formation.{IsCarrier};
ghost use Rattle.alg_classes.specs.Classes.{IsTruthOf};
ghost use Rattle.alg_classes.specs.Flat.{IsFlat, HasWorse, is_flat, has_worse, last_rank};

use alg_model::{Amount, Form, Shaped, Value, rank_at};

/// Whether all values of the carrier are equivalent. It takes no memory.
pub fn is_flat<C: Shaped>(shaped: &C) -> bool
    ensures { result ≡ is_flat (C.carrier shaped.now) }
{
    match shaped.form() {
        Form::UpTo(top) | Form::DownFrom(top) => top == 0,
        Form::Sets(_) | Form::One => true,
        Form::Named(_, ranks) => last_rank(ranks) == 0,
        Form::Pair(c, d) => is_flat(c) && is_flat(d),
        Form::Whole | Form::Seqs(_) | Form::SimSeqs(_) | Form::Side(_, _) => false,
    }
}

// The rank of the last value of a table.
fn last_rank(ranks: &[u8]) -> u8
    ensures { result ≡ last_rank ranks.now }
{
    ranks.last().copied().unwrap_or(0)
}

/// Whether some value of the carrier is worse than this one. It takes no memory.
pub fn has_worse<C: Shaped>(shaped: &C, value: &Value) -> bool
    ensures { result ≡ has_worse (C.carrier shaped.now) (pure_value value.now) }
{
    match (shaped.form(), value) {
        (Form::Whole | Form::Seqs(_), _) => true,
        (Form::UpTo(top), Value::Number(n)) => *n < Amount::from(top),
        (Form::DownFrom(_), Value::Number(n)) => 0 < *n,
        (Form::SimSeqs(symbols), Value::Symbols(ns)) => (ns.as_slice().len() as u64) < symbols,
        (Form::Named(_, ranks), Value::Name(place)) => rank_at(ranks, *place) < last_rank(ranks),
        (Form::Pair(c, d), Value::Pair(u, v)) => has_worse(c, u) || has_worse(d, v),
        (Form::Side(_, _), Value::First(_)) => true,
        (Form::Side(_, d), Value::Second(v)) => has_worse(d, v),
        _ => false,
    }
}

/// The test by a carrier's parts finds exactly whether all its values are equivalent.
pub fn flat_carriers_are_found()
    ensures { (c : PureCarrier) → IsCarrier c → IsTruthOf (is_flat c) (IsFlat c) }
{}

/// The test of a value finds exactly whether some value of the carrier is worse.
pub fn worse_values_are_found()
    ensures { (c : PureCarrier) (v : PureValue) → IsCarrier c → In c v → IsTruthOf (has_worse c v) (HasWorse c v) }
{}
