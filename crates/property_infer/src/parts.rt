// The carriers of an algebra's parts, and their best values.
ghost use Rattle.std.specs.Prelude.{◌≡◌, IfOk};
ghost use Rattle.alg_classes.specs.Flat.{best};
ghost use Rattle.alg_model.specs.Bounds.{AtMost};
ghost use Rattle.alg_model.specs.Carriers.{carrier_of};
ghost use Rattle.alg_model.specs.Formation.{IsCarrier, IsFormed};
ghost use Rattle.alg_model.specs.Views.{expression_of, pure_carrier, pure_value};
ghost use Rattle.alg_model.specs.declared.edition.TheConstants.{MAX_LABEL_NUMBER};

use alg_model::{Amount, Carrier, Form, Tree, Value, tree_carrier};
use meta_base::{List, NoMemory};
use std::alloc::Global;

/// The carrier of a part of an algebra.
pub fn part_carrier(alloc: Global, part: &Tree) -> Result<Carrier, NoMemory>
    requires { IsFormed (expression_of part.now) }
    ensures carrier { IfOk result (λ c. pure_carrier c ≡ carrier_of (expression_of part.now)) }
    ensures may_be { IfOk result (λ c. IsCarrier (pure_carrier c)) }
{
    tree_carrier(alloc, part)
}

/// A value of the part to which none is preferred. It is made straight of the part, whose carrier isn't.
pub fn best_value(alloc: Global, part: &Tree) -> Result<Value, NoMemory>
    ensures value { IfOk result (λ v. pure_value v ≡ best (carrier_of (expression_of part.now))) }
    ensures small { IfOk result (λ v. AtMost MAX_LABEL_NUMBER (pure_value v)) }
{
    Ok(match part.value_form() {
        Form::Whole | Form::UpTo(_) => Value::Number(0),
        Form::DownFrom(top) => Value::Number(Amount::from(top)),
        Form::Seqs(_) | Form::SimSeqs(_) => Value::Symbols(List::new(alloc)),
        Form::Sets(_) => Value::Marks(0),
        Form::One => Value::Unit,
        Form::Named(_, _) => Value::Name(0),
        Form::Pair(a, b) => Value::Pair(
            Box::new(alloc, best_value(alloc, a)?)?,
            Box::new(alloc, best_value(alloc, b)?)?,
        ),
        Form::Side(a, _) => Value::First(Box::new(alloc, best_value(alloc, a)?)?),
    })
}
