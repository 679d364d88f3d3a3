ghost use Rattle.std.specs.Prelude.{◌≡◌, ◌≤◌, IfOk, IfErr};
ghost use Rattle.alg_model.specs.Application.{IsLabel};
ghost use Rattle.alg_model.specs.Bounds.{AtMost, LabelAtMost, greatest_number};
ghost use Rattle.alg_model.specs.Carriers.{carrier_of, In};
ghost use Rattle.alg_model.specs.Views.{pure_value, pure_label};
ghost use Rattle.sig_text.specs.declared.bytes.TheConstants.{MAX_LITERAL_NUMBER};
ghost use Rattle.sig_text.specs.Answers.{IsValueError, IsValueErrorTo, IsLabelError, IsSpelled};
ghost use Rattle.sig_text.specs.Literals.{ValueText, ValueTextTo, LabelText};
ghost use Rattle.sig_text.specs.Reading.{value_at, label_at};
ghost use Rattle.sig_text.specs.Sequences.{parts_of};
ghost use Rattle.sig_text.specs.Spelled.{spelled_value, spelled_value_to, spelled_label};
ghost use Rattle.sig_text.specs.Views.{value_outcome, label_outcome, TakesAll};

use crate::faults::ReadStop;
use crate::label::label_at;
use crate::parts::end_at;
use crate::value::value_at;
use crate::{LitError, LitFault};
use alg_model::{Alg, Amount, Label, Value};
use std::alloc::Global;

/// The value of the algebra that a text spells, all of it: a number, `[0,2]`, `{0,2}`, `unit`, a
/// table's name, `(u,v)`, `l:u` or `r:v`, as the algebra's kind has it, with blanks between the parts.
/// Its numbers are at most the greatest of the algebra's edition. It recurses as deep as the algebra's
/// tree, and takes time in proportion to the text; for a set, and for a sequence without a repeat, a
/// number more takes the logarithm of how many there are.
///
/// # Errors
///
/// [`LitFault::BadText`] where the text hasn't the shape that the algebra's kind asks for, a number is
/// above that bound, or a number of a set is there twice; else [`LitFault::NotInCarrier`] where it has
/// one and the carrier doesn't have what it spells. `NoMemory` is answered for want of memory alone.
pub fn read_value(alloc: Global, alg: &Alg, text: &[u8]) -> Result<Value, LitError>
    ensures value { IfOk result (λ v. ValueText alg.now text.now (pure_value v)) }
    ensures fault { IfErr result (IsValueError alg.now text.now) }
    ensures spelled { IsSpelled pure_value (spelled_value alg.now text.now) result }
    ensures is_value { IfOk result (λ v. In (carrier_of alg.now.expression) (pure_value v)) }
    ensures bound { IfOk result (λ v. AtMost (greatest_number alg.now.edition) (pure_value v)) }
{
    read_value_to(alloc, alg, text, greatest_of(alg))
}

// The greatest number of the texts of the algebra's edition.
fn greatest_of(alg: &Alg) -> Amount
    ensures { result ≡ greatest_number alg.now.edition }
{
    Amount::from(alg.edition().greatest_number())
}

/// [`read_value`] with this greatest number in place of the edition's.
///
/// # Errors
///
/// As [`read_value`]'s, where a number above this one is [`LitFault::BadText`].
pub fn read_value_to(
    alloc: Global,
    alg: &Alg,
    text: &[u8],
    greatest: Amount,
) -> Result<Value, LitError>
    requires { greatest ≤ MAX_LITERAL_NUMBER }
    ensures value { IfOk result (λ v. ValueTextTo greatest alg.now.expression text.now (pure_value v)) }
    ensures fault { IfErr result (IsValueErrorTo greatest alg.now.expression text.now) }
    ensures spelled { IsSpelled pure_value (spelled_value_to greatest alg.now.expression text.now) result }
    ensures is_value { IfOk result (λ v. In (carrier_of alg.now.expression) (pure_value v)) }
    ensures bound { IfOk result (λ v. AtMost greatest (pure_value v)) }
{
    match whole_value(alloc, alg, text, greatest) {
        Ok(Ok(value)) => Ok(value),
        Ok(Err(fault)) => Err(LitError::Bad(fault)),
        Err(ReadStop::NoShape) => Err(LitError::Bad(LitFault::BadText)),
        Err(ReadStop::NoMemory) => Err(LitError::NoMemory),
    }
}

// The value that all of the text spells, or the first fault in it.
fn whole_value(
    alloc: Global,
    alg: &Alg,
    text: &[u8],
    greatest: Amount,
) -> Result<Result<Value, LitFault>, ReadStop>
    requires { greatest ≤ MAX_LITERAL_NUMBER }
    ensures { TakesAll value_outcome (value_at greatest (carrier_of alg.now.expression) (parts_of text.now)) result }
{
    let (value, rest) = value_at(alloc, alg.tree(), greatest, text)?;
    end_at(rest)?;
    Ok(value)
}

/// The label of the algebra that a text spells, all of it: a number, a table's row, `keep`, `+2`,
/// `-2`, `?2`, `!2`, `allow`, `deny`, `(x,y)`, `(x|y)`, `l:x`, `r:y`, a value, `out(x,v)` or `in(y)`,
/// as the algebra's kind has it, with blanks between the parts. Its numbers are at most the greatest
/// of the algebra's edition. It recurses as deep as the algebra's tree, and takes time as
/// [`read_value`] does.
///
/// # Errors
///
/// [`LitFault::BadText`] where the text hasn't the shape that the algebra's kind asks for, a number is
/// above that bound, or a number of a set is there twice; else the first from the left of
/// [`LitFault::NotALabel`] and [`LitFault::NotInCarrier`], where it has one and spells no label, or no
/// value in a label. `NoMemory` is answered for want of memory alone.
pub fn read_label(alloc: Global, alg: &Alg, text: &[u8]) -> Result<Label, LitError>
    ensures label { IfOk result (λ l. LabelText alg.now text.now (pure_label l)) }
    ensures fault { IfErr result (IsLabelError alg.now text.now) }
    ensures spelled { IsSpelled pure_label (spelled_label alg.now text.now) result }
    ensures is_label { IfOk result (λ l. IsLabel alg.now.expression (pure_label l)) }
    ensures bound { IfOk result (λ l. LabelAtMost (greatest_number alg.now.edition) (pure_label l)) }
{
    match whole_label(alloc, alg, text) {
        Ok(Ok(label)) => Ok(label),
        Ok(Err(fault)) => Err(LitError::Bad(fault)),
        Err(ReadStop::NoShape) => Err(LitError::Bad(LitFault::BadText)),
        Err(ReadStop::NoMemory) => Err(LitError::NoMemory),
    }
}

// The label that all of the text spells, or the first fault in it.
fn whole_label(alloc: Global, alg: &Alg, text: &[u8]) -> Result<Result<Label, LitFault>, ReadStop>
    ensures { TakesAll label_outcome
        (label_at (greatest_number alg.now.edition) alg.now.expression (parts_of text.now)) result }
{
    let (label, rest) = label_at(alloc, alg.tree(), greatest_of(alg), text)?;
    end_at(rest)?;
    Ok(label)
}
