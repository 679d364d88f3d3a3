ghost use Rattle.std.specs.Prelude.{◌≡◌, ◌+◌, ℕ, Some, IfOk, IfSome, option_map};
ghost use Rattle.alg_model.specs.declared.edition.TheConstants.{MAX_LABEL_NUMBER};
ghost use Rattle.alg_model.specs.declared.alg.TheConstants.{MAX_VALUE_NUMBER};
ghost use Rattle.alg_model.specs.Expressions.{lex, scoped, union, sum, number, first, second};
ghost use Rattle.alg_model.specs.Views.{expression_of, pure_value, pure_label};
ghost use Rattle.alg_model.specs.Carriers.{carrier_of, In};
ghost use Rattle.alg_model.specs.Application.{IsLabel, App};
ghost use Rattle.alg_model.specs.Bounds.{AtMost, LabelAtMost};
ghost use Rattle.alg_model.specs.Actions.{MayActOn, IsImage, held};

use crate::application::{image, in_first, in_second, lex_image, number_image, scoped_image};
use crate::copying::{copy_into, put_number};
use crate::{Alg, Amount, Label, LabelForm, Tree, Value};
use meta_base::NoMemory;
use std::alloc::Global;

/// What the label makes of the value, put into `out`: `true` where it stands there, and `false` where the
/// label prohibits the value. Where it isn't `true`, nothing is said of `out`, which is some value.
///
/// The conditions and bounds are those of [`crate::apply`]. The memory of whatever `out` held is used again
/// where it has the shape of the result, so that pairs and sides take none once `out` was an image.
pub fn apply_into(
    alloc: Global,
    alg: &Alg,
    label: &Label,
    value: &Value,
    out: &mut Value,
) -> Result<bool, NoMemory>
    requires label { IsLabel alg.now.expression (pure_label label.now) }
    requires value { In (carrier_of alg.now.expression) (pure_value value.now) }
    requires small_label { LabelAtMost MAX_LABEL_NUMBER (pure_label label.now) }
    requires small_value { AtMost MAX_VALUE_NUMBER (pure_value value.now) }
    ensures image { IfOk result (λ placed. IsImage alg.now.expression label.now value.now (held placed out.new)) }
    ensures value { IfOk result (λ placed.
        IfSome (held placed out.new) (λ v. In (carrier_of alg.now.expression) (pure_value v))) }
    ensures bound { (n : ℕ) → AtMost n (pure_value value.now) →
        IfOk result (λ placed. IfSome (held placed out.new) (λ v. AtMost (n + MAX_LABEL_NUMBER) (pure_value v))) }
{
    image_into(alloc, alg.tree(), label, value, out)
}

// What is made of parts is made in the parts that are there; what has another shape is new.
#[cycle(image_into)]
fn image_into(
    alloc: Global,
    tree: &Tree,
    label: &Label,
    value: &Value,
    out: &mut Value,
) -> Result<bool, NoMemory>
    requires { MayActOn (expression_of tree.now) label.now value.now }
    ensures { IfOk result (λ placed. IsImage (expression_of tree.now) label.now value.now (held placed out.new)) }
{
    match tree.label_form() {
        LabelForm::Numbers(_, _) | LabelForm::UpTo(_) => match (label, value) {
            (Label::Number(n), Value::Number(m)) => {
                Ok(put_if_number(number_image(tree, *n, *m), out))
            }
            _ => Ok(put(image(alloc, tree, label, value)?, out)),
        },
        LabelForm::Lex(a, b) => lex_into(alloc, a, b, label, value, out),
        LabelForm::Scoped(a, b) => scoped_into(alloc, a, b, label, value, out),
        LabelForm::Union(a, b) => union_into(alloc, a, b, label, value, out),
        LabelForm::Sum(a, b) => sum_into(alloc, a, b, label, value, out),
        LabelForm::Plus(a, b) => match label {
            Label::First(l) => image_into(alloc, a, l, value, out),
            Label::Second(m) => image_into(alloc, b, m, value, out),
            _ => Ok(false),
        },
        LabelForm::Right(_) => match label {
            Label::Keep => put_copy(alloc, value, out),
            _ => Ok(false),
        },
        LabelForm::Keep
        | LabelForm::Symbol(_)
        | LabelForm::Tag(_)
        | LabelForm::Guard(_)
        | LabelForm::Gate
        | LabelForm::Table(_)
        | LabelForm::Left(_) => Ok(put(image(alloc, tree, label, value)?, out)),
    }
}

#[cycle(image_into)]
fn lex_into(
    alloc: Global,
    a: &Tree,
    b: &Tree,
    label: &Label,
    value: &Value,
    out: &mut Value,
) -> Result<bool, NoMemory>
    requires { MayActOn (lex (expression_of a.now) (expression_of b.now)) label.now value.now }
    ensures { IfOk result (λ placed. IsImage (lex (expression_of a.now) (expression_of b.now)) label.now value.now
        (held placed out.new)) }
{
    match (label, value, out) {
        (Label::Pair(l, m), Value::Pair(u, v), Value::Pair(first, second)) => {
            if !image_into(alloc, a, l, u, first)? {
                return Ok(false);
            }
            image_into(alloc, b, m, v, second)
        }
        (_, _, out) => Ok(put(lex_image(alloc, a, b, label, value)?, out)),
    }
}

#[cycle(image_into)]
fn scoped_into(
    alloc: Global,
    a: &Tree,
    b: &Tree,
    label: &Label,
    value: &Value,
    out: &mut Value,
) -> Result<bool, NoMemory>
    requires { MayActOn (scoped (expression_of a.now) (expression_of b.now)) label.now value.now }
    ensures { IfOk result (λ placed. IsImage (scoped (expression_of a.now) (expression_of b.now)) label.now value.now
        (held placed out.new)) }
{
    match (label, value, out) {
        (Label::Outer(l, w), Value::Pair(u, _), Value::Pair(first, second)) => {
            if !image_into(alloc, a, l, u, first)? {
                return Ok(false);
            }
            put_copy(alloc, w, second)
        }
        (Label::Inner(m), Value::Pair(u, v), Value::Pair(first, second)) => {
            if !image_into(alloc, b, m, v, second)? {
                return Ok(false);
            }
            put_copy(alloc, u, first)
        }
        (_, _, out) => Ok(put(scoped_image(alloc, a, b, label, value)?, out)),
    }
}

#[cycle(image_into)]
fn union_into(
    alloc: Global,
    a: &Tree,
    b: &Tree,
    label: &Label,
    value: &Value,
    out: &mut Value,
) -> Result<bool, NoMemory>
    requires { MayActOn (union (expression_of a.now) (expression_of b.now)) label.now value.now }
    ensures { IfOk result (λ placed. IsImage (union (expression_of a.now) (expression_of b.now)) label.now value.now
        (held placed out.new)) }
{
    match (label, value) {
        (Label::First(l), Value::First(u)) => first_into(alloc, a, l, u, out),
        (Label::Second(m), Value::Second(v)) => second_into(alloc, b, m, v, out),
        _ => Ok(false),
    }
}

#[cycle(image_into)]
fn sum_into(
    alloc: Global,
    a: &Tree,
    b: &Tree,
    label: &Label,
    value: &Value,
    out: &mut Value,
) -> Result<bool, NoMemory>
    requires { MayActOn (sum (expression_of a.now) (expression_of b.now)) label.now value.now }
    ensures { IfOk result (λ placed. IsImage (sum (expression_of a.now) (expression_of b.now)) label.now value.now
        (held placed out.new)) }
{
    match (label, value) {
        (Label::Both(l, _), Value::First(u)) => first_into(alloc, a, l, u, out),
        (Label::Both(_, m), Value::Second(v)) => second_into(alloc, b, m, v, out),
        _ => Ok(false),
    }
}

// What the label makes of a value of the first side, as one of the first side.
#[cycle(image_into)]
fn first_into(
    alloc: Global,
    tree: &Tree,
    label: &Label,
    value: &Value,
    out: &mut Value,
) -> Result<bool, NoMemory>
    requires { MayActOn (expression_of tree.now) label.now value.now }
    ensures { IfOk result (λ placed. option_map pure_value (held placed out.new) ≡
        option_map first (App (expression_of tree.now) (pure_label label.now) (pure_value value.now))) }
{
    match out {
        Value::First(u) => image_into(alloc, tree, label, value, u),
        out => {
            let made = in_first(alloc, image(alloc, tree, label, value)?)?;
            Ok(put(made, out))
        }
    }
}

// The same of the second side.
#[cycle(image_into)]
fn second_into(
    alloc: Global,
    tree: &Tree,
    label: &Label,
    value: &Value,
    out: &mut Value,
) -> Result<bool, NoMemory>
    requires { MayActOn (expression_of tree.now) label.now value.now }
    ensures { IfOk result (λ placed. option_map pure_value (held placed out.new) ≡
        option_map second (App (expression_of tree.now) (pure_label label.now) (pure_value value.now))) }
{
    match out {
        Value::Second(v) => image_into(alloc, tree, label, value, v),
        out => {
            let made = in_second(alloc, image(alloc, tree, label, value)?)?;
            Ok(put(made, out))
        }
    }
}

// Puts an equal value into the place.
fn put_copy(alloc: Global, value: &Value, place: &mut Value) -> Result<bool, NoMemory>
    ensures { IfOk result (λ placed. option_map pure_value (held placed place.new) ≡ Some (pure_value value.now)) }
{
    copy_into(alloc, value, place)?;
    Ok(true)
}

// Puts the number into the place, if there is one.
fn put_if_number(thing: Option<Amount>, place: &mut Value) -> bool
    ensures { option_map pure_value (held result place.new) ≡ option_map number thing }
{
    match thing {
        Some(n) => {
            put_number(n, place);
            true
        }
        None => false,
    }
}

// Puts the thing into the place, if there is one.
fn put<T: Drop>(thing: Option<T>, place: &mut T) -> bool
    ensures { held result place.new ≡ thing }
{
    match thing {
        Some(thing) => {
            *place = thing;
            true
        }
        None => false,
    }
}
