// Examples against the facts of a label, made from the top: of the parts only what shows the fact that is asked for.
ghost use Rattle.std.specs.Prelude.{◌≡◌, option_map, IfOk};
ghost use Rattle.alg_classes.specs.Classes.{ExampleAtMost, pure_example};
ghost use Rattle.alg_classes.specs.Constants.{constant_examples, kept_examples};
ghost use Rattle.alg_model.specs.Carriers.{carrier_of};
ghost use Rattle.alg_model.specs.Views.{expression_of, pure_value};
ghost use Rattle.alg_model.specs.declared.alg.TheConstants.{MAX_INSTANCE_NUMBER};
ghost use Rattle.alg_model.specs.declared.edition.Edition.{Edition};
ghost use Rattle.property_infer.specs.Asked.{AnswersFor, AnswersForPair, AnswersForSides};
ghost use Rattle.property_infer.specs.Asked.{IsAction, IsSmallIn};

use crate::action::Action::{self, Constant, Deny, Keep, OfLabel};
use crate::pairs::{OfPair, asked_of_pair, beside, spanned};
use crate::parts::{best_value, part_carrier};
use crate::sides::{OfSides, across, asked_of_sides, on_first, on_second};
use alg_classes::{Example, Fact, apart, worse_than};
use alg_model::{Label, LabelForm, Tree, Value};
use base_classes::base_example;
use meta_base::NoMemory;
use std::alloc::Global;
use table_classes::table_example;

// An example against the fact, or `None` where the action has it.
#[cycle(example_for)]
pub(crate) fn example_for(
    alloc: Global,
    action: Action<'_>,
    fact: Fact,
) -> Result<Option<Example>, NoMemory>
    requires { (e : Edition) × IsAction e action }
    ensures { IfOk result (AnswersFor action.entry fact) }
{
    match action {
        OfLabel(part, label) => label_example(alloc, part, label, fact),
        Constant(part, value) => constant_example(alloc, part, value, fact),
        Keep(part) => kept_example(alloc, part, fact),
        Deny(part) => denied_example(alloc, part, fact),
    }
}

// The same of a label of the part.
#[cycle(example_for)]
fn label_example(
    alloc: Global,
    part: &Tree,
    label: &Label,
    fact: Fact,
) -> Result<Option<Example>, NoMemory>
    requires { (e : Edition) × IsAction e (Action.OfLabel part label) }
    ensures { IfOk result (AnswersFor (Action.OfLabel part.entry label.entry) fact) }
{
    match part.label_form() {
        LabelForm::Lex(a, b) => match label {
            Label::Pair(l, m) => pair_example(alloc, OfLabel(a, l), OfLabel(b, m), fact),
            _ => unreachable!(),
        },
        LabelForm::Scoped(a, b) => match label {
            Label::Outer(l, v) => pair_example(alloc, OfLabel(a, l), Constant(b, v), fact),
            Label::Inner(m) => pair_example(alloc, Keep(a), OfLabel(b, m), fact),
            _ => unreachable!(),
        },
        LabelForm::Union(a, b) => match label {
            Label::First(l) => side_example(alloc, OfLabel(a, l), Deny(b), fact),
            Label::Second(m) => side_example(alloc, Deny(a), OfLabel(b, m), fact),
            _ => unreachable!(),
        },
        LabelForm::Sum(a, b) => match label {
            Label::Both(l, m) => side_example(alloc, OfLabel(a, l), OfLabel(b, m), fact),
            _ => unreachable!(),
        },
        LabelForm::Plus(a, b) => match label {
            Label::First(l) => label_example(alloc, a, l, fact),
            Label::Second(m) => label_example(alloc, b, m, fact),
            _ => unreachable!(),
        },
        LabelForm::Left(a) => match label {
            Label::Const(v) => constant_example(alloc, a, v, fact),
            _ => unreachable!(),
        },
        LabelForm::Right(a) => kept_example(alloc, a, fact),
        LabelForm::Table(_) => Ok(table_example(part, label, fact)),
        LabelForm::Numbers(_, _)
        | LabelForm::UpTo(_)
        | LabelForm::Keep
        | LabelForm::Symbol(_)
        | LabelForm::Tag(_)
        | LabelForm::Guard(_)
        | LabelForm::Gate => base_example(alloc, part, label, fact),
    }
}

// The same of a pair, on whose parts the two act.
#[cycle(example_for)]
fn pair_example(
    alloc: Global,
    x: Action<'_>,
    y: Action<'_>,
    fact: Fact,
) -> Result<Option<Example>, NoMemory>
    requires first { (e : Edition) × IsAction e x }
    requires second { (e : Edition) × IsAction e y }
    ensures { IfOk result (λ o. AnswersForPair x.entry y.entry fact (option_map pure_example o)) }
{
    match asked_of_pair(x, y, fact) {
        OfPair::Both(of_x, of_y) => {
            let first = example_for(alloc, x, of_x)?;
            let second = example_for(alloc, y, of_y)?;
            beside(alloc, first, second)
        }
        OfPair::OutsideFirst => {
            let first = example_for(alloc, x, Fact::Total)?;
            let second = any_value(alloc, y)?;
            beside(alloc, first, Some(Example::At(second)))
        }
        OfPair::OutsideSecond => {
            let first = any_value(alloc, x)?;
            let second = example_for(alloc, y, Fact::Total)?;
            beside(alloc, Some(Example::At(first)), second)
        }
        OfPair::Split => {
            let first = example_for(alloc, x, Fact::Narrow)?;
            let inside = example_for(alloc, y, Fact::Dead)?;
            let outside = example_for(alloc, y, Fact::Total)?;
            beside(alloc, first, spanned(inside, outside))
        }
    }
}

// The same of a sum or a union, on whose sides the two act.
#[cycle(example_for)]
fn side_example(
    alloc: Global,
    x: Action<'_>,
    y: Action<'_>,
    fact: Fact,
) -> Result<Option<Example>, NoMemory>
    requires first { (e : Edition) × IsAction e x }
    requires second { (e : Edition) × IsAction e y }
    ensures { IfOk result (λ o. AnswersForSides x.entry y.entry fact (option_map pure_example o)) }
{
    match asked_of_sides(x, y, fact) {
        OfSides::First => {
            let first = example_for(alloc, x, fact)?;
            on_first(alloc, first)
        }
        OfSides::Second => {
            let second = example_for(alloc, y, fact)?;
            on_second(alloc, second)
        }
        OfSides::Across(of_x) => {
            let first = example_for(alloc, x, of_x)?;
            let second = example_for(alloc, y, Fact::Dead)?;
            across(alloc, first, second)
        }
    }
}

// The same of what sends every value of the part to this one.
fn constant_example(
    alloc: Global,
    part: &Tree,
    value: &Value,
    fact: Fact,
) -> Result<Option<Example>, NoMemory>
    requires { (e : Edition) × IsAction e (Action.Constant part value) }
    ensures made { IfOk result (λ o. option_map pure_example o ≡
        constant_examples (carrier_of (expression_of part.now)) (pure_value value.now) fact) }
    ensures small { IfOk result (λ o. ExampleAtMost MAX_INSTANCE_NUMBER (option_map pure_example o)) }
{
    match fact {
        Fact::Dead | Fact::Strict => Ok(Some(Example::At(value.copy(alloc)?))),
        Fact::Monotone => Ok(Example::at(worse_than(alloc, &part_carrier(alloc, part)?, value)?)),
        Fact::Cancellative | Fact::Narrow => Ok(Example::between(apart(
            alloc,
            &part_carrier(alloc, part)?,
        )?)),
        Fact::Total | Fact::Isotone | Fact::Condensed => Ok(None),
    }
}

// The same of what keeps every value of the part.
fn kept_example(alloc: Global, part: &Tree, fact: Fact) -> Result<Option<Example>, NoMemory>
    requires { (e : Edition) × IsAction e (Action.Keep part) }
    ensures made { IfOk result (λ o. option_map pure_example o ≡
        kept_examples (carrier_of (expression_of part.now)) fact) }
    ensures small { IfOk result (λ o. ExampleAtMost MAX_INSTANCE_NUMBER (option_map pure_example o)) }
{
    match fact {
        Fact::Dead | Fact::Strict => Ok(Some(Example::At(best_value(alloc, part)?))),
        Fact::Condensed | Fact::Narrow => Ok(Example::between(apart(
            alloc,
            &part_carrier(alloc, part)?,
        )?)),
        Fact::Total | Fact::Monotone | Fact::Isotone | Fact::Cancellative => Ok(None),
    }
}

// The same of what sends every value of the part to none.
fn denied_example(alloc: Global, part: &Tree, fact: Fact) -> Result<Option<Example>, NoMemory>
    requires { (e : Edition) × IsAction e (Action.Deny part) }
    ensures { IfOk result (AnswersFor (Action.Deny part.entry) fact) }
{
    match fact {
        Fact::Total => Ok(Some(Example::At(any_value(alloc, Deny(part))?))),
        Fact::Dead
        | Fact::Monotone
        | Fact::Strict
        | Fact::Isotone
        | Fact::Cancellative
        | Fact::Condensed
        | Fact::Narrow => Ok(None),
    }
}

// A value of the part that the action is on.
fn any_value(alloc: Global, action: Action<'_>) -> Result<Value, NoMemory>
    requires { (e : Edition) × IsAction e action }
    ensures { IfOk result (λ v. IsSmallIn action.entry (pure_value v)) }
{
    best_value(alloc, action.part())
}
