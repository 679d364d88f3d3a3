// Values at which facts fail.
ghost use Rattle.std.specs.Prelude.{◌≡◌, ◌≤◌, [], ◌∷◌, option_map, IfOk};
ghost use Rattle.alg_model.specs.Expressions.{number, symbols, guard};
ghost use Rattle.alg_model.specs.Views.{expression_of, pure_value, pure_label};
ghost use Rattle.alg_model.specs.Application.{IsLabel};
ghost use Rattle.alg_model.specs.Formation.{MeetsRanges};
ghost use Rattle.alg_model.specs.declared.alg.TheConstants.{MAX_MARKS};
ghost use Rattle.alg_model.specs.Forms.{IsBase};
ghost use Rattle.alg_classes.specs.Facts.{at, between};
ghost use Rattle.alg_classes.specs.Classes.{pure_at, pure_between, pure_example};
ghost use Rattle.base_classes.specs.Profiles.{base_profile_of};
ghost use Rattle.base_classes.specs.Witnesses.{AreExamplesOf, base_witness_of, failing, number_witness, of_one, of_two, set_witness};
ghost use Rattle.base_classes.specs.Witnesses.{sequence_witness, unit_witness, guard_witness, other_symbol};
ghost use Rattle.base_classes.specs.Witnesses.{add_numbers, cap_numbers, worst_numbers, width_numbers};
ghost use Rattle.base_classes.specs.Witnesses.{pref_numbers, orig_numbers};

use crate::profile::number_in;
use alg_classes::{Example, Examples, Fact, Profile};
use alg_model::{Amount, Label, Tree, Value};
use meta_base::{List, NoMemory};
use std::alloc::Global;

/// Values at which facts of a label on numbers fail, where they do. Further, 0 has an image unless the
/// label is dead, and that is preferred unless the label is monotone.
#[derive(Clone, Copy, Debug)]
pub(crate) struct Numbers {
    /// Is sent to none.
    pub outside: Amount,
    /// Isn't preferred to its image.
    pub kept: Amount,
    /// The first is preferred, and the images are equivalent.
    pub merged: (Amount, Amount),
    /// The first is preferred and has the preferred image.
    pub apart: (Amount, Amount),
}

// The examples of the facts that fail.
pub(crate) fn examples(
    alloc: Global,
    tree: &Tree,
    label: &Label,
    profile: &Profile,
) -> Result<Examples, NoMemory>
    requires base { IsBase (expression_of tree.now) }
    requires ranges { MeetsRanges (expression_of tree.now) }
    requires label { IsLabel (expression_of tree.now) (pure_label label.now) }
    requires profile { profile.now ≡ base_profile_of (expression_of tree.now) (pure_label label.now) }
    ensures { IfOk result (AreExamplesOf (expression_of tree.now) (pure_label label.now) profile.now) }
{
    Ok(Examples {
        inside: one(example(alloc, tree, label, profile, Fact::Dead)?),
        outside: one(example(alloc, tree, label, profile, Fact::Total)?),
        not_mono: one(example(alloc, tree, label, profile, Fact::Monotone)?),
        not_strict: one(example(alloc, tree, label, profile, Fact::Strict)?),
        not_iso: two(example(alloc, tree, label, profile, Fact::Isotone)?),
        not_canc: two(example(alloc, tree, label, profile, Fact::Cancellative)?),
        not_cond: two(example(alloc, tree, label, profile, Fact::Condensed)?),
        not_narrow: two(example(alloc, tree, label, profile, Fact::Narrow)?),
    })
}

// The example against the fact, unless the profile has it.
pub(crate) fn example(
    alloc: Global,
    tree: &Tree,
    label: &Label,
    profile: &Profile,
    fact: Fact,
) -> Result<Option<Example>, NoMemory>
    requires base { IsBase (expression_of tree.now) }
    requires ranges { MeetsRanges (expression_of tree.now) }
    requires label { IsLabel (expression_of tree.now) (pure_label label.now) }
    ensures { IfOk result (λ x. option_map pure_example x ≡
        failing profile.now (base_witness_of (expression_of tree.now) (pure_label label.now)) fact) }
{
    if profile.has(fact) {
        return Ok(None);
    }
    Ok(Some(witness(alloc, tree, label, fact)?))
}

// Values at which the fact fails, if it does.
fn witness(alloc: Global, tree: &Tree, label: &Label, fact: Fact) -> Result<Example, NoMemory>
    requires base { IsBase (expression_of tree.now) }
    requires ranges { MeetsRanges (expression_of tree.now) }
    requires label { IsLabel (expression_of tree.now) (pure_label label.now) }
    ensures { IfOk result (λ x.
        pure_example x ≡ base_witness_of (expression_of tree.now) (pure_label label.now) fact) }
{
    let n = number_in(label);
    match tree {
        Tree::Add { .. } => Ok(number_witness(add_numbers(), fact)),
        Tree::Cap { top, .. } => Ok(number_witness(cap_numbers(*top, n), fact)),
        Tree::Worst { top, .. } => Ok(number_witness(worst_numbers(*top, n), fact)),
        Tree::Width { top, .. } => Ok(number_witness(width_numbers(*top, n), fact)),
        Tree::Pref { top } => Ok(number_witness(pref_numbers(*top, n), fact)),
        Tree::Orig { top } => Ok(number_witness(orig_numbers(*top), fact)),
        Tree::Seq { .. } => sequence_witness(alloc, n, n, fact),
        Tree::SimSeq { .. } => sequence_witness(alloc, n, other_symbol(n), fact),
        Tree::Tags { .. } => Ok(set_witness(0, 0, fact)),
        Tree::Guard { count } => Ok(guard_witness(*count, label, fact)),
        Tree::Gate => Ok(unit_witness(fact)),
        Tree::Table(_)
        | Tree::Lex(_, _)
        | Tree::Scoped(_, _)
        | Tree::Union(_, _)
        | Tree::Sum(_, _)
        | Tree::Plus(_, _)
        | Tree::Left(_)
        | Tree::Right(_) => unreachable!(),
    }
}

// The one value of the example.
fn one(example: Option<Example>) -> Option<Value>
    ensures { option_map pure_at result ≡ of_one (option_map pure_example example) }
{
    match example? {
        Example::At(value) => Some(value),
        Example::Between(_, _) => None,
    }
}

// The two values of the example.
fn two(example: Option<Example>) -> Option<(Value, Value)>
    ensures { option_map pure_between result ≡ of_two (option_map pure_example example) }
{
    match example? {
        Example::At(_) => None,
        Example::Between(first, second) => Some((first, second)),
    }
}

fn number_witness(numbers: Numbers, fact: Fact) -> Example
    ensures { pure_example result ≡ number_witness numbers fact }
{
    match fact {
        Fact::Total => at_number(numbers.outside),
        Fact::Strict => at_number(numbers.kept),
        Fact::Cancellative => between_numbers(numbers.merged),
        Fact::Condensed | Fact::Narrow => between_numbers(numbers.apart),
        Fact::Dead | Fact::Monotone | Fact::Isotone => at_number(0),
    }
}

fn at_number(n: Amount) -> Example
    ensures { pure_example result ≡ at (number n) }
{
    Example::At(Value::Number(n))
}

fn between_numbers(numbers: (Amount, Amount)) -> Example
    ensures { pure_example result ≡ between (number numbers.0) (number numbers.1) }
{
    Example::Between(Value::Number(numbers.0), Value::Number(numbers.1))
}

fn add_numbers() -> Numbers
    ensures { result ≡ add_numbers }
{
    Numbers {
        outside: 0,
        kept: 0,
        merged: (0, 1),
        apart: (0, 1),
    }
}

fn cap_numbers(top: u64, n: u64) -> Numbers
    ensures { result ≡ cap_numbers top n }
{
    Numbers {
        outside: (Amount::from(top) + 1).saturating_sub(Amount::from(n)),
        ..add_numbers()
    }
}

fn worst_numbers(top: u64, n: u64) -> Numbers
    ensures { result ≡ worst_numbers top n }
{
    let top = Amount::from(top);
    Numbers {
        outside: 0,
        kept: top,
        merged: (0, Amount::from(n)),
        apart: (0, top),
    }
}

fn width_numbers(top: u64, n: u64) -> Numbers
    ensures { result ≡ width_numbers top n }
{
    let top = Amount::from(top);
    Numbers {
        outside: 0,
        kept: 0,
        merged: (top, Amount::from(n)),
        apart: (top, 0),
    }
}

fn pref_numbers(top: u64, n: u64) -> Numbers
    ensures { result ≡ pref_numbers top n }
{
    let top = Amount::from(top);
    Numbers {
        outside: 0,
        kept: Amount::from(n),
        merged: (top, 0),
        apart: (top, 0),
    }
}

fn orig_numbers(top: u64) -> Numbers
    ensures { result ≡ orig_numbers top }
{
    let top = Amount::from(top);
    Numbers {
        outside: 0,
        kept: 0,
        merged: (0, top),
        apart: (0, top),
    }
}

// By the label's own symbol, and one that another sequence has.
fn sequence_witness(alloc: Global, own: u64, other: u64, fact: Fact) -> Result<Example, NoMemory>
    ensures { IfOk result (λ x. pure_example x ≡ sequence_witness own other fact) }
{
    let none = Value::Symbols(List::new(alloc));
    match fact {
        Fact::Total => Ok(Example::At(sequence_of(alloc, own)?)),
        Fact::Isotone => Ok(Example::Between(sequence_of(alloc, own)?, sequence_of(alloc, other)?)),
        Fact::Condensed | Fact::Narrow => Ok(Example::Between(none, sequence_of(alloc, other)?)),
        Fact::Dead | Fact::Monotone | Fact::Strict | Fact::Cancellative => Ok(Example::At(none)),
    }
}

// The sequence of this symbol alone.
fn sequence_of(alloc: Global, symbol: u64) -> Result<Value, NoMemory>
    ensures { IfOk result (λ v. pure_value v ≡ symbols (symbol ∷ [])) }
{
    let mut symbols = List::new(alloc);
    symbols.push(symbol)?;
    Ok(Value::Symbols(symbols))
}

fn other_symbol(n: u64) -> u64
    ensures { result ≡ other_symbol n }
{
    if n == 0 { 1 } else { 0 }
}

// By a set that has no image, and one that has.
fn set_witness(outside: u64, inside: u64, fact: Fact) -> Example
    ensures { pure_example result ≡ set_witness outside inside fact }
{
    match fact {
        Fact::Total => Example::At(Value::Marks(outside)),
        Fact::Isotone => Example::Between(Value::Marks(outside), Value::Marks(inside)),
        Fact::Dead
        | Fact::Monotone
        | Fact::Strict
        | Fact::Cancellative
        | Fact::Condensed
        | Fact::Narrow => Example::At(Value::Marks(inside)),
    }
}

fn guard_witness(count: u64, label: &Label, fact: Fact) -> Example
    requires count { count ≤ MAX_MARKS }
    requires label { IsLabel (guard count) (pure_label label.now) }
    ensures { pure_example result ≡ guard_witness (pure_label label.now) fact }
{
    match label {
        Label::Need(k) => set_witness(0, 1 << *k, fact),
        Label::Bar(k) => set_witness(1 << *k, 0, fact),
        _ => unreachable!(),
    }
}

// By the one value.
fn unit_witness(fact: Fact) -> Example
    ensures { pure_example result ≡ unit_witness fact }
{
    match fact {
        Fact::Condensed | Fact::Narrow => Example::Between(Value::Unit, Value::Unit),
        Fact::Total
        | Fact::Dead
        | Fact::Monotone
        | Fact::Strict
        | Fact::Isotone
        | Fact::Cancellative => Example::At(Value::Unit),
    }
}
