// Labels and values without great numbers, made of any.
ghost use Rattle.std.specs.Prelude.{◌≡◌, IfOk};
ghost use Rattle.alg_model.specs.Carriers.{carrier_of};
ghost use Rattle.alg_model.specs.Expressions.{lex, scoped, union, sum, sides, pair, first, second, pair_label, both_label, first_label, second_label};
ghost use Rattle.alg_model.specs.Views.{expression_of, pure_value, pure_label};
ghost use Rattle.settled_laws.specs.SmallInstances.{small_beside, small_label};
ghost use Rattle.wedge_nets.specs.Small.{AreSmallOf};

use alg_model::{Label, Tree, Value};
use meta_base::NoMemory;
use std::alloc::Global;

// The value of the tree's carrier, without great numbers: made so beside the other one, they compare as before.
#[cycle(small_beside)]
fn small_beside(alloc: Global, tree: &Tree, value: &Value, other: &Value) -> Result<Value, NoMemory>
    ensures { IfOk result (λ small. pure_value small ≡
        small_beside (carrier_of (expression_of tree.now)) (pure_value value.now) (pure_value other.now)) }
{
    match tree {
        Tree::Add { .. } => match (value, other) {
            (Value::Number(m), Value::Number(n)) => Ok(Value::Number(if m <= n { 0 } else { 1 })),
            _ => value.copy(alloc),
        },
        Tree::Lex(a, b) | Tree::Scoped(a, b) => match (value, other) {
            (Value::Pair(s, t), Value::Pair(x, y)) => paired(
                alloc,
                small_beside(alloc, a, s, x)?,
                small_beside(alloc, b, t, y)?,
            ),
            _ => value.copy(alloc),
        },
        Tree::Union(a, b) | Tree::Sum(a, b) => small_side(alloc, a, b, value, other),
        Tree::Plus(a, _) | Tree::Left(a) | Tree::Right(a) => small_beside(alloc, a, value, other),
        _ => value.copy(alloc),
    }
}

// The same of a value of one of two sides. Beside one of the other side it compares by the side alone.
#[cycle(small_beside)]
fn small_side(
    alloc: Global,
    a: &Tree,
    b: &Tree,
    value: &Value,
    other: &Value,
) -> Result<Value, NoMemory>
    ensures { IfOk result (λ small. pure_value small ≡
        small_beside (sides (carrier_of (expression_of a.now)) (carrier_of (expression_of b.now)))
        (pure_value value.now) (pure_value other.now)) }
{
    match (value, other) {
        (Value::First(s), Value::First(x)) => in_first(alloc, small_beside(alloc, a, s, x)?),
        (Value::First(s), Value::Second(_)) => in_first(alloc, small_beside(alloc, a, s, s)?),
        (Value::Second(t), Value::First(_)) => in_second(alloc, small_beside(alloc, b, t, t)?),
        (Value::Second(t), Value::Second(y)) => in_second(alloc, small_beside(alloc, b, t, y)?),
        _ => value.copy(alloc),
    }
}

// The label of the tree's algebra, without great numbers.
#[cycle(small_label)]
fn small_label(alloc: Global, tree: &Tree, label: &Label) -> Result<Label, NoMemory>
    ensures { IfOk result (λ small. pure_label small ≡ small_label (expression_of tree.now) (pure_label label.now)) }
{
    match (tree, label) {
        (Tree::Lex(a, b), Label::Pair(l, m)) => label_pair(
            alloc,
            small_label(alloc, a, l)?,
            small_label(alloc, b, m)?,
        ),
        (Tree::Scoped(a, b), Label::Outer(l, v)) => Ok(Label::Outer(
            Box::new(alloc, small_label(alloc, a, l)?)?,
            small_beside(alloc, b, v, v)?,
        )),
        (Tree::Scoped(_, b), Label::Inner(m)) => {
            Ok(Label::Inner(Box::new(alloc, small_label(alloc, b, m)?)?))
        }
        (Tree::Union(a, _) | Tree::Plus(a, _), Label::First(l)) => {
            label_in_first(alloc, small_label(alloc, a, l)?)
        }
        (Tree::Union(_, b) | Tree::Plus(_, b), Label::Second(m)) => {
            label_in_second(alloc, small_label(alloc, b, m)?)
        }
        (Tree::Sum(a, b), Label::Both(l, m)) => label_both(
            alloc,
            small_label(alloc, a, l)?,
            small_label(alloc, b, m)?,
        ),
        (Tree::Left(a), Label::Const(v)) => Ok(Label::Const(small_beside(alloc, a, v, v)?)),
        _ => label.copy(alloc),
    }
}

/// The label, and the value that it acts on, both without great numbers.
#[cycle(small_acting)]
pub fn small_acting(
    alloc: Global,
    tree: &Tree,
    label: &Label,
    value: &Value,
) -> Result<(Label, Value), NoMemory>
    ensures { IfOk result (AreSmallOf (expression_of tree.now) (pure_label label.now) (pure_value value.now)) }
{
    match (tree, label) {
        (Tree::Add { .. }, _) => Ok((label.copy(alloc)?, Value::Number(0))),
        (Tree::Lex(a, b), _) => lex_acting(alloc, a, b, label, value),
        (Tree::Scoped(a, b), _) => scoped_acting(alloc, a, b, label, value),
        (Tree::Union(a, b), _) => union_acting(alloc, a, b, label, value),
        (Tree::Sum(a, b), _) => sum_acting(alloc, a, b, label, value),
        (Tree::Plus(a, _), Label::First(l)) => {
            let (l, v) = small_acting(alloc, a, l, value)?;
            Ok((label_in_first(alloc, l)?, v))
        }
        (Tree::Plus(_, b), Label::Second(m)) => {
            let (m, v) = small_acting(alloc, b, m, value)?;
            Ok((label_in_second(alloc, m)?, v))
        }
        (Tree::Left(a), Label::Const(w)) => Ok((
            Label::Const(small_beside(alloc, a, w, value)?),
            small_beside(alloc, a, value, w)?,
        )),
        (Tree::Right(a), _) => Ok((label.copy(alloc)?, small_beside(alloc, a, value, value)?)),
        _ => copied(alloc, label, value),
    }
}

#[cycle(small_acting)]
fn lex_acting(
    alloc: Global,
    a: &Tree,
    b: &Tree,
    label: &Label,
    value: &Value,
) -> Result<(Label, Value), NoMemory>
    ensures { IfOk result (AreSmallOf (lex (expression_of a.now) (expression_of b.now))
        (pure_label label.now) (pure_value value.now)) }
{
    match (label, value) {
        (Label::Pair(l, m), Value::Pair(u, v)) => {
            let (l, u) = small_acting(alloc, a, l, u)?;
            let (m, v) = small_acting(alloc, b, m, v)?;
            Ok((label_pair(alloc, l, m)?, paired(alloc, u, v)?))
        }
        _ => copied(alloc, label, value),
    }
}

#[cycle(small_acting)]
fn scoped_acting(
    alloc: Global,
    a: &Tree,
    b: &Tree,
    label: &Label,
    value: &Value,
) -> Result<(Label, Value), NoMemory>
    ensures { IfOk result (AreSmallOf (scoped (expression_of a.now) (expression_of b.now))
        (pure_label label.now) (pure_value value.now)) }
{
    match (label, value) {
        (Label::Outer(l, w), Value::Pair(u, v)) => {
            let (l, u) = small_acting(alloc, a, l, u)?;
            let outer = Label::Outer(Box::new(alloc, l)?, small_beside(alloc, b, w, v)?);
            Ok((outer, paired(alloc, u, small_beside(alloc, b, v, w)?)?))
        }
        (Label::Inner(m), Value::Pair(u, v)) => {
            let (m, v) = small_acting(alloc, b, m, v)?;
            let inner = Label::Inner(Box::new(alloc, m)?);
            Ok((inner, paired(alloc, small_beside(alloc, a, u, u)?, v)?))
        }
        _ => copied(alloc, label, value),
    }
}

#[cycle(small_acting)]
fn union_acting(
    alloc: Global,
    a: &Tree,
    b: &Tree,
    label: &Label,
    value: &Value,
) -> Result<(Label, Value), NoMemory>
    ensures { IfOk result (AreSmallOf (union (expression_of a.now) (expression_of b.now))
        (pure_label label.now) (pure_value value.now)) }
{
    match (label, value) {
        (Label::First(l), Value::First(u)) => {
            let (l, u) = small_acting(alloc, a, l, u)?;
            Ok((label_in_first(alloc, l)?, in_first(alloc, u)?))
        }
        (Label::Second(m), Value::Second(v)) => {
            let (m, v) = small_acting(alloc, b, m, v)?;
            Ok((label_in_second(alloc, m)?, in_second(alloc, v)?))
        }
        _ => copied(alloc, label, value),
    }
}

// On a value of one side, only the label of that side acts.
#[cycle(small_acting)]
fn sum_acting(
    alloc: Global,
    a: &Tree,
    b: &Tree,
    label: &Label,
    value: &Value,
) -> Result<(Label, Value), NoMemory>
    ensures { IfOk result (AreSmallOf (sum (expression_of a.now) (expression_of b.now))
        (pure_label label.now) (pure_value value.now)) }
{
    match (label, value) {
        (Label::Both(l, m), Value::First(u)) => {
            let (l, u) = small_acting(alloc, a, l, u)?;
            let both = label_both(alloc, l, small_label(alloc, b, m)?)?;
            Ok((both, in_first(alloc, u)?))
        }
        (Label::Both(l, m), Value::Second(v)) => {
            let (m, v) = small_acting(alloc, b, m, v)?;
            let both = label_both(alloc, small_label(alloc, a, l)?, m)?;
            Ok((both, in_second(alloc, v)?))
        }
        _ => copied(alloc, label, value),
    }
}

// An equal label and an equal value.
fn copied(alloc: Global, label: &Label, value: &Value) -> Result<(Label, Value), NoMemory>
    ensures label { IfOk result (λ small. pure_label small.0 ≡ pure_label label.now) }
    ensures value { IfOk result (λ small. pure_value small.1 ≡ pure_value value.now) }
{
    Ok((label.copy(alloc)?, value.copy(alloc)?))
}

fn paired(alloc: Global, u: Value, v: Value) -> Result<Value, NoMemory>
    ensures { IfOk result (λ value. pure_value value ≡ pair (pure_value u) (pure_value v)) }
{
    Ok(Value::Pair(Box::new(alloc, u)?, Box::new(alloc, v)?))
}

fn in_first(alloc: Global, u: Value) -> Result<Value, NoMemory>
    ensures { IfOk result (λ value. pure_value value ≡ first (pure_value u)) }
{
    Ok(Value::First(Box::new(alloc, u)?))
}

fn in_second(alloc: Global, v: Value) -> Result<Value, NoMemory>
    ensures { IfOk result (λ value. pure_value value ≡ second (pure_value v)) }
{
    Ok(Value::Second(Box::new(alloc, v)?))
}

fn label_pair(alloc: Global, l: Label, m: Label) -> Result<Label, NoMemory>
    ensures { IfOk result (λ label. pure_label label ≡ pair_label (pure_label l) (pure_label m)) }
{
    Ok(Label::Pair(Box::new(alloc, l)?, Box::new(alloc, m)?))
}

fn label_both(alloc: Global, l: Label, m: Label) -> Result<Label, NoMemory>
    ensures { IfOk result (λ label. pure_label label ≡ both_label (pure_label l) (pure_label m)) }
{
    Ok(Label::Both(Box::new(alloc, l)?, Box::new(alloc, m)?))
}

fn label_in_first(alloc: Global, l: Label) -> Result<Label, NoMemory>
    ensures { IfOk result (λ label. pure_label label ≡ first_label (pure_label l)) }
{
    Ok(Label::First(Box::new(alloc, l)?))
}

fn label_in_second(alloc: Global, m: Label) -> Result<Label, NoMemory>
    ensures { IfOk result (λ label. pure_label label ≡ second_label (pure_label m)) }
{
    Ok(Label::Second(Box::new(alloc, m)?))
}
