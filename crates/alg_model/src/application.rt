ghost use Rattle.std.specs.Prelude.{◌≡◌, ◌≤◌, ◌<◌, ◌==◌, ◌^◌, ◌+◌, ◌++◌, [], ◌∷◌, ℕ, Some, IfOk, IfSome, option_map};
ghost use Rattle.std.specs.List.{list_any};
ghost use Rattle.alg_model.specs.declared.edition.TheConstants.{MAX_LABEL_NUMBER};
ghost use Rattle.alg_model.specs.declared.alg.TheConstants.{MAX_VALUE_NUMBER};
ghost use Rattle.alg_model.specs.Expressions.{seq, simseq, tags, guard, table, lex, scoped, union, sum, number, number_label, pair, first, second};
ghost use Rattle.alg_model.specs.Views.{expression_of, pure_value, pure_label};
ghost use Rattle.alg_model.specs.Carriers.{carrier_of, In};
ghost use Rattle.alg_model.specs.Application.{IsLabel, App, has_mark, image_of};
ghost use Rattle.alg_model.specs.Bounds.{AtMost, LabelAtMost};
ghost use Rattle.alg_model.specs.Actions.{MayActOn, IsImage};

use crate::copying::copy_list;
use crate::{Alg, Amount, Label, TableSpec, Tree, Value};
use meta_base::{List, NoMemory};
use std::alloc::Global;

/// What the label makes of the value: a value, or `None` where it prohibits it.
///
/// The label and the value are the algebra's, and so is the result. No number of the label is above
/// [`crate::MAX_LABEL_NUMBER`] and none of the value above [`crate::MAX_VALUE_NUMBER`]; no number of the result
/// is above the greatest of the value plus [`crate::MAX_LABEL_NUMBER`]. It is refused for want of memory
/// alone.
pub fn apply(
    alloc: Global,
    alg: &Alg,
    label: &Label,
    value: &Value,
) -> Result<Option<Value>, NoMemory>
    requires label { IsLabel alg.now.expression (pure_label label.now) }
    requires value { In (carrier_of alg.now.expression) (pure_value value.now) }
    requires small_label { LabelAtMost MAX_LABEL_NUMBER (pure_label label.now) }
    requires small_value { AtMost MAX_VALUE_NUMBER (pure_value value.now) }
    ensures image { IfOk result (IsImage alg.now.expression label.now value.now) }
    ensures value { IfOk result (λ image. IfSome image (λ v. In (carrier_of alg.now.expression) (pure_value v))) }
    ensures bound { (n : ℕ) → AtMost n (pure_value value.now) →
        IfOk result (λ image. IfSome image (λ v. AtMost (n + MAX_LABEL_NUMBER) (pure_value v))) }
{
    image(alloc, alg.tree(), label, value)
}

// What the label makes of the value in the tree's algebra. The rule on ranges keeps numbers of sets
// below 64, and that on carriers makes the value one of both sides of a `plus`.
#[cycle(image)]
pub(crate) fn image(
    alloc: Global,
    tree: &Tree,
    label: &Label,
    value: &Value,
) -> Result<Option<Value>, NoMemory>
    requires { MayActOn (expression_of tree.now) label.now value.now }
    ensures { IfOk result (IsImage (expression_of tree.now) label.now value.now) }
{
    match tree {
        Tree::Add { .. }
        | Tree::Cap { .. }
        | Tree::Worst { .. }
        | Tree::Width { .. }
        | Tree::Pref { .. } => match (label, value) {
            (Label::Number(n), Value::Number(m)) => {
                Ok(number_image(tree, *n, *m).map(Value::Number))
            }
            _ => Ok(None),
        },
        Tree::Orig { .. } | Tree::Right(_) => match label {
            Label::Keep => Ok(Some(value.copy(alloc)?)),
            _ => Ok(None),
        },
        Tree::Seq { symbols } => seq_image(alloc, *symbols, label, value),
        Tree::SimSeq { symbols } => simseq_image(alloc, *symbols, label, value),
        Tree::Tags { count } => Ok(tags_image(*count, label, value)),
        Tree::Guard { count } => Ok(guard_image(*count, label, value)),
        Tree::Gate => match label {
            Label::Allow => Ok(Some(Value::Unit)),
            _ => Ok(None),
        },
        Tree::Table(spec) => Ok(table_image(spec, label, value)),
        Tree::Lex(a, b) => lex_image(alloc, a, b, label, value),
        Tree::Scoped(a, b) => scoped_image(alloc, a, b, label, value),
        Tree::Union(a, b) => union_image(alloc, a, b, label, value),
        Tree::Sum(a, b) => sum_image(alloc, a, b, label, value),
        Tree::Plus(a, b) => match label {
            Label::First(l) => image(alloc, a, l, value),
            Label::Second(m) => image(alloc, b, m, value),
            _ => Ok(None),
        },
        Tree::Left(_) => match label {
            Label::Const(v) => Ok(Some(v.copy(alloc)?)),
            _ => Ok(None),
        },
    }
}

#[cycle(image)]
pub(crate) fn lex_image(
    alloc: Global,
    a: &Tree,
    b: &Tree,
    label: &Label,
    value: &Value,
) -> Result<Option<Value>, NoMemory>
    requires { MayActOn (lex (expression_of a.now) (expression_of b.now)) label.now value.now }
    ensures { IfOk result (IsImage (lex (expression_of a.now) (expression_of b.now)) label.now value.now) }
{
    match (label, value) {
        (Label::Pair(l, m), Value::Pair(u, v)) => {
            let Some(u) = image(alloc, a, l, u)? else {
                return Ok(None);
            };
            match image(alloc, b, m, v)? {
                Some(v) => Ok(Some(paired(alloc, u, v)?)),
                None => Ok(None),
            }
        }
        _ => Ok(None),
    }
}

#[cycle(image)]
pub(crate) fn scoped_image(
    alloc: Global,
    a: &Tree,
    b: &Tree,
    label: &Label,
    value: &Value,
) -> Result<Option<Value>, NoMemory>
    requires { MayActOn (scoped (expression_of a.now) (expression_of b.now)) label.now value.now }
    ensures { IfOk result (IsImage (scoped (expression_of a.now) (expression_of b.now)) label.now value.now) }
{
    match (label, value) {
        (Label::Outer(l, w), Value::Pair(u, _)) => match image(alloc, a, l, u)? {
            Some(u) => Ok(Some(paired(alloc, u, w.copy(alloc)?)?)),
            None => Ok(None),
        },
        (Label::Inner(m), Value::Pair(u, v)) => match image(alloc, b, m, v)? {
            Some(v) => Ok(Some(paired(alloc, u.copy(alloc)?, v)?)),
            None => Ok(None),
        },
        _ => Ok(None),
    }
}

#[cycle(image)]
fn union_image(
    alloc: Global,
    a: &Tree,
    b: &Tree,
    label: &Label,
    value: &Value,
) -> Result<Option<Value>, NoMemory>
    requires { MayActOn (union (expression_of a.now) (expression_of b.now)) label.now value.now }
    ensures { IfOk result (IsImage (union (expression_of a.now) (expression_of b.now)) label.now value.now) }
{
    match (label, value) {
        (Label::First(l), Value::First(u)) => in_first(alloc, image(alloc, a, l, u)?),
        (Label::Second(m), Value::Second(v)) => in_second(alloc, image(alloc, b, m, v)?),
        _ => Ok(None),
    }
}

#[cycle(image)]
fn sum_image(
    alloc: Global,
    a: &Tree,
    b: &Tree,
    label: &Label,
    value: &Value,
) -> Result<Option<Value>, NoMemory>
    requires { MayActOn (sum (expression_of a.now) (expression_of b.now)) label.now value.now }
    ensures { IfOk result (IsImage (sum (expression_of a.now) (expression_of b.now)) label.now value.now) }
{
    match (label, value) {
        (Label::Both(l, _), Value::First(u)) => in_first(alloc, image(alloc, a, l, u)?),
        (Label::Both(_, m), Value::Second(v)) => in_second(alloc, image(alloc, b, m, v)?),
        _ => Ok(None),
    }
}

fn seq_image(
    alloc: Global,
    count: u64,
    label: &Label,
    value: &Value,
) -> Result<Option<Value>, NoMemory>
    ensures { IfOk result (IsImage (seq count) label.now value.now) }
{
    match (label, value) {
        (Label::Symbol(n), Value::Symbols(ns)) => {
            Ok(Some(Value::Symbols(appended(alloc, ns, *n)?)))
        }
        _ => Ok(None),
    }
}

fn simseq_image(
    alloc: Global,
    count: u64,
    label: &Label,
    value: &Value,
) -> Result<Option<Value>, NoMemory>
    ensures { IfOk result (IsImage (simseq count) label.now value.now) }
{
    match (label, value) {
        (Label::Symbol(n), Value::Symbols(ns)) if !has_symbol(ns, *n) => {
            Ok(Some(Value::Symbols(appended(alloc, ns, *n)?)))
        }
        _ => Ok(None),
    }
}

fn tags_image(count: u64, label: &Label, value: &Value) -> Option<Value>
    requires { MayActOn (tags count) label.now value.now }
    ensures { IsImage (tags count) label.now value.now result }
{
    match (label, value) {
        (Label::Keep, Value::Marks(m)) => Some(Value::Marks(*m)),
        (Label::Mark(k), Value::Marks(m)) => Some(Value::Marks(m | 1 << *k)),
        (Label::Unmark(k), Value::Marks(m)) => Some(Value::Marks(m & (u64::MAX - (1 << *k)))),
        _ => None,
    }
}

fn guard_image(count: u64, label: &Label, value: &Value) -> Option<Value>
    requires { MayActOn (guard count) label.now value.now }
    ensures { IsImage (guard count) label.now value.now result }
{
    match (label, value) {
        (Label::Need(k), Value::Marks(m)) if is_marked(*m, *k) => Some(Value::Marks(*m)),
        (Label::Bar(k), Value::Marks(m)) if !is_marked(*m, *k) => Some(Value::Marks(*m)),
        _ => None,
    }
}

fn table_image(spec: &TableSpec, label: &Label, value: &Value) -> Option<Value>
    ensures { IsImage (table spec.now) label.now value.now result }
{
    match (label, value) {
        (Label::Row(r), Value::Name(k)) => image_in(spec, *r, *k).map(Value::Name),
        _ => None,
    }
}

// What the label n makes of the number m, where numbers are values and labels.
pub(crate) fn number_image(tree: &Tree, n: u64, m: Amount) -> Option<Amount>
    requires label { n ≤ MAX_LABEL_NUMBER }
    requires value { m ≤ MAX_VALUE_NUMBER }
    ensures { option_map number result ≡ App (expression_of tree.now) (number_label n) (number m) }
{
    let n = Amount::from(n);
    match tree {
        Tree::Add { .. } => Some(m + n),
        Tree::Cap { top, .. } if m + n <= Amount::from(*top) => Some(m + n),
        Tree::Worst { .. } => Some(m.max(n)),
        Tree::Width { .. } => Some(m.min(n)),
        Tree::Pref { .. } => Some(n),
        Tree::Cap { .. }
        | Tree::Orig { .. }
        | Tree::Seq { .. }
        | Tree::SimSeq { .. }
        | Tree::Tags { .. }
        | Tree::Guard { .. }
        | Tree::Gate
        | Tree::Table(_)
        | Tree::Lex(_, _)
        | Tree::Scoped(_, _)
        | Tree::Union(_, _)
        | Tree::Sum(_, _)
        | Tree::Plus(_, _)
        | Tree::Left(_)
        | Tree::Right(_) => None,
    }
}

// The symbols, with one more at the end.
fn appended(alloc: Global, ns: &List<u64>, n: u64) -> Result<List<u64>, NoMemory>
    ensures { IfOk result (λ symbols. symbols ≡ ns.now ++ n ∷ []) }
{
    let mut symbols = copy_list(alloc, ns.as_slice())?;
    symbols.push(n)?;
    Ok(symbols)
}

// Whether the symbol is one of them.
fn has_symbol(ns: &List<u64>, n: u64) -> bool
    ensures { result ≡ list_any (λ m. m == n) ns.now }
{
    ns.as_slice().contains(&n)
}

// Whether the number is in the set.
fn is_marked(marks: u64, k: u8) -> bool
    requires { k < 64 }
    ensures { result ≡ has_mark marks k }
{
    (marks >> k) & 1 == 1
}

// The place of the image that the row of a table gives the value at that place, if there is one.
fn image_in(table: &TableSpec, row: u8, place: u8) -> Option<u8>
    ensures { result ≡ image_of table.now row place }
{
    let row = table.rows.as_slice().get(usize::from(row))?;
    *row.images.as_slice().get(usize::from(place))?
}

// The pair of two values.
fn paired(alloc: Global, u: Value, v: Value) -> Result<Value, NoMemory>
    ensures { IfOk result (λ value. pure_value value ≡ pair (pure_value u) (pure_value v)) }
{
    Ok(Value::Pair(Box::new(alloc, u)?, Box::new(alloc, v)?))
}

// The value as one of the first side.
pub(crate) fn in_first(alloc: Global, value: Option<Value>) -> Result<Option<Value>, NoMemory>
    ensures { IfOk result (λ image. option_map pure_value image ≡ option_map first (option_map pure_value value)) }
{
    match value {
        Some(u) => Ok(Some(Value::First(Box::new(alloc, u)?))),
        None => Ok(None),
    }
}

// The value as one of the second side.
pub(crate) fn in_second(alloc: Global, value: Option<Value>) -> Result<Option<Value>, NoMemory>
    ensures { IfOk result (λ image. option_map pure_value image ≡ option_map second (option_map pure_value value)) }
{
    match value {
        Some(v) => Ok(Some(Value::Second(Box::new(alloc, v)?))),
        None => Ok(None),
    }
}
