// Equal values, labels and trees.
ghost use Rattle.std.specs.Prelude.{◌≡◌, IfOk, OnOk};
ghost use Rattle.alg_model.specs.Expressions.{number, pair, first, second};
ghost use Rattle.alg_model.specs.Views.{expression_of, pure_value, pure_label};

use crate::{Amount, Label, TableRow, TableSpec, Tree, Value};
use meta_base::{List, NoMemory, Text};
use std::alloc::Global;

/// A list of the same items.
pub fn copy_list<T: Copy>(alloc: Global, items: &[T]) -> Result<List<T>, NoMemory>
    ensures { IfOk result (λ copied. copied ≡ items.now) }
{
    Ok(List::from_vec(Vec::from_slice(alloc, items)?))
}

impl Value {
    /// An equal value.
    #[cycle(copy_value)]
    pub fn copy(&self, alloc: Global) -> Result<Value, NoMemory>
        ensures { IfOk result (λ copied. pure_value copied ≡ pure_value self.now) }
    {
        Ok(match self {
            Value::Number(n) => Value::Number(*n),
            Value::Symbols(ns) => Value::Symbols(copy_list(alloc, ns.as_slice())?),
            Value::Marks(m) => Value::Marks(*m),
            Value::Unit => Value::Unit,
            Value::Name(k) => Value::Name(*k),
            Value::Pair(u, v) => Value::Pair(
                copy_boxed_value(alloc, u)?,
                copy_boxed_value(alloc, v)?,
            ),
            Value::First(u) => Value::First(copy_boxed_value(alloc, u)?),
            Value::Second(v) => Value::Second(copy_boxed_value(alloc, v)?),
        })
    }
}

// Makes `out` an equal value, in the memory that it has where it has the same shape. Where that is refused,
// nothing is said of `out`, which is some value.
#[cycle(copy_into)]
pub(crate) fn copy_into(alloc: Global, value: &Value, out: &mut Value) -> Result<(), NoMemory>
    ensures { OnOk result (pure_value out.new ≡ pure_value value.now) }
{
    match value {
        Value::Number(n) => put_number(*n, out),
        Value::Pair(u, v) => copy_pair_into(alloc, u, v, out)?,
        Value::First(u) => copy_first_into(alloc, u, out)?,
        Value::Second(v) => copy_second_into(alloc, v, out)?,
        _ => *out = value.copy(alloc)?,
    }
    Ok(())
}

#[cycle(copy_into)]
fn copy_pair_into(
    alloc: Global,
    u: &Box<Value>,
    v: &Box<Value>,
    out: &mut Value,
) -> Result<(), NoMemory>
    ensures { OnOk result (pure_value out.new ≡ pair (pure_value u.now.value) (pure_value v.now.value)) }
{
    match out {
        Value::Pair(first, second) => {
            copy_into(alloc, u, first)?;
            copy_into(alloc, v, second)
        }
        out => {
            *out = Value::Pair(copy_boxed_value(alloc, u)?, copy_boxed_value(alloc, v)?);
            Ok(())
        }
    }
}

#[cycle(copy_into)]
fn copy_first_into(alloc: Global, u: &Box<Value>, out: &mut Value) -> Result<(), NoMemory>
    ensures { OnOk result (pure_value out.new ≡ first (pure_value u.now.value)) }
{
    match out {
        Value::First(out) => copy_into(alloc, u, out),
        out => {
            *out = Value::First(copy_boxed_value(alloc, u)?);
            Ok(())
        }
    }
}

#[cycle(copy_into)]
fn copy_second_into(alloc: Global, v: &Box<Value>, out: &mut Value) -> Result<(), NoMemory>
    ensures { OnOk result (pure_value out.new ≡ second (pure_value v.now.value)) }
{
    match out {
        Value::Second(out) => copy_into(alloc, v, out),
        out => {
            *out = Value::Second(copy_boxed_value(alloc, v)?);
            Ok(())
        }
    }
}

// Puts the number into the place.
pub(crate) fn put_number(n: Amount, place: &mut Value)
    ensures { pure_value place.new ≡ number n }
{
    match place {
        Value::Number(m) => *m = n,
        _ => *place = Value::Number(n),
    }
}

#[cycle(copy_value)]
fn copy_boxed_value(alloc: Global, value: &Box<Value>) -> Result<Box<Value>, NoMemory>
    ensures { IfOk result (λ copied. pure_value copied.value ≡ pure_value value.now.value) }
{
    Ok(Box::new(alloc, value.copy(alloc)?)?)
}

impl Label {
    /// An equal label.
    #[cycle(copy_label)]
    pub fn copy(&self, alloc: Global) -> Result<Label, NoMemory>
        ensures { IfOk result (λ copied. pure_label copied ≡ pure_label self.now) }
    {
        Ok(match self {
            Label::Number(n) => Label::Number(*n),
            Label::Keep => Label::Keep,
            Label::Symbol(n) => Label::Symbol(*n),
            Label::Mark(k) => Label::Mark(*k),
            Label::Unmark(k) => Label::Unmark(*k),
            Label::Need(k) => Label::Need(*k),
            Label::Bar(k) => Label::Bar(*k),
            Label::Allow => Label::Allow,
            Label::Deny => Label::Deny,
            Label::Row(r) => Label::Row(*r),
            Label::Pair(l, m) => Label::Pair(
                copy_boxed_label(alloc, l)?,
                copy_boxed_label(alloc, m)?,
            ),
            Label::Both(l, m) => Label::Both(
                copy_boxed_label(alloc, l)?,
                copy_boxed_label(alloc, m)?,
            ),
            Label::First(l) => Label::First(copy_boxed_label(alloc, l)?),
            Label::Second(m) => Label::Second(copy_boxed_label(alloc, m)?),
            Label::Const(v) => Label::Const(v.copy(alloc)?),
            Label::Outer(l, v) => { Label::Outer(copy_boxed_label(alloc, l)?, v.copy(alloc)?) }
            Label::Inner(m) => Label::Inner(copy_boxed_label(alloc, m)?),
        })
    }
}

#[cycle(copy_label)]
fn copy_boxed_label(alloc: Global, label: &Box<Label>) -> Result<Box<Label>, NoMemory>
    ensures { IfOk result (λ copied. pure_label copied.value ≡ pure_label label.now.value) }
{
    Ok(Box::new(alloc, label.copy(alloc)?)?)
}

/// Equal texts.
pub fn copy_texts(alloc: Global, texts: &[Text]) -> Result<List<Text>, NoMemory>
    ensures { IfOk result (λ copied. copied ≡ texts.now) }
{
    let mut copied = List::new(alloc);
    for text in texts {
        copied.push(Text::copy(alloc, text.as_str())?)?;
    }
    Ok(copied)
}

impl TableRow {
    // An equal row.
    fn copy(&self, alloc: Global) -> Result<TableRow, NoMemory>
        ensures { IfOk result (λ copied. copied ≡ self.now) }
    {
        Ok(TableRow {
            name: Text::copy(alloc, self.name.as_str())?,
            images: copy_list(alloc, self.images.as_slice())?,
        })
    }
}

fn copy_rows(alloc: Global, rows: &List<TableRow>) -> Result<List<TableRow>, NoMemory>
    ensures { IfOk result (λ copied. copied ≡ rows.now) }
{
    let mut copied = List::new(alloc);
    for row in rows.as_slice() {
        copied.push(row.copy(alloc)?)?;
    }
    Ok(copied)
}

impl TableSpec {
    // An equal table.
    fn copy(&self, alloc: Global) -> Result<TableSpec, NoMemory>
        ensures { IfOk result (λ copied. copied ≡ self.now) }
    {
        Ok(TableSpec {
            names: copy_texts(alloc, self.names.as_slice())?,
            ranks: copy_list(alloc, self.ranks.as_slice())?,
            rows: copy_rows(alloc, &self.rows)?,
        })
    }
}

impl Tree {
    /// An equal tree.
    #[cycle(copy_tree)]
    pub fn copy(&self, alloc: Global) -> Result<Tree, NoMemory>
        ensures { IfOk result (λ copied. expression_of copied ≡ expression_of self.now) }
    {
        Ok(match self {
            Tree::Lex(a, b) => Tree::Lex(copy_operand(alloc, a)?, copy_operand(alloc, b)?),
            Tree::Scoped(a, b) => Tree::Scoped(copy_operand(alloc, a)?, copy_operand(alloc, b)?),
            Tree::Union(a, b) => Tree::Union(copy_operand(alloc, a)?, copy_operand(alloc, b)?),
            Tree::Sum(a, b) => Tree::Sum(copy_operand(alloc, a)?, copy_operand(alloc, b)?),
            Tree::Plus(a, b) => Tree::Plus(copy_operand(alloc, a)?, copy_operand(alloc, b)?),
            Tree::Left(a) => Tree::Left(copy_operand(alloc, a)?),
            Tree::Right(a) => Tree::Right(copy_operand(alloc, a)?),
            Tree::Table(table) => Tree::Table(table.copy(alloc)?),
            Tree::Add { low, high } => Tree::Add {
                low: *low,
                high: *high,
            },
            Tree::Cap { top, low, high } => Tree::Cap {
                top: *top,
                low: *low,
                high: *high,
            },
            Tree::Worst { top, low, high } => Tree::Worst {
                top: *top,
                low: *low,
                high: *high,
            },
            Tree::Width { top, low, high } => Tree::Width {
                top: *top,
                low: *low,
                high: *high,
            },
            Tree::Pref { top } => Tree::Pref { top: *top },
            Tree::Orig { top } => Tree::Orig { top: *top },
            Tree::Seq { symbols } => Tree::Seq { symbols: *symbols },
            Tree::SimSeq { symbols } => Tree::SimSeq { symbols: *symbols },
            Tree::Tags { count } => Tree::Tags { count: *count },
            Tree::Guard { count } => Tree::Guard { count: *count },
            Tree::Gate => Tree::Gate,
        })
    }
}

#[cycle(copy_tree)]
fn copy_operand(alloc: Global, tree: &Box<Tree>) -> Result<Box<Tree>, NoMemory>
    ensures { IfOk result (λ copied. expression_of copied.value ≡ expression_of tree.now.value) }
{
    Ok(Box::new(alloc, tree.copy(alloc)?)?)
}
