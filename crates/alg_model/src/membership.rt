// Which values and labels are those of an algebra. They may be any: also ones of another algebra,
// with any numbers.
ghost use Rattle.std.specs.Prelude.{◌≡◌, ◌↔◌, ◌<◌, ◌≤◌, ◌^◌, ◌==◌, true, nat_lt, length};
ghost use Rattle.std.specs.List.{AllByRecursion, list_all, list_any};
ghost use Rattle.alg_model.specs.Expressions.{tags, guard, table as table_of};
ghost use Rattle.alg_model.specs.Views.{expression_of, pure_value, pure_label};
ghost use Rattle.alg_model.specs.Carriers.{carrier_of, In, distinct};
ghost use Rattle.alg_model.specs.Application.{IsLabel};
ghost use Rattle.alg_model.specs.Formation.{MeetsRanges};
ghost use Rattle.alg_model.specs.Forms.{form_expression};
ghost use Rattle.alg_model.specs.declared.alg.TheConstants.{MAX_SIMPLE_SYMBOLS};

use crate::{
    Alg, Amount, Form, Label, LabelForm, MAX_MARKS, MAX_SIMPLE_SYMBOLS, TableSpec, Tree, Value,
};

/// Whether the value is in the algebra's carrier. It takes no memory, and time in proportion to the
/// value and the algebra's tree.
pub fn value_in(alg: &Alg, value: &Value) -> bool
    ensures { (result ≡ true) ↔ In (carrier_of alg.now.expression) (pure_value value.now) }
{
    is_member(alg.tree(), value)
}

/// Whether the label is one of the algebra's. It takes no memory, and time in proportion to the label
/// and the algebra's tree.
pub fn label_in(alg: &Alg, label: &Label) -> bool
    ensures { (result ≡ true) ↔ IsLabel alg.now.expression (pure_label label.now) }
{
    is_label(alg.tree(), label)
}

pub(crate) fn is_member(tree: &Tree, value: &Value) -> bool
    requires { MeetsRanges (expression_of tree.now) }
    ensures { (result ≡ true) ↔ In (carrier_of (expression_of tree.now)) (pure_value value.now) }
{
    match tree.value_form() {
        Form::Whole => matches!(value, Value::Number(_)),
        Form::UpTo(top) | Form::DownFrom(top) => {
            matches!(value, Value::Number(n) if *n <= Amount::from(top))
        }
        Form::Seqs(symbols) => match value {
            Value::Symbols(ns) => are_below(symbols, ns.as_slice()),
            _ => false,
        },
        Form::SimSeqs(symbols) => match value {
            Value::Symbols(ns) => is_simple(symbols, ns.as_slice()),
            _ => false,
        },
        Form::Sets(count) => match value {
            Value::Marks(marks) => is_set_below(count, *marks),
            _ => false,
        },
        Form::One => matches!(value, Value::Unit),
        Form::Named(names, _) => match value {
            Value::Name(place) => usize::from(*place) < names.len(),
            _ => false,
        },
        Form::Pair(a, b) => match value {
            Value::Pair(u, v) => is_member(a, u) && is_member(b, v),
            _ => false,
        },
        Form::Side(a, b) => match value {
            Value::First(u) => is_member(a, u),
            Value::Second(v) => is_member(b, v),
            _ => false,
        },
    }
}

#[cycle(is_label)]
pub(crate) fn is_label(tree: &Tree, label: &Label) -> bool
    requires { MeetsRanges (expression_of tree.now) }
    ensures { (result ≡ true) ↔ IsLabel (expression_of tree.now) (pure_label label.now) }
{
    is_label_of(tree.label_form(), label)
}

// Whether the label is one of those of the form.
#[cycle(is_label)]
fn is_label_of(form: LabelForm<'_>, label: &Label) -> bool
    requires { MeetsRanges (form_expression form) }
    ensures { (result ≡ true) ↔ IsLabel (form_expression form.entry) (pure_label label.now) }
{
    match form {
        LabelForm::Numbers(low, high) => {
            matches!(label, Label::Number(n) if low <= *n && *n <= high)
        }
        LabelForm::UpTo(top) => matches!(label, Label::Number(n) if *n <= top),
        LabelForm::Keep | LabelForm::Right(_) => matches!(label, Label::Keep),
        LabelForm::Symbol(symbols) => matches!(label, Label::Symbol(n) if *n < symbols),
        LabelForm::Tag(count) => is_tag_label(count, label),
        LabelForm::Guard(count) => is_guard_label(count, label),
        LabelForm::Gate => matches!(label, Label::Allow | Label::Deny),
        LabelForm::Table(table) => is_row_label(table, label),
        LabelForm::Lex(a, b) => match label {
            Label::Pair(l, m) => is_label(a, l) && is_label(b, m),
            _ => false,
        },
        LabelForm::Scoped(a, b) => match label {
            Label::Outer(l, v) => is_label(a, l) && is_member(b, v),
            Label::Inner(m) => is_label(b, m),
            _ => false,
        },
        LabelForm::Union(a, b) | LabelForm::Plus(a, b) => match label {
            Label::First(l) => is_label(a, l),
            Label::Second(m) => is_label(b, m),
            _ => false,
        },
        LabelForm::Sum(a, b) => match label {
            Label::Both(l, m) => is_label(a, l) && is_label(b, m),
            _ => false,
        },
        LabelForm::Left(a) => match label {
            Label::Const(v) => is_member(a, v),
            _ => false,
        },
    }
}

fn is_tag_label(count: u64, label: &Label) -> bool
    ensures { (result ≡ true) ↔ IsLabel (tags count) (pure_label label.now) }
{
    match label {
        Label::Keep => true,
        Label::Mark(k) | Label::Unmark(k) => u64::from(*k) < count,
        _ => false,
    }
}

fn is_guard_label(count: u64, label: &Label) -> bool
    ensures { (result ≡ true) ↔ IsLabel (guard count) (pure_label label.now) }
{
    match label {
        Label::Need(k) | Label::Bar(k) => u64::from(*k) < count,
        _ => false,
    }
}

fn is_row_label(table: &TableSpec, label: &Label) -> bool
    ensures { (result ≡ true) ↔ IsLabel (table_of table.now) (pure_label label.now) }
{
    match label {
        Label::Row(place) => usize::from(*place) < table.rows.as_slice().len(),
        _ => false,
    }
}

// Whether all symbols are below the bound.
fn are_below(bound: u64, ns: &[u64]) -> bool
    ensures { (result ≡ true) ↔ AllByRecursion (λ n. n < bound) ns.now }
{
    pass_below(bound, ns)
}

fn pass_below(bound: u64, ns: &[u64]) -> bool
    ensures { result ≡ list_all (λ n. nat_lt n bound) ns.now }
{
    ns.iter().all(|n| *n < bound)
}

// Whether the symbols are below the bound, and none is there twice.
fn is_simple(bound: u64, ns: &[u64]) -> bool
    requires { bound ≤ MAX_SIMPLE_SYMBOLS }
    ensures { (result ≡ true) ↔ (AllByRecursion (λ n. n < bound) ns.now × (distinct ns.now ≡ true)) }
{
    // Longer ones have a repeat or a symbol above: so the rest goes over few, however many come.
    ns.len() as u64 <= bound && are_below(bound, ns) && are_distinct_symbols(ns)
}

// Whether no symbol is there twice, in one pass: a table says which were seen.
fn are_distinct_symbols(ns: &[u64]) -> bool
    requires { AllByRecursion (λ n. n < MAX_SIMPLE_SYMBOLS) ns.now }
    ensures { result ≡ distinct ns.now }
{
    let mut seen = [false; MAX_SIMPLE_SYMBOLS as usize];
    for n in ns {
        let place = *n as usize;
        if seen[place] {
            return false;
        }
        seen[place] = true;
    }
    true
}

// Whether all numbers of a set are below the count.
#[tactic(auto, using(crate::proofs::Sets::none_above))]
fn is_set_below(count: u64, marks: u64) -> bool
    ensures { (result ≡ true) ↔ (marks < 2 ^ count) }
{
    // A shift by all the bits of a word would be no shift.
    count >= MAX_MARKS || marks >> count == 0
}
