ghost use Rattle.std.specs.Prelude.{◌≡◌, ◌++◌, ◌<◌, ◌≤◌, [], OnOk, IfOk, length, decimal, string_bytes, codes, slice_get, slice_index_or};
ghost use Rattle.meta_base.specs.Appending.{Gains};
ghost use Rattle.alg_model.specs.Application.{IsLabel, has_mark};
ghost use Rattle.alg_model.specs.Carriers.{carrier_of, In};
ghost use Rattle.alg_model.specs.Formation.{MeetsRanges};
ghost use Rattle.alg_model.specs.Forms.{form_expression};
ghost use Rattle.alg_model.specs.Texts.{numbers_text, members, value_text, label_text, row_text};
ghost use Rattle.alg_model.specs.Views.{expression_of, pure_value, pure_label};
ghost use Rattle.sig_text.specs.Listed.{separator};
ghost use Rattle.alg_model.specs.declared.alg.TheConstants.{MAX_MARKS};

use alg_model::{Alg, Form, Label, LabelForm, MAX_MARKS, TableRow, Tree, Value};
use meta_base::{NoMemory, Text, push_number};
use std::alloc::Global;

/// For a text alone; the program appends values to lines. The printed text of a value of the algebra.
/// [`crate::read_value`] reads it back where no number of the value is above the greatest of the algebra's edition, and
/// [`crate::read_value_to`] where none is above the number that it is given. It is refused for want of memory alone.
pub fn print_value(alloc: Global, alg: &Alg, value: &Value) -> Result<Text, NoMemory>
    requires { In (carrier_of alg.now.expression) (pure_value value.now) }
    ensures { IfOk result (λ text. text ≡ value_text (carrier_of alg.now.expression) (pure_value value.now)) }
{
    let mut out = String::new(alloc);
    push_value(&mut out, alg, value)?;
    Ok(Text::from_string(out))
}

/// For a text alone; the program appends labels to lines. The printed text of a label of the algebra.
/// [`crate::read_label`] reads it back where no number of the label is above the greatest of the algebra's edition. It
/// is refused for want of memory alone.
pub fn print_label(alloc: Global, alg: &Alg, label: &Label) -> Result<Text, NoMemory>
    requires { IsLabel alg.now.expression (pure_label label.now) }
    ensures { IfOk result (λ text. text ≡ label_text alg.now.expression (pure_label label.now)) }
{
    let mut out = String::new(alloc);
    push_label(&mut out, alg, label)?;
    Ok(Text::from_string(out))
}

/// Appends the printed text of a value of the algebra. After a refusal a front of it may be there.
pub fn push_value(out: &mut String, alg: &Alg, value: &Value) -> Result<(), NoMemory>
    requires { In (carrier_of alg.now.expression) (pure_value value.now) }
    ensures { OnOk result (Gains out.old (value_text (carrier_of alg.now.expression) (pure_value value.now)) out.new) }
{
    push_tree_value(out, alg.tree(), value)
}

/// Appends the printed text of a label of the algebra. After a refusal a front of it may be there.
pub fn push_label(out: &mut String, alg: &Alg, label: &Label) -> Result<(), NoMemory>
    requires { IsLabel alg.now.expression (pure_label label.now) }
    ensures { OnOk result (Gains out.old (label_text alg.now.expression (pure_label label.now)) out.new) }
{
    push_tree_label(out, alg.tree(), label)
}

fn push_tree_value(out: &mut String, tree: &Tree, value: &Value) -> Result<(), NoMemory>
    requires ranges { MeetsRanges (expression_of tree.now) }
    requires value { In (carrier_of (expression_of tree.now)) (pure_value value.now) }
    ensures { OnOk result (Gains out.old
        (value_text (carrier_of (expression_of tree.now)) (pure_value value.now)) out.new) }
{
    match (tree.value_form(), value) {
        (Form::Whole | Form::UpTo(_) | Form::DownFrom(_), Value::Number(n)) => push_number(out, *n),
        (Form::Seqs(_) | Form::SimSeqs(_), Value::Symbols(ns)) => push_symbols(out, ns.as_slice()),
        (Form::Sets(count), Value::Marks(marks)) => push_set(out, count, *marks),
        (Form::One, Value::Unit) => push_word(out, "unit"),
        (Form::Named(names, _), Value::Name(place)) => push_name(out, names, *place),
        (Form::Pair(a, b), Value::Pair(u, v)) => {
            out.push('(')?;
            push_tree_value(out, a, u)?;
            out.push(',')?;
            push_tree_value(out, b, v)?;
            Ok(out.push(')')?)
        }
        (Form::Side(a, _), Value::First(u)) => {
            out.push_str("l:")?;
            push_tree_value(out, a, u)
        }
        (Form::Side(_, b), Value::Second(v)) => {
            out.push_str("r:")?;
            push_tree_value(out, b, v)
        }
        _ => unreachable!(),
    }
}

#[cycle(push_tree_label)]
fn push_tree_label(out: &mut String, tree: &Tree, label: &Label) -> Result<(), NoMemory>
    requires ranges { MeetsRanges (expression_of tree.now) }
    requires label { IsLabel (expression_of tree.now) (pure_label label.now) }
    ensures { OnOk result (Gains out.old (label_text (expression_of tree.now) (pure_label label.now)) out.new) }
{
    push_form_label(out, tree.label_form(), label)
}

// The same of what the labels look like.
#[cycle(push_tree_label)]
fn push_form_label(out: &mut String, form: LabelForm<'_>, label: &Label) -> Result<(), NoMemory>
    requires ranges { MeetsRanges (form_expression form) }
    requires label { IsLabel (form_expression form) (pure_label label.now) }
    ensures { OnOk result (Gains out.old (label_text (form_expression form.entry) (pure_label label.now)) out.new) }
{
    match (form, label) {
        (LabelForm::Numbers(_, _) | LabelForm::UpTo(_), Label::Number(n)) => {
            push_number(out, u128::from(*n))
        }
        (LabelForm::Keep | LabelForm::Tag(_) | LabelForm::Right(_), Label::Keep) => {
            push_word(out, "keep")
        }
        (LabelForm::Symbol(_), Label::Symbol(n)) => push_number(out, u128::from(*n)),
        (LabelForm::Tag(_), Label::Mark(k)) => push_marked(out, "+", *k),
        (LabelForm::Tag(_), Label::Unmark(k)) => push_marked(out, "-", *k),
        (LabelForm::Guard(_), Label::Need(k)) => push_marked(out, "?", *k),
        (LabelForm::Guard(_), Label::Bar(k)) => push_marked(out, "!", *k),
        (LabelForm::Gate, Label::Allow) => push_word(out, "allow"),
        (LabelForm::Gate, Label::Deny) => push_word(out, "deny"),
        (LabelForm::Table(table), Label::Row(place)) => {
            push_row(out, table.rows.as_slice(), *place)
        }
        (LabelForm::Lex(a, b), Label::Pair(l, m)) => push_pair(out, a, l, ",", b, m),
        (LabelForm::Sum(a, b), Label::Both(l, m)) => push_pair(out, a, l, "|", b, m),
        (LabelForm::Scoped(a, b), Label::Outer(l, v)) => push_outer(out, a, l, b, v),
        (LabelForm::Scoped(_, b), Label::Inner(m)) => {
            push_after(out, "in(", b, m)?;
            Ok(out.push(')')?)
        }
        (LabelForm::Union(a, _) | LabelForm::Plus(a, _), Label::First(l)) => {
            push_after(out, "l:", a, l)
        }
        (LabelForm::Union(_, b) | LabelForm::Plus(_, b), Label::Second(m)) => {
            push_after(out, "r:", b, m)
        }
        (LabelForm::Left(a), Label::Const(v)) => push_tree_value(out, a, v),
        _ => unreachable!(),
    }
}

// Two labels in parentheses, with a mark between them.
#[cycle(push_tree_label)]
fn push_pair(
    out: &mut String,
    a: &Tree,
    l: &Label,
    mark: &str,
    b: &Tree,
    m: &Label,
) -> Result<(), NoMemory>
    requires first_ranges { MeetsRanges (expression_of a.now) }
    requires first { IsLabel (expression_of a.now) (pure_label l.now) }
    requires second_ranges { MeetsRanges (expression_of b.now) }
    requires second { IsLabel (expression_of b.now) (pure_label m.now) }
    ensures { OnOk result (Gains out.old (codes "("
        ++ label_text (expression_of a.now) (pure_label l.now) ++ mark.now
        ++ label_text (expression_of b.now) (pure_label m.now) ++ codes ")") out.new) }
{
    out.push('(')?;
    push_tree_label(out, a, l)?;
    out.push_str(mark)?;
    push_tree_label(out, b, m)?;
    Ok(out.push(')')?)
}

// A label after what begins it.
#[cycle(push_tree_label)]
fn push_after(out: &mut String, start: &str, tree: &Tree, label: &Label) -> Result<(), NoMemory>
    requires ranges { MeetsRanges (expression_of tree.now) }
    requires label { IsLabel (expression_of tree.now) (pure_label label.now) }
    ensures { OnOk result (Gains out.old
        (start.now ++ label_text (expression_of tree.now) (pure_label label.now)) out.new) }
{
    out.push_str(start)?;
    push_tree_label(out, tree, label)
}

// The label of a whole route: one of the first side, and a value of the second.
#[cycle(push_tree_label)]
fn push_outer(out: &mut String, a: &Tree, l: &Label, b: &Tree, v: &Value) -> Result<(), NoMemory>
    requires first_ranges { MeetsRanges (expression_of a.now) }
    requires second_ranges { MeetsRanges (expression_of b.now) }
    requires label { IsLabel (expression_of a.now) (pure_label l.now) }
    requires value { In (carrier_of (expression_of b.now)) (pure_value v.now) }
    ensures { OnOk result (Gains out.old (codes "out("
        ++ label_text (expression_of a.now) (pure_label l.now) ++ codes ","
        ++ value_text (carrier_of (expression_of b.now)) (pure_value v.now) ++ codes ")") out.new) }
{
    out.push_str("out(")?;
    push_tree_label(out, a, l)?;
    out.push(',')?;
    push_tree_value(out, b, v)?;
    Ok(out.push(')')?)
}

fn push_word(out: &mut String, word: &str) -> Result<(), NoMemory>
    ensures { OnOk result (Gains out.old word.now out.new) }
{
    out.push_str(word)?;
    Ok(())
}

fn push_marked(out: &mut String, mark: &str, k: u8) -> Result<(), NoMemory>
    ensures { OnOk result (Gains out.old (mark.now ++ decimal k) out.new) }
{
    out.push_str(mark)?;
    push_number(out, u128::from(k))
}

fn push_name(out: &mut String, names: &[Text], place: u8) -> Result<(), NoMemory>
    requires { place < length names.now }
    ensures { OnOk result (Gains out.old (slice_index_or names.now place []) out.new) }
{
    push_word(out, names[usize::from(place)].as_str())
}

fn push_row(out: &mut String, rows: &[TableRow], place: u8) -> Result<(), NoMemory>
    requires { place < length rows.now }
    ensures { OnOk result (Gains out.old (row_text (slice_get rows.now place)) out.new) }
{
    push_word(out, rows[usize::from(place)].name.as_str())
}

fn push_symbols(out: &mut String, ns: &[u64]) -> Result<(), NoMemory>
    ensures { OnOk result (Gains out.old (codes "[" ++ numbers_text ns.now ++ codes "]") out.new) }
{
    out.push('[')?;
    push_numbers(out, ns)?;
    Ok(out.push(']')?)
}

#[tactic(auto, using(crate::proofs::Printed::listed_at))]
fn push_numbers(out: &mut String, ns: &[u64]) -> Result<(), NoMemory>
    ensures { OnOk result (Gains out.old (numbers_text ns.now) out.new) }
{
    let mut follows = false;
    for n in ns {
        push_next(out, follows, *n)?;
        follows = true;
    }
    Ok(())
}

// Appends a number that stands alone, or follows others.
fn push_next(out: &mut String, follows: bool, n: u64) -> Result<(), NoMemory>
    ensures { OnOk result (string_bytes out.new ≡ (string_bytes out.old ++ separator follows) ++ decimal n) }
{
    if follows {
        out.push(',')?;
    }
    push_number(out, u128::from(n))
}

fn push_set(out: &mut String, count: u64, marks: u64) -> Result<(), NoMemory>
    requires { count ≤ MAX_MARKS }
    ensures { OnOk result (Gains out.old (codes "{" ++ numbers_text (members count marks) ++ codes "}") out.new) }
{
    out.push('{')?;
    push_members(out, count, marks)?;
    Ok(out.push('}')?)
}

// The numbers below the count that are in the set, ascending.
fn push_members(out: &mut String, count: u64, marks: u64) -> Result<(), NoMemory>
    requires { count ≤ MAX_MARKS }
    ensures { OnOk result (Gains out.old (numbers_text (members count marks)) out.new) }
{
    let mut follows = false;
    for k in 0..count {
        if is_in(marks, k) {
            push_next(out, follows, k)?;
            follows = true;
        }
    }
    Ok(())
}

fn is_in(marks: u64, k: u64) -> bool
    requires { k < MAX_MARKS }
    ensures { result ≡ has_mark marks k }
{
    (marks >> k) & 1 == 1
}
