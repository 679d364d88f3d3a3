ghost use Rattle.std.specs.Prelude.{◌≡◌, ◌+◌, ◌++◌, IfOk, OnOk, slice_get};
ghost use Rattle.alg_model.specs.Application.{IsLabel};
ghost use Rattle.alg_model.specs.Expressions.{tags, guard, gate, table, lex, scoped, union, sum, left, right, number_label};
ghost use Rattle.alg_model.specs.Views.{expression_of, pure_label};
ghost use Rattle.code_gen.specs.Compilation.{CompileLabel, images_of};

use crate::pieces::{Passing, push_either, push_op, push_passing, push_say};
use alg_model::{Alg, Label, TableSpec, Tree};
use label_code::{LabelCode, Op, Word};
use meta_base::{List, NoMemory};
use std::alloc::Global;

/// The code of a label of the algebra. It is refused for want of memory alone.
pub fn compile_label(alloc: Global, alg: &Alg, label: &Label) -> Result<LabelCode, NoMemory>
    requires { IsLabel alg.now.expression (pure_label label.now) }
    ensures { IfOk result (λ code. code ≡ CompileLabel alg.now.expression (pure_label label.now)) }
{
    let mut code = Vec::new(alloc);
    push_label(alloc, alg.tree(), label, &mut code)?;
    Ok(List::from_vec(code))
}

// Writes the code of the label after what stands there.
#[cycle(push_label)]
fn push_label(alloc: Global, tree: &Tree, label: &Label, code: &mut Vec<Op>) -> Result<(), NoMemory>
    ensures { OnOk result (code.new.items ≡
        code.old.items ++ CompileLabel (expression_of tree.now) (pure_label label.now)) }
{
    match tree {
        Tree::Add { .. }
        | Tree::Cap { .. }
        | Tree::Worst { .. }
        | Tree::Width { .. }
        | Tree::Pref { .. } => match label {
            Label::Number(n) => push_number(tree, *n, code),
            _ => Ok(()),
        },
        Tree::Orig { .. } => match label {
            Label::Keep => push_op(Op::Copy, code),
            _ => Ok(()),
        },
        Tree::Seq { .. } => match label {
            Label::Symbol(n) => push_op(Op::Append(Word::from(*n)), code),
            _ => Ok(()),
        },
        Tree::SimSeq { .. } => match label {
            Label::Symbol(n) => push_op(Op::Fresh(Word::from(*n)), code),
            _ => Ok(()),
        },
        Tree::Tags { count } => push_tags(*count, label, code),
        Tree::Guard { count } => push_guard(*count, label, code),
        Tree::Gate => push_gate(label, code),
        Tree::Table(spec) => push_row(alloc, spec, label, code),
        Tree::Lex(a, b) => push_lex(alloc, a, b, label, code),
        Tree::Scoped(a, b) => push_scoped(alloc, a, b, label, code),
        Tree::Union(a, b) => push_union(alloc, a, b, label, code),
        Tree::Sum(a, b) => push_sum(alloc, a, b, label, code),
        Tree::Plus(a, b) => match label {
            Label::First(l) => push_label(alloc, a, l, code),
            Label::Second(m) => push_label(alloc, b, m, code),
            _ => Ok(()),
        },
        Tree::Left(a) => push_left(alloc, a, label, code),
        Tree::Right(a) => push_right(alloc, a, label, code),
    }
}

#[cycle(push_label)]
fn push_lex(
    alloc: Global,
    a: &Tree,
    b: &Tree,
    label: &Label,
    code: &mut Vec<Op>,
) -> Result<(), NoMemory>
    ensures { OnOk result (code.new.items ≡
        code.old.items ++ CompileLabel (lex (expression_of a.now) (expression_of b.now)) (pure_label label.now)) }
{
    match label {
        Label::Pair(l, m) => {
            push_label(alloc, a, l, code)?;
            push_label(alloc, b, m, code)
        }
        _ => Ok(()),
    }
}

#[cycle(push_label)]
fn push_scoped(
    alloc: Global,
    a: &Tree,
    b: &Tree,
    label: &Label,
    code: &mut Vec<Op>,
) -> Result<(), NoMemory>
    ensures { OnOk result (code.new.items ≡
        code.old.items ++ CompileLabel (scoped (expression_of a.now) (expression_of b.now)) (pure_label label.now)) }
{
    match label {
        Label::Outer(l, v) => {
            push_label(alloc, a, l, code)?;
            push_passing(alloc, Passing::Lose, b, code)?;
            push_say(alloc, v, code)
        }
        Label::Inner(m) => {
            push_passing(alloc, Passing::Keep, a, code)?;
            push_label(alloc, b, m, code)
        }
        _ => Ok(()),
    }
}

#[cycle(push_label)]
fn push_union(
    alloc: Global,
    a: &Tree,
    b: &Tree,
    label: &Label,
    code: &mut Vec<Op>,
) -> Result<(), NoMemory>
    ensures { OnOk result (code.new.items ≡
        code.old.items ++ CompileLabel (union (expression_of a.now) (expression_of b.now)) (pure_label label.now)) }
{
    match label {
        Label::First(l) => {
            let mut first = Vec::new(alloc);
            push_label(alloc, a, l, &mut first)?;
            let mut second = Vec::new(alloc);
            push_op(Op::Deny, &mut second)?;
            push_either(Op::Fork(first.len() + 1), first, second, code)
        }
        Label::Second(m) => {
            push_op(Op::Fork(1), code)?;
            push_op(Op::Deny, code)?;
            push_label(alloc, b, m, code)
        }
        _ => Ok(()),
    }
}

#[cycle(push_label)]
fn push_sum(
    alloc: Global,
    a: &Tree,
    b: &Tree,
    label: &Label,
    code: &mut Vec<Op>,
) -> Result<(), NoMemory>
    ensures { OnOk result (code.new.items ≡
        code.old.items ++ CompileLabel (sum (expression_of a.now) (expression_of b.now)) (pure_label label.now)) }
{
    match label {
        Label::Both(l, m) => {
            let mut first = Vec::new(alloc);
            push_label(alloc, a, l, &mut first)?;
            let mut second = Vec::new(alloc);
            push_label(alloc, b, m, &mut second)?;
            push_either(Op::Fork(first.len() + 1), first, second, code)
        }
        _ => Ok(()),
    }
}

fn push_left(alloc: Global, a: &Tree, label: &Label, code: &mut Vec<Op>) -> Result<(), NoMemory>
    ensures { OnOk result (code.new.items ≡
        code.old.items ++ CompileLabel (left (expression_of a.now)) (pure_label label.now)) }
{
    match label {
        Label::Const(v) => {
            push_passing(alloc, Passing::Lose, a, code)?;
            push_say(alloc, v, code)
        }
        _ => Ok(()),
    }
}

fn push_right(alloc: Global, a: &Tree, label: &Label, code: &mut Vec<Op>) -> Result<(), NoMemory>
    ensures { OnOk result (code.new.items ≡
        code.old.items ++ CompileLabel (right (expression_of a.now)) (pure_label label.now)) }
{
    match label {
        Label::Keep => push_passing(alloc, Passing::Keep, a, code),
        _ => Ok(()),
    }
}

// The code of the label n, where numbers are labels.
fn push_number(tree: &Tree, n: u64, code: &mut Vec<Op>) -> Result<(), NoMemory>
    ensures { OnOk result (code.new.items ≡
        code.old.items ++ CompileLabel (expression_of tree.now) (number_label n)) }
{
    let n = Word::from(n);
    match tree {
        Tree::Add { .. } => push_op(Op::Add(n), code),
        Tree::Cap { top, .. } => push_op(Op::Cap(n, Word::from(*top)), code),
        Tree::Worst { .. } => push_op(Op::Max(n), code),
        Tree::Width { .. } => push_op(Op::Min(n), code),
        Tree::Pref { .. } => {
            push_op(Op::Drop, code)?;
            push_op(Op::Emit(n), code)
        }
        Tree::Orig { .. }
        | Tree::Seq { .. }
        | Tree::SimSeq { .. }
        | Tree::Tags { .. }
        | Tree::Guard { .. }
        | Tree::Gate
        | Tree::Table(_)
        | Tree::Lex(_, _)
        | Tree::Scoped(_, _)
        | Tree::Union(_, _)
        | Tree::Sum(_, _)
        | Tree::Plus(_, _)
        | Tree::Left(_)
        | Tree::Right(_) => Ok(()),
    }
}

fn push_tags(count: u64, label: &Label, code: &mut Vec<Op>) -> Result<(), NoMemory>
    ensures { OnOk result (code.new.items ≡ code.old.items ++ CompileLabel (tags count) (pure_label label.now)) }
{
    match label {
        Label::Keep => push_op(Op::Copy, code),
        Label::Mark(k) => push_op(Op::SetBit(*k), code),
        Label::Unmark(k) => push_op(Op::ClearBit(*k), code),
        _ => Ok(()),
    }
}

fn push_guard(count: u64, label: &Label, code: &mut Vec<Op>) -> Result<(), NoMemory>
    ensures { OnOk result (code.new.items ≡ code.old.items ++ CompileLabel (guard count) (pure_label label.now)) }
{
    match label {
        Label::Need(k) => push_op(Op::NeedBit(*k), code),
        Label::Bar(k) => push_op(Op::BarBit(*k), code),
        _ => Ok(()),
    }
}

fn push_gate(label: &Label, code: &mut Vec<Op>) -> Result<(), NoMemory>
    ensures { OnOk result (code.new.items ≡ code.old.items ++ CompileLabel gate (pure_label label.now)) }
{
    match label {
        Label::Deny => push_op(Op::Deny, code),
        _ => Ok(()),
    }
}

fn push_row(
    alloc: Global,
    spec: &TableSpec,
    label: &Label,
    code: &mut Vec<Op>,
) -> Result<(), NoMemory>
    ensures { OnOk result (code.new.items ≡ code.old.items ++ CompileLabel (table spec.now) (pure_label label.now)) }
{
    match label {
        Label::Row(row) => push_op(Op::Look(entries(alloc, spec, *row)?), code),
        _ => Ok(()),
    }
}

// The images of the table's row at that place, as words.
fn entries(alloc: Global, spec: &TableSpec, row: u8) -> Result<List<Option<Word>>, NoMemory>
    ensures { IfOk result (λ entries. entries ≡ images_of (slice_get spec.now.rows row)) }
{
    let mut entries = List::new(alloc);
    if let Some(found) = spec.rows.as_slice().get(usize::from(row)) {
        for image in found.images.as_slice() {
            entries.push(image.map(Word::from))?;
        }
    }
    Ok(entries)
}
