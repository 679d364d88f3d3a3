// Tests of compiled labels: the code of each kind of label, the words of values, and what the machine makes of them.
ghost use Rattle.alg_model.specs.declared.alg.TheConstants.{MAX_VALUE_NUMBER};
ghost use Rattle.alg_model.specs.declared.edition.TheConstants.{MAX_LABEL_NUMBER};
ghost use Rattle.alg_model.specs.Application.{IsLabel};
ghost use Rattle.alg_model.specs.Bounds.{AtMost, LabelAtMost};
ghost use Rattle.alg_model.specs.Carriers.{carrier_of, In};
ghost use Rattle.alg_model.specs.Views.{pure_label, pure_value};

use crate::texts::{code_text, label, value, words_text};
use alg_model::{Alg, Label, Value, same_value};
use code_gen::{code_means_application, compile_label, decode, encode};
use label_code::{Row, Run, run};
use meta_base::{List, NoMemory};
use std::alloc::Global;
use std::test::Fail;
use testkit_readers::algebra;

// An expression, a label, its code, a value, its words, and the words of what the label makes of the value. There is a
// row for each kind of label at least.
const LABELS: &str = "add(1..9) | 3 | Add(3) | 4 | 4 | 7
add(1..9) | 3 | Add(3) | 18446744073709551616 | 18446744073709551616 | 18446744073709551619
cap(15; 1..1) | 1 | Cap(1, 15) | 14 | 14 | 15
cap(15; 1..1) | 1 | Cap(1, 15) | 15 | 15 | none
worst(9; 0..9) | 3 | Max(3) | 2 | 2 | 3
worst(9; 0..9) | 3 | Max(3) | 5 | 5 | 5
width(9; 0..9) | 3 | Min(3) | 5 | 5 | 3
width(9; 0..9) | 3 | Min(3) | 2 | 2 | 2
lp(9) | 3 | Drop, Emit(3) | 2 | 2 | 3
op(9) | keep | Copy | 2 | 2 | 2
seq(9) | 5 | Append(5) | [5,7] | 2 5 7 | 3 5 7 5
simseq(9) | 5 | Fresh(5) | [5,7] | 2 5 7 | none
simseq(9) | 5 | Fresh(5) | [8] | 1 8 | 2 8 5
tags(3) | keep | Copy | {0,2} | 5 | 5
tags(3) | +1 | SetBit(1) | {0,2} | 5 | 7
tags(3) | -2 | ClearBit(2) | {0,2} | 5 | 1
tags(64) | +63 | SetBit(63) | {} | 0 | 9223372036854775808
tags(64) | -63 | ClearBit(63) | {0,63} | 9223372036854775809 | 1
guard(3) | ?2 | NeedBit(2) | {0,2} | 5 | 5
guard(3) | ?1 | NeedBit(1) | {0,2} | 5 | none
guard(3) | !1 | BarBit(1) | {0,2} | 5 | 5
guard(3) | !2 | BarBit(2) | {0,2} | 5 | none
gate | allow | nothing | unit | nothing | nothing
gate | deny | Deny | unit | nothing | none
table { c = k < p; up: c -> p } | up | Look(List { items: [Some(2), None, None] }) | c | 0 | 2
table { c = k < p; up: c -> p } | up | Look(List { items: [Some(2), None, None] }) | k | 1 | none
lex(table { c = k < p; up: c -> p }, add(1..9)) | (up,2) | Look(List { items: [Some(2), None, None] }), Add(2) | (c,5) | 0 5 | 2 7
lex(seq(9), seq(9)) | (1,2) | Append(1), Append(2) | ([3],[4,4]) | 1 3 2 4 4 | 2 3 1 3 4 4 2
scoped(add(0..9), add(0..9)) | out(3,7) | Add(3), Drop, Emit(7) | (1,2) | 1 2 | 4 7
scoped(add(0..9), add(0..9)) | in(4) | Copy, Add(4) | (1,2) | 1 2 | 1 6
scoped(seq(9), union(gate, seq(9))) | out(3,r:[7]) | Append(3), Test(1), Skip(1), DropSeq, Emit(1), Emit(1), Emit(7) | ([],r:[6,6]) | 0 1 2 6 6 | 1 3 1 1 7
scoped(seq(9), union(gate, seq(9))) | out(3,r:[7]) | Append(3), Test(1), Skip(1), DropSeq, Emit(1), Emit(1), Emit(7) | ([],l:unit) | 0 0 | 1 3 1 1 7
scoped(sum(lp(3), gate), add(0..9)) | in(4) | Fork(2), Copy, Skip(0), Add(4) | (r:unit,2) | 1 2 | 1 6
scoped(sum(lp(3), gate), add(0..9)) | in(4) | Fork(2), Copy, Skip(0), Add(4) | (l:3,2) | 0 3 2 | 0 3 6
union(add(1..1), seq(2)) | l:1 | Fork(2), Add(1), Skip(1), Deny | l:4 | 0 4 | 0 5
union(add(1..1), seq(2)) | l:1 | Fork(2), Add(1), Skip(1), Deny | r:[] | 1 0 | none
union(add(1..1), seq(2)) | r:1 | Fork(1), Deny, Append(1) | r:[0] | 1 1 0 | 1 2 0 1
union(add(1..1), seq(2)) | r:1 | Fork(1), Deny, Append(1) | l:4 | 0 4 | none
sum(add(0..9), seq(2)) | (3|1) | Fork(2), Add(3), Skip(1), Append(1) | l:4 | 0 4 | 0 7
sum(add(0..9), seq(2)) | (3|1) | Fork(2), Add(3), Skip(1), Append(1) | r:[] | 1 0 | 1 1 1
plus(add(0..9), add(10..19)) | l:3 | Add(3) | 4 | 4 | 7
plus(add(0..9), add(10..19)) | r:12 | Add(12) | 4 | 4 | 16
left(add(0..9)) | 7 | Drop, Emit(7) | 2 | 2 | 7
left(seq(4)) | [3,1] | DropSeq, Emit(2), Emit(3), Emit(1) | [0] | 1 0 | 2 3 1
left(gate) | unit | nothing | unit | nothing | nothing
right(add(0..9)) | keep | Copy | 2 | 2 | 2
right(lex(seq(4), gate)) | keep | CopySeq | ([1,2],unit) | 2 1 2 | 2 1 2";

// The cases, in a call, so that no proof looks into them.
fn label_cases() -> &'static str {
    LABELS
}

// What the compiled label makes of the value's words, which it writes to `out`.
#[tactic(auto, using(crate::proofs::Fitting::code_fits))]
fn run_compiled(
    alloc: Global,
    alg: &Alg,
    label: &Label,
    value: &Value,
    out: &mut Row,
) -> Result<Run, NoMemory>
    requires label { IsLabel alg.now.expression (pure_label label.now) }
    requires value { In (carrier_of alg.now.expression) (pure_value value.now) }
    requires small_label { LabelAtMost MAX_LABEL_NUMBER (pure_label label.now) }
    requires small_value { AtMost MAX_VALUE_NUMBER (pure_value value.now) }
{
    code_means_application();
    let _tree = alg.tree();
    let code = compile_label(alloc, alg, label)?;
    let row = encode(alloc, value)?;
    run(alloc, &code, &row, out)
}

// The value that the value's words decode to.
#[tactic(auto, using(crate::proofs::Fitting::encoded))]
fn decoded(alloc: Global, alg: &Alg, value: &Value) -> Result<Value, NoMemory>
    requires { In (carrier_of alg.now.expression) (pure_value value.now) }
{
    let row = encode(alloc, value)?;
    decode(alloc, alg, &row)
}

// The text of the label's code.
fn compiled_text(alloc: Global, alg: &Alg, text: &str) -> Result<String, Fail> {
    let label = label(alloc, alg, text)?;
    code_text(alloc, compile_label(alloc, alg, &label)?.as_slice())
}

// The text of the value's words, and whether they decode to the value.
fn encoded_text(alloc: Global, alg: &Alg, text: &str) -> Result<(String, bool), Fail> {
    let value = value(alloc, alg, text)?;
    let words = words_text(alloc, encode(alloc, &value)?.as_slice())?;
    let again = decoded(alloc, alg, &value)?;
    Ok((words, same_value(&again, &value)))
}

// The text of the words that the label's code writes to `out`, or `none` where it prohibits.
fn run_text(
    alloc: Global,
    alg: &Alg,
    label_text: &str,
    value_text: &str,
    out: &mut Row,
) -> Result<String, Fail> {
    let label = label(alloc, alg, label_text)?;
    let value = value(alloc, alg, value_text)?;
    let run = run_compiled(alloc, alg, &label, &value, out)?;
    outcome_text(alloc, run, out)
}

fn outcome_text(alloc: Global, run: Run, out: &Row) -> Result<String, Fail> {
    match run {
        Run::Made => words_text(alloc, out.as_slice()),
        Run::Prohibited if out.as_slice().is_empty() => Ok(format!(in alloc; "none")?),
        Run::Prohibited => Err("a row is left behind".into()),
    }
}

// Whether a case is so, where what runs before left in `out` is gone.
fn is_label_case(alloc: Global, case: &str, out: &mut Row) -> Result<bool, Fail> {
    let mut fields = case.split(" | ");
    let expression = fields.next().ok_or("no expression")?;
    let label = fields.next().ok_or("no label")?;
    let code = fields.next().ok_or("no code")?;
    let value = fields.next().ok_or("no value")?;
    let words = fields.next().ok_or("no words")?;
    let image = fields.next().ok_or("no image")?;
    let alg = algebra(alloc, expression)?;
    let (encoded, again) = encoded_text(alloc, &alg, value)?;
    Ok(
        compiled_text(alloc, &alg, label)?.as_str() == code
            && encoded.as_str() == words
            && again
            && run_text(alloc, &alg, label, value, out)?.as_str() == image,
    )
}

#[test]
fn labels_are_compiled_and_run(rt: HostRuntime) -> Result<(), Fail> {
    let mut out = List::new(rt.alloc());
    for case in label_cases().lines() {
        assert!(rt; is_label_case(rt.alloc(), case, &mut out)?, "{case}");
    }
    Ok(())
}
