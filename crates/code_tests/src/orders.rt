// Tests of compiled orders: the code of each kind of carrier, and what the machine tells of two rows.
ghost use Rattle.alg_model.specs.Carriers.{carrier_of, In};
ghost use Rattle.alg_model.specs.Views.{pure_value};

use crate::texts::{code_text, value};
use alg_model::{Alg, Value};
use code_gen::{code_means_order, compile_order, encode};
use label_code::compare;
use meta_base::NoMemory;
use std::alloc::Global;
use std::cmp::Ordering;
use std::test::Fail;
use testkit_readers::algebra;

// An expression, the code of its order, two values, and whether the first is preferred (`less`), the second
// (`greater`), or none (`equal`). There is a row for each kind at least.
const ORDERS: &str = "add(1..1) | Less | 4 | 5 | less
add(1..1) | Less | 18446744073709551617 | 18446744073709551616 | greater
cap(15; 1..1) | Less | 5 | 5 | equal
worst(9; 0..9) | Less | 3 | 2 | greater
width(9; 0..9) | More | 4 | 5 | greater
lp(9) | More | 5 | 4 | less
op(9) | Less | 3 | 4 | less
seq(2) | Length | [1] | [0,0] | less
seq(2) | Length | [1,1] | [0,0] | equal
simseq(9) | Length | [3,4] | [5] | greater
tags(3) | Pass | {0} | {1,2} | equal
guard(3) | Pass | {} | {0} | equal
gate | nothing | unit | unit | equal
table { c = k < p; up: c -> p } | Rank(List { items: [0, 0, 1] }) | c | k | equal
table { c = k < p; up: c -> p } | Rank(List { items: [0, 0, 1] }) | p | k | greater
lex(add(1..10), width(100; 0..100)) | Less, More | (1,6) | (1,5) | less
lex(add(1..10), width(100; 0..100)) | Less, More | (1,6) | (0,5) | greater
lex(add(0..9), add(0..9)) | Less, Less | (1,6) | (1,5) | greater
scoped(tags(2), add(0..9)) | Pass, Less | ({0,1},2) | ({},3) | less
lex(seq(9), add(0..9)) | Length, Less | ([7,8],3) | ([1,2],2) | greater
union(add(1..1), seq(2)) | Sides(2), Less, Leap(1), Length | l:9 | r:[] | less
union(add(1..1), seq(2)) | Sides(2), Less, Leap(1), Length | r:[] | l:9 | greater
union(add(1..1), seq(2)) | Sides(2), Less, Leap(1), Length | l:2 | l:1 | greater
union(add(1..1), seq(2)) | Sides(2), Less, Leap(1), Length | r:[0] | r:[1,1] | less
sum(gate, lp(3)) | Sides(1), Leap(1), More | r:1 | r:2 | greater
sum(gate, lp(3)) | Sides(1), Leap(1), More | l:unit | l:unit | equal
lex(union(gate, seq(3)), add(0..9)) | Sides(1), Leap(1), Length, Less | (r:[1],5) | (r:[2],4) | greater
lex(union(gate, seq(3)), add(0..9)) | Sides(1), Leap(1), Length, Less | (l:unit,4) | (l:unit,5) | less
plus(cap(9; 0..4), op(9)) | Less | 1 | 2 | less
left(lp(3)) | More | 1 | 2 | greater
right(seq(2)) | Length | [0] | [] | greater";

// The cases, in a call, so that no proof looks into them.
fn order_cases() -> &'static str {
    ORDERS
}

// How the code of the order compares the words of two values.
#[tactic(auto, using(crate::proofs::Fitting::order_fits))]
fn compared(alloc: Global, alg: &Alg, first: &Value, second: &Value) -> Result<Ordering, NoMemory>
    requires first { In (carrier_of alg.now.expression) (pure_value first.now) }
    requires second { In (carrier_of alg.now.expression) (pure_value second.now) }
{
    code_means_order();
    let _tree = alg.tree();
    let code = compile_order(alloc, alg)?;
    let first = encode(alloc, first)?;
    let second = encode(alloc, second)?;
    Ok(compare(&code, &first, &second))
}

// The word of a case for how two values compare.
fn compared_text(
    alloc: Global,
    alg: &Alg,
    first: &str,
    second: &str,
) -> Result<&'static str, Fail> {
    let first = value(alloc, alg, first)?;
    let second = value(alloc, alg, second)?;
    Ok(match compared(alloc, alg, &first, &second)? {
        Ordering::Less => "less",
        Ordering::Equal => "equal",
        Ordering::Greater => "greater",
    })
}

fn is_order_case(alloc: Global, case: &str) -> Result<bool, Fail> {
    let mut fields = case.split(" | ");
    let expression = fields.next().ok_or("no expression")?;
    let code = fields.next().ok_or("no code")?;
    let first = fields.next().ok_or("no first value")?;
    let second = fields.next().ok_or("no second value")?;
    let order = fields.next().ok_or("no order")?;
    let alg = algebra(alloc, expression)?;
    Ok(
        code_text(alloc, compile_order(alloc, &alg)?.as_slice())?.as_str() == code
            && compared_text(alloc, &alg, first, second)? == order,
    )
}

#[test]
fn orders_are_compiled_and_run(rt: HostRuntime) -> Result<(), Fail> {
    for case in order_cases().lines() {
        assert!(rt; is_order_case(rt.alloc(), case)?, "{case}");
    }
    Ok(())
}
