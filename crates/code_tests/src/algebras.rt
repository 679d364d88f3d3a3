// Tests of both algebras, by the tree and by compiled code, through the trait's bound alone: over a table of
// algebras they make the same of the same values.
ghost use Rattle.alg_model.specs.declared.alg.TheConstants.{MAX_VALUE_NUMBER};
ghost use Rattle.alg_model.specs.declared.edition.TheConstants.{MAX_LABEL_NUMBER};
ghost use Rattle.alg_model.specs.Application.{IsLabel};
ghost use Rattle.alg_model.specs.Bounds.{AtMost, LabelAtMost};
ghost use Rattle.alg_model.specs.Carriers.{carrier_of, In};
ghost use Rattle.alg_model.specs.Views.{pure_label, pure_value};
ghost use Rattle.code_gen.specs.Widths.{HoldValues};

use crate::texts::{label, value};
use alg_model::{Alg, Algebra, Label, TreeAlgebra, Value, same_value};
use code_gen::{CodeAlgebra, row_width, rows_have_their_width};
use label_code::{FixedRow, HeldRow, Words};
use meta_base::NoMemory;
use std::alloc::Global;
use std::cmp::Ordering;
use std::test::Fail;
use testkit_readers::algebra;

// An expression, a label, and two values. There is a row for each kind at least.
const AGREED: &str = "add(0..9) | 3 | 4 | 9
cap(15; 1..1) | 1 | 15 | 3
worst(9; 0..9) | 3 | 5 | 2
width(9; 0..9) | 3 | 5 | 7
lp(9) | 3 | 2 | 2
op(9) | keep | 4 | 2
seq(9) | 5 | [5,7] | [1]
simseq(9) | 5 | [5,7] | [8]
tags(64) | +63 | {} | {0,63}
guard(3) | !1 | {0,2} | {1}
gate | deny | unit | unit
table { c = k < p; up: c -> p } | up | c | p
lex(seq(9), add(1..9)) | (1,2) | ([3],4) | ([4,4],1)
scoped(seq(9), union(gate, seq(9))) | out(3,r:[7]) | ([],l:unit) | ([],r:[6,6])
scoped(sum(lp(3), gate), add(0..9)) | in(4) | (r:unit,2) | (l:3,2)
union(add(1..1), seq(2)) | r:1 | r:[0] | l:4
sum(add(0..9), seq(2)) | (3|1) | r:[] | l:4
plus(add(0..9), add(10..19)) | r:12 | 4 | 20
left(seq(4)) | [3,1] | [0] | []
right(lex(seq(4), gate)) | keep | ([1,2],unit) | ([],unit)
lex(add(1..9), gate) | (2,deny) | (3,unit) | (4,unit)
lex(tags(3), add(1..9)) | (+1,2) | ({0},4) | ({},1)
lex(worst(9; 0..9), scoped(lp(3), add(0..9))) | (3,out(2,4)) | (4,(1,2)) | (2,(3,3))
scoped(lex(add(1..9), guard(3)), lex(width(9; 0..9), tags(2))) | in((5,+1)) | ((3,{1}),(7,{0})) | ((3,{}),(8,{}))
lex(lex(add(1..9), lp(3)), lex(add(1..9), lex(lp(3), gate))) | ((1,2),(3,(0,deny))) | ((3,1),(5,(2,unit))) | ((3,1),(4,(2,unit)))
lex(lex(add(1..9), lp(3)), lex(add(1..9), lex(lp(3), tags(2)))) | ((1,2),(3,(0,+1))) | ((3,1),(5,(2,{0}))) | ((3,1),(4,(2,{})))";

// The cases, in a call, so that no proof looks into them.
fn agreed_cases() -> &'static str {
    AGREED
}

// What an algebra tells of a label and two values.
#[derive(Debug, Drop)]
struct Reported {
    // The first value, brought into its form, copied and brought back.
    again: Value,
    // How the two compare.
    order: Ordering,
    // What the label makes of the first, by `apply` and by `apply_into` over the second.
    image: Option<Value>,
    placed: Option<Value>,
}

fn report<A: Algebra>(
    alloc: Global,
    algebra: &A,
    label: &Label,
    first: &Value,
    second: &Value,
) -> Result<Reported, NoMemory>
    requires label { IsLabel (A.expression algebra.now) (pure_label label.now) }
    requires small_label { LabelAtMost MAX_LABEL_NUMBER (pure_label label.now) }
    requires first { In (carrier_of (A.expression algebra.now)) (pure_value first.now) }
    requires second { In (carrier_of (A.expression algebra.now)) (pure_value second.now) }
    requires small_first { AtMost MAX_VALUE_NUMBER (pure_value first.now) }
{
    let lab = algebra.lab_of(alloc, label)?;
    let first = algebra.sig_of(alloc, first)?;
    let mut second = algebra.sig_of(alloc, second)?;
    let copied = algebra.copy(alloc, &first)?;
    let again = algebra.value_of(alloc, &copied)?;
    let order = algebra.order(&first, &second);
    let image = match algebra.apply(alloc, &lab, &first)? {
        Some(image) => Some(algebra.value_of(alloc, &image)?),
        None => None,
    };
    let placed = match algebra.apply_into(alloc, &lab, &first, &mut second)? {
        true => Some(algebra.value_of(alloc, &second)?),
        false => None,
    };
    Ok(Reported {
        again,
        order,
        image,
        placed,
    })
}

fn are_same(a: &Option<Value>, b: &Option<Value>) -> bool {
    match (a, b) {
        (Some(u), Some(v)) => same_value(u, v),
        (None, None) => true,
        _ => false,
    }
}

// What the compiled algebra tells over rows of this kind.
fn state_over<W: HeldRow>(
    alloc: Global,
    alg: &Alg,
    label: &Label,
    first: &Value,
    second: &Value,
) -> Result<Reported, NoMemory>
    requires rows { HoldValues W.can_hold (carrier_of alg.now.expression) }
    requires label { IsLabel alg.now.expression (pure_label label.now) }
    requires small_label { LabelAtMost MAX_LABEL_NUMBER (pure_label label.now) }
    requires first { In (carrier_of alg.now.expression) (pure_value first.now) }
    requires second { In (carrier_of alg.now.expression) (pure_value second.now) }
    requires small_first { AtMost MAX_VALUE_NUMBER (pure_value first.now) }
{
    let algebra = CodeAlgebra::<W>::new(alloc, alg)?;
    report(alloc, &algebra, label, first, second)
}

// The same over rows of the words that all values have, where they are few.
fn state_over_fixed(
    alloc: Global,
    alg: &Alg,
    label: &Label,
    first: &Value,
    second: &Value,
) -> Result<Option<Reported>, NoMemory>
    requires label { IsLabel alg.now.expression (pure_label label.now) }
    requires small_label { LabelAtMost MAX_LABEL_NUMBER (pure_label label.now) }
    requires first { In (carrier_of alg.now.expression) (pure_value first.now) }
    requires second { In (carrier_of alg.now.expression) (pure_value second.now) }
    requires small_first { AtMost MAX_VALUE_NUMBER (pure_value first.now) }
{
    rows_have_their_width();
    let reported = match row_width(alg) {
        Some(1) => state_over::<FixedRow<1>>(alloc, alg, label, first, second)?,
        Some(2) => state_over::<FixedRow<2>>(alloc, alg, label, first, second)?,
        Some(3) => state_over::<FixedRow<3>>(alloc, alg, label, first, second)?,
        Some(4) => state_over::<FixedRow<4>>(alloc, alg, label, first, second)?,
        _ => return Ok(None),
    };
    Ok(Some(reported))
}

// Whether both algebras tell the same, and bring the first value back: the compiled one over rows of any length, and
// over rows of the words that all values have.
fn agree(
    alloc: Global,
    alg: &Alg,
    label: &Label,
    first: &Value,
    second: &Value,
) -> Result<bool, NoMemory>
    requires label { IsLabel alg.now.expression (pure_label label.now) }
    requires small_label { LabelAtMost MAX_LABEL_NUMBER (pure_label label.now) }
    requires first { In (carrier_of alg.now.expression) (pure_value first.now) }
    requires second { In (carrier_of alg.now.expression) (pure_value second.now) }
    requires small_first { AtMost MAX_VALUE_NUMBER (pure_value first.now) }
{
    let tree = report(alloc, &TreeAlgebra::new(alg), label, first, second)?;
    let words = state_over::<Words>(alloc, alg, label, first, second)?;
    let fixed = state_over_fixed(alloc, alg, label, first, second)?;
    Ok(
        same_value(&tree.again, first)
            && are_same(&tree.image, &tree.placed)
            && states_alike(&tree, &words)
            && match &fixed {
                Some(fixed) => states_alike(&tree, fixed),
                None => true,
            },
    )
}

// Whether two algebras answered the same.
fn states_alike(one: &Reported, other: &Reported) -> bool {
    same_value(&one.again, &other.again)
        && one.order == other.order
        && are_same(&one.image, &other.image)
        && are_same(&one.placed, &other.placed)
}

// Whether both algebras agree on a case.
fn is_agreed_case(alloc: Global, case: &str) -> Result<bool, Fail> {
    let mut fields = case.split(" | ");
    let expression = fields.next().ok_or("no expression")?;
    let label_text = fields.next().ok_or("no label")?;
    let first_text = fields.next().ok_or("no first value")?;
    let second_text = fields.next().ok_or("no second value")?;
    let alg = algebra(alloc, expression)?;
    let label = label(alloc, &alg, label_text)?;
    let first = value(alloc, &alg, first_text)?;
    let second = value(alloc, &alg, second_text)?;
    Ok(agree(alloc, &alg, &label, &first, &second)?)
}

#[test]
fn both_algebras_agree(rt: HostRuntime) -> Result<(), Fail> {
    for case in agreed_cases().lines() {
        assert!(rt; is_agreed_case(rt.alloc(), case)?, "{case}");
    }
    Ok(())
}

// Numbers, each from the one before (a linear congruential generator).
#[derive(Drop)]
struct Draws {
    last: u64,
}

impl Draws {
    // One of the cases.
    fn case(&mut self) -> Result<&'static str, Fail> {
        self.last = self
            .last
            .wrapping_mul(6_364_136_223_846_793_005)
            .wrapping_add(1_442_695_040_888_963_407);
        let place = (self.last >> 33) % CASES;
        Ok(
            agreed_cases()
                .lines()
                .nth(place as usize)
                .ok_or("no such case")?,
        )
    }
}

// How many cases there are.
const CASES: u64 = 26;

// The case of the lexical product of the algebras of two cases, with pairs of their labels and values.
fn product(alloc: Global, one: &str, other: &str) -> Result<String, Fail> {
    let mut others = other.split(" | ");
    let mut case = String::new(alloc);
    case.push_str("lex")?;
    for a in one.split(" | ") {
        let b = others.next().ok_or("a case with too few fields")?;
        if case.as_str() != "lex" {
            case.push_str(" | ")?;
        }
        case.push_str("(")?;
        case.push_str(a)?;
        case.push_str(",")?;
        case.push_str(b)?;
        case.push_str(")")?;
    }
    Ok(case)
}

#[test]
fn both_algebras_agree_on_drawn_products(rt: HostRuntime) -> Result<(), Fail> {
    let mut draws = Draws { last: 1 };
    for _ in 0..64 {
        let pair = product(rt.alloc(), draws.case()?, draws.case()?)?;
        assert!(rt; is_agreed_case(rt.alloc(), pair.as_str())?, "{pair}");
        let triple = product(rt.alloc(), draws.case()?, pair.as_str())?;
        assert!(rt; is_agreed_case(rt.alloc(), triple.as_str())?, "{triple}");
    }
    Ok(())
}
