// Tests of `alg_model`: what labels make of values, which values are preferred, and which trees are no
// algebras. Labels and values are written as literals.
ghost use Rattle.alg_model.specs.Expressions.{add};
ghost use Rattle.std.specs.Prelude.{◌≡◌, ◌≤◌, ◌^◌};
ghost use Rattle.alg_model.specs.declared.edition.TheConstants.{MAX_LABEL_NUMBER};
ghost use Rattle.alg_model.specs.declared.alg.TheConstants.{MAX_VALUE_NUMBER};
ghost use Rattle.alg_model.specs.Views.{pure_value, pure_label};
ghost use Rattle.alg_model.specs.Carriers.{carrier_of, In};
ghost use Rattle.alg_model.specs.Application.{IsLabel};
ghost use Rattle.alg_model.specs.Bounds.{AtMost, LabelAtMost};

use alg_model::{
    Alg, Algebra, Carrier, Edition, Label, Shape, Tree, TreeAlgebra, Value, apply, carrier_of,
    label_in, order, same_carrier, value_in,
};
use meta_base::{NoMemory, Text};
use sig_text::{print_value, read_label, read_value};
use std::alloc::Global;
use std::cmp::Ordering;
use std::test::Fail;
use testkit_readers::algebra;

// The text of what the label makes of the value, or `None` where it prohibits it.
#[tactic(auto, using(alg_model::specs::BoundLaws::at_most_more))]
pub(crate) fn image_text(
    alloc: Global,
    alg: &Alg,
    label: &str,
    value: &str,
) -> Result<Option<Text>, Fail> {
    let label = read_label(alloc, alg, label.as_bytes())?;
    let value = read_value(alloc, alg, value.as_bytes())?;
    let image = apply(alloc, alg, &label, &value);
    drop(label);
    drop(value);
    match image? {
        Some(image) => Ok(Some(print_value(alloc, alg, &image)?)),
        None => Ok(None),
    }
}

fn is_image(image: Option<Text>, expected: &str) -> bool {
    match &image {
        Some(text) => text.as_str() == expected,
        None => expected == "none",
    }
}

const RELATION: &str = "table { customer < peer; up: customer -> peer }";

// An expression, a label, a value, and what the label makes of the value.
const IMAGES: &str = "add(1..10) | 3 | 4 | 7
cap(15; 1..1) | 1 | 15 | none
worst(9; 0..9) | 3 | 2 | 3
width(9; 0..9) | 3 | 2 | 2
lp(9) | 3 | 2 | 3
op(9) | keep | 2 | 2
seq(9) | 5 | [5] | [5,5]
simseq(9) | 5 | [5] | none
simseq(9) | 8 | [5] | [5,8]
tags(3) | +1 | {0,2} | {0,1,2}
tags(3) | -2 | {0,2} | {0}
guard(3) | ?2 | {0,2} | {0,2}
guard(3) | ?1 | {0,2} | none
guard(3) | !2 | {0,2} | none
gate | allow | unit | unit
gate | deny | unit | none
table { customer < peer; up: customer -> peer } | up | customer | peer
table { customer < peer; up: customer -> peer } | up | peer | none
lex(add(0..9), add(0..9)) | (3,4) | (1,2) | (4,6)
scoped(add(0..9), add(0..9)) | out(3,7) | (1,2) | (4,7)
scoped(add(0..9), add(0..9)) | in(4) | (1,2) | (1,6)
union(add(0..9), add(0..9)) | l:3 | l:2 | l:5
union(add(0..9), add(0..9)) | l:3 | r:2 | none
sum(add(0..9), add(0..9)) | (3|4) | r:2 | r:6
plus(add(0..9), add(0..9)) | r:4 | 2 | 6
left(add(0..9)) | 7 | 2 | 7
right(add(0..9)) | keep | 2 | 2";

// The cases, in a call, so that no proof looks into them.
fn image_cases() -> &'static str {
    IMAGES
}

// Whether the label of a case makes of the value what the case says.
fn is_image_case(alloc: Global, case: &str) -> Result<bool, Fail> {
    let (expression, rest) = case.split_once(" | ").ok_or("no label")?;
    let (label, rest) = rest.split_once(" | ").ok_or("no value")?;
    let (value, image) = rest.split_once(" | ").ok_or("no image")?;
    let alg = algebra(alloc, expression)?;
    let text = image_text(alloc, &alg, label, value);
    drop(alg);
    Ok(is_image(text?, image))
}

#[test]
fn images(rt: HostRuntime) -> Result<(), Fail> {
    for case in image_cases().lines() {
        assert!(rt; is_image_case(rt.alloc(), case)?, "{case}");
    }
    Ok(())
}

// Cases with an image that is another one.
const OTHER_IMAGES: &str = "add(1..10) | 3 | 4 | 8
add(1..10) | 3 | 4 | none
cap(15; 1..1) | 1 | 15 | 15
tags(3) | +1 | {0,2} | {0,2}";

fn other_image_cases() -> &'static str {
    OTHER_IMAGES
}

#[test]
fn other_images_are_stated_apart(rt: HostRuntime) -> Result<(), Fail> {
    for case in other_image_cases().lines() {
        assert!(rt; !is_image_case(rt.alloc(), case)?, "{case}");
    }
    Ok(())
}

// What an algebra makes of a value and a label of its own form, by the trait's bound alone: the image,
// where the value is preferred to it.
fn worse_image<A: Algebra>(
    alloc: Global,
    algebra: &A,
    label: &Label,
    value: &Value,
) -> Result<Option<Value>, NoMemory>
    requires label { IsLabel (A.expression algebra.now) (pure_label label.now) }
    requires value { In (carrier_of (A.expression algebra.now)) (pure_value value.now) }
    requires small_label { LabelAtMost MAX_LABEL_NUMBER (pure_label label.now) }
    requires small_value { AtMost MAX_VALUE_NUMBER (pure_value value.now) }
{
    let sig = algebra.sig_of(alloc, value)?;
    let sig = algebra.copy(alloc, &sig)?;
    let lab = algebra.lab_of(alloc, label)?;
    match algebra.apply(alloc, &lab, &sig)? {
        Some(image) if algebra.order(&sig, &image) == Ordering::Less => {
            Ok(Some(algebra.value_of(alloc, &image)?))
        }
        _ => Ok(None),
    }
}

// Whether 1 makes 2^64 and 1 of 2^64, where numbers are added.
fn sums_pass_a_word(alloc: Global, alg: &Alg) -> Result<bool, NoMemory>
    requires { alg.now.expression ≡ add 1 1 }
{
    let image = worse_image(
        alloc,
        &TreeAlgebra::new(alg),
        &Label::Number(1),
        &Value::Number(18_446_744_073_709_551_616),
    )?;
    Ok(matches!(image, Some(Value::Number(18_446_744_073_709_551_617))))
}

// Whether a copy of the algebra is `add(1..1)` in profile 2.
fn is_copied(alloc: Global, alg: &Alg) -> Result<bool, NoMemory> {
    let copied = alg.copy_part(alloc, alg.tree())?;
    let is_same = matches!(copied.tree(), Tree::Add { low: 1, high: 1 });
    let edition = copied.edition();
    drop(copied);
    Ok(is_same && edition == Edition::Two)
}

#[test]
fn trees_are_carried_out(rt: HostRuntime) -> Result<(), Fail> {
    let alg = Alg::checked_in(Tree::Add { low: 1, high: 1 }, Edition::Two)?;
    let is_copied = is_copied(rt.alloc(), &alg);
    let is_sum = sums_pass_a_word(rt.alloc(), &alg);
    drop(alg);
    assert!(rt; is_copied? && is_sum?);
    Ok(())
}

// How two values compare.
pub(crate) fn order_of(
    alloc: Global,
    alg: &Alg,
    first: &str,
    second: &str,
) -> Result<Ordering, Fail> {
    let first = read_value(alloc, alg, first.as_bytes())?;
    let second = read_value(alloc, alg, second.as_bytes())?;
    Ok(order(alg, &first, &second))
}

// How two values of the algebra of the expression compare.
fn order_in(alloc: Global, expression: &str, first: &str, second: &str) -> Result<Ordering, Fail> {
    let alg = algebra(alloc, expression)?;
    let order = order_of(alloc, &alg, first, second);
    drop(alg);
    order
}

#[test]
fn orders(rt: HostRuntime) -> Result<(), Fail> {
    let alloc = rt.alloc();
    let cases: &[(&str, &str, &str, Ordering)] = &[
        ("width(9; 0..9)", "5", "3", Ordering::Less),
        (RELATION, "peer", "customer", Ordering::Greater),
        ("tags(3)", "{0,2}", "{1}", Ordering::Equal),
        (
            "scoped(add(0..9), add(0..9))",
            "(1,9)",
            "(2,0)",
            Ordering::Less,
        ),
        (
            "scoped(add(0..9), add(0..9))",
            "(1,9)",
            "(1,8)",
            Ordering::Greater,
        ),
        ("union(add(0..9), add(0..9))", "l:9", "r:0", Ordering::Less),
    ];
    for (expression, first, second, expected) in cases {
        let order = order_in(alloc, *expression, *first, *second)?;
        assert_eq!(rt; order, *expected, "{first} and {second} in {expression}");
    }
    Ok(())
}

// Some value of the algebra's carrier.
fn some_value(alloc: Global, alg: &Alg) -> Result<Value, NoMemory> {
    let _tree = alg.tree();
    carrier_of(alloc, alg)?.member(alloc)
}

// Whether the algebra has the numbers up to 5 for its values.
fn is_up_to_five(alloc: Global, alg: &Alg) -> Result<bool, NoMemory> {
    let is_carrier = matches!(carrier_of(alloc, alg)?, Carrier::UpTo(5));
    Ok(is_carrier && value_in(alg, &Value::Number(5)) && !value_in(alg, &Value::Number(6)))
}

// Whether the algebra has the one value for its values, and the labels of `gate`.
fn is_gate(alloc: Global, alg: &Alg) -> Result<bool, NoMemory> {
    let is_unit = matches!(some_value(alloc, alg)?, Value::Unit);
    Ok(is_unit && label_in(alg, &Label::Deny) && !label_in(alg, &Label::Keep))
}

// Whether the algebra of the expression has the other's carrier.
fn has_carrier_of(alloc: Global, expression: &str, other: &Alg) -> Result<bool, Fail> {
    let alg = algebra(alloc, expression)?;
    let is_same = same_carrier(&alg, other);
    drop(alg);
    Ok(is_same)
}

// Whether the algebra has the numbers up to 5 for its values, as `op(5)` has and `gate` hasn't.
fn is_carrier_of_op(alloc: Global, alg: &Alg) -> Result<bool, Fail> {
    Ok(
        is_up_to_five(alloc, alg)?
            && has_carrier_of(alloc, "op(5)", alg)?
            && !has_carrier_of(alloc, "gate", alg)?,
    )
}

#[test]
fn carriers_and_members(rt: HostRuntime) -> Result<(), Fail> {
    let cap = algebra(rt.alloc(), "cap(5; 1..1)")?;
    let is_carrier = is_carrier_of_op(rt.alloc(), &cap);
    drop(cap);
    assert!(rt; is_carrier?);
    Ok(())
}

#[test]
fn gates_have_one_value(rt: HostRuntime) -> Result<(), Fail> {
    let gate = algebra(rt.alloc(), "gate")?;
    let is_gate = is_gate(rt.alloc(), &gate);
    drop(gate);
    assert!(rt; is_gate?);
    Ok(())
}

#[test]
fn broken_rules_are_stated(rt: HostRuntime) -> Result<(), Fail> {
    let empty = Tree::Add { low: 5, high: 4 };
    assert_eq!(rt; Alg::checked(empty).err(), Some(Shape::Range));
    let numbers = Box::new(rt.alloc(), Tree::Add { low: 1, high: 2 })?;
    let sequences = Box::new(rt.alloc(), Tree::Seq { symbols: 3 })?;
    let mixed = Tree::Plus(numbers, sequences);
    assert_eq!(rt; Alg::checked(mixed).err(), Some(Shape::Carriers));
    Ok(())
}
