// Tests of `property_infer` and of the rules below it: what is inferred of small algebras, against a plain
// program that tries all values; and the facts of composed labels, against a table.
ghost use Rattle.alg_model.specs.Application.{IsLabel};
ghost use Rattle.alg_model.specs.Bounds.{LabelAtMost, greatest_number};
ghost use Rattle.alg_model.specs.Views.{pure_label};

use crate::algebras::{image_text, order_of};
use alg_classes::{Profile, Property};
use alg_model::{Alg, Label};
use meta_base::NoMemory;
use property_infer::{Verdict, Verdicts, label_profile, label_verdicts, verdicts};
use sig_text::read_label;
use std::alloc::Global;
use std::cmp::Ordering;
use std::test::Fail;
use testkit_readers::algebra;

// An algebra, values of its carrier, all of them where it has at most a dozen, and all its labels.
const SMALL_ALGEBRAS: &str = "add(0..1) | 0 1 2 3 | 0 1
add(1..2) | 0 1 2 3 | 1 2
cap(2; 0..3) | 0 1 2 | 0 1 2 3
worst(2; 0..2) | 0 1 2 | 0 1 2
width(2; 0..2) | 0 1 2 | 0 1 2
lp(2) | 0 1 2 | 0 1 2
op(2) | 0 1 2 | keep
seq(2) | [] [0] [1] [0,1] [1,1] | 0 1
simseq(2) | [] [0] [1] [0,1] [1,0] | 0 1
tags(2) | {} {0} {1} {0,1} | keep +0 -0 +1 -1
guard(2) | {} {0} {1} {0,1} | ?0 !0 ?1 !1
gate | unit | allow deny
table { a < b = c; up: a -> b, b -> c; down: c -> a } | a b c | up down
lex(cap(1; 0..1), lp(1)) | (0,0) (0,1) (1,0) (1,1) | (0,0) (0,1) (1,0) (1,1)
lex(lp(1), cap(1; 0..1)) | (0,0) (0,1) (1,0) (1,1) | (0,0) (0,1) (1,0) (1,1)
lex(width(1; 0..1), cap(2; 1..1)) | (0,0) (0,1) (0,2) (1,0) (1,1) (1,2) | (0,1) (1,1)
lex(cap(2; 1..1), width(1; 0..1)) | (0,0) (0,1) (1,0) (1,1) (2,0) (2,1) | (1,0) (1,1)
scoped(width(1; 0..1), cap(2; 1..1)) | (0,0) (0,1) (0,2) (1,0) (1,1) (1,2) | out(0,0) out(0,1) out(0,2) out(1,0) out(1,1) out(1,2) in(1)
scoped(cap(2; 1..1), lp(1)) | (0,0) (0,1) (1,0) (1,1) (2,0) (2,1) | out(1,0) out(1,1) in(0) in(1)
union(cap(1; 1..1), gate) | l:0 l:1 r:unit | l:1 r:allow r:deny
union(gate, cap(1; 0..1)) | l:unit r:0 r:1 | l:allow l:deny r:0 r:1
sum(gate, cap(1; 0..1)) | l:unit r:0 r:1 | (allow|0) (allow|1) (deny|0) (deny|1)
sum(lp(1), op(1)) | l:0 l:1 r:0 r:1 | (0|keep) (1|keep)
plus(cap(2; 1..1), worst(2; 0..0)) | 0 1 2 | l:1 r:0
plus(tags(2), guard(2)) | {} {0} {1} {0,1} | l:keep l:+0 l:-0 l:+1 l:-1 r:?0 r:!0 r:?1 r:!1
left(cap(2; 0..0)) | 0 1 2 | 0 1 2
left(gate) | unit | unit
right(cap(2; 0..0)) | 0 1 2 | keep
right(lp(0)) | 0 | keep";

// The cases, in a call, so that no proof looks into them.
pub(crate) fn small_algebras() -> &'static str {
    SMALL_ALGEBRAS
}

// The text of the label's image of the value, or `none`.
pub(crate) fn image(alloc: Global, alg: &Alg, label: &str, value: &str) -> Result<String, Fail> {
    let text = match image_text(alloc, alg, label, value)? {
        Some(text) => format!(in alloc; "{}", text.as_str())?,
        None => format!(in alloc; "none")?,
    };
    Ok(text)
}

// How two values compare, of which none is worse than each other.
pub(crate) fn compare(alloc: Global, alg: &Alg, u: &str, v: &str) -> Result<Ordering, Fail> {
    match (u == "none", v == "none") {
        (true, true) => Ok(Ordering::Equal),
        (true, false) => Ok(Ordering::Greater),
        (false, true) => Ok(Ordering::Less),
        (false, false) => order_of(alloc, alg, u, v),
    }
}

// Whether the label has the property as far as these two values tell.
fn has_at(
    alloc: Global,
    alg: &Alg,
    property: Property,
    label: &str,
    u: &str,
    v: &str,
) -> Result<bool, Fail> {
    let x = image(alloc, alg, label, u)?;
    let y = image(alloc, alg, label, v)?;
    Ok(match property {
        Property::Monotone => compare(alloc, alg, &x, u)? != Ordering::Less,
        Property::Strict => compare(alloc, alg, u, &x)? == Ordering::Less,
        Property::Isotone => {
            compare(alloc, alg, v, u)? == Ordering::Less
                || compare(alloc, alg, &y, &x)? != Ordering::Less
        }
        Property::Cancellative => {
            x.as_str() == "none"
                || y.as_str() == "none"
                || compare(alloc, alg, &x, &y)? != Ordering::Equal
                || compare(alloc, alg, u, v)? == Ordering::Equal
        }
        Property::Total => compare(alloc, alg, &x, "none")? != Ordering::Equal,
    })
}

// Whether the label has the property, by trial of all values.
fn label_has(
    alloc: Global,
    alg: &Alg,
    property: Property,
    label: &str,
    values: &str,
) -> Result<bool, Fail> {
    for u in values.split(' ') {
        for v in values.split(' ') {
            if !has_at(alloc, alg, property, label, u, v)? {
                return Ok(false);
            }
        }
    }
    Ok(true)
}

// Whether all labels have the property.
fn all_have(
    alloc: Global,
    alg: &Alg,
    property: Property,
    labels: &str,
    values: &str,
) -> Result<bool, Fail> {
    for label in labels.split(' ') {
        if !label_has(alloc, alg, property, label, values)? {
            return Ok(false);
        }
    }
    Ok(true)
}

// Whether the property is inferred.
pub(crate) fn is_inferred(alloc: Global, alg: &Alg, property: Property) -> Result<bool, NoMemory> {
    let verdicts = verdicts(alloc, alg)?;
    Ok(matches!(verdicts.on(property), Verdict::Yes))
}

// Whether what is inferred of a case's algebra is what trial tells.
fn is_inferred_as_tried(alloc: Global, case: &str) -> Result<bool, Fail> {
    let (expression, rest) = case.split_once(" | ").ok_or("no values")?;
    let (values, labels) = rest.split_once(" | ").ok_or("no labels")?;
    let alg = algebra(alloc, expression)?;
    for property in Property::ALL {
        if is_inferred(alloc, &alg, property)? != all_have(alloc, &alg, property, labels, values)? {
            return Ok(false);
        }
    }
    Ok(true)
}

#[test]
fn what_is_inferred_is_what_trial_states(rt: HostRuntime) -> Result<(), Fail> {
    for case in small_algebras().lines() {
        assert!(rt; is_inferred_as_tried(rt.alloc(), case)?, "{case}");
    }
    Ok(())
}

// Cases whose labels aren't all of the algebra's, so that trial tells more than holds, and one whose values don't show
// that a label isn't monotone.
const PARTS: &str = "add(0..1) | 0 1 2 3 | 1
cap(2; 0..3) | 0 1 2 | 1
table { a < b = c; up: a -> b, b -> c; down: c -> a } | a b | up down";

fn parts() -> &'static str {
    PARTS
}

#[test]
fn trial_of_a_part_states_more(rt: HostRuntime) -> Result<(), Fail> {
    for case in parts().lines() {
        assert!(rt; !is_inferred_as_tried(rt.alloc(), case)?, "{case}");
    }
    Ok(())
}

// An expression, a label and its facts, by hand: total, dead, monotone, strict, isotone, cancellative, all
// images equivalent, all values that have one equivalent.
const FACTS: &str = "lex(gate, gate) | (allow,allow) | y-y-yyyy
lex(simseq(2), lp(2)) | (0,1) | --yy----
lex(gate, gate) | (allow,deny) | -yyyyyyy
lex(gate, lp(2)) | (allow,2) | y---y-y-
lex(lp(2), lp(2)) | (0,0) | y-y-y-y-
lex(op(2), lp(2)) | (keep,0) | y-y-y---
lex(lp(2), op(2)) | (2,keep) | y-------
lex(lp(2), op(2)) | (0,keep) | y-y-----
lex(op(2), lp(2)) | (keep,1) | y---y---
scoped(gate, gate) | out(allow,unit) | y-y-yyyy
scoped(simseq(2), lp(2)) | out(0,2) | --yy----
scoped(gate, gate) | out(deny,unit) | -yyyyyyy
scoped(gate, lp(2)) | out(allow,1) | y---y-y-
scoped(lp(2), op(2)) | out(0,2) | y-y-y-y-
scoped(op(2), lp(2)) | out(keep,2) | y---y---
scoped(op(2), lp(2)) | out(keep,0) | y-y-y---
scoped(op(2), op(0)) | out(keep,0) | y-y-yy--
scoped(guard(2), lp(2)) | out(?0,2) | ------y-
scoped(gate, gate) | in(deny) | -yyyyyyy
scoped(lp(2), lp(2)) | in(2) | y---y---
scoped(gate, guard(2)) | in(!1) | --y--yyy
scoped(gate, lp(2)) | in(0) | y-y-y-y-
scoped(gate, lp(2)) | in(1) | y---y-y-
scoped(lp(2), lp(2)) | in(0) | y-y-y---
scoped(gate, tags(2)) | in(-1) | y-y-yyyy
scoped(gate, op(2)) | in(keep) | y-y-yy--
scoped(gate, simseq(2)) | in(0) | --yy-y--
union(gate, gate) | l:allow | --y-yyyy
union(simseq(2), gate) | l:1 | --yy-y--
union(lp(2), gate) | l:1 | ----y-y-
union(gate, gate) | l:deny | -yyyyyyy
union(lp(2), gate) | l:0 | --y-y-y-
union(op(2), gate) | l:keep | --y-yy--
union(guard(2), gate) | l:!1 | --y--yyy
union(cap(2; 0..3), gate) | l:1 | --yyyy--
union(cap(2; 0..3), gate) | l:2 | --yyyyyy
union(gate, gate) | r:deny | -yyyyyyy
union(gate, lp(2)) | r:2 | ------y-
union(gate, op(2)) | r:keep | --y--y--
union(gate, lp(2)) | r:0 | --y---y-
union(gate, tags(2)) | r:-0 | --y--yyy
union(gate, simseq(2)) | r:0 | --yy-y--
union(gate, cap(2; 0..3)) | r:2 | --yy-yyy
union(gate, worst(2; 0..2)) | r:1 | --y-----
sum(gate, gate) | (deny|deny) | -yyyyyyy
sum(gate, lp(2)) | (allow|2) | y---y---
sum(gate, gate) | (deny|allow) | --y--yyy
sum(lp(2), lp(2)) | (0|0) | y-y-y---
sum(gate, lp(2)) | (deny|1) | ------y-
sum(gate, lp(2)) | (deny|0) | --y---y-
sum(lp(2), gate) | (0|deny) | --y-y-y-
sum(lp(2), gate) | (1|deny) | ----y-y-
sum(lp(2), guard(2)) | (1|!1) | --------
plus(gate, gate) | l:deny | -yyyyyyy
plus(lp(2), lp(2)) | l:1 | y---y-y-
plus(simseq(2), simseq(2)) | l:1 | --yy-y--
plus(lp(2), lp(2)) | l:0 | y-y-y-y-
plus(gate, gate) | l:allow | y-y-yyyy
plus(op(2), op(2)) | l:keep | y-y-yy--
plus(guard(2), tags(2)) | l:?0 | --y--yyy
plus(cap(2; 0..3), op(2)) | l:2 | --yyyyyy
plus(cap(2; 0..3), op(2)) | l:1 | --yyyy--
plus(gate, gate) | r:deny | -yyyyyyy
plus(lp(2), lp(2)) | r:1 | y---y-y-
plus(simseq(2), simseq(2)) | r:0 | --yy-y--
plus(lp(2), lp(2)) | r:0 | y-y-y-y-
plus(gate, gate) | r:allow | y-y-yyyy
plus(op(2), op(2)) | r:keep | y-y-yy--
plus(tags(2), guard(2)) | r:?0 | --y--yyy
plus(op(2), cap(2; 0..3)) | r:1 | --yyyy--
plus(op(2), cap(2; 0..3)) | r:2 | --yyyyyy
left(gate) | unit | y-y-yyyy
left(op(2)) | 0 | y---y-y-
left(lp(2)) | 0 | y-y-y-y-
right(gate) | keep | y-y-yyyy
right(op(2)) | keep | y-y-yy--";

fn fact_cases() -> &'static str {
    FACTS
}

// The facts of a case, each a `y` or another character.
fn is_profile(profile: Profile, facts: &str) -> bool {
    let all = [
        profile.total,
        profile.dead,
        profile.mono,
        profile.strict,
        profile.iso,
        profile.canc,
        profile.cond,
        profile.narrow,
    ];
    facts.chars().map(|fact| fact == 'y').eq(all)
}

// Whether the verdicts say the same of the five properties.
fn agree(verdicts: &Verdicts, profile: Profile) -> bool {
    matches!(verdicts.monotone, Verdict::Yes) == profile.mono
        && matches!(verdicts.strict, Verdict::Yes) == profile.strict
        && matches!(verdicts.isotone, Verdict::Yes) == profile.iso
        && matches!(verdicts.cancellative, Verdict::Yes) == profile.canc
        && matches!(verdicts.total, Verdict::Yes) == profile.total
}

// The label's profile, and whether the verdicts of the other one, which may be the same, say the same.
fn facts_of(alloc: Global, alg: &Alg, label: &str, other: &str) -> Result<(Profile, bool), Fail> {
    let label = read_label(alloc, alg, label.as_bytes())?;
    let profile = label_profile(alg, &label);
    let other = read_label(alloc, alg, other.as_bytes())?;
    let verdicts = label_verdicts(alloc, alg, &other)?;
    Ok((profile, agree(&verdicts, profile)))
}

fn is_fact_case(alloc: Global, case: &str) -> Result<bool, Fail> {
    let (expression, rest) = case.split_once(" | ").ok_or("no label")?;
    let (label, facts) = rest.split_once(" | ").ok_or("no facts")?;
    let alg = algebra(alloc, expression)?;
    let (profile, agree) = facts_of(alloc, &alg, label, label)?;
    Ok(agree && is_profile(profile, facts))
}

#[test]
fn facts_of_composed_labels(rt: HostRuntime) -> Result<(), Fail> {
    for case in fact_cases().lines() {
        assert!(rt; is_fact_case(rt.alloc(), case)?, "{case}");
    }
    Ok(())
}

// Cases with a fact that is none, with one that is left out, and with one too many.
const OTHER_FACTS: &str = "lex(gate, gate) | (allow,allow) | y-y-yyy-
lex(gate, gate) | (allow,allow) | yyy-yyyy
lex(gate, gate) | (allow,allow) | y-y-yyy
lex(gate, gate) | (allow,allow) | y-y-yyyyy";

fn other_fact_cases() -> &'static str {
    OTHER_FACTS
}

#[test]
fn other_facts_are_stated_apart(rt: HostRuntime) -> Result<(), Fail> {
    for case in other_fact_cases().lines() {
        assert!(rt; !is_fact_case(rt.alloc(), case)?, "{case}");
    }
    Ok(())
}

// Whether the verdicts on the other label say the same of the label's properties.
fn have_same_facts(
    alloc: Global,
    expression: &str,
    label: &str,
    other: &str,
) -> Result<bool, Fail> {
    let alg = algebra(alloc, expression)?;
    let (_profile, agree) = facts_of(alloc, &alg, label, other)?;
    Ok(agree)
}

// The labels differ in strictness, in monotonicity, and in totality and strictness.
#[test]
fn other_verdicts_are_stated_apart(rt: HostRuntime) -> Result<(), Fail> {
    let pairs: &[(&str, &str, &str)] = &[
        ("add(0..1)", "0", "1"),
        ("plus(lp(2), lp(2))", "l:0", "l:1"),
        ("gate", "allow", "deny"),
    ];
    for (expression, label, other) in pairs {
        assert!(rt;
            !have_same_facts(rt.alloc(), *expression, *label, *other)?,
            "{label} and {other}"
        );
    }
    Ok(())
}
