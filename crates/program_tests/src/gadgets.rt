// Tests of `gadget`: the network of two routers that shows that a policy isn't monotone, by its form, since any label
// and value that violate monotone may stand in it; and what its runs come to.
use crate::program::{CUSTOMERS, ended_with, run, run_on};
use crate::runs::WORKERS;
use std::alloc::{AllocGlobal, Global};
use std::str;
use std::sync::Wait;
use std::test::Fail;
use std::thread::Threads;

// A label, a value, and what the label makes of the value.
#[derive(Clone, Copy)]
struct Instance<'a> {
    label: &'a str,
    value: &'a str,
    image: &'a str,
}

// The instance that the first line of a gadget tells.
fn instance_in(text: &str) -> Option<Instance<'_>> {
    let line = text.lines().next()?.strip_prefix("# monotone no: ")?;
    let (label, rest) = line.split_once(" on ")?;
    let (value, image) = rest.split_once(" gives ")?;
    Some(Instance {
        label,
        value,
        image,
    })
}

// The eight lines of the instance's gadget.
fn gadget_of(alloc: Global, instance: Instance) -> Result<String, Fail> {
    let Instance {
        label,
        value,
        image,
    } = instance;
    Ok(format!(in alloc;
        "# monotone no: {label} on {value} gives {image}
node p q
link p q : {label}
origin x at p : {value}
origin x at q : {value}
then link q p : {label}
then drop p q
then link p q : {label}
"
    )?)
}

// What its runs come to: the second and the fourth phase have the same arcs and other rows.
fn run_of(alloc: Global, instance: Instance) -> Result<String, Fail> {
    let Instance { value, image, .. } = instance;
    Ok(format!(in alloc;
        "p x {image} p q
q x {value} q
quiet 1
phase 1
p x {image} p q
q x {value} q
quiet 1
phase 2
p x {value} p
q x {image} q p
quiet 1
phase 3
p x {value} p
q x {image} q p
quiet 1
"
    )?)
}

// Whether the gadget of the policy is one of an instance, and any workers come to that instance's end on it.
fn has_memory(rt: &(impl AllocGlobal + Threads + Wait + Sync), file: &[u8]) -> Result<bool, Fail> {
    let outcome = run(rt, &["gadget", "f"], file)?;
    let text = str::from_utf8(&outcome.taken)?;
    let Some(instance) = instance_in(text) else {
        return Ok(false);
    };
    if outcome.status != 0 || text != gadget_of(rt.alloc(), instance)?.as_str() {
        return Ok(false);
    }
    let end = run_of(rt.alloc(), instance)?;
    for workers in WORKERS {
        let words = ["run", "f", "n", "--workers", workers];
        let outcome = run_on(rt, &words, file, text.as_bytes())?;
        if !ended_with(outcome, end.as_bytes(), 0) {
            return Ok(false);
        }
    }
    Ok(true)
}

// Policies of each operator that can have a label that isn't monotone. The greatest label of `left` violates
// monotone only with values that no file can hold.
const POLICIES: &[&str] = &[
    "main lp(3);",
    "main table { o < a < d; D: o -> d; N: d -> a };",
    "main lex(lp(3), add(1..1));",
    "main scoped(lp(2), add(1..1));",
    "main scoped(add(1..1), lp(2));",
    "main union(lp(2), gate);",
    "main union(gate, lp(2));",
    "main sum(add(1..1), lp(2));",
    "main plus(width(2; 0..2), lp(2));",
    "main left(add(1..1));",
    "raml 2; main lex(left(add(0..18446744073709551615)), gate);",
];

#[test]
fn gadgets_have_a_memory(rt: HostRuntime) -> Result<(), Fail> {
    for file in POLICIES {
        assert!(rt; has_memory(&rt, file.as_bytes())?, "{file}");
    }
    Ok(())
}

const ONE_INSTANCE: &[u8] = b"# monotone no: N on b gives a
node p q
link p q : N
origin x at p : b
origin x at q : b
then link q p : N
then drop p q
then link p q : N
";

// A policy has no gadget where it is monotone, and one gadget where one instance violates monotone.
#[test]
fn gadgets_are_printed(rt: HostRuntime) -> Result<(), Fail> {
    let cases: &[(&[u8], &[u8])] = &[
        (b"main add(0..10);", b"# monotone yes\n"),
        (b"main gate;", b"# monotone yes\n"),
        (CUSTOMERS, b"# monotone yes\n"),
        (b"main table { a < b; N: b -> a };", ONE_INSTANCE),
    ];
    for (file, text) in cases {
        assert!(rt; ended_with(run(&rt, &["gadget", "f"], *file)?, *text, 0));
    }
    assert!(rt; !has_memory(&rt, CUSTOMERS)?);
    Ok(())
}

const PREFERENCE: &[u8] = b"node p q
link p q : (3,1)
origin x at p : (0,0)
origin x at q : (0,0)
then link q p : (3,1)
then drop p q
then link p q : (3,1)
";

const PREFERENCE_RUN: &[u8] = b"p x (3,1) p q
q x (0,0) q
quiet 1
phase 1
p x (3,1) p q
q x (0,0) q
quiet 1
phase 2
p x (0,0) p
q x (3,1) q p
quiet 1
phase 3
p x (0,0) p
q x (3,1) q p
quiet 1
";

#[test]
fn local_preferences_have_a_memory(rt: HostRuntime) -> Result<(), Fail> {
    for workers in WORKERS {
        let words = ["run", "f", "n", "--workers", workers];
        let outcome = run_on(&rt, &words, b"main lex(lp(3), add(1..1));", PREFERENCE)?;
        assert!(rt; ended_with(outcome, PREFERENCE_RUN, 0), "by {workers}");
    }
    Ok(())
}

// A table with one instance, whose value has a name of so many bytes.
fn long_name(alloc: Global, bytes: usize) -> Result<String, Fail> {
    let name = vec![in alloc; b'B'; bytes]?;
    let name = str::from_utf8(&name)?;
    Ok(format!(in alloc; "main table {{ a < {name}; N: {name} -> a }};")?)
}

// Labels and values of 128 numbers, of which 127 are the greatest of their edition in each label.
fn great_numbers(alloc: Global) -> Result<String, Fail> {
    let mut text = String::from_str(alloc, "raml 2; main ")?;
    for _part in 0..127u32 {
        text.push_str("lex(")?;
    }
    text.push_str("lp(1)")?;
    for _part in 0..127u32 {
        text.push_str(", add(18446744073709551615..18446744073709551615))")?;
    }
    text.push_str(";")?;
    Ok(text)
}

const NO_FILE: &[u8] = b"# monotone no: no network file holds this instance\n";

// The longest line of a gadget is its first. A line of a network file has at most 4096 bytes, of which 28 aren't the
// name's.
#[test]
fn no_file_holds_long_lines(rt: HostRuntime) -> Result<(), Fail> {
    let alloc = rt.alloc();
    assert!(rt; has_memory(&rt, long_name(alloc, 4068)?.as_bytes())?);
    for file in [
        long_name(alloc, 4069)?,
        long_name(alloc, 4090)?,
        great_numbers(alloc)?,
    ] {
        let outcome = run(&rt, &["gadget", "f"], file.as_bytes())?;
        assert!(rt; ended_with(outcome, NO_FILE, 0));
    }
    Ok(())
}
