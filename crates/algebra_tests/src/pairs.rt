// Tests of what monotone means to two routers p and q, of which each has an arc to the other one, under the same label,
// and is an origin of the same value: how many stable tables they have, by trial of all tables. Routes are texts.
use crate::properties::{compare, image, is_inferred, small_algebras};
use alg_classes::Property;
use alg_model::Alg;
use std::alloc::Global;
use std::cmp::Ordering;
use std::test::Fail;
use testkit_readers::algebra;

// A route: its value, and the routers of its path.
#[derive(Drop, PartialEq)]
struct Route {
    value: String,
    path: String,
}

// What both routers have in common: the label and the value, of an algebra.
#[derive(Clone, Copy)]
struct Pair<'a> {
    alg: &'a Alg,
    label: &'a str,
    value: &'a str,
}

// The route of the router's own.
fn own(alloc: Global, pair: Pair, router: &str) -> Result<Route, Fail> {
    Ok(Route {
        value: format!(in alloc; "{}", pair.value)?,
        path: format!(in alloc; "{router}")?,
    })
}

// What the neighbour's row offers a router: nothing where it is on the path already, or where the label prohibits the
// value.
fn offered(
    alloc: Global,
    pair: Pair,
    router: &str,
    row: &Option<Route>,
) -> Result<Option<Route>, Fail> {
    let Some(route) = row else {
        return Ok(None);
    };
    if route.path.as_str().contains(router) {
        return Ok(None);
    }
    let value = image(alloc, pair.alg, pair.label, route.value.as_str())?;
    if value.as_str() == "none" {
        return Ok(None);
    }
    let path = format!(in alloc; "{router} {}", route.path.as_str())?;
    Ok(Some(Route { value, path }))
}

// Whether the first route is better: by its value, then by the length of its path, then by its path.
fn is_better(alloc: Global, alg: &Alg, first: &Route, second: &Route) -> Result<bool, Fail> {
    let values = compare(alloc, alg, first.value.as_str(), second.value.as_str())?;
    let lengths = first.path.len().cmp(&second.path.len());
    let paths = first.path.as_str().cmp(second.path.as_str());
    Ok(values.then(lengths).then(paths) == Ordering::Less)
}

// The best of what a router has of its own and of what the neighbour's row offers it.
fn best(alloc: Global, pair: Pair, router: &str, row: &Option<Route>) -> Result<Route, Fail> {
    let own = own(alloc, pair, router)?;
    match offered(alloc, pair, router, row)? {
        Some(offer) if is_better(alloc, pair.alg, &offer, &own)? => Ok(offer),
        _ => Ok(own),
    }
}

// All rows that a router may have: none, its own route, and what the neighbour's own route offers it.
fn rows(
    alloc: Global,
    pair: Pair,
    router: &str,
    neighbour: &str,
) -> Result<Vec<Option<Route>>, Fail> {
    let mut rows = Vec::new(alloc);
    rows.push(None)?;
    rows.push(Some(own(alloc, pair, router)?))?;
    let direct = Some(own(alloc, pair, neighbour)?);
    if let Some(offer) = offered(alloc, pair, router, &direct)? {
        rows.push(Some(offer))?;
    }
    Ok(rows)
}

// Whether a router's row is stable beside that of its neighbour.
fn is_stable(
    alloc: Global,
    pair: Pair,
    router: &str,
    row: &Option<Route>,
    other: &Option<Route>,
) -> Result<bool, Fail> {
    let best = best(alloc, pair, router, other)?;
    match row {
        Some(route) => Ok(*route == best),
        None => Ok(false),
    }
}

// How many stable tables the pair has, by trial of all.
fn stable_tables(alloc: Global, pair: Pair) -> Result<u64, Fail> {
    let firsts = rows(alloc, pair, "p", "q")?;
    let seconds = rows(alloc, pair, "q", "p")?;
    let mut count = 0u64;
    for first in &firsts {
        for second in &seconds {
            if is_stable(alloc, pair, "p", first, second)?
                && is_stable(alloc, pair, "q", second, first)?
            {
                count = count.saturating_add(1);
            }
        }
    }
    Ok(count)
}

// Whether what the label makes of the value is preferred to it.
fn violates(alloc: Global, pair: Pair) -> Result<bool, Fail> {
    let image = image(alloc, pair.alg, pair.label, pair.value)?;
    Ok(compare(alloc, pair.alg, image.as_str(), pair.value)? == Ordering::Less)
}

// Whether the pairs of a case's labels and values have two stable tables where the label and the value violate
// monotone, and else one; and whether monotone is inferred of the algebra where none has two.
fn decide_as_inferred(alloc: Global, case: &str) -> Result<bool, Fail> {
    let (expression, rest) = case.split_once(" | ").ok_or("no values")?;
    let (values, labels) = rest.split_once(" | ").ok_or("no labels")?;
    let alg = algebra(alloc, expression)?;
    let decided = decide_on(alloc, &alg, labels, values);
    drop(alg);
    decided
}

// The same of the algebra, and of its labels and values.
fn decide_on(alloc: Global, alg: &Alg, labels: &str, values: &str) -> Result<bool, Fail> {
    let mut are_all_one = true;
    for label in labels.split(' ') {
        for value in values.split(' ') {
            let pair = Pair { alg, label, value };
            let violates = violates(alloc, pair)?;
            if stable_tables(alloc, pair)? != if violates { 2 } else { 1 } {
                return Ok(false);
            }
            are_all_one = are_all_one && !violates;
        }
    }
    Ok(is_inferred(alloc, alg, Property::Monotone)? == are_all_one)
}

#[test]
fn pairs_have_two_stable_tables_where_monotone_fails(rt: HostRuntime) -> Result<(), Fail> {
    for case in small_algebras().lines() {
        assert!(rt; decide_as_inferred(rt.alloc(), case)?, "{case}");
    }
    Ok(())
}

// A label and a value, and how many stable tables their pair has, by hand.
const COUNTS: &str = "add(0..1) | 0 | 3 | 1
add(0..1) | 1 | 0 | 1
gate | deny | unit | 1
lp(2) | 2 | 1 | 2
lp(2) | 1 | 1 | 1
lp(2) | 0 | 1 | 1
table { a < b = c; up: a -> b, b -> c; down: c -> a } | down | c | 2
table { a < b = c; up: a -> b, b -> c; down: c -> a } | up | b | 1";

fn counts() -> &'static str {
    COUNTS
}

// Whether the pair of a case has as many stable tables as the case says.
fn is_count(alloc: Global, case: &str) -> Result<bool, Fail> {
    let (expression, rest) = case.split_once(" | ").ok_or("no label")?;
    let (label, rest) = rest.split_once(" | ").ok_or("no value")?;
    let (value, count) = rest.split_once(" | ").ok_or("no count")?;
    let alg = algebra(alloc, expression)?;
    let pair = Pair {
        alg: &alg,
        label,
        value,
    };
    Ok(stable_tables(alloc, pair)? == count.parse::<u64>()?)
}

#[test]
fn stable_tables_are_counted(rt: HostRuntime) -> Result<(), Fail> {
    for case in counts().lines() {
        assert!(rt; is_count(rt.alloc(), case)?, "{case}");
    }
    Ok(())
}

// Labels that aren't all of the algebra's, and values that don't show that a label isn't monotone: their pairs have one
// stable table each.
const PARTS: &str = "lp(2) | 0 1 2 | 0
table { a < b = c; up: a -> b, b -> c; down: c -> a } | a b | up down";

fn parts() -> &'static str {
    PARTS
}

#[test]
fn pairs_of_a_part_state_less(rt: HostRuntime) -> Result<(), Fail> {
    for case in parts().lines() {
        assert!(rt; !decide_as_inferred(rt.alloc(), case)?, "{case}");
    }
    Ok(())
}
