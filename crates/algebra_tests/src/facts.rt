// Tests of `net_facts`: which arc of a network is the first that doesn't have a property.
use alg_classes::Property;
use alg_model::Label;
use meta_base::ArcId;
use net_facts::{Missing, first_missing};
use std::alloc::Global;
use std::test::Fail;
use testkit_readers::network;

// What `route` asks of the labels, and what `settle` asks.
const ROUTED: &[Property] = &[Property::Monotone, Property::Isotone];

const SETTLED: &[Property] = &[Property::Strict];

// The worst of three names that were met, and after it a count of hops.
const NAMES_AND_HOPS: &str =
    "lex(table { c < r < p; C: c -> c; R: c -> r; P: c -> p, r -> p, p -> p }, add(1..1))";

const BAD_GADGET: &str = "table { o < a < d; D: o -> d; N: d -> a }";

const HOPS: &str = "add(0..10)";

// An expression, the lines of a network over it, and the properties that are asked for; then the arc that doesn't have
// one first, and that property, or none.
type Case = (
    &'static str,
    &'static [u8],
    &'static [Property],
    Option<(u32, Property)>,
);

const CASES: &[Case] = &[
    // P makes names equal and so puts the hops before them: monotone, but not isotone.
    (
        NAMES_AND_HOPS,
        b"node u v w\nlink u v : (P,1)\nlink v w : (C,1)\n",
        ROUTED,
        Some((0, Property::Isotone)),
    ),
    (
        NAMES_AND_HOPS,
        b"node u v w\nlink v w : (C,1)\nlink u v : (P,1)\nlink w u : (P,1)\n",
        ROUTED,
        Some((1, Property::Isotone)),
    ),
    (
        NAMES_AND_HOPS,
        b"node u v w\nlink v w : (C,1)\nlink u v : (R,1)\n",
        ROUTED,
        None,
    ),
    (
        NAMES_AND_HOPS,
        b"node u v\nlink u v : (P,1)\n",
        SETTLED,
        None,
    ),
    // The spokes pass, and the arcs of the ring are preferred to what they are made from.
    (
        BAD_GADGET,
        b"node a b c o\nlink a o : D\nlink b o : D\nlink c o : D\nlink a b : N\nlink b c : N\nlink c a : N\n",
        ROUTED,
        Some((3, Property::Monotone)),
    ),
    (BAD_GADGET, b"node a o\nlink a o : D\n", ROUTED, None),
    // A label that adds nothing keeps each value.
    (
        HOPS,
        b"node a b c\nboth a b : 1\nlink b c : 0\nlink c a : 0\n",
        SETTLED,
        Some((2, Property::Strict)),
    ),
    (
        HOPS,
        b"node a b c\nboth a b : 1\nlink b c : 0\nlink c a : 0\n",
        ROUTED,
        None,
    ),
    (HOPS, b"node a\n", SETTLED, None),
    // N has none of these: the one that is listed first is reported.
    (
        BAD_GADGET,
        b"node a b\nlink a b : N\n",
        &[Property::Isotone, Property::Monotone],
        Some((0, Property::Isotone)),
    ),
    (
        BAD_GADGET,
        b"node a b\nlink a b : N\n",
        &[Property::Total, Property::Monotone],
        Some((0, Property::Total)),
    ),
    (BAD_GADGET, b"node a b\nlink a b : N\n", &[], None),
];

// The arc, and the property that it doesn't have.
fn reported(missing: &Option<Missing>) -> Option<(u32, Property)> {
    missing
        .as_ref()
        .map(|missing| (missing.arc.0, missing.instance.property))
}

fn missing_of(
    alloc: Global,
    expression: &str,
    lines: &[u8],
    properties: &[Property],
) -> Result<Option<Missing>, Fail> {
    let net = network(alloc, expression, lines)?;
    Ok(first_missing(alloc, &net, properties)?)
}

#[test]
fn first_misses_are_found(rt: HostRuntime) -> Result<(), Fail> {
    for (expression, lines, properties, expected) in CASES {
        let missing = missing_of(rt.alloc(), *expression, *lines, *properties)?;
        assert_eq!(rt; reported(&missing), *expected, "{expression}");
    }
    Ok(())
}

// The instance is of the arc's own label.
#[test]
fn instances_are_of_the_arc(rt: HostRuntime) -> Result<(), Fail> {
    let lines: &[u8] = b"node a b c\nlink a b : 7\nlink b c : 0\n";
    let missing = missing_of(rt.alloc(), HOPS, lines, SETTLED)?.ok_or("no lack")?;
    assert_eq!(rt; missing.arc, ArcId(1));
    assert!(rt; matches!(&missing.instance.label, Label::Number(0)));
    assert!(rt; missing.instance.second.is_none());
    Ok(())
}

// The lines of 8,192 arcs, all but the last of which have a strict label.
fn many_arcs(alloc: Global) -> Result<Vec<u8>, Fail> {
    let mut lines = Vec::new(alloc);
    for node in 0..92 {
        lines.extend_from_slice(format!(in alloc; "node n{node}\n")?.as_bytes())?;
    }
    let mut left = 8192;
    for tail in 0..92 {
        for head in 0..92 {
            if tail != head && left > 0 {
                left -= 1;
                let number = if left == 0 { 0 } else { 1 };
                let line = format!(in alloc; "link n{tail} n{head} : {number}\n")?;
                lines.extend_from_slice(line.as_bytes())?;
            }
        }
    }
    Ok(lines)
}

#[test]
fn the_last_of_many_arcs_is_found(rt: HostRuntime) -> Result<(), Fail> {
    let lines = many_arcs(rt.alloc())?;
    let missing = missing_of(rt.alloc(), HOPS, &lines, SETTLED)?;
    assert_eq!(rt; reported(&missing), Some((8191, Property::Strict)));
    Ok(())
}
