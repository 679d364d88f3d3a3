// Tests of `demo`: summaries of generated networks, worked out from the rule of the generator by hand, and that its
// networks come to rest.
use crate::program::{ended_with, run_on};
use std::ops::Range;
use std::sync::Wait;
use std::test::Fail;
use std::thread::Threads;

#[test]
fn summaries_are_printed(rt: HostRuntime) -> Result<(), Fail> {
    let cases: &[(&str, &str, &[u8])] = &[
        (
            "1",
            "2",
            b"nodes 2 arcs 1\nx0 reached 2 sum 6\nx1 reached 1 sum 0\nquiet\n",
        ),
        (
            "18446744073709551615",
            "2",
            b"nodes 2 arcs 1\nx0 reached 2 sum 5\nx1 reached 1 sum 0\nquiet\n",
        ),
        (
            "5",
            "12",
            b"nodes 12 arcs 13\nx0 reached 12 sum 192\nx1 reached 9 sum 111\nquiet\n",
        ),
        (
            "7",
            "512",
            b"nodes 512 arcs 902\nx0 reached 512 sum 5918\nx1 reached 194 sum 2231\nquiet\n",
        ),
    ];
    for (seed, nodes, text) in cases {
        assert!(rt; ended_with(run_on(&rt, &["demo", seed, nodes], b"", b"")?, *text, 0));
    }
    Ok(())
}

// Whether `demo` with a seed is quiet for each of these counts of nodes.
fn are_quiet(
    rt: &(impl AllocGlobal + Threads + Wait + Sync),
    counts: Range<u32>,
) -> Result<bool, Fail> {
    for count in counts {
        let nodes = format!(in rt.alloc(); "{count}")?;
        let outcome = run_on(rt, &["demo", "1", nodes.as_str()], b"", b"")?;
        if outcome.status != 0 || !outcome.taken.as_slice().ends_with(b"\nquiet\n") {
            return Ok(false);
        }
    }
    Ok(true)
}

// All counts of nodes from 2 to 512, in parts: a build with checks takes half a minute for each.
#[test]
fn smallest_networks_come_to_rest(rt: HostRuntime) -> Result<(), Fail> {
    assert!(rt; are_quiet(&rt, 2..257)?);
    Ok(())
}

#[test]
fn small_networks_come_to_rest(rt: HostRuntime) -> Result<(), Fail> {
    assert!(rt; are_quiet(&rt, 257..363)?);
    Ok(())
}

#[test]
fn large_networks_come_to_rest(rt: HostRuntime) -> Result<(), Fail> {
    assert!(rt; are_quiet(&rt, 363..445)?);
    Ok(())
}

#[test]
fn largest_networks_come_to_rest(rt: HostRuntime) -> Result<(), Fail> {
    assert!(rt; are_quiet(&rt, 445..513)?);
    Ok(())
}
