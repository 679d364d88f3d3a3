// Networks that look drawn at random, and are the same each time.
ghost use Rattle.std.specs.Prelude.{◌<◌, ◌≡◌, length};

use std::alloc::Global;
use std::test::Fail;

// Numbers, each from the one before (a linear congruential generator).
#[derive(Drop)]
pub(crate) struct Draws {
    last: u64,
}

impl Draws {
    pub(crate) fn new() -> Draws {
        Draws { last: 1 }
    }

    // A number below the bound.
    pub(crate) fn below(&mut self, bound: u32) -> u32
        requires { 0 < bound }
        ensures { result < bound }
    {
        self.last = self
            .last
            .wrapping_mul(6_364_136_223_846_793_005)
            .wrapping_add(1_442_695_040_888_963_407);
        ((self.last >> 33) % u64::from(bound)) as u32
    }

    // One of the words; none where there are none.
    fn word(&mut self, words: &[&'static str]) -> &'static str {
        if words.is_empty() || words.len() > 100 {
            return "";
        }
        words[self.below(words.len() as u32) as usize]
    }
}

// An algebra, with what networks over it are drawn from.
pub(crate) struct Kind {
    pub(crate) expression: &'static str,
    // Labels of arcs to the first node, and of other arcs.
    homeward: &'static [&'static str],
    labels: &'static [&'static str],
    values: &'static [&'static str],
    // Values are at so many of the first nodes, and one arc of each node leads to one of those, if that is earlier.
    homes: u32,
}

const DIGITS: &[&str] = &["0", "1", "2", "3", "4", "5", "6", "7", "8", "9"];

const RELATIONS: &[&str] = &["(C,1)", "(R,1)", "(P,1)"];

pub(crate) const KINDS: &[Kind] = &[
    Kind {
        expression: "add(0..9)",
        homeward: DIGITS,
        labels: DIGITS,
        values: DIGITS,
        homes: 12,
    },
    // Customers, peers and providers, and then hops.
    Kind {
        expression: "lex(table { c < r < p; C: c -> c; R: c -> r; P: c -> p, r -> p, p -> p }, add(1..1))",
        homeward: RELATIONS,
        labels: RELATIONS,
        values: &["(c,0)"],
        homes: 12,
    },
    // Each node likes the ways by its neighbours best, if those have their own: some networks have no stable table.
    Kind {
        expression: "table { o < a < d; D: o -> d; N: d -> a }",
        homeward: &["D"],
        labels: &["N"],
        values: &["o"],
        homes: 1,
    },
];

// The lines of the arcs of a node: at most three, each to another node.
fn push_arcs(
    alloc: Global,
    lines: &mut String,
    draws: &mut Draws,
    kind: &Kind,
    nodes: u32,
    tail: u32,
) -> Result<(), Fail>
    requires { 0 < nodes }
{
    let mut ends = Vec::new(alloc);
    ends.push(tail)?;
    for place in 0..draws.below(4) {
        let reach = if place == 0 {
            kind.homes.min(tail).max(1)
        } else {
            nodes
        };
        let head = draws.below(reach);
        if ends.contains(&head) {
            continue;
        }
        ends.push(head)?;
        let label = draws.word(if head == 0 {
            kind.homeward
        } else {
            kind.labels
        });
        lines.push_str(format!(in alloc; "link n{tail} n{head} : {label}\n")?.as_str())?;
    }
    Ok(())
}

// The lines of the origins of a destination: one or two.
fn push_origins(
    alloc: Global,
    lines: &mut String,
    draws: &mut Draws,
    kind: &Kind,
    nodes: u32,
    dest: u32,
) -> Result<(), Fail>
    requires { 0 < nodes }
{
    let homes = kind.homes.min(nodes).max(1);
    let first = draws.below(homes);
    let second = draws.below(homes);
    let value = draws.word(kind.values);
    lines.push_str(format!(in alloc; "origin x{dest} at n{first} : {value}\n")?.as_str())?;
    if second != first {
        let value = draws.word(kind.values);
        lines.push_str(format!(in alloc; "origin x{dest} at n{second} : {value}\n")?.as_str())?;
    }
    Ok(())
}

// The lines of a network of so many nodes, with at most three arcs from each and 1 to 3 destinations.
fn lines_of(alloc: Global, draws: &mut Draws, kind: &Kind, nodes: u32) -> Result<String, Fail>
    requires { 0 < nodes }
{
    let mut lines = String::new(alloc);
    for node in 0..nodes {
        lines.push_str(format!(in alloc; "node n{node}\n")?.as_str())?;
    }
    for tail in 0..nodes {
        push_arcs(alloc, &mut lines, draws, kind, nodes, tail)?;
    }
    for dest in 0..1 + draws.below(3) {
        push_origins(alloc, &mut lines, draws, kind, nodes, dest)?;
    }
    Ok(lines)
}

// The lines of a network of 2 to 12 nodes.
pub(crate) fn network_lines(alloc: Global, draws: &mut Draws, kind: &Kind) -> Result<String, Fail> {
    let nodes = 2 + draws.below(11);
    lines_of(alloc, draws, kind, nodes)
}

// The lines of a network of 2 to 12 nodes, and of 1 to 4 arcs that get a label each. Some of these arcs are there, and
// some are taken out then.
pub(crate) fn script_lines(alloc: Global, draws: &mut Draws, kind: &Kind) -> Result<String, Fail> {
    let nodes = 2 + draws.below(11);
    let mut lines = lines_of(alloc, draws, kind, nodes)?;
    for _ in 0..1 + draws.below(4) {
        let tail = 1 + draws.below(nodes - 1);
        let head = draws.below(tail);
        let label = draws.word(if head == 0 {
            kind.homeward
        } else {
            kind.labels
        });
        lines.push_str(format!(in alloc; "then link n{tail} n{head} : {label}\n")?.as_str())?;
        if draws.below(2) == 0 {
            lines.push_str(format!(in alloc; "then drop n{tail} n{head}\n")?.as_str())?;
        }
    }
    Ok(lines)
}
