// Tests of the readers of texts by which the other tests tell values, routes and rows: each says no where one thing
// differs.
use alg_model::{Amount, Value};
use meta_base::{DestId, List, NoMemory, NodeId};
use net_graph::{Net, Route, RouteRow};
use std::alloc::Global;
use std::test::Fail;
use testkit_nodes::{
    NOTHING, are_rows, dest_of, is_route, is_value, node_of, path_of, route_of, table_of,
};
use testkit_readers::network;

const HOPS: &str = "add(1..9)";

// c has values for two destinations.
const LINE: &[u8] =
    b"node a b c\nlink a b : 1\nlink b c : 1\norigin x at c : 0\norigin y at c : 5\n";

const LINE_NODES: usize = 3;

// The value of a route and the numbers of its nodes, or none.
type Reported = Option<(Amount, &'static [u32])>;

// Rows of that network, by destination, then node.
const ROWS: &[Reported] = &[
    None,
    Some((1, &[1, 2])),
    Some((0, &[2])),
    None,
    None,
    Some((5, &[2])),
];

fn route_reported(alloc: Global, reported: Reported) -> Result<Option<Route>, NoMemory> {
    let Some((value, numbers)) = reported else {
        return Ok(None);
    };
    let mut path = List::new(alloc);
    for number in numbers {
        path.push(NodeId(*number))?;
    }
    Ok(Some(Route {
        value: Value::Number(value),
        path,
    }))
}

// The rows, with those at two places swapped.
fn rows_reported(alloc: Global, swapped: (usize, usize)) -> Result<Vec<RouteRow>, NoMemory> {
    let mut rows = Vec::new(alloc);
    for (place, reported) in ROWS.iter().enumerate() {
        rows.push(RouteRow {
            node: NodeId((place % LINE_NODES) as u32),
            dest: DestId((place / LINE_NODES) as u32),
            route: route_reported(alloc, *reported)?,
        })?;
    }
    if swapped.0 < rows.len() && swapped.1 < rows.len() {
        rows.swap(swapped.0, swapped.1);
    }
    Ok(rows)
}

// Two places whose rows are swapped, a text, and whether it tells the rows.
const ROW_TEXTS: &[((usize, usize), &str, bool)] = &[
    ((0, 0), "none / 1 b c / 0 c / none / none / 5 c", true),
    // Another value, and another path.
    ((0, 0), "none / 2 b c / 0 c / none / none / 5 c", false),
    ((0, 0), "none / 1 b a / 0 c / none / none / 5 c", false),
    ((0, 0), "none / 1 b / 0 c / none / none / 5 c", false),
    ((0, 0), "none / 1 b c a / 0 c / none / none / 5 c", false),
    // A route too many, and one too few.
    ((0, 0), "2 a b c / 1 b c / 0 c / none / none / 5 c", false),
    ((0, 0), "none / none / 0 c / none / none / 5 c", false),
    // A missing row, at the end and within, and an extra one.
    ((0, 0), "none / 1 b c / 0 c / none / none", false),
    ((0, 0), "none / 1 b c / 0 c / none / 5 c", false),
    ((0, 0), "none", false),
    (
        (0, 0),
        "none / 1 b c / 0 c / none / none / 5 c / none",
        false,
    ),
    // Rows in another order, in the text or in what is reported.
    ((0, 0), "1 b c / none / 0 c / none / none / 5 c", false),
    ((1, 2), "none / 1 b c / 0 c / none / none / 5 c", false),
    ((1, 2), "none / 0 c / 1 b c / none / none / 5 c", false),
    ((3, 4), "none / 1 b c / 0 c / none / none / 5 c", false),
    ((0, 3), "none / 1 b c / 0 c / none / none / 5 c", false),
];

// Whether the text tells the rows, with those at the places swapped.
fn reports_rows(alloc: Global, swapped: (usize, usize), text: &str) -> Result<bool, Fail> {
    let rows = rows_reported(alloc, swapped)?;
    let net = network(alloc, HOPS, LINE)?;
    let answer = are_rows(alloc, &net, &rows, text);
    drop(net);
    drop(rows);
    answer
}

#[test]
fn other_rows_are_reported_apart(rt: HostRuntime) -> Result<(), Fail> {
    for (swapped, text, expected) in ROW_TEXTS {
        let answer = reports_rows(rt.alloc(), *swapped, *text)?;
        assert_eq!(rt; answer, *expected, "{text} with {swapped:?}");
    }
    Ok(())
}

// The rows of a table, and what else is no table of theirs.
const TABLE: &str = "none / 1 b c / 0 c";

const TABLE_TEXTS: &[(&str, bool)] = &[
    (TABLE, true),
    ("none / 1 b a / 0 c", false),
    ("none / 2 b c / 0 c", false),
    ("none / 1 b c", false),
    ("none / 1 b c / 0 c / none", false),
    ("1 b c / none / 0 c", false),
];

// Whether the table of the text is one of the first destination, with the rows of `TABLE`.
fn is_table(alloc: Global, text: &str) -> Result<bool, Fail> {
    let net = network(alloc, HOPS, LINE)?;
    let table = table_of(alloc, &net, text)?;
    let answer = are_rows(alloc, &net, table.rows.as_slice(), TABLE);
    let dest = table.dest;
    drop(table);
    drop(net);
    Ok(answer? && dest.0 == 0)
}

#[test]
fn other_tables_are_reported_apart(rt: HostRuntime) -> Result<(), Fail> {
    for (text, expected) in TABLE_TEXTS {
        assert_eq!(rt; is_table(rt.alloc(), *text)?, *expected, "{text}");
    }
    Ok(())
}

const ROUTE: Reported = Some((1, &[1, 2]));

// A route, a text, and whether it tells the route.
const ROUTE_TEXTS: &[(Reported, &str, bool)] = &[
    (ROUTE, "1 b c", true),
    (ROUTE, "2 b c", false),
    (ROUTE, "1 c b", false),
    (ROUTE, "1 b", false),
    (ROUTE, "1 -", false),
    (ROUTE, "none", false),
    (None, "none", true),
    (None, "1 b c", false),
];

fn reports_route(alloc: Global, reported: Reported, text: &str) -> Result<bool, Fail> {
    let route = route_reported(alloc, reported)?;
    let net = network(alloc, HOPS, LINE)?;
    let answer = is_route(alloc, &net, route.as_ref(), text);
    drop(net);
    drop(route);
    answer
}

#[test]
fn other_routes_are_reported_apart(rt: HostRuntime) -> Result<(), Fail> {
    for (reported, text, expected) in ROUTE_TEXTS {
        let answer = reports_route(rt.alloc(), *reported, *text)?;
        assert_eq!(rt; answer, *expected, "{text}");
    }
    Ok(())
}

// An expression, the text of a value or `none`, another text, and whether that spells the value.
const VALUES: &[(&str, &str, &str, bool)] = &[
    (HOPS, "5", "5", true),
    (HOPS, "5", "6", false),
    (HOPS, "5", "none", false),
    (HOPS, "none", "none", true),
    (HOPS, "none", "5", false),
    ("tags(2)", "{0}", "{0}", true),
    ("tags(2)", "{0}", "{1}", false),
    ("tags(2)", "{0}", "{0,1}", false),
];

// Whether the other text spells the value of the first, over a network without nodes.
fn spells(alloc: Global, expression: &str, value: &str, other: &str) -> Result<bool, Fail> {
    let net = network(alloc, expression, b"")?;
    let answer = spells_on(alloc, &net, value, other);
    drop(net);
    answer
}

fn spells_on(alloc: Global, net: &Net, value: &str, other: &str) -> Result<bool, Fail> {
    if value == "none" {
        return is_value(alloc, net, None, other);
    }
    let row = format!(in alloc; "{value} {NOTHING}")?;
    let route = route_of(alloc, net, row.as_str())?.ok_or("no route")?;
    is_value(alloc, net, Some(&route.value), other)
}

#[test]
fn other_values_are_reported_apart(rt: HostRuntime) -> Result<(), Fail> {
    for (expression, value, other, expected) in VALUES {
        let answer = spells(rt.alloc(), *expression, *value, *other)?;
        assert_eq!(rt; answer, *expected, "{other} for {value}");
    }
    Ok(())
}

// Words with the numbers of the destinations that they name, and of nodes. A number that is no name stands for itself.
const DESTS: &[(&str, u32)] = &[("x", 0), ("y", 1), ("7", 7)];

const NODES: &[(&str, u32)] = &[("a", 0), ("c", 2), ("7", 7)];

fn dest_named(alloc: Global, word: &str) -> Result<u32, Fail> {
    let net = network(alloc, HOPS, LINE)?;
    let dest = dest_of(&net, word);
    drop(net);
    Ok(dest?.0)
}

fn node_named(alloc: Global, word: &str) -> Result<u32, Fail> {
    let net = network(alloc, HOPS, LINE)?;
    let node = node_of(&net, word);
    drop(net);
    Ok(node?.0)
}

#[test]
fn words_name_numbers(rt: HostRuntime) -> Result<(), Fail> {
    for (word, dest) in DESTS {
        assert_eq!(rt; dest_named(rt.alloc(), *word)?, *dest, "{word}");
    }
    for (word, node) in NODES {
        assert_eq!(rt; node_named(rt.alloc(), *word)?, *node, "{word}");
    }
    Ok(())
}

// A name of a destination is none of a node.
#[test]
#[should_panic(expected = "refused")]
fn words_that_name_no_node_are_refused(rt: HostRuntime) {
    match node_named(rt.alloc(), "x") {
        Ok(_) => {}
        Err(_refusal) => panic!(rt; "refused"),
    }
}

// The words of a path, and the numbers of its nodes.
const PATHS: &[(&str, &[u32])] = &[
    ("a c", &[0, 2]),
    ("c a", &[2, 0]),
    ("b 5 b", &[1, 5, 1]),
    ("-", &[]),
];

fn is_path(alloc: Global, words: &str, numbers: &[u32]) -> Result<bool, Fail> {
    let net = network(alloc, HOPS, LINE)?;
    let path = path_of(alloc, &net, words);
    drop(net);
    Ok(
        path?
            .as_slice()
            .iter()
            .map(|node| node.0)
            .eq(numbers.iter().copied()),
    )
}

#[test]
fn paths_are_of_nodes(rt: HostRuntime) -> Result<(), Fail> {
    for (words, numbers) in PATHS {
        assert!(rt; is_path(rt.alloc(), *words, *numbers)?, "{words}");
    }
    assert!(rt; !is_path(rt.alloc(), "a c", &[2, 0])?);
    assert!(rt; !is_path(rt.alloc(), "a c", &[0])?);
    Ok(())
}
