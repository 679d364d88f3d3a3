// Tests of `link_state`: that the tables of all destinations are found, the same by any number of workers.
use alg_model::{Amount, TreeAlgebra, Value};
use link_state::{MAX_WORKERS, all_tables};
use meta_base::{List, NodeId};
use net_graph::{DestTable, Net, RouteRow};
use std::alloc::{AllocGlobal, Global};
use std::test::Fail;
use std::thread::Threads;
use testkit_readers::network;

// The tables of the network, found by so many workers.
fn tables_by<R: AllocGlobal + Threads + Sync>(
    rt: &R,
    net: &Net,
    workers: u32,
) -> Result<List<DestTable>, Fail> {
    if workers == 0 || workers > MAX_WORKERS {
        return Err("there are 1 to 16 workers".into());
    }
    Ok(all_tables(rt, &TreeAlgebra::new(net.alg()), net, workers)?)
}

// The value of a route, and the numbers of the nodes of its path.
type Found = (Amount, &'static [u32]);

fn is_path(path: &[NodeId], nodes: &[u32]) -> bool {
    path.len() == nodes.len()
        && path
            .iter()
            .zip(nodes)
            .all(|(node, number)| node.0 == *number)
}

fn is_row(row: &RouteRow, found: Found) -> bool {
    let (value, nodes) = found;
    match &row.route {
        Some(route) => {
            matches!(&route.value, Value::Number(number) if *number == value)
                && is_path(route.path.as_slice(), nodes)
        }
        None => false,
    }
}

fn is_table(table: &DestTable, dest: usize, rows: &[Found]) -> bool {
    for (row, found) in table.rows.as_slice().iter().zip(rows) {
        if !is_row(row, *found) {
            return false;
        }
    }
    table.dest.0 as usize == dest && table.rows.as_slice().len() == rows.len()
}

fn are_tables(tables: &[DestTable], expected: &[&[Found]]) -> bool {
    for (dest, table) in tables.iter().enumerate() {
        if dest >= expected.len() || !is_table(table, dest, expected[dest]) {
            return false;
        }
    }
    tables.len() == expected.len()
}

const SQUARE: &[u8] = b"node a b c d\n\
both a b : 1\nboth b d : 1\nboth a c : 2\nboth c d : 0\n\
origin x at d : 0\norigin y at a : 3\norigin z at b : 1\n";

// Two ways from a to x weigh the same, and so do two from d to y.
const SQUARE_TABLES: &[&[Found]] = &[
    &[(2, &[0, 1, 3]), (1, &[1, 3]), (0, &[2, 3]), (0, &[3])],
    &[(3, &[0]), (4, &[1, 0]), (5, &[2, 0]), (5, &[3, 1, 0])],
    &[(2, &[0, 1]), (1, &[1]), (2, &[2, 3, 1]), (2, &[3, 1])],
];

// Lists of tables, each of which differs from these in one thing: a value, a path, the count of rows, the order of the
// destinations, and the count of tables.
const OTHER_TABLES: &[&[&[Found]]] = &[
    &[
        &[(2, &[0, 1, 3]), (1, &[1, 3]), (1, &[2, 3]), (0, &[3])],
        &[(3, &[0]), (4, &[1, 0]), (5, &[2, 0]), (5, &[3, 1, 0])],
        &[(2, &[0, 1]), (1, &[1]), (2, &[2, 3, 1]), (2, &[3, 1])],
    ],
    &[
        &[(2, &[0, 2, 3]), (1, &[1, 3]), (0, &[2, 3]), (0, &[3])],
        &[(3, &[0]), (4, &[1, 0]), (5, &[2, 0]), (5, &[3, 1, 0])],
        &[(2, &[0, 1]), (1, &[1]), (2, &[2, 3, 1]), (2, &[3, 1])],
    ],
    &[
        &[(2, &[0, 1, 3]), (1, &[1, 3]), (0, &[2, 3])],
        &[(3, &[0]), (4, &[1, 0]), (5, &[2, 0]), (5, &[3, 1, 0])],
        &[(2, &[0, 1]), (1, &[1]), (2, &[2, 3, 1]), (2, &[3, 1])],
    ],
    &[
        &[(2, &[0, 1, 3]), (1, &[1, 3]), (0, &[2, 3]), (0, &[3])],
        &[(2, &[0, 1]), (1, &[1]), (2, &[2, 3, 1]), (2, &[3, 1])],
        &[(3, &[0]), (4, &[1, 0]), (5, &[2, 0]), (5, &[3, 1, 0])],
    ],
    &[
        &[(2, &[0, 1, 3]), (1, &[1, 3]), (0, &[2, 3]), (0, &[3])],
        &[(3, &[0]), (4, &[1, 0]), (5, &[2, 0]), (5, &[3, 1, 0])],
    ],
];

// Whether so many workers find those tables.
fn find_tables<R: AllocGlobal + Threads + Sync>(
    rt: &R,
    net: &Net,
    workers: u32,
    expected: &[&[Found]],
) -> Result<bool, Fail> {
    let tables = tables_by(rt, net, workers)?;
    Ok(are_tables(tables.as_slice(), expected))
}

// The same on the square, which is dropped at one exit alone: what a network owns makes each exit dear to prove.
fn find_on_square<R: AllocGlobal + Threads + Sync>(
    rt: &R,
    workers: u32,
    expected: &[&[Found]],
) -> Result<bool, Fail> {
    let net = network(rt.alloc(), "add(0..9)", SQUARE)?;
    let found = find_tables(rt, &net, workers, expected);
    drop(net);
    found
}

#[test]
fn workers_find_the_same_tables(rt: HostRuntime) -> Result<(), Fail> {
    for workers in [1, 2, 3, 16] {
        assert!(rt;
            find_on_square(&rt, workers, SQUARE_TABLES)?,
            "by {workers} workers"
        );
    }
    Ok(())
}

#[test]
fn other_tables_are_reported_apart(rt: HostRuntime) -> Result<(), Fail> {
    for expected in OTHER_TABLES {
        assert!(rt; !find_on_square(&rt, 1, *expected)?);
    }
    Ok(())
}

// One node, and so many destinations there, each with its number for its value.
fn many_dests(alloc: Global, count: usize) -> Result<Net, Fail> {
    let mut text = Vec::from_slice(alloc, b"node a\n")?;
    for dest in 0..count {
        let line = format!(in alloc; "origin d{dest} at a : {dest}\n")?;
        text.extend_from_slice(line.as_bytes())?;
    }
    network(alloc, "add(0..9)", &text)
}

// Whether these are the tables of the first destinations, in order, each with its number for its value.
fn are_in_order(tables: &[DestTable]) -> bool {
    for (dest, table) in tables.iter().enumerate() {
        if !is_table(table, dest, &[(dest as Amount, &[0])]) {
            return false;
        }
    }
    true
}

// Whether so many workers find as many tables of the network as expected, in order.
fn find_so_many<R: AllocGlobal + Threads + Sync>(
    rt: &R,
    net: &Net,
    workers: u32,
    expected: usize,
) -> Result<bool, Fail> {
    let tables = tables_by(rt, net, workers)?;
    let tables = tables.as_slice();
    Ok(tables.len() == expected && are_in_order(tables))
}

// The same on a network of so many destinations.
fn find_in_order<R: AllocGlobal + Threads + Sync>(
    rt: &R,
    dests: usize,
    workers: u32,
    expected: usize,
) -> Result<bool, Fail> {
    let net = many_dests(rt.alloc(), dests)?;
    let found = find_so_many(rt, &net, workers, expected);
    drop(net);
    found
}

#[test]
fn tables_come_in_order(rt: HostRuntime) -> Result<(), Fail> {
    for (dests, workers) in [(0, 3), (1, 16), (17, 16), (64, 5), (64, 16)] {
        assert!(rt;
            find_in_order(&rt, dests, workers, dests)?,
            "{dests} by {workers} workers"
        );
    }
    assert!(rt; !find_in_order(&rt, 17, 16, 16)?);
    Ok(())
}
