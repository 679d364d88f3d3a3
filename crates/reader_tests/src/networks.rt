// Tests of `net_graph` and `topology_file`: what a network holds once it is read, and what threads may
// share of it.
ghost use Rattle.std.specs.Prelude.{map};
ghost use Rattle.net_graph.specs.Changes.{AreChanges};
ghost use Rattle.net_graph.specs.Views.{pure_change};

use alg_model::{Label, Value};
use meta_base::{ArcId, DestId, List, MAX_FILE_BYTES, NoMemory, NodeId};
use net_graph::{Change, DestTable, LabelMarks, Net, NetDraft, Route};
use sig_text::LitFault::{BadText, NotALabel};
use std::alloc::Global;
use std::test::Fail;
use testkit_readers::{algebra, algebra_of_file, network};
use topology_file::NetKind::*;
use topology_file::{NetError, NetFault, NetKind, What, read_net};

// What threads share, and what they send.
fn is_shared<T: Send + Sync>(_shared: &T) {}

fn is_sent<T: Send>(_sent: &T) {}

fn keeps_names(net: &Net) -> bool {
    net.node_named(b"b") == Some(NodeId(1))
        && net.dest_named(b"d") == Some(DestId(0))
        && net.node_count() == 2
        && net.node_name(NodeId(1)) == b"b".as_slice()
        && net.dest_count() == 1
        && net.dest_name(DestId(0)) == b"d".as_slice()
}

fn files_arcs(net: &Net) -> bool {
    net.node_count() == 2
        && net.arc_count() == 1
        && net.out_arcs(NodeId(0)).count() == 1
        && net.listeners(NodeId(1)) == [ArcId(0)].as_slice()
        && net.arc(ArcId(0)).head == NodeId(1)
        && net.has_arc(NodeId(0), NodeId(1))
        && !net.has_arc(NodeId(1), NodeId(0))
}

fn files_origins(net: &Net) -> bool {
    net.dest_count() == 1
        && net.origins_of(DestId(0)).len() == 1
        && net.has_origin(DestId(0), NodeId(1))
        && !net.has_origin(DestId(0), NodeId(0))
}

#[test]
fn networks_are_filed(rt: HostRuntime) -> Result<(), Fail> {
    let alloc = rt.alloc();
    is_shared(&NetDraft::new(alloc, algebra(alloc, "gate")?));
    let net = network(
        alloc,
        "add(1..10)",
        b"node a b\nlink a b : 3\norigin d at b : 7\n",
    )?;
    is_shared(&net);
    let is_filed = keeps_names(&net) && files_arcs(&net) && files_origins(&net);
    drop(net);
    assert!(rt; is_filed);
    Ok(())
}

// Whether arcs 0 and 2 have one number, and arc 1 the other of two.
fn are_numbered(alloc: Global, net: &Net) -> bool {
    if net.arc_count() != 3 {
        return false;
    }
    let numbers = net.label_numbers();
    let first = numbers.of(ArcId(0));
    let second = numbers.of(ArcId(1));
    let mut marks = LabelMarks::new(alloc, numbers.count());
    let is_unmarked = !marks.has(first);
    marks.mark(first);
    numbers.count() == 2
        && first == numbers.of(ArcId(2))
        && is_unmarked
        && marks.has(first)
        && !marks.has(second)
}

#[test]
fn equal_labels_have_one_number(rt: HostRuntime) -> Result<(), Fail> {
    let alloc = rt.alloc();
    let net = network(
        alloc,
        "add(1..10)",
        b"node a b c\nlink a b : 3\nlink b c : 4\nlink c a : 3\n",
    )?;
    let is_numbered = are_numbered(alloc, &net);
    drop(net);
    assert!(rt; is_numbered);
    Ok(())
}

#[test]
fn routes_are_copied(rt: HostRuntime) -> Result<(), Fail> {
    let mut path = List::new(rt.alloc());
    path.push(NodeId(4))?;
    let value = Value::Number(7);
    let copied = Route { value, path }.copy(rt.alloc())?;
    let is_copy = matches!(&copied.value, Value::Number(7))
        && copied.path.as_slice() == [NodeId(4)].as_slice();
    drop(copied);
    assert!(rt; is_copy);
    let rows = List::new(rt.alloc());
    let dest = DestId(0);
    is_sent(&DestTable { dest, rows });
    Ok(())
}

// The first fault of a network file over the algebra of an expression file, if it has one.
fn fault_of(alloc: Global, file: &[u8], net: &[u8]) -> Result<Option<NetFault>, Fail> {
    let alg = algebra_of_file(alloc, file)?;
    if net.len() > MAX_FILE_BYTES {
        return Err("the network file is too long".into());
    }
    match read_net(alloc, alg, net) {
        Ok(file) => {
            drop(file);
            Ok(None)
        }
        Err(NetError::Bad(fault)) => Ok(Some(fault)),
        Err(NetError::NoMemory) => Err("out of memory".into()),
    }
}

const ADD: &[u8] = b"main add(1..9);";

const WIDE_ADD: &[u8] = b"raml 2; main add(1..9);";

// Each is the first rule that its line breaks, in the order of the rules.
#[test]
fn bad_lines_are_reported(rt: HostRuntime) -> Result<(), Fail> {
    let cases: &[(u32, NetKind, &[u8])] = &[
        (1, BadLine, b"node"),
        (1, BadLine, b"edge a b"),
        (1, BadLine, b"Node a"),
        (1, BadLine, b"node a\0"),
        (1, BadLine, b"node a\rb"),
        (1, BadLine, b"node a\r\r"),
        (1, BadLine, b"node a\r# b"),
        (1, BadLine, b"node a/b"),
        (1, BadLine, b"node a a b/c"),
        (1, BadLine, b"node abcdefghijklmnopqrstuvwxyz0123456"),
        (1, BadLine, b"link a b"),
        (2, BadLine, b"node a b\nlink a b 1"),
        (2, BadLine, b"node a b\nlink a : 1"),
        (2, BadLine, b"node a b\nlink a b b : 1"),
        (2, BadLine, b"node a\norigin a at a 0"),
        (2, BadLine, b"node a\norigin a on a : 0"),
        (2, BadLine, b"node a\norigin a at : 0"),
        (2, BadLine, b"node a b\nthen drop a b : 1"),
        (2, BadLine, b"node a b\nthen link a b"),
        (2, BadLine, b"node a b\nthen drop a"),
        (3, BadLine, b"node a b\nthen link a b : 1\nnode c/d"),
        (1, UnknownNode, b"link a b : 1"),
        (2, UnknownNode, b"node a b\nlink a c : 1"),
        (2, UnknownNode, b"node a\nlink c c : q"),
        (2, UnknownNode, b"node a\norigin a at b : 0"),
        (2, UnknownNode, b"node a\nthen drop a b"),
        (1, NodeTwice, b"node a a"),
        (1, NodeTwice, b"node a b a"),
        (2, NodeTwice, b"node a\nnode b a"),
        (2, SelfArc, b"node a\nlink a a : q"),
        (2, SelfArc, b"node a\nboth a a : 1"),
        (2, SelfArc, b"node a\nthen drop a a"),
        (4, ArcTwice, b"node a b\nlink a b : 1\n\nlink a b : q"),
        (3, ArcTwice, b"node a b\nboth a b : 1\nlink b a : 2"),
        (3, ArcTwice, b"node a b\nlink b a : 1\nboth a b : 2"),
        (2, BadLabel(BadText), b"node a b\nlink a b :"),
        (2, BadLabel(BadText), b"node a b\nlink a b : \t "),
        (2, BadLabel(BadText), b"node a b\nlink a b : 1 2"),
        (2, BadLabel(BadText), b"node a b\nlink a b : +1"),
        (2, BadLabel(NotALabel), b"node a b\nlink a b : 0"),
        (2, BadLabel(NotALabel), b"node a b\nboth a b : 10"),
        (2, BadLabel(NotALabel), b"node a b\nthen link a b : 10"),
        (2, BadValue(BadText), b"node a\norigin a at a : q"),
        (2, BadValue(BadText), b"node a\norigin a at a : \t"),
        (2, BadValue(BadText), b"node a\norigin a at a : 4294967296"),
        (
            3,
            OriginTwice,
            b"node a\norigin a at a : 0\norigin a at a : q",
        ),
        (3, AfterThen, b"node a b\nthen link a b : 1\nnode c"),
        (3, AfterThen, b"node a b\nthen link a b : 1\nnode a"),
        (3, AfterThen, b"node a b\nthen link a b : 1\nlink c c : q"),
        (3, AfterThen, b"node a b\nthen link a b : 1\nboth a b : 1"),
        (
            3,
            AfterThen,
            b"node a b\nthen link a b : 1\norigin x at c : 0",
        ),
        (2, NoArc, b"node a b\nthen drop a b"),
        (3, NoArc, b"node a b\nlink b a : 1\nthen drop a b"),
        (
            4,
            NoArc,
            b"node a b\nlink a b : 1\nthen drop a b\nthen drop a b",
        ),
    ];
    for (line, kind, net) in cases {
        let expected = NetFault {
            line: *line,
            kind: *kind,
        };
        assert_eq!(rt; fault_of(rt.alloc(), ADD, *net)?, Some(expected));
    }
    Ok(())
}

#[test]
fn good_lines_are_read(rt: HostRuntime) -> Result<(), Fail> {
    let cases: &[&[u8]] = &[
        b"# node a\r\n\nnode a\tb-1 _.Z # c\r\n \t\nnode c",
        b"node abcdefghijklmnopqrstuvwxyz012345",
        b"node a b\nlink a b : 9\nlink b\ta:\t01 ",
        b"node a\norigin a at a : 4294967295\norigin b at a:0",
        b"node a b c\nboth a b : 1\nboth c a : 2\n",
        b"node a b\nlink a b : 1\nthen link a b : 2\nthen drop a b\nthen link a b : 3",
        b"node a b\nlink a b : 1\nthen link b a : 2\nthen drop b a\n# end",
        b"node a b\r\nlink a b : 1\r\nlink b a : 2 # back\r\n",
        b"node a b\nboth a b : 1# there and back",
        b"node first-12345678 other-12345678\nboth first-12345678 other-12345678 : 1",
    ];
    for net in cases {
        assert_eq!(rt; fault_of(rt.alloc(), ADD, *net)?, None);
    }
    Ok(())
}

// A line of blanks says nothing, unless it has more bytes than a line may have.
#[test]
fn long_lines_are_refused(rt: HostRuntime) -> Result<(), Fail> {
    let alloc = rt.alloc();
    let longest = vec![in alloc; b' '; 4096]?;
    assert_eq!(rt; fault_of(alloc, ADD, &longest)?, None);
    let longer = vec![in alloc; b' '; 4097]?;
    let fault = NetFault {
        line: 1,
        kind: BadLine,
    };
    assert_eq!(rt; fault_of(alloc, ADD, &longer)?, Some(fault));
    Ok(())
}

// So is a line of an arc.
#[test]
fn long_arcs_are_refused(rt: HostRuntime) -> Result<(), Fail> {
    let alloc = rt.alloc();
    assert_eq!(rt; fault_of(alloc, ADD, &arc_of_bytes(alloc, 4096)?)?, None);
    let fault = NetFault {
        line: 2,
        kind: BadLine,
    };
    assert_eq!(rt;
        fault_of(alloc, ADD, &arc_of_bytes(alloc, 4097)?)?,
        Some(fault)
    );
    Ok(())
}

// Two nodes, and an arc on a line of so many bytes.
fn arc_of_bytes(alloc: Global, bytes: usize) -> Result<Vec<u8>, Fail> {
    let nodes = b"node a b\n";
    let mut net = Vec::from_slice(alloc, nodes)?;
    net.extend_from_slice(b"link a b : 1 #")?;
    net.resize(nodes.len().saturating_add(bytes), b'c')?;
    Ok(net)
}

// So many nodes, one on a line.
fn nodes(alloc: Global, count: usize) -> Result<Vec<u8>, Fail> {
    let mut net = Vec::new(alloc);
    for node in 0..count {
        let line = format!(in alloc; "node n{node}\n")?;
        net.extend_from_slice(line.as_bytes())?;
    }
    Ok(net)
}

// So many nodes, and after them so many arcs, a line each.
fn arcs(alloc: Global, nodes_of: usize, count: usize) -> Result<Vec<u8>, Fail> {
    let mut net = nodes(alloc, nodes_of)?;
    let mut left = count;
    for tail in 0..nodes_of {
        for head in 0..nodes_of {
            if tail != head && left > 0 {
                let line = format!(in alloc; "link n{tail} n{head} : 1\n")?;
                net.extend_from_slice(line.as_bytes())?;
                left -= 1;
            }
        }
    }
    Ok(net)
}

// One node, so many destinations, and after them so many changes, a line each.
fn dests(alloc: Global, count: usize) -> Result<Vec<u8>, Fail> {
    let mut net = nodes(alloc, 1)?;
    for dest in 0..count {
        let line = format!(in alloc; "origin d{dest} at n0 : 0\n")?;
        net.extend_from_slice(line.as_bytes())?;
    }
    Ok(net)
}

fn changes(alloc: Global, count: usize) -> Result<Vec<u8>, Fail> {
    let mut net = nodes(alloc, 2)?;
    for _ in 0..count {
        net.extend_from_slice(b"then link n0 n1 : 1\n")?;
    }
    Ok(net)
}

// The first fault of the network file with these lines after it.
fn fault_with(
    alloc: Global,
    file: &[u8],
    net: Vec<u8>,
    lines: &[u8],
) -> Result<Option<NetFault>, Fail> {
    let mut net = net;
    net.extend_from_slice(lines)?;
    let fault = fault_of(alloc, file, &net);
    drop(net);
    fault
}

fn too_many(line: u32, what: What) -> Option<NetFault> {
    Some(NetFault {
        line,
        kind: TooMany(what),
    })
}

#[test]
fn nodes_have_a_limit(rt: HostRuntime) -> Result<(), Fail> {
    let alloc = rt.alloc();
    for (file, most) in [(ADD, 512), (WIDE_ADD, 4096)] {
        let line = most as u32 + 1;
        let full = nodes(alloc, most)?;
        assert_eq!(rt; fault_with(alloc, file, full, b"")?, None);
        let full = nodes(alloc, most)?;
        let fault = fault_with(alloc, file, full, b"node x y\n")?;
        assert_eq!(rt; fault, too_many(line, What::Nodes));
        // A name that stands twice is reported first, also where there is no room for it.
        let full = nodes(alloc, most)?;
        let fault = fault_with(alloc, file, full, b"node x y x\n")?;
        assert_eq!(rt;
            fault,
            Some(NetFault {
                line,
                kind: NodeTwice
            })
        );
    }
    Ok(())
}

#[test]
fn arcs_have_a_limit(rt: HostRuntime) -> Result<(), Fail> {
    let alloc = rt.alloc();
    let cases: &[(usize, &[u8], Option<NetFault>)] = &[
        (8192, b"", None),
        (8192, b"link n91 n0 : 1\n", too_many(8285, What::Arcs)),
        (8191, b"both n90 n91 : 1\n", too_many(8284, What::Arcs)),
        (8190, b"both n90 n91 : 1\n", None),
        (8192, b"then link n91 n0 : 1\n", too_many(8285, What::Arcs)),
        (8192, b"then link n0 n1 : 2\n", None),
        (
            8192,
            b"then drop n0 n1\nthen link n91 n0 : 1\nthen link n0 n1 : 1\n",
            too_many(8287, What::Arcs),
        ),
    ];
    for (count, lines, expected) in cases {
        let net = arcs(alloc, 92, *count)?;
        assert_eq!(rt; fault_with(alloc, ADD, net, *lines)?, *expected);
    }
    Ok(())
}

#[test]
fn destinations_have_a_limit(rt: HostRuntime) -> Result<(), Fail> {
    let alloc = rt.alloc();
    for (file, most) in [(ADD, 64), (WIDE_ADD, 8)] {
        let full = dests(alloc, most)?;
        assert_eq!(rt; fault_with(alloc, file, full, b"")?, None);
        let full = dests(alloc, most)?;
        let fault = fault_with(alloc, file, full, b"origin x at n0 : 0\n")?;
        assert_eq!(rt; fault, too_many(most as u32 + 2, What::Dests));
    }
    Ok(())
}

#[test]
fn changes_have_a_limit(rt: HostRuntime) -> Result<(), Fail> {
    let alloc = rt.alloc();
    for (file, most) in [(ADD, 16), (WIDE_ADD, 4)] {
        let full = changes(alloc, most)?;
        assert_eq!(rt; fault_with(alloc, file, full, b"")?, None);
        let full = changes(alloc, most)?;
        let fault = fault_with(alloc, file, full, b"then drop n0 n1\n")?;
        assert_eq!(rt; fault, too_many(most as u32 + 3, What::Changes));
    }
    Ok(())
}

#[test]
fn destinations_are_numbered(rt: HostRuntime) -> Result<(), Fail> {
    let text = b"node a\norigin x at a : 1\norigin y at a : 1\n";
    let net = network(rt.alloc(), "add(1..1)", text)?;
    let numbers = (net.dest_named(b"x"), net.dest_named(b"y"));
    drop(net);
    assert!(rt; numbers == (Some(DestId(0)), Some(DestId(1))));
    Ok(())
}

// The network after the changes, one after another.
fn after(alloc: Global, net: Net, changes: &[Change]) -> Result<Net, NoMemory>
    requires { AreChanges net (map pure_change changes.now) }
{
    match changes {
        [] => Ok(net),
        [change, rest @ ..] => {
            let changed = net.changed(alloc, change)?;
            drop(net);
            after(alloc, changed, rest)
        }
    }
}

// The tail, the head and the label of an arc.
type Line = (u32, u32, u64);

fn is_arc(net: &Net, id: usize, line: Line) -> bool {
    if id >= net.arc_count() {
        return false;
    }
    let id = ArcId(id as u32);
    let arc = net.arc(id);
    let (tail, head, label) = line;
    arc.id == id
        && arc.tail == NodeId(tail)
        && arc.head == NodeId(head)
        && matches!(arc.label, Label::Number(number) if *number == label)
}

fn are_arcs(net: &Net, lines: &[Line]) -> bool {
    for (id, line) in lines.iter().enumerate() {
        if !is_arc(net, id, *line) {
            return false;
        }
    }
    net.arc_count() == lines.len()
}

// Whether the arcs of the file's network are these, after all its changes.
fn are_arcs_after(alloc: Global, text: &[u8], lines: &[Line]) -> Result<bool, Fail> {
    let alg = algebra(alloc, "add(1..9)")?;
    if text.len() > MAX_FILE_BYTES {
        return Err("the network file is too long".into());
    }
    let file = read_net(alloc, alg, text)?;
    let net = after(alloc, file.net, file.changes.as_slice())?;
    Ok(are_arcs(&net, lines))
}

#[test]
fn changes_are_made(rt: HostRuntime) -> Result<(), Fail> {
    let cases: &[(&[u8], &[Line])] = &[
        (b"", &[(0, 1, 1), (1, 2, 2), (2, 0, 3)]),
        (b"then link b c : 9", &[(0, 1, 1), (1, 2, 9), (2, 0, 3)]),
        (
            b"then link a c : 4",
            &[(0, 1, 1), (1, 2, 2), (2, 0, 3), (0, 2, 4)],
        ),
        (b"then drop a b", &[(1, 2, 2), (2, 0, 3)]),
        (
            b"then drop a b\nthen link a b : 5",
            &[(1, 2, 2), (2, 0, 3), (0, 1, 5)],
        ),
        (
            b"then link c b : 7\nthen drop b c\nthen link c b : 8",
            &[(0, 1, 1), (2, 0, 3), (2, 1, 8)],
        ),
    ];
    for (changes, lines) in cases {
        let mut text = Vec::new(rt.alloc());
        text.extend_from_slice(b"node a b c\nlink a b : 1\nlink b c : 2\nlink c a : 3\n")?;
        text.extend_from_slice(*changes)?;
        assert!(rt; are_arcs_after(rt.alloc(), &text, *lines)?);
    }
    Ok(())
}
