// Tests of `journal_merge`: which journal a few logs come to.
ghost use Rattle.std.specs.Prelude.{◌≡◌, IfOk};
ghost use Rattle.journal_merge.specs.Merging.{ClocksAscend};

use journal_merge::{Journal, NodeLog};
use meta_base::{ArcId, Delivery, List, NoMemory, NodeId};
use std::alloc::Global;
use std::test::Fail;

fn delivery(clock: u64, arc: u32) -> Delivery
    ensures { (result.clock ≡ clock) × (result.arc.0 ≡ arc) }
{
    Delivery {
        clock,
        arc: ArcId(arc),
    }
}

// A log of one entry.
fn log(alloc: Global, node: u32, clock: u64, arc: u32) -> Result<NodeLog, NoMemory>
    ensures node { IfOk result (λ log. log.node.0 ≡ node) }
    ensures clocks { IfOk result (λ log. ClocksAscend log.entries) }
{
    let mut entries = List::new(alloc);
    entries.push(delivery(clock, arc))?;
    Ok(NodeLog {
        node: NodeId(node),
        entries,
    })
}

#[test]
fn by_clock(rt: HostRuntime) -> Result<(), Fail> {
    let mut logs = List::new(rt.alloc());
    logs.push(log(rt.alloc(), 0, 2, 1)?)?;
    logs.push(log(rt.alloc(), 1, 1, 0)?)?;
    let journal = Journal::from_logs(rt.alloc(), logs.as_slice())?;
    let deliveries = journal.entries(rt.alloc())?;
    assert_eq!(rt; journal.len(), 2);
    assert_eq!(rt;
        deliveries.as_slice(),
        [delivery(1, 0), delivery(2, 1)].as_slice()
    );
    Ok(())
}

#[test]
fn equal_clocks_by_node(rt: HostRuntime) -> Result<(), Fail> {
    let mut logs = List::new(rt.alloc());
    logs.push(log(rt.alloc(), 1, 3, 0)?)?;
    logs.push(log(rt.alloc(), 0, 3, 1)?)?;
    let journal = Journal::from_logs(rt.alloc(), logs.as_slice())?;
    let deliveries = journal.entries(rt.alloc())?;
    assert_eq!(rt; journal.len(), 2);
    assert_eq!(rt;
        deliveries.as_slice(),
        [delivery(3, 1), delivery(3, 0)].as_slice()
    );
    Ok(())
}

#[test]
fn no_logs(rt: HostRuntime) -> Result<(), Fail> {
    let none = Journal::from_logs(rt.alloc(), &[])?;
    assert!(rt; none.entries(rt.alloc())?.as_slice().is_empty());
    let empty = Journal::new(rt.alloc());
    assert!(rt; empty.entries(rt.alloc())?.as_slice().is_empty());
    assert_eq!(rt; (none.len(), empty.len()), (0, 0));
    Ok(())
}
