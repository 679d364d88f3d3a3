ghost use Rattle.std.specs.Prelude.{◌≡◌, [], length, map, IfOk};
ghost use Rattle.std.specs.List.{AllByRecursion};
ghost use Rattle.journal_merge.specs.Merging.{AreOfDifferentNodes, ClocksAscend, IsJournalOf, IsMerged, NodesAscend};
ghost use Rattle.journal_merge.specs.Timing.{tagged_of};

use crate::gathering::entries_of_logs;
use crate::merging::in_order;
use crate::{NodeDelivery, NodeLog};
use meta_base::{Delivery, List, NoMemory};
use std::alloc::Global;
use std::marker::Model;

/// The deliveries of all nodes, in whatever order they were logged. They are brought into one order where they are asked
/// for, and not before. Contracts see the list of them in that order: by clock, and where clocks are equal by node.
#[derive(Debug, Drop)]
pub struct Journal {
    entries: Vec<NodeDelivery>,
}

impl Model for Journal {
    ghost use Rattle.std.specs.Prelude.{List, map};
    ghost use Rattle.meta_base.specs.declared.ids.Delivery.{Delivery};
    ghost use Rattle.journal_merge.specs.Merged.{journal_of};
    ghost use Rattle.journal_merge.specs.Merging.{NodesAscend};
    ghost use Rattle.journal_merge.specs.Timing.{tagged_of};

    ghost Value = { List Delivery };

    ghost view = { λ s. journal_of (map tagged_of s.entries.items) };

    ghost invariant = { λ s. NodesAscend (map tagged_of s.entries.items) };
}

impl Journal {
    /// The journal of no deliveries.
    pub fn new(alloc: Global) -> Journal
        ensures { result ≡ [] }
    {
        Journal {
            entries: Vec::new(alloc),
        }
    }

    /// The journal of these deliveries, each with its node; the clocks of each node must ascend. It takes no memory.
    pub fn from_entries(entries: Vec<NodeDelivery>) -> Journal
        requires { NodesAscend (map tagged_of entries.items) }
        ensures { IsJournalOf (map tagged_of entries.items) result }
    {
        Journal { entries }
    }

    /// The journal that these logs come to. They must be of different nodes, and the clocks of each must ascend. It is
    /// refused for want of memory alone.
    pub fn from_logs(alloc: Global, logs: &[NodeLog]) -> Result<Journal, NoMemory>
        requires nodes { AreOfDifferentNodes logs.now }
        requires clocks { AllByRecursion (λ log. ClocksAscend log.entries) logs.now }
        ensures { IfOk result (λ journal. IsMerged logs.now journal) }
    {
        let entries = entries_of_logs(alloc, logs)?;
        Ok(Journal { entries })
    }

    /// How many deliveries it has.
    pub fn len(&self) -> usize
        ensures { result ≡ length self.now }
    {
        self.entries.as_slice().len()
    }

    /// All deliveries in order. The time is that of a sort. It is refused for want of memory alone.
    pub fn entries(&self, alloc: Global) -> Result<List<Delivery>, NoMemory>
        ensures { IfOk result (λ entries. entries ≡ self.now) }
    {
        in_order(alloc, self.entries.as_slice())
    }
}
