// The entries of logs that nodes kept each by itself.
ghost use Rattle.std.specs.Prelude.{◌≡◌, ◌++◌, map, IfOk, OnOk};
ghost use Rattle.journal_merge.specs.Merging.{tagged_entries, tagged_with};
ghost use Rattle.journal_merge.specs.Timing.{tagged_of};

use crate::{NodeDelivery, NodeLog};
use meta_base::NoMemory;
use std::alloc::Global;

// Each entry with its log's node, log after log. There is room for all at once.
pub(crate) fn entries_of_logs(
    alloc: Global,
    logs: &[NodeLog],
) -> Result<Vec<NodeDelivery>, NoMemory>
    ensures { IfOk result (λ all. map tagged_of all.items ≡ tagged_entries logs.now) }
{
    let mut all = Vec::with_capacity(alloc, entry_count(logs))?;
    for log in logs {
        push_log(&mut all, log)?;
    }
    Ok(all)
}

fn push_log(all: &mut Vec<NodeDelivery>, log: &NodeLog) -> Result<(), NoMemory>
    ensures { OnOk result (map tagged_of all.new.items ≡
        map tagged_of all.old.items ++ tagged_with log.now.node.0 log.now.entries) }
{
    for entry in log.entries.as_slice() {
        all.push(NodeDelivery::new(log.node, *entry))?;
    }
    Ok(())
}

// How many entries the logs have.
fn entry_count(logs: &[NodeLog]) -> usize {
    let mut count = 0usize;
    for log in logs {
        count = count.saturating_add(log.entries.as_slice().len());
    }
    count
}
