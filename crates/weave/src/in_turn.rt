// Deliveries that one worker makes, one after another.
ghost use Rattle.std.specs.Prelude.{◌≡◌, ◌≤◌, ◌^◌, IfOk};
ghost use Rattle.net_graph.specs.Nets.{IsNet};
ghost use Rattle.node_core.specs.declared.node.TheConstants.{MAX_CLOCK};
ghost use Rattle.node_core.specs.Machine.{Machine};
ghost use Rattle.node_core.specs.Running.{AreUpTo, IsRunning};
ghost use Rattle.weave.specs.Going.{HasGone, IsOver};
ghost use Rattle.woven_laws.specs.Counts.{waiting_on};

use meta_base::{Gate, NoMemory};
use quiet_ledger::Totals;
use woven_laws::{AllNodes, deliveries_count};

/// Has the nodes make deliveries, at most so many in all as there are turns, until nothing is on its way. The totals say
/// how many messages were sent and taken before; the answer, how many at the end. There are at most
/// [`node_core::MAX_CLOCK`] turns, and the nodes came where they are from a machine in which no clock and no stamp was
/// above 0. It is refused for want of memory alone.
pub fn run_in_turn<A: AllNodes, G: Gate>(
    nodes: &mut A,
    totals: Totals,
    turns: u64,
    gate: &G,
) -> Result<Totals, NoMemory>
    requires is_net { IsNet (A.net nodes.old) }
    requires turns { turns ≤ MAX_CLOCK }
    requires begun { (c : Machine A.State A.Note) × IsRunning A.kind (A.net nodes.old) c
        × (waiting_on (A.net nodes.old) c ≤ 2 ^ 20) × AreUpTo A.kind c 0
        × HasGone A.kind (A.net nodes.old) turns c (A.machine nodes.old) (A.log nodes.old) totals }
    ensures net { A.net nodes.new ≡ A.net nodes.old }
    ensures gone { IfOk result (λ totals'. (c : Machine A.State A.Note) → IsRunning A.kind (A.net nodes.old) c
        → waiting_on (A.net nodes.old) c ≤ 2 ^ 20 → AreUpTo A.kind c 0
        → HasGone A.kind (A.net nodes.old) turns c (A.machine nodes.old) (A.log nodes.old) totals
        → HasGone A.kind (A.net nodes.old) turns c (A.machine nodes.new) (A.log nodes.new) totals') }
    ensures over { IfOk result (λ totals'. IsOver turns totals') }
{
    deliveries_count::<A>();
    let mut totals = totals;
    while totals.sent != totals.taken && totals.taken != turns {
        totals.sent += nodes.deliver(gate)?;
        totals.taken += 1;
    }
    Ok(totals)
}
