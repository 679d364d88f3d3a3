ghost use Rattle.std.specs.Prelude.{◌≡◌, ℕ, ◌+◌, ◌<◌, Some, None, IfOk, OnOk};
ghost use Rattle.node_core.specs.declared.node.TheConstants.{MAX_CLOCK};
ghost use Rattle.node_core.specs.Machine.{Deliver, front_clock};
ghost use Rattle.node_core.specs.MachineOf.{machine_of, net_of};
ghost use Rattle.node_core.specs.Running.{AreUpTo, IsRunning};

use meta_base::ArcId;
use node_core::{Config, Delivered, NodeCore};
use std::test::Fail;

/// Makes the delivery on the arc, after so many others: the clock that it gave the listener, or `None` where no
/// message waited, and then nothing has changed. It fails where the network has no such arc, and where the machine took
/// a message that it didn't show before, or took none of those that it showed.
pub fn make_delivery<N: NodeCore>(
    config: &mut Config<'_, N>,
    arc: ArcId,
    made: u64,
) -> Result<Option<u64>, Fail>
    requires running { IsRunning N.kind (net_of config.old) (machine_of N.state N.note config.old) }
    requires begun { AreUpTo N.kind (machine_of N.state N.note config.old) made }
    requires early { made < MAX_CLOCK }
    ensures net { OnOk result (net_of config.new ≡ net_of config.old) }
    ensures running { OnOk result (IsRunning N.kind (net_of config.new) (machine_of N.state N.note config.new)) }
    ensures begun { OnOk result (AreUpTo N.kind (machine_of N.state N.note config.new) (made + 1)) }
    ensures clock { IfOk result (λ clock.
        clock ≡ front_clock N.kind (net_of config.old) (machine_of N.state N.note config.old) arc.0) }
    ensures taken { IfOk result (λ clock. (t : ℕ) → clock ≡ Some t
        → Deliver N.kind (net_of config.old) (machine_of N.state N.note config.old) arc.0
        ≡ Some (machine_of N.state N.note config.new)) }
    ensures empty { IfOk result (λ clock. clock ≡ None
        → machine_of N.state N.note config.new ≡ machine_of N.state N.note config.old) }
{
    if arc.0 as usize >= config.net().arc_count() {
        return Err("there is no such arc".into());
    }
    let clock = config.front_clock(arc);
    let answer = config.deliver(arc)?;
    if (answer == Delivered::Taken) != clock.is_some() {
        return Err("what is shown isn't what is taken".into());
    }
    Ok(clock)
}
