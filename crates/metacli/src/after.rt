// The networks after changes.
ghost use Rattle.std.specs.Prelude.{◌≡◌, ◌∷◌, IfOk, map};
ghost use Rattle.net_graph.specs.Changes.{AreChanges, after_all};
ghost use Rattle.net_graph.specs.Views.{pure_change};
ghost use Rattle.metacli.specs.After.{last_of, nets_after};

use meta_base::NoMemory;
use net_graph::{Change, Net};
use std::alloc::Global;

/// The network after these changes, or `None` where there are none.
pub fn net_after(alloc: Global, net: &Net, changes: &[Change]) -> Result<Option<Net>, NoMemory>
    requires { AreChanges net.now (map pure_change changes.now) }
    ensures { IfOk result (λ after. last_of after net.now ≡ after_all net.now (map pure_change changes.now)) }
{
    match changes {
        [] => Ok(None),
        [change, rest @ ..] => Ok(Some(carried(alloc, net.changed(alloc, change)?, rest)?)),
    }
}

// The network after these changes, one of which is made at a time, so that no more than two networks are there.
fn carried(alloc: Global, net: Net, changes: &[Change]) -> Result<Net, NoMemory>
    requires { AreChanges net (map pure_change changes.now) }
    ensures { IfOk result (λ last. last ≡ after_all net (map pure_change changes.now)) }
{
    match changes {
        [] => Ok(net),
        [change, rest @ ..] => {
            let next = net.changed(alloc, change);
            drop(net);
            carried(alloc, next?, rest)
        }
    }
}

/// The networks after the first of these changes, the first two, and so on.
pub fn networks_after(alloc: Global, net: &Net, changes: &[Change]) -> Result<Vec<Net>, NoMemory>
    requires { AreChanges net.now (map pure_change changes.now) }
    ensures { IfOk result (λ nets. nets.items ≡ nets_after net.now (map pure_change changes.now)) }
{
    match changes {
        [] => Ok(Vec::new(alloc)),
        [change, rest @ ..] => {
            let next = net.changed(alloc, change)?;
            match networks_after(alloc, &next, rest) {
                Ok(nets) => led_by(next, nets),
                Err(NoMemory) => {
                    drop(next);
                    Err(NoMemory)
                }
            }
        }
    }
}

// These networks with that one before them.
fn led_by(net: Net, mut nets: Vec<Net>) -> Result<Vec<Net>, NoMemory>
    ensures { IfOk result (λ led. led.items ≡ net ∷ nets.items) }
{
    match nets.insert(0, net) {
        Ok(()) => Ok(nets),
        Err(refused) => {
            drop(refused);
            drop(nets);
            Err(NoMemory)
        }
    }
}

/// That network, which is the one before the changes where there are none.
pub fn last_of<'a>(after: &'a Option<Net>, net: &'a Net) -> &'a Net
    ensures { result.now ≡ last_of after.now net.now }
{
    match after {
        Some(last) => last,
        None => net,
    }
}
