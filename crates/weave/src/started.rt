// What a phase starts with and ends with, whoever makes its deliveries.
ghost use Rattle.std.specs.Prelude.{◌≡◌, ◌<◌, ◌≤◌, ◌^◌, ℕ, length, map, IfOk};
ghost use Rattle.net_graph.specs.Nets.{IsNet};
ghost use Rattle.node_core.specs.Configs.{waits_on};
ghost use Rattle.node_core.specs.Machine.{AreUnbegun, Start};
ghost use Rattle.weave.specs.Started.{IsStarted};
ghost use Rattle.woven_laws.specs.Counts.{total};

use crate::phase::keeps_laws;
use journal_merge::NodeLog;
use meta_base::{List, NoMemory};
use net_graph::Net;
use node_core::{Config, NodeCore};
use quiet_ledger::Totals;
use std::alloc::Global;
use std::collections::VecDeque;

/// Nodes that have begun, in the order of the network; what they sent, by the numbers of the arcs; and how many messages
/// that is.
#[derive(Drop)]
pub(crate) struct Started<N, M> {
    pub(crate) nodes: List<N>,
    pub(crate) links: Vec<VecDeque<M>>,
    pub(crate) waiting: u64,
}

/// Nodes at the end of a phase, in the order of the network, with the log of each; and how many messages were sent and
/// taken.
#[derive(Drop)]
pub(crate) struct Ended<N> {
    pub(crate) nodes: List<N>,
    pub(crate) logs: List<NodeLog>,
    pub(crate) totals: Totals,
}

/// Begins the nodes, one for each of the network in order.
pub(crate) fn start<N: NodeCore>(
    alloc: Global,
    net: &Net,
    nodes: List<N>,
) -> Result<Started<N, N::Message>, NoMemory>
    requires { AreUnbegun N.kind net.now 0 (map N.state nodes) }
    ensures { IfOk result (IsStarted N.state N.note N.kind net.now (Start N.kind (map N.state nodes))) }
{
    keeps_rules(net);
    keeps_laws::<N>();
    let (nodes, links) = Config::start(alloc, net, nodes)?.into_parts();
    let waiting = waiting_in(&links);
    Ok(Started {
        nodes,
        links,
        waiting,
    })
}

// A network keeps its rules, which the caller doesn't say.
pub(crate) fn keeps_rules(net: &Net)
    ensures { IsNet net.now }
{
    let _edition = net.edition();
}

// How many messages wait on all arcs, of which there are at most 2^13, with at most 2^16 messages on each.
fn waiting_in<M>(links: &[VecDeque<M>]) -> u64
    requires arcs { length links.now ≤ 2 ^ 13 }
    requires few { (a : ℕ) → length (waits_on links.now a) ≤ 2 ^ 16 }
    ensures { result ≡ total (length links.now) (λ a. length (waits_on links.now a)) }
{
    let mut waiting = 0;
    for link in links {
        waiting += link.len() as u64;
    }
    waiting
}
