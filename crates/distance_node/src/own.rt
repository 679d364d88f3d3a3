ghost use Rattle.std.specs.Prelude.{◌≡◌, ℕ, Some, IfOk, IfSome, length, option_map};
ghost use Rattle.net_graph.specs.Nets.{IsNet, origin_value};
ghost use Rattle.distance_node.specs.Chosen.{entry_of};

use alg_model::Algebra;
use meta_base::{DestId, NoMemory, NodeId};
use net_graph::Net;
use std::alloc::Global;

// The value of the node's origin of the destination, if it has one.
fn own_sig<A: Algebra>(
    alloc: Global,
    algebra: &A,
    net: &Net,
    node: NodeId,
    dest: DestId,
) -> Result<Option<A::Sig>, NoMemory>
    requires { A.expression algebra.now ≡ net.now.alg.expression }
    ensures sig { IfOk result (λ own. IfSome own (A.is_sig algebra.now)) }
    ensures value { IfOk result (λ own.
        option_map (A.sig_value algebra.now) own ≡ origin_value net.now dest.0 node.0) }
{
    match net.origin_at(dest, node) {
        Some(origin) => Ok(Some(algebra.sig_of(alloc, &origin.value)?)),
        None => Ok(None),
    }
}

// The values of the node's own origins, by destination.
pub(crate) fn own_sigs<A: Algebra>(
    alloc: Global,
    algebra: &A,
    net: &Net,
    node: NodeId,
) -> Result<Vec<Option<A::Sig>>, NoMemory>
    requires { A.expression algebra.now ≡ net.now.alg.expression }
    ensures net { IsNet net.now }
    ensures count { IfOk result (λ own. length own.items ≡ length net.now.dests) }
    ensures values { let value = A.sig_value algebra.now in IfOk result (λ own.
        (dest : ℕ) → option_map value (entry_of own.items dest) ≡ origin_value net.now dest node.0) }
    ensures sigs { IfOk result (λ own.
        (dest : ℕ) (s : A.Sig) → entry_of own.items dest ≡ Some s → A.is_sig algebra.now s) }
{
    let count = net.dest_count();
    let mut own = Vec::with_capacity(alloc, count)?;
    for dest in 0..count {
        own.push(own_sig(alloc, algebra, net, node, DestId(dest as u32))?)?;
    }
    Ok(own)
}
