ghost use Rattle.std.specs.Prelude.{◌≡◌, ◌<◌, ℕ, List, Option, Some, IfOk, length, map, option_map};
ghost use Rattle.std.specs.List.{range_with_len};
ghost use Rattle.net_graph.specs.Nets.{IsNet};
ghost use Rattle.distance_node.specs.Beginning.{AreBegun};
ghost use Rattle.distance_node.specs.Nodes.{IsPlaced};
ghost use Rattle.distance_node.specs.Node.{all_begun};
ghost use Rattle.distance_node.specs.Vectors.{noted};

use crate::choosing::own_offer;
use crate::chosen::Chosen;
use crate::site::Site;
use crate::telling::tell;
use crate::{Mark, Vector};
use alg_model::Algebra;
use meta_base::{DestId, List, NoMemory};
use node_core::Outgoing;
use std::alloc::Global;

// The rows of a node that begins, which are its own origins', and what it tells of them.
pub(crate) fn begun_rows<A: Algebra, M: Mark<A>>(
    alloc: Global,
    site: &Site<'_, A>,
) -> Result<(Vec<Option<Chosen<A::Sig>>>, Outgoing<Vector<A, M>>), NoMemory>
    requires mark { M.algebra ≡ Some site.now.algebra.now }
    requires algebra { let at = site.now in A.expression at.algebra.now ≡ at.net.now.alg.expression }
    requires placed { let at = site.now in IsPlaced (A.stands_for at.algebra.now)
        (A.is_sig at.algebra.now) (A.sig_value at.algebra.now) at.net.now at.node.0 at.own.now at.speakers.now }
    ensures rows { let at = site.now in IfOk result (λ r. AreBegun (A.is_sig at.algebra.now)
        (A.sig_value at.algebra.now) at.net.now at.node.0 (length at.own.now) r.0.items) }
    ensures reported { let at = site.now in IfOk result (λ r.
        map noted r.1 ≡ all_begun at.net.now at.node.0 (range_with_len 0 (length at.own.now))) }
{
    let mut rows = Vec::with_capacity(alloc, site.own.len())?;
    let mut out = Vec::new(alloc);
    for place in 0..site.own.len() {
        let row = own_offer(alloc, site.algebra, &site.own[place])?;
        if row.is_some() {
            let dest = DestId(place as u32);
            tell(alloc, site, dest, &row, 0, &mut out)?;
        }
        rows.push(row)?;
    }
    Ok((rows, List::from_vec(out)))
}
