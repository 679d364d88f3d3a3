ghost use Rattle.std.specs.Prelude.{◌≡◌, ◌<◌, IfOk, length, map, option_map};
ghost use Rattle.std.specs.List.{range_with_len};
ghost use Rattle.net_graph.specs.Nets.{IsNet};
ghost use Rattle.path_vector.specs.Known.{heard_by};
ghost use Rattle.path_vector.specs.Node.{PvState, all_begun_updates, choice};
ghost use Rattle.path_vector.specs.State.{IsKept, row_routes};
ghost use Rattle.path_vector.specs.Updates.{noted};

use crate::choosing::choose;
use crate::heard::Heard;
use crate::known::Known;
use crate::rechoosing::{is_same_row, update_of};
use crate::reporting::report_begun;
use crate::site::Site;
use crate::update::Update;
use alg_model::Algebra;
use meta_base::{DestId, List, NoMemory};
use net_graph::Net;
use node_core::Outgoing;
use std::alloc::Global;

// The rows that a node chooses when it begins, and what it tells of them.
pub(crate) fn begun_rows<A: Algebra>(
    alloc: Global,
    site: &Site<'_, A>,
    before: Option<&Net>,
    own: &[Option<A::Sig>],
    neighbours: &Heard<A::Lab, A::Sig>,
    rows: &[Option<Known<A::Sig>>],
) -> Result<(Vec<Option<Known<A::Sig>>>, Outgoing<Update>), NoMemory>
    requires algebra { let at = site.now in A.expression at.algebra.now ≡ at.net.now.alg.expression }
    requires net { IsNet site.now.net.now }
    requires kept { let at = site.now in IsKept (A.stands_for at.algebra.now) (A.is_sig at.algebra.now)
        (A.sig_value at.algebra.now) at.net.now at.node.0 own.now neighbours.now rows.now }
    ensures kept { let at = site.now in IfOk result (λ r. IsKept (A.stands_for at.algebra.now)
        (A.is_sig at.algebra.now) (A.sig_value at.algebra.now) at.net.now at.node.0 own.now neighbours.now r.0.items) }
    ensures rows { let at = site.now in let value = A.sig_value at.algebra.now in
        IfOk result (λ r. row_routes value r.0.items ≡
        λ dest. choice at.net.now dest at.node.0 (heard_by value neighbours.now)) }
    ensures reported { let at = site.now in let value = A.sig_value at.algebra.now in
        (s : PvState) → s.net ≡ at.net.now → s.before ≡ option_map (λ n. n.now) before.entry →
        s.number ≡ at.node.0 → s.heard ≡ heard_by value neighbours.now → s.rows ≡ row_routes value rows.now →
        IfOk result (λ r. map noted r.1 ≡ all_begun_updates s (range_with_len 0 (length at.net.now.dests))) }
{
    let mut begun = Vec::with_capacity(alloc, rows.len())?;
    let mut out = List::new(alloc);
    let mut spare = None;
    for place in 0..rows.len() {
        let dest = DestId(place as u32);
        let row = choose(alloc, site, &own[place], neighbours, dest, &mut spare)?;
        let is_same = is_same_row(alloc, site.algebra, &row, &rows[place])?;
        let update = update_of(alloc, site.algebra, dest, &row, 0)?;
        report_begun(
            alloc, site.net, before, site.node, !is_same, &update, &mut out,
        )?;
        begun.push(row)?;
    }
    Ok((begun, out))
}
