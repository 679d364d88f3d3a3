// What a neighbour offers.
ghost use Rattle.std.specs.Prelude.{◌≡◌, ◌<◌, ◌∷◌, ℕ, IfOk, IfSome, Some, length, option_and_then, option_map, true};
ghost use Rattle.arc_labels.specs.Images.{made_in};
ghost use Rattle.meta_base.specs.NodePaths.{compare_paths, numbers};
ghost use Rattle.net_graph.specs.Nets.{IsNet, PureArc};
ghost use Rattle.path_store.specs.PathOf.{path_by, path_of};
ghost use Rattle.path_vector.specs.Node.{may_be_of, offer_by};
ghost use Rattle.vector_block.specs.Stores.{IsReported, route_of};

use crate::report::Reported;
use crate::store::{Site, Store};
use alg_model::Algebra;
use arc_labels::image_into;
use meta_base::{NoMemory, NodeId};
use path_store::{PathId, Trails};
use std::alloc::Global;
use std::cmp::Ordering;

// What a neighbour offers the node by the label of its arc: `true` where its route makes a value there that stands in the
// place. Its path is the node, and then the route's.
#[inline(always)]
pub(crate) fn offer_into<A: Algebra>(
    alloc: Global,
    site: &Site<'_, A>,
    store: &Store<A::Sig>,
    node: NodeId,
    label: &A::Lab,
    route: &Reported<A::Sig>,
    place: &mut Option<A::Sig>,
) -> Result<bool, NoMemory>
    requires algebra { let at = site.now in A.expression at.algebra.now ≡ at.net.now.alg.expression }
    requires net { IsNet site.now.net.now }
    requires route { let at = site.now in
        (j : ℕ) × IsReported (A.is_sig at.algebra.now) at.net.now store.now.paths j route.now }
    requires arc { let at = site.now in (a : PureArc) × A.stands_for at.algebra.now label.now a.label
        × (may_be_of at.net.now a.head (route_of (A.sig_value at.algebra.now) store.now.paths route.now) ≡ true) }
    ensures sig { IfOk result (λ placed. IfSome (made_in placed place.new) (A.is_sig site.now.algebra.now)) }
    ensures offer { let at = site.now in let value = A.sig_value at.algebra.now in
        (a : PureArc) → a.tail ≡ node.0 → A.stands_for at.algebra.now label.now a.label →
        IfOk result (λ placed. option_map (λ sig. record {
          value = value sig;
          path = node.0 ∷ numbers (path_of store.now.paths route.now.path);
        }) (made_in placed place.new)
        ≡ offer_by at.net.now a (route_of value store.now.paths route.now)) }
{
    if store.paths.passes(route.path, node) {
        return Ok(false);
    }
    image_into(alloc, site.algebra, label, &route.sig, place)
}

// Which of two paths comes first, each of which is a path of the store or has no node.
pub(crate) fn compare_rests(
    paths: &Trails,
    first: Option<PathId>,
    second: Option<PathId>,
) -> Ordering
    requires first { IfSome first (λ id. id.0 < length paths.now) }
    requires second { IfSome second (λ id. id.0 < length paths.now) }
    ensures { result ≡ compare_paths (numbers (path_by paths.now first)) (numbers (path_by paths.now second)) }
{
    match (first, second) {
        (Some(first), Some(second)) => paths.compare(first, second),
        (Some(first), None) => {
            let _node = paths.first(first);
            Ordering::Greater
        }
        (None, Some(second)) => {
            let _node = paths.first(second);
            Ordering::Less
        }
        (None, None) => Ordering::Equal,
    }
}
