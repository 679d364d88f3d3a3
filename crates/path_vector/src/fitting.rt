ghost use Rattle.std.specs.Prelude.{◌≡◌};
ghost use Rattle.alg_model.specs.Tests.{is_in};
ghost use Rattle.alg_model.specs.Views.{pure_value};
ghost use Rattle.net_graph.specs.Tables.{carrier};
ghost use Rattle.net_graph.specs.Views.{pure_arc};
ghost use Rattle.path_vector.specs.Node.{may_be_of};
ghost use Rattle.path_vector.specs.Updates.{pure_shared, pure_update};
ghost use Rattle.path_vector.specs.Words.{fits_on};

use crate::paths::starts_at;
use crate::update::{SharedRoute, Update};
use alg_model::{Amount, Value, is_at_most, value_in};
use meta_base::NodeId;
use net_graph::{Arc, Net};

// Whether the value is one of the network's algebra.
fn has_value(net: &Net, value: &Value) -> bool
    ensures { result ≡ is_in (carrier net.now) (pure_value value.now) }
{
    value_in(net.alg(), value)
}

// Whether the route may be the speaker's: a value of the algebra, whose numbers a path of that length can make, and
// a path of nodes of the network from the speaker on, each once.
fn may_be_of(net: &Net, speaker: NodeId, route: &SharedRoute) -> bool
    ensures { result ≡ may_be_of net.now speaker.0 (pure_shared route.now) }
{
    if !has_value(net, &route.value) {
        return false;
    }
    let path = route.path.as_slice();
    if !starts_at(path, speaker) {
        return false;
    }
    if !route.path.get().is_simple(net.node_count()) {
        return false;
    }
    let greatest = path.len() as Amount * (net.edition().greatest_number() as Amount + 1);
    is_at_most(greatest, &route.value)
}

// Whether the update may come on the arc: its destination is the network's, and its route, if it has one, may be
// the speaker's.
pub(crate) fn fits(net: &Net, arc: &Arc<'_>, update: &Update) -> bool
    ensures { result ≡ fits_on net.now (pure_arc arc.now) (pure_update update.now) }
{
    if update.dest.0 as usize >= net.dest_count() {
        return false;
    }
    match &update.route {
        Some(route) => may_be_of(net, arc.head, route.get()),
        None => true,
    }
}
