ghost use Rattle.std.specs.Prelude.{◌≡◌, IfOk};
ghost use Rattle.alg_model.specs.Carriers.{carrier_of, In};
ghost use Rattle.alg_model.specs.Tests.{same_value};
ghost use Rattle.alg_model.specs.Views.{pure_value};
ghost use Rattle.net_graph.specs.Views.{pure_route};
ghost use Rattle.path_vector.specs.Known.{known_route};
ghost use Rattle.path_vector.specs.Node.{same_route};
ghost use Rattle.path_vector.specs.Updates.{pure_shared};

use crate::node_path::NodePath;
use crate::shared::Shared;
use crate::update::SharedRoute;
use alg_model::{Algebra, same_value};
use meta_base::{List, NoMemory, NodeId};
use net_graph::Route;
use path_store::compare;
use std::alloc::Global;
use std::cmp::Ordering;

// A route in the algebra's own form: its value, and the path from the node itself to the origin, which the node
// shares with those that it reported it to or that reported it.
#[derive(Drop)]
pub(crate) struct Known<S> {
    pub sig: S,
    pub path: Shared<NodePath>,
}

// An equal path.
fn copy_path(alloc: Global, path: &[NodeId]) -> Result<List<NodeId>, NoMemory>
    ensures { IfOk result (λ copied. copied ≡ path.now) }
{
    Ok(List::from_vec(Vec::from_slice(alloc, path)?))
}

// What was reported, in the algebra's form.
pub(crate) fn known_of<A: Algebra>(
    alloc: Global,
    algebra: &A,
    reported: &SharedRoute,
) -> Result<Known<A::Sig>, NoMemory>
    requires { In (carrier_of (A.expression algebra.now)) (pure_value reported.now.value) }
    ensures sig { IfOk result (λ known. A.is_sig algebra.now known.sig) }
    ensures route { IfOk result (λ known. known_route (A.sig_value algebra.now) known ≡ pure_shared reported.now) }
{
    Ok(Known {
        sig: algebra.sig_of(alloc, &reported.value)?,
        path: reported.path.share()?,
    })
}

// The route that a known one stands for.
pub(crate) fn route_of<A: Algebra>(
    alloc: Global,
    algebra: &A,
    known: &Known<A::Sig>,
) -> Result<Route, NoMemory>
    requires { A.is_sig algebra.now known.now.sig }
    ensures { IfOk result (λ route. pure_route route ≡ known_route (A.sig_value algebra.now) known.now) }
{
    Ok(Route {
        value: algebra.value_of(alloc, &known.sig)?,
        path: copy_path(alloc, known.path.as_slice())?,
    })
}

// What is reported of a known route.
pub(crate) fn reported_of<A: Algebra>(
    alloc: Global,
    algebra: &A,
    known: &Known<A::Sig>,
) -> Result<Shared<SharedRoute>, NoMemory>
    requires { A.is_sig algebra.now known.now.sig }
    ensures { IfOk result (λ reported. pure_shared reported ≡ known_route (A.sig_value algebra.now) known.now) }
{
    let reported = SharedRoute {
        value: algebra.value_of(alloc, &known.sig)?,
        path: known.path.share()?,
    };
    Shared::new(alloc, reported)
}

// Whether two values in the algebra's form are one.
fn has_same_value<A: Algebra>(
    alloc: Global,
    algebra: &A,
    first: &A::Sig,
    second: &A::Sig,
) -> Result<bool, NoMemory>
    requires first { A.is_sig algebra.now first.now }
    requires second { A.is_sig algebra.now second.now }
    ensures { IfOk result (λ same.
        same ≡ same_value (A.sig_value algebra.now first.now) (A.sig_value algebra.now second.now)) }
{
    let one = algebra.value_of(alloc, first)?;
    let other = algebra.value_of(alloc, second)?;
    Ok(same_value(&one, &other))
}

// Whether the routes are one. Values are compared only where the paths are equal.
pub(crate) fn are_same<A: Algebra>(
    alloc: Global,
    algebra: &A,
    first: &Known<A::Sig>,
    second: &Known<A::Sig>,
) -> Result<bool, NoMemory>
    requires first { A.is_sig algebra.now first.now.sig }
    requires second { A.is_sig algebra.now second.now.sig }
    ensures { let value = A.sig_value algebra.now in IfOk result (λ same.
        same ≡ same_route (known_route value first.now) (known_route value second.now)) }
{
    match compare(first.path.as_slice(), second.path.as_slice()) {
        Ordering::Equal => has_same_value(alloc, algebra, &first.sig, &second.sig),
        Ordering::Less | Ordering::Greater => Ok(false),
    }
}
