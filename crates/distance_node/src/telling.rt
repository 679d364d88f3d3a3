// What a node tells those that listen to it.
ghost use Rattle.std.specs.Prelude.{◌≡◌, ◌<◌, ◌++◌, Some, None, [], cond, length, map, IfOk, IfSome, OnErr, OnOk, option_map};
ghost use Rattle.alg_model.specs.Bounds.{AtMost};
ghost use Rattle.net_graph.specs.Nets.{arcs_to};
ghost use Rattle.distance_node.specs.Node.{greatest_at, same_reported, reported_on};
ghost use Rattle.distance_node.specs.Tellings.{reported_of};
ghost use Rattle.distance_node.specs.Vectors.{noted};

use crate::chosen::Chosen;
use crate::site::Site;
use crate::{Mark, Vector};
use alg_model::{Algebra, same_value};
use meta_base::{ArcId, DestId, List, NoMemory};
use node_core::Outgoing;
use std::alloc::Global;
use std::cmp::Ordering;
use std::mem::replace;

// The value once more, if there is one.
pub(crate) fn copied_value<A: Algebra>(
    alloc: Global,
    algebra: &A,
    value: &Option<A::Sig>,
) -> Result<Option<A::Sig>, NoMemory>
    requires { IfSome value.now (A.is_sig algebra.now) }
    ensures sig { IfOk result (λ copied. IfSome copied (A.is_sig algebra.now)) }
    ensures value { let value_of = A.sig_value algebra.now in
        IfOk result (λ copied. option_map value_of copied ≡ option_map value_of value.now) }
{
    match value {
        Some(sig) => Ok(Some(algebra.copy(alloc, sig)?)),
        None => Ok(None),
    }
}

// Puts the value on each arc that the node speaks on.
#[inline(always)]
fn tell_value<A: Algebra, M: Mark<A>>(
    alloc: Global,
    site: &Site<'_, A>,
    dest: DestId,
    sig: &A::Sig,
    clock: u64,
    out: &mut Vec<(ArcId, Vector<A, M>)>,
) -> Result<(), NoMemory>
    requires mark { M.algebra ≡ Some site.now.algebra.now }
    requires node { site.now.node.0 < length site.now.net.now.nodes }
    requires sig { A.is_sig site.now.algebra.now sig.now }
    requires small { AtMost (greatest_at clock) (A.sig_value site.now.algebra.now sig.now) }
    ensures { let at = site.now in OnOk result (map noted out.new.items ≡ map noted out.old.items
        ++ reported_on (arcs_to at.net.now at.node.0)
        (record { dest = dest.0; value = Some (A.sig_value at.algebra.now sig.now); stamp = clock })) }
{
    let listeners = site.net.listeners(site.node);
    out.reserve(listeners.len())?;
    for arc in listeners {
        let value = Some(site.algebra.copy(alloc, sig)?);
        out.push_reserved((*arc, Vector::new(site.algebra, dest, value, clock)));
    }
    Ok(())
}

// Puts on each arc that the node speaks on that there is no value.
fn tell_none<A: Algebra, M: Mark<A>>(
    site: &Site<'_, A>,
    dest: DestId,
    clock: u64,
    out: &mut Vec<(ArcId, Vector<A, M>)>,
) -> Result<(), NoMemory>
    requires mark { M.algebra ≡ Some site.now.algebra.now }
    requires node { site.now.node.0 < length site.now.net.now.nodes }
    ensures { let at = site.now in OnOk result (map noted out.new.items ≡ map noted out.old.items
        ++ reported_on (arcs_to at.net.now at.node.0) (record { dest = dest.0; value = None; stamp = clock })) }
{
    let listeners = site.net.listeners(site.node);
    out.reserve(listeners.len())?;
    for arc in listeners {
        out.push_reserved((*arc, Vector::new(site.algebra, dest, None, clock)));
    }
    Ok(())
}

// Puts the row's value, or that there is none, on each arc that the node speaks on.
#[inline(always)]
pub(crate) fn tell<A: Algebra, M: Mark<A>>(
    alloc: Global,
    site: &Site<'_, A>,
    dest: DestId,
    row: &Option<Chosen<A::Sig>>,
    clock: u64,
    out: &mut Vec<(ArcId, Vector<A, M>)>,
) -> Result<(), NoMemory>
    requires mark { M.algebra ≡ Some site.now.algebra.now }
    requires node { site.now.node.0 < length site.now.net.now.nodes }
    requires sig { IfSome row.now (λ r. A.is_sig site.now.algebra.now r.sig) }
    requires small { IfSome (reported_of (A.sig_value site.now.algebra.now) row.now) (AtMost (greatest_at clock)) }
    ensures { let at = site.now in OnOk result (map noted out.new.items ≡ map noted out.old.items
        ++ reported_on (arcs_to at.net.now at.node.0)
        (record { dest = dest.0; value = reported_of (A.sig_value at.algebra.now) row.now; stamp = clock })) }
{
    match row {
        Some(row) => tell_value(alloc, site, dest, &row.sig, clock, out),
        None => tell_none(site, dest, clock, out),
    }
}

// Whether two values are one, by what they stand for.
fn are_one<A: Algebra>(
    alloc: Global,
    algebra: &A,
    first: &A::Sig,
    second: &A::Sig,
) -> Result<bool, NoMemory>
    requires first { A.is_sig algebra.now first.now }
    requires second { A.is_sig algebra.now second.now }
    ensures { let value = A.sig_value algebra.now in IfOk result (λ same.
        same ≡ same_reported (Some (value first.now)) (Some (value second.now))) }
{
    let one = algebra.value_of(alloc, first)?;
    let other = algebra.value_of(alloc, second)?;
    Ok(same_value(&one, &other))
}

// Whether two values in the algebra's form are one. They are spelled out only where neither is preferred.
fn are_same<A: Algebra>(
    alloc: Global,
    algebra: &A,
    first: &A::Sig,
    second: &A::Sig,
) -> Result<bool, NoMemory>
    requires first { A.is_sig algebra.now first.now }
    requires second { A.is_sig algebra.now second.now }
    ensures { let value = A.sig_value algebra.now in IfOk result (λ same.
        same ≡ same_reported (Some (value first.now)) (Some (value second.now))) }
{
    match algebra.order(first, second) {
        Ordering::Equal => are_one(alloc, algebra, first, second),
        Ordering::Less | Ordering::Greater => Ok(false),
    }
}

// Whether the rows have one value, or none of them has one.
fn tells_same<A: Algebra>(
    alloc: Global,
    algebra: &A,
    row: &Option<Chosen<A::Sig>>,
    before: &Option<Chosen<A::Sig>>,
) -> Result<bool, NoMemory>
    requires row { IfSome row.now (λ r. A.is_sig algebra.now r.sig) }
    requires before { IfSome before.now (λ r. A.is_sig algebra.now r.sig) }
    ensures { let value = A.sig_value algebra.now in IfOk result (λ same.
        same ≡ same_reported (reported_of value row.now) (reported_of value before.now)) }
{
    match (row, before) {
        (Some(row), Some(before)) => are_same(alloc, algebra, &row.sig, &before.sig),
        (None, None) => Ok(true),
        _ => Ok(false),
    }
}

// Puts into `out`, which is empty, what the node tells of a row that was another: its value, if that has changed. The
// memory of `out` is used again.
pub(crate) fn news<A: Algebra, M: Mark<A>>(
    alloc: Global,
    site: &Site<'_, A>,
    dest: DestId,
    before: &Option<Chosen<A::Sig>>,
    row: &Option<Chosen<A::Sig>>,
    clock: u64,
    out: &mut Outgoing<Vector<A, M>>,
) -> Result<(), NoMemory>
    requires out { out.old ≡ [] }
    requires mark { M.algebra ≡ Some site.now.algebra.now }
    requires node { site.now.node.0 < length site.now.net.now.nodes }
    requires before { IfSome before.now (λ r. A.is_sig site.now.algebra.now r.sig) }
    requires sig { IfSome row.now (λ r. A.is_sig site.now.algebra.now r.sig) }
    requires small { IfSome (reported_of (A.sig_value site.now.algebra.now) row.now) (AtMost (greatest_at clock)) }
    ensures ok { let at = site.now in let value = A.sig_value at.algebra.now in OnOk result (map noted out.new ≡
        cond (same_reported (reported_of value row.now) (reported_of value before.now)) [] (reported_on (arcs_to at.net.now at.node.0)
        (record { dest = dest.0; value = reported_of value row.now; stamp = clock }))) }
    ensures err { OnErr result (out.new ≡ []) }
{
    if tells_same(alloc, site.algebra, row, before)? {
        return Ok(());
    }
    let mut reported = replace(out, List::new(alloc)).into_vec();
    tell(alloc, site, dest, row, clock, &mut reported)?;
    *out = List::from_vec(reported);
    Ok(())
}
