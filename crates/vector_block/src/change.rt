// How a node's row changes when it hears a report.
ghost use Rattle.std.specs.Prelude.{◌≡◌, ◌<◌, ◌∷◌, ℕ, IfOk, IfSome, OnErr, OnOk, Some, length, option_map, slice_get, true};
ghost use Rattle.arc_labels.specs.Neighbours.{AreSpeakerLabels};
ghost use Rattle.net_graph.specs.Nets.{IsNet, PureArc};
ghost use Rattle.net_graph.specs.Routes.{PureRoute};
ghost use Rattle.path_vector.specs.Node.{begins_with, may_be_of, same_row};
ghost use Rattle.path_vector.specs.Settling.{Settles};
ghost use Rattle.vector_block.specs.Hearings.{HasRechosen, IsHearing, heard_at};
ghost use Rattle.vector_block.specs.Stores.{IsStored, MayBeChosen, chosen_route, pure_store, said_by, with_report};

use crate::choose::choose;
use crate::look::{Finding, Hearing, has_same_value, look};
use crate::offer::compare_rests;
use crate::report::Choice;
use crate::store::{Site, Store, report, row, said};
use alg_model::Algebra;
use arc_labels::NeighbourLabels;
use meta_base::NoMemory;
use std::alloc::Global;
use std::cmp::Ordering;

// Lets the node choose its row anew once it heard the report, by the label of the arc: `true` where it is another, which it
// reported. After want of memory all is as it was.
#[inline(always)]
pub(crate) fn rechoose<A: Algebra>(
    alloc: Global,
    site: &Site<'_, A>,
    store: &mut Store<A::Sig>,
    speakers: &NeighbourLabels<'_, A::Lab>,
    hearing: &Hearing,
    label: &A::Lab,
    spare: &mut Option<A::Sig>,
) -> Result<bool, NoMemory>
    requires algebra { let at = site.now in A.expression at.algebra.now ≡ at.net.now.alg.expression }
    requires net { IsNet site.now.net.now }
    requires stored { let at = site.now in IsStored (A.is_sig at.algebra.now) at.net.now store.old }
    requires speakers { let at = site.now in AreSpeakerLabels (A.stands_for at.algebra.now) at.net.now speakers.now }
    requires hearing { let at = site.now in let value = A.sig_value at.algebra.now in let h = hearing.now in
        (a : PureArc) × A.stands_for at.algebra.now label.now a.label × IsHearing value at.net.now store.old a h
        × Settles at.net.now h.dest.0 h.node.0 (heard_at at.net.now (pure_store value store.old) h.node.0) a
        ((pure_store value store.old).rows h.node.0 h.dest.0) }
    requires heard { let value = A.sig_value site.now.algebra.now in let h = hearing.now in
        (pure_store value store.old).heard h.arc.0 h.dest.0
        ≡ said_by value store.old.paths store.old.reports.items (Some h.report) }
    requires known { let at = site.now in let h = hearing.now in
        let heard = (pure_store (A.sig_value at.algebra.now) store.old).heard in
        (a : PureArc) (r : PureRoute) → slice_get at.net.now.arcs a.id ≡ Some a → a.tail ≡ h.node.0 →
        heard a.id h.dest.0 ≡ Some r → may_be_of at.net.now a.head r ≡ true }
    requires begins { let h = hearing.now in
        let rows = (pure_store (A.sig_value site.now.algebra.now) store.old).rows in
        (r : PureRoute) → rows h.node.0 h.dest.0 ≡ Some r → begins_with h.node.0 r.path ≡ true }
    ensures stored { let at = site.now in IsStored (A.is_sig at.algebra.now) at.net.now store.new }
    ensures rechosen { let at = site.now in let value = A.sig_value at.algebra.now in
        HasRechosen at.net.now hearing.now (pure_store value store.old) (pure_store value store.new) result }
{
    match look(alloc, site, store, hearing, label, spare)? {
        Finding::Stays => Ok(false),
        Finding::Takes => take_offer(site, store, *hearing, spare),
        Finding::Lost => choose_anew(alloc, site, store, speakers, *hearing, spare),
    }
}

// Lets what the node was offered be its row: its value is spare, and its path goes on along that of the report.
#[inline(never)]
fn take_offer<A: Algebra>(
    site: &Site<'_, A>,
    store: &mut Store<A::Sig>,
    hearing: Hearing,
    spare: &mut Option<A::Sig>,
) -> Result<bool, NoMemory>
    requires stored { let at = site.now in IsStored (A.is_sig at.algebra.now) at.net.now store.old }
    requires node { hearing.node.0 < length site.now.net.now.nodes }
    requires dest { hearing.dest.0 < length site.now.net.now.dests }
    requires report { hearing.report.0 < length store.old.reports.items }
    requires spare { IfSome spare.old (A.is_sig site.now.algebra.now) }
    ensures stored { let at = site.now in IsStored (A.is_sig at.algebra.now) at.net.now store.new }
    ensures taken { let value = A.sig_value site.now.algebra.now in let h = hearing in
        (sig : A.Sig) (said : PureRoute) → spare.old ≡ Some sig →
        said_by value store.old.paths store.old.reports.items (Some h.report) ≡ Some said →
        OnOk result (pure_store value store.new ≡ with_report (pure_store value store.old) h.node.0 (record {
          dest = h.dest.0;
          route = Some (record { value = value sig; path = h.node.0 ∷ said.path });
          stamp = h.clock;
        })) }
    ensures ok { IfOk result (λ changed. changed ≡ true) }
    ensures err { let value = A.sig_value site.now.algebra.now in
        OnErr result (pure_store value store.new ≡ pure_store value store.old) }
{
    let rest = match said(site, store, Some(hearing.report)) {
        Some(route) => Some(route.path),
        None => None,
    };
    let choice = match spare.take() {
        Some(sig) => Some(Choice { sig, rest }),
        None => None,
    };
    report(
        site,
        store,
        hearing.node,
        hearing.dest,
        hearing.clock,
        choice,
    )?;
    Ok(true)
}

// Lets the node choose its row among all that it is offered.
#[inline(never)]
fn choose_anew<A: Algebra>(
    alloc: Global,
    site: &Site<'_, A>,
    store: &mut Store<A::Sig>,
    speakers: &NeighbourLabels<'_, A::Lab>,
    hearing: Hearing,
    spare: &mut Option<A::Sig>,
) -> Result<bool, NoMemory>
    requires algebra { let at = site.now in A.expression at.algebra.now ≡ at.net.now.alg.expression }
    requires net { IsNet site.now.net.now }
    requires stored { let at = site.now in IsStored (A.is_sig at.algebra.now) at.net.now store.old }
    requires speakers { let at = site.now in AreSpeakerLabels (A.stands_for at.algebra.now) at.net.now speakers.now }
    requires node { hearing.node.0 < length site.now.net.now.nodes }
    requires dest { hearing.dest.0 < length site.now.net.now.dests }
    requires known { let at = site.now in let h = hearing in
        let heard = (pure_store (A.sig_value at.algebra.now) store.old).heard in
        (a : PureArc) (r : PureRoute) → slice_get at.net.now.arcs a.id ≡ Some a → a.tail ≡ h.node.0 →
        heard a.id h.dest.0 ≡ Some r → may_be_of at.net.now a.head r ≡ true }
    requires begins { let h = hearing in
        let rows = (pure_store (A.sig_value site.now.algebra.now) store.old).rows in
        (r : PureRoute) → rows h.node.0 h.dest.0 ≡ Some r → begins_with h.node.0 r.path ≡ true }
    ensures stored { let at = site.now in IsStored (A.is_sig at.algebra.now) at.net.now store.new }
    ensures rechosen { let at = site.now in let value = A.sig_value at.algebra.now in
        HasRechosen at.net.now hearing (pure_store value store.old) (pure_store value store.new) result }
{
    let Hearing {
        node,
        dest,
        clock,
        ..
    } = hearing;
    let best = choose(alloc, site, store, speakers.of(node), dest, node, spare)?;
    if is_row(alloc, site, store, hearing, &best)? {
        return Ok(false);
    }
    report(site, store, node, dest, clock, best)?;
    Ok(true)
}

// Whether the choice is the node's row.
fn is_row<A: Algebra>(
    alloc: Global,
    site: &Site<'_, A>,
    store: &Store<A::Sig>,
    hearing: Hearing,
    best: &Option<Choice<A::Sig>>,
) -> Result<bool, NoMemory>
    requires stored { let at = site.now in IsStored (A.is_sig at.algebra.now) at.net.now store.now }
    requires node { hearing.node.0 < length site.now.net.now.nodes }
    requires dest { hearing.dest.0 < length site.now.net.now.dests }
    requires best { let at = site.now in
        IfSome best.now (MayBeChosen (A.is_sig at.algebra.now) at.net.now store.now) }
    requires begins { let h = hearing in
        let rows = (pure_store (A.sig_value site.now.algebra.now) store.now).rows in
        (r : PureRoute) → rows h.node.0 h.dest.0 ≡ Some r → begins_with h.node.0 r.path ≡ true }
    ensures { let value = A.sig_value site.now.algebra.now in let h = hearing in IfOk result (λ same.
        same ≡ same_row (option_map (chosen_route value store.now.paths h.node.0) best.now)
        ((pure_store value store.now).rows h.node.0 h.dest.0)) }
{
    match (best, row(site, store, hearing.dest, hearing.node)) {
        (Some(best), Some(row)) => {
            let rest = store.paths.rest(row.path);
            if compare_rests(&store.paths, best.rest, rest) != Ordering::Equal {
                return Ok(false);
            }
            has_same_value(alloc, site.algebra, &best.sig, &row.sig)
        }
        (None, None) => Ok(true),
        _ => Ok(false),
    }
}
