// How the nodes begin.
ghost use Rattle.std.specs.Prelude.{◌≡◌, ◌<◌, ℕ, [], IfOk, None, OnOk, length, map, replicate};
ghost use Rattle.std.specs.List.{range_with_len};
ghost use Rattle.arc_labels.specs.Neighbours.{AreListenerLabels, AreSpeakerLabels};
ghost use Rattle.node_core.specs.Machine.{Start};
ghost use Rattle.path_vector.specs.Node.{new_node, path_vector};
ghost use Rattle.vector_block.specs.Blocks.{log_of, machine_of};
ghost use Rattle.vector_block.specs.Stores.{IsStored, pure_store};
ghost use Rattle.net_graph.specs.Nets.{origins_of};
ghost use Rattle.woven_laws.specs.Counts.{waiting_on};
ghost use Rattle.vector_block.specs.Starts.{begun_store, empty_store, with_origins};

use crate::block::VectorBlock;
use crate::report::{Choice, Column, ReportId};
use crate::store::{Site, Store, report};
use alg_model::Algebra;
use arc_labels::NeighbourLabels;
use meta_base::{DestId, NoMemory};
use net_graph::Net;
use path_store::Trails;
use std::alloc::Global;

impl<'a, A: Algebra> VectorBlock<'a, A> {
    /// The new nodes of the network, each of which has begun: what they reported waits. The labels are the network's in the
    /// algebra's form, which is the network's. It is refused for want of memory alone.
    pub fn start(
        alloc: Global,
        algebra: &'a A,
        net: &'a Net,
        listeners: &'a NeighbourLabels<'a, A::Lab>,
        speakers: &'a NeighbourLabels<'a, A::Lab>,
    ) -> Result<VectorBlock<'a, A>, NoMemory>
        requires algebra { A.expression algebra.now ≡ net.now.alg.expression }
        requires listeners { AreListenerLabels (A.stands_for algebra.now) net.now listeners.now }
        requires speakers { AreSpeakerLabels (A.stands_for algebra.now) net.now speakers.now }
        ensures net { IfOk result (λ block. block.net ≡ net.now) }
        ensures machine { IfOk result (λ block. machine_of block
            ≡ Start path_vector (map (new_node net.now) (range_with_len 0 (length net.now.nodes)))) }
        ensures logs { IfOk result (λ block. (i : ℕ) → log_of block i ≡ []) }
    {
        let site = Site { algebra, net };
        let store = begun(alloc, &site)?;
        let clocks = vec![in alloc; 0; net.node_count()]?;
        let log = Vec::with_capacity(alloc, room(net.arc_count(), net))?;
        Ok(VectorBlock {
            site,
            listeners,
            speakers,
            store,
            clocks,
            log,
            front: 0,
            passed: 0,
            spare: None,
        })
    }

    /// How many messages wait. It is refused where 64 bits don't count them.
    pub fn waiting(&self) -> Result<u64, NoMemory>
        ensures { IfOk result (λ waiting. waiting ≡ waiting_on self.now.net (machine_of self.now)) }
    {
        let mut waiting = 0u64;
        let mut passed = self.passed;
        for place in self.front..self.store.reports.len() {
            let listeners = self.listeners.of(self.store.reports[place].node).len();
            waiting = match waiting.checked_add(listeners.saturating_sub(passed) as u64) {
                Some(more) => more,
                None => return Err(NoMemory),
            };
            passed = 0;
        }
        Ok(waiting)
    }
}

// How many reports a node makes of a destination until its network is quiet: on networks of shortest paths two to three,
// as measured.
const REPORTS_EACH: usize = 4;

// No more room than this is taken before it is needed.
const MOST_ROOM: usize = 1 << 20;

// Room for what is made for each of so many, and each destination, until the network is quiet.
fn room(count: usize, net: &Net) -> usize {
    let all = count.saturating_mul(net.dest_count());
    all.saturating_mul(REPORTS_EACH).min(MOST_ROOM)
}

// Nothing at each of so many places.
fn nothing(alloc: Global, count: usize) -> Result<Vec<Option<ReportId>>, NoMemory>
    ensures { IfOk result (λ none. none.items ≡ replicate count None) }
{
    let mut none = Vec::with_capacity(alloc, count)?;
    for _place in 0..count {
        none.push(None)?;
    }
    Ok(none)
}

// A store of the network's size, in which nothing was reported.
fn nothing_said<A: Algebra>(alloc: Global, site: &Site<'_, A>) -> Result<Store<A::Sig>, NoMemory>
    ensures stored { let at = site.now in IfOk result (IsStored (A.is_sig at.algebra.now) at.net.now) }
    ensures nothing { let value = A.sig_value site.now.algebra.now in
        IfOk result (λ store. pure_store value store ≡ empty_store) }
{
    let net = site.net;
    let mut columns = Vec::with_capacity(alloc, net.dest_count())?;
    for _dest in 0..net.dest_count() {
        columns.push(Column {
            heard: nothing(alloc, net.arc_count())?,
            rows: nothing(alloc, net.node_count())?,
        })?;
    }
    let reports = room(net.node_count(), net);
    Ok(Store {
        reports: Vec::with_capacity(alloc, reports)?,
        paths: Trails::with_room(alloc, reports)?,
        columns,
    })
}

// What is reported at the start: each node's own origins, by destination.
fn begun<A: Algebra>(alloc: Global, site: &Site<'_, A>) -> Result<Store<A::Sig>, NoMemory>
    requires algebra { let at = site.now in A.expression at.algebra.now ≡ at.net.now.alg.expression }
    ensures stored { let at = site.now in IfOk result (IsStored (A.is_sig at.algebra.now) at.net.now) }
    ensures begun { let at = site.now in IfOk result (λ store. pure_store (A.sig_value at.algebra.now) store
        ≡ begun_store at.net.now (range_with_len 0 (length at.net.now.dests))) }
{
    let mut store = nothing_said(alloc, site)?;
    for dest in 0..site.net.dest_count() {
        begin(alloc, site, &mut store, DestId(dest as u32))?;
    }
    Ok(store)
}

// Reports each origin of the destination.
fn begin<A: Algebra>(
    alloc: Global,
    site: &Site<'_, A>,
    store: &mut Store<A::Sig>,
    dest: DestId,
) -> Result<(), NoMemory>
    requires algebra { let at = site.now in A.expression at.algebra.now ≡ at.net.now.alg.expression }
    requires dest { dest.0 < length site.now.net.now.dests }
    requires stored { let at = site.now in IsStored (A.is_sig at.algebra.now) at.net.now store.old }
    ensures stored { let at = site.now in IsStored (A.is_sig at.algebra.now) at.net.now store.new }
    ensures begun { let at = site.now in let value = A.sig_value at.algebra.now in
        OnOk result (pure_store value store.new
        ≡ with_origins (pure_store value store.old) (origins_of at.net.now dest.0)) }
{
    for origin in site.net.origins_of(dest) {
        let choice = Choice {
            sig: site.algebra.sig_of(alloc, &origin.value)?,
            rest: None,
        };
        report(site, store, origin.node, dest, 0, Some(choice))?;
    }
    Ok(())
}
