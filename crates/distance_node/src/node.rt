ghost use Rattle.std.specs.Prelude.{◌≡◌, ◌<◌, ◌≤◌, [], ℕ, Some, None, true, IfOk, OnErr, OnOk, length, map, option_map};
ghost use Rattle.net_graph.specs.declared.limits.TheConstants.{MOST_DESTS};
ghost use Rattle.node_core.specs.declared.node.TheConstants.{MAX_CLOCK};
ghost use Rattle.arc_labels.specs.Neighbours.{AreNeighbours, AreSpeakerLabels, head_of};
ghost use Rattle.net_graph.specs.Nets.{arcs_from};
ghost use Rattle.node_core.specs.Kinds.{listener};
ghost use Rattle.distance_node.specs.Chosen.{entry_of, next_at};
ghost use Rattle.distance_node.specs.Lawful.{distance_is_lawful};
ghost use Rattle.distance_node.specs.Node.{DvState, PureVector, distance, fits_in, new_node, taken};
ghost use Rattle.distance_node.specs.Nodes.{state_of};
ghost use Rattle.distance_node.specs.Rows.{hop_row, pure_hop_row};
ghost use Rattle.distance_node.specs.Vectors.{noted};

use crate::answering::reply_to;
use crate::beginning::begun_rows;
use crate::chosen::Chosen;
use crate::own::own_sigs;
use crate::rows::HopRow;
use crate::settling::{Settled, settle_by};
use crate::site::{Arrival, Site};
use crate::telling::copied_value;
use crate::{Mark, Vector};
use alg_model::Algebra;
use arc_labels::{Neighbour, NeighbourLabels};
use meta_base::{ArcId, DestId, NoMemory, NodeId};
use net_graph::Net;
use node_core::{NodeCore, Outgoing};
use std::alloc::Global;
use std::marker::{Model, PhantomData};

/// A node that routes by distance vector over an algebra, as a router of RIP does (RFC 2453, section 3): it keeps the
/// values that its neighbours sent it last, chooses for each destination the best of what it makes of them, and tells
/// those that listen to it when the value of its choice changes. Contracts see it by lists; `state_of` gives its state.
#[derive(Drop)]
pub struct DvNode<'a, A: Algebra, M: Mark<A>> {
    algebra: &'a A,
    net: &'a Net,
    number: NodeId,
    is_begun: bool,
    // The neighbours that it may route by, in the order of the arcs to them.
    speakers: &'a [Neighbour<'a, A::Lab>],
    // The values of its own origins, and its rows, by destination.
    own: Vec<Option<A::Sig>>,
    rows: Vec<Option<Chosen<A::Sig>>>,
    // What it heard last, destination by destination, of each neighbour.
    heard: Vec<Option<A::Sig>>,
    last: u64,
    // A value that is no longer wanted, in whose memory offers are made.
    spare: Option<A::Sig>,
    mark: PhantomData<M>,
}

impl<'a, A: Algebra, M: Mark<A>> Model for DvNode<'a, A, M> {
    ghost use Rattle.std.specs.Prelude.{◌≡◌, Some};
    ghost use Rattle.distance_node.specs.Nodes.{PureNode, IsNodeOf, coded_node, row_list};
    ghost use Rattle.distance_node.specs.Places.{values_in};

    ghost Value = { PureNode };

    ghost coded = { coded_node };

    ghost view = { λ n. record {
      net = n.net.now;
      number = n.number.0;
      is_begun = n.is_begun;
      heard = values_in (A.sig_value n.algebra.now) n.heard.items;
      rows = row_list (A.sig_value n.algebra.now) n.net.now n.number.0 n.rows.items;
      last = n.last;
    } };

    ghost invariant = { λ n. (M.algebra ≡ Some n.algebra.now) × IsNodeOf (A.stands_for n.algebra.now)
        (A.is_sig n.algebra.now) (A.sig_value n.algebra.now) n.net.now n.number.0 (A.expression n.algebra.now)
        n.is_begun n.last n.own.items n.speakers.now n.heard.items n.rows.items };
}

impl<'a, A: Algebra, M: Mark<A>> DvNode<'a, A, M> {
    /// The node of that number of the network, which isn't begun: it has heard nothing and has no rows. The algebra is
    /// the network's and the mark's, and lends the labels of the arcs. It is refused for want of memory alone.
    pub fn new(
        alloc: Global,
        algebra: &'a A,
        net: &'a Net,
        labels: &'a NeighbourLabels<'a, A::Lab>,
        number: NodeId,
    ) -> Result<DvNode<'a, A, M>, NoMemory>
        requires mark { M.algebra ≡ Some algebra.now }
        requires algebra { A.expression algebra.now ≡ net.now.alg.expression }
        requires labels { AreSpeakerLabels (A.stands_for algebra.now) net.now labels.now }
        requires node { number.0 < length net.now.nodes }
        ensures { IfOk result (λ node. state_of node ≡ new_node net.now number.0) }
    {
        let speakers = labels.of(number);
        let dests = net.dest_count();
        Ok(DvNode {
            algebra,
            net,
            number,
            is_begun: false,
            speakers,
            own: own_sigs(alloc, algebra, net, number)?,
            rows: no_entries(alloc, dests)?,
            heard: no_entries(alloc, dests * speakers.len())?,
            last: 0,
            spare: None,
            mark: PhantomData,
        })
    }

    // How many destinations its network has.
    pub(crate) fn dest_count(&self) -> usize
        ensures count { result ≡ length self.now.net.dests }
        ensures few { result ≤ MOST_DESTS }
    {
        self.net.dest_count()
    }

    // The node's row of a destination, with its next hop.
    pub(crate) fn hop_row(&self, alloc: Global, dest: DestId) -> Result<HopRow, NoMemory>
        requires { dest.0 < length self.now.net.dests }
        ensures { let state = state_of self.now in IfOk result (λ row.
            pure_hop_row row ≡ hop_row state.number dest.0 (state.rows dest.0)) }
    {
        let (value, next) = match &self.rows[dest.0 as usize] {
            Some(row) => {
                let value = self.algebra.value_of(alloc, &row.sig)?;
                let next = next_of(
                    self.algebra,
                    self.net,
                    self.number,
                    self.speakers,
                    row.offer,
                );
                (Some(value), next)
            }
            None => (None, None),
        };
        Ok(HopRow {
            node: self.number,
            dest,
            value,
            next,
        })
    }

    // Whether the message fits. Its value is the mark's algebra's, with small numbers, as each message's is.
    fn fits(&self, message: &Vector<A, M>) -> bool
        ensures { result ≡ fits_in self.now.net message.now }
    {
        let _reported = message.reported(self.algebra);
        (message.dest().0 as usize) < self.net.dest_count()
    }

    // Takes a message that fits, whether it changes the row of its destination or not, and puts into `out`, which is
    // empty, what the node tells then. It is a call of its own, so that messages that change no row don't pay for it.
    #[inline(never)]
    fn change(
        &mut self,
        arc: ArcId,
        message: &Vector<A, M>,
        clock: u64,
        out: &mut Outgoing<Vector<A, M>>,
    ) -> Result<(), NoMemory>
        requires out { out.old ≡ [] }
        requires begun { self.old.is_begun ≡ true }
        requires listens { listener self.old.net arc.0 ≡ Some self.old.number }
        requires fits { fits_in self.old.net message.now ≡ true }
        requires stamp { message.now.stamp < clock }
        requires last { self.old.last < clock }
        requires early { clock ≤ MAX_CLOCK }
        ensures node { OnOk result (state_of self.new ≡ (taken (state_of self.old) arc.0 message.now clock).0) }
        ensures out { OnOk result (map noted out.new ≡ (taken (state_of self.old) arc.0 message.now clock).1) }
        ensures err { OnErr result ((state_of self.new ≡ state_of self.old) × (out.new ≡ [])) }
    {
        let alloc = *self.rows.allocator();
        let dest = message.dest();
        let place = self.net.place_of(arc);
        let reported = message.reported(self.algebra);
        let copy = copied_value(alloc, self.algebra, reported)?;
        let site = Site {
            algebra: self.algebra,
            net: self.net,
            node: self.number,
            own: &self.own,
            speakers: self.speakers,
        };
        let arrival = Arrival {
            arc,
            place,
            dest,
            value: reported,
            clock,
        };
        reply_to(
            alloc,
            &site,
            &self.heard,
            &mut self.rows[dest.0 as usize],
            &arrival,
            &mut self.spare,
            out,
        )?;
        self.heard[dest.0 as usize * self.speakers.len() + place] = copy;
        self.last = clock;
        Ok(())
    }

    // Takes a message that fits, and puts into `out`, which is empty, what the node tells then. Most messages leave the
    // row of their destination as it is; the others are taken from the start again.
    fn take(
        &mut self,
        arc: ArcId,
        message: &Vector<A, M>,
        clock: u64,
        out: &mut Outgoing<Vector<A, M>>,
    ) -> Result<(), NoMemory>
        requires out { out.old ≡ [] }
        requires begun { self.old.is_begun ≡ true }
        requires listens { listener self.old.net arc.0 ≡ Some self.old.number }
        requires fits { fits_in self.old.net message.now ≡ true }
        requires stamp { message.now.stamp < clock }
        requires last { self.old.last < clock }
        requires early { clock ≤ MAX_CLOCK }
        ensures node { OnOk result (state_of self.new ≡ (taken (state_of self.old) arc.0 message.now clock).0) }
        ensures out { OnOk result (map noted out.new ≡ (taken (state_of self.old) arc.0 message.now clock).1) }
        ensures err { OnErr result ((state_of self.new ≡ state_of self.old) × (out.new ≡ [])) }
    {
        let alloc = *self.rows.allocator();
        let dest = message.dest();
        let place = self.net.place_of(arc);
        let reported = message.reported(self.algebra);
        let site = Site {
            algebra: self.algebra,
            net: self.net,
            node: self.number,
            own: &self.own,
            speakers: self.speakers,
        };
        let arrival = Arrival {
            arc,
            place,
            dest,
            value: reported,
            clock,
        };
        let row = &self.rows[dest.0 as usize];
        match settle_by(alloc, &site, &self.heard, row, &arrival, &mut self.spare)? {
            Settled::Stays => {}
            Settled::Moves | Settled::Lost => return self.change(arc, message, clock, out),
        }
        let kept = copied_value(alloc, self.algebra, reported)?;
        self.heard[dest.0 as usize * self.speakers.len() + place] = kept;
        self.last = clock;
        Ok(())
    }
}

// No entry for any of so many.
fn no_entries<X: Drop>(alloc: Global, count: usize) -> Result<Vec<Option<X>>, NoMemory>
    ensures count { IfOk result (λ entries. length entries.items ≡ count) }
    ensures none { IfOk result (λ entries. (k : ℕ) → entry_of entries.items k ≡ None) }
{
    let mut entries = Vec::with_capacity(alloc, count)?;
    for _entry in 0..count {
        entries.push(None)?;
    }
    Ok(entries)
}

// The neighbour that gives the offer at a place, if it is an arc's.
fn next_of<A: Algebra>(
    _algebra: &A,
    net: &Net,
    number: NodeId,
    speakers: &[Neighbour<'_, A::Lab>],
    offer: usize,
) -> Option<NodeId>
    requires net { number.0 < length net.now.nodes }
    requires speakers { AreNeighbours (A.stands_for _algebra.now) head_of (arcs_from net.now number.0) speakers.now }
    requires offer { offer ≤ length speakers.now }
    ensures { option_map (λ n. n.0) result ≡ next_at net.now number.0 offer }
{
    if offer == 0 {
        return None;
    }
    Some(speakers[offer - 1].node)
}

impl<'a, A: Algebra, M: Mark<A>> NodeCore for DvNode<'a, A, M> {
    type Message = Vector<A, M>;

    ghost State = { DvState };

    ghost Note = { PureVector };

    ghost state = { state_of };

    ghost note = { λ m. m };

    ghost kind = { distance };

    ghost lawful = { distance_is_lawful };

    fn stamp(message: &Vector<A, M>) -> u64 {
        message.stamp()
    }

    fn on_start(&mut self, out: &mut Outgoing<Vector<A, M>>) -> Result<(), NoMemory> {
        let site = Site {
            algebra: self.algebra,
            net: self.net,
            node: self.number,
            own: &self.own,
            speakers: self.speakers,
        };
        let (rows, reported) = begun_rows(*self.rows.allocator(), &site)?;
        self.rows = rows;
        self.is_begun = true;
        self.last = 0;
        *out = reported;
        Ok(())
    }

    fn on_message(
        &mut self,
        arc: ArcId,
        message: &Vector<A, M>,
        clock: u64,
        out: &mut Outgoing<Vector<A, M>>,
    ) -> Result<(), NoMemory> {
        if self.fits(message) {
            return self.take(arc, message, clock, out);
        }
        self.last = clock;
        Ok(())
    }
}
