ghost use Rattle.std.specs.Prelude.{◌≡◌, ◌<◌, ◌≤◌, ℕ, [], Some, true, IfOk, OnErr, OnOk, length, map, slice_get};
ghost use Rattle.std.proofs.Math.ListN.{set};
ghost use Rattle.net_graph.specs.declared.limits.TheConstants.{MOST_DESTS};
ghost use Rattle.net_graph.specs.Nets.{PureArc};
ghost use Rattle.net_graph.specs.Views.{pure_row};
ghost use Rattle.path_vector.specs.Lawful.{path_vector_is_lawful};
ghost use Rattle.path_vector.specs.Node.{Begin, PureUpdate, PvState, carried, choice, new_node, path_vector, taken};
ghost use Rattle.path_vector.specs.Nodes.{state_of};
ghost use Rattle.path_vector.specs.Updates.{noted, pure_update};
ghost use Rattle.path_vector.specs.Words.{fits_on};

use crate::beginning::begun_rows;
use crate::fitting::fits;
use crate::heard::{Heard, no_entries};
use crate::hearing::hear;
use crate::keeping::news_of_kept;
use crate::known::{Known, route_of};
use crate::neighbours::{kept_neighbours, silent_neighbours};
use crate::own::own_sigs;
use crate::same_arcs::has_arcs_alike;
use crate::site::{Arrival, Site};
use crate::update::Update;
use alg_model::Algebra;
use meta_base::{ArcId, DestId, NoMemory, NodeId};
use net_graph::{Net, RouteRow};
use node_core::{NodeCore, Outgoing};
use std::alloc::Global;
use std::marker::Model;
use std::mem::replace;

/// A node that routes by path vector over an algebra: it keeps what its neighbours reported to it last, chooses the
/// best of what they offer for each destination, and tells those that listen to it when its choice changes (Griffin and
/// Sobrinho 2005; the protocol is Sobrinho's of 2005).
#[derive(Drop)]
pub struct PvNode<'a, A: Algebra> {
    algebra: &'a A,
    net: &'a Net,
    // The network that the node comes from, if it was carried over a change.
    before: Option<&'a Net>,
    number: NodeId,
    is_begun: bool,
    // It was carried with the arcs that it routes by as they were, so its rows are its choices on its network already.
    is_settled: bool,
    // The values of its own origins, its neighbours in the order of their arcs, and its rows, by destination.
    own: Vec<Option<A::Sig>>,
    neighbours: Heard<A::Lab, A::Sig>,
    rows: Vec<Option<Known<A::Sig>>>,
    last: u64,
    // A value that is no longer wanted, in whose memory offers are made.
    spare: Option<A::Sig>,
}

impl<'a, A: Algebra> Model for PvNode<'a, A> {
    ghost use Rattle.std.specs.Prelude.{◌||◌, option_map};
    ghost use Rattle.path_vector.specs.Nodes.{PureNode, IsNodeOf, coded_node, heard_lists, row_list};

    ghost Value = { PureNode };

    ghost coded = { coded_node };

    ghost view = { λ n. record {
      net = n.net.now;
      before = option_map (λ m. m.now) n.before;
      number = n.number.0;
      is_begun = n.is_begun;
      heard = heard_lists (A.sig_value n.algebra.now) n.neighbours;
      rows = row_list (A.sig_value n.algebra.now) n.rows.items;
      last = n.last;
    } };

    ghost invariant = { λ n. IsNodeOf (A.stands_for n.algebra.now) (A.is_sig n.algebra.now)
        (A.sig_value n.algebra.now) (A.expression n.algebra.now) n.net.now n.number.0 (n.is_begun || n.is_settled)
        n.own.items n.neighbours n.rows.items };
}

impl<'a, A: Algebra> PvNode<'a, A> {
    /// The node of that number of the network, which isn't begun: it has heard nothing and has no rows. The algebra
    /// is the network's. It is refused for want of memory alone.
    pub fn new(
        alloc: Global,
        algebra: &'a A,
        net: &'a Net,
        number: NodeId,
    ) -> Result<PvNode<'a, A>, NoMemory>
        requires algebra { A.expression algebra.now ≡ net.now.alg.expression }
        requires node { number.0 < length net.now.nodes }
        ensures { IfOk result (λ node. state_of node ≡ new_node net.now number.0) }
    {
        Ok(PvNode {
            algebra,
            net,
            before: None,
            number,
            is_begun: false,
            is_settled: false,
            own: own_sigs(alloc, algebra, net, number)?,
            neighbours: silent_neighbours(alloc, algebra, net, number)?,
            rows: no_entries(alloc, net.dest_count())?,
            last: 0,
            spare: None,
        })
    }

    /// The node on a changed network, which differs in its arcs alone: it isn't begun, keeps its rows, and has heard
    /// what it heard on the arcs that were there before. Where the arcs that it routes by are as they were it takes
    /// no memory, and chooses no row when it begins. The old node is begun. It is refused for want of memory alone,
    /// and then the old node is gone.
    pub fn carry(alloc: Global, old: PvNode<'a, A>, net: &'a Net) -> Result<PvNode<'a, A>, NoMemory>
        requires begun { old.is_begun ≡ true }
        requires net { net.now ≡ record old.net { arcs = net.now.arcs } }
        ensures { IfOk result (λ node. state_of node ≡ carried net.now (state_of old.entry)) }
    {
        let is_settled = has_arcs_alike(old.net, net, old.number);
        let neighbours = kept_neighbours(
            alloc,
            old.algebra,
            old.net,
            net,
            old.number,
            is_settled,
            old.neighbours,
        )?;
        Ok(PvNode {
            algebra: old.algebra,
            net,
            before: Some(old.net),
            number: old.number,
            is_begun: false,
            is_settled,
            own: old.own,
            neighbours,
            rows: old.rows,
            last: 0,
            spare: old.spare,
        })
    }

    // How many destinations its network has.
    pub(crate) fn dest_count(&self) -> usize
        ensures count { result ≡ length self.now.net.dests }
        ensures few { result ≤ MOST_DESTS }
    {
        self.net.dest_count()
    }

    // The node's row of a destination.
    pub(crate) fn row(&self, alloc: Global, dest: DestId) -> Result<RouteRow, NoMemory>
        requires { dest.0 < length self.now.net.dests }
        ensures { let state = state_of self.now in IfOk result (λ row.
            pure_row row ≡ record { node = state.number; dest = dest.0; route = state.rows dest.0 }) }
    {
        let route = match &self.rows[dest.0 as usize] {
            Some(known) => Some(route_of(alloc, self.algebra, known)?),
            None => None,
        };
        Ok(RouteRow {
            node: self.number,
            dest,
            route,
        })
    }

    // Begins the node, whose rows are its choices: they stay.
    fn begin_settled(&mut self, out: &mut Outgoing<Update>) -> Result<(), NoMemory>
        requires out { out.old ≡ [] }
        requires chosen { let state = state_of self.old in (dest : ℕ) →
            state.rows dest ≡ choice state.net dest state.number state.heard }
        ensures node { OnOk result (state_of self.new ≡ (Begin (state_of self.old)).0) }
        ensures out { OnOk result (map noted out.new ≡ (Begin (state_of self.old)).1) }
        ensures err { OnErr result ((state_of self.new ≡ state_of self.old) × (out.new ≡ [])) }
    {
        let site = Site {
            algebra: self.algebra,
            net: self.net,
            node: self.number,
        };
        *out = news_of_kept(*self.rows.allocator(), &site, self.before, &self.rows)?;
        self.is_begun = true;
        self.last = 0;
        Ok(())
    }

    // Begins the node by choosing each of its rows.
    fn begin_choosing(&mut self, out: &mut Outgoing<Update>) -> Result<(), NoMemory>
        requires out { out.old ≡ [] }
        ensures node { OnOk result (state_of self.new ≡ (Begin (state_of self.old)).0) }
        ensures out { OnOk result (map noted out.new ≡ (Begin (state_of self.old)).1) }
        ensures err { OnErr result ((state_of self.new ≡ state_of self.old) × (out.new ≡ [])) }
    {
        let site = Site {
            algebra: self.algebra,
            net: self.net,
            node: self.number,
        };
        let (rows, reported) = begun_rows(
            *self.rows.allocator(),
            &site,
            self.before,
            &self.own,
            &self.neighbours,
            &self.rows,
        )?;
        self.rows = rows;
        self.is_begun = true;
        self.last = 0;
        *out = reported;
        Ok(())
    }

    // Takes an update that fits, and puts into `out`, which is empty, what the node tells then.
    fn take(
        &mut self,
        arc: ArcId,
        update: &Update,
        clock: u64,
        out: &mut Outgoing<Update>,
    ) -> Result<(), NoMemory>
        requires out { out.old ≡ [] }
        requires begun { self.old.is_begun ≡ true }
        requires fits { (a : PureArc) × (slice_get self.old.net.arcs arc.0 ≡ Some a) × (a.tail ≡ self.old.number)
            × (fits_on self.old.net a (pure_update update.now) ≡ true) }
        ensures node { OnOk result (state_of self.new ≡
            (taken (state_of self.old) arc.0 (pure_update update.now) clock).0) }
        ensures out { OnOk result (map noted out.new ≡
            (taken (state_of self.old) arc.0 (pure_update update.now) clock).1) }
        ensures err { OnErr result ((state_of self.new ≡ state_of self.old) × (out.new ≡ [])) }
    {
        let site = Site {
            algebra: self.algebra,
            net: self.net,
            node: self.number,
        };
        let change = hear(
            *self.rows.allocator(),
            &site,
            &self.own,
            &mut self.neighbours,
            &self.rows,
            &Arrival { arc, update, clock },
            &mut self.spare,
        )?;
        self.last = clock;
        let Some(change) = change else {
            return Ok(());
        };
        let dest = update.dest.0 as usize;
        put_row(&mut self.rows, dest, change.row, &mut self.spare);
        *out = change.reported;
        Ok(())
    }
}

// Puts the row in the place of the old one, whose value is kept for offers.
fn put_row<S: Drop>(
    rows: &mut Vec<Option<Known<S>>>,
    dest: usize,
    row: Option<Known<S>>,
    spare: &mut Option<S>,
)
    requires { dest < length rows.old.items }
    ensures { rows.new.items ≡ set rows.old.items dest row }
{
    if let Some(old) = replace(&mut rows[dest], row) {
        *spare = Some(old.sig);
    }
}

impl<'a, A: Algebra> NodeCore for PvNode<'a, A> {
    type Message = Update;

    ghost State = { PvState };

    ghost Note = { PureUpdate };

    ghost state = { state_of };

    ghost note = { pure_update };

    ghost kind = { path_vector };

    ghost lawful = { path_vector_is_lawful };

    fn stamp(update: &Update) -> u64 {
        update.stamp
    }

    fn on_start(&mut self, out: &mut Outgoing<Update>) -> Result<(), NoMemory> {
        if self.is_settled {
            return self.begin_settled(out);
        }
        self.begin_choosing(out)
    }

    fn on_message(
        &mut self,
        arc: ArcId,
        update: &Update,
        clock: u64,
        out: &mut Outgoing<Update>,
    ) -> Result<(), NoMemory> {
        if fits(self.net, &self.net.arc(arc), update) {
            return self.take(arc, update, clock, out);
        }
        self.last = clock;
        Ok(())
    }
}
