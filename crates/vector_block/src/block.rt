ghost use Rattle.std.specs.Prelude.{◌≡◌, ◌<◌, ◌^◌, drop, length};
ghost use Rattle.arc_labels.specs.Neighbours.{AreListenerLabels};
ghost use Rattle.net_graph.specs.Nets.{IsNet, PureArc};
ghost use Rattle.path_vector.specs.Lawful.{path_vector_is_lawful};
ghost use Rattle.path_vector.specs.Node.{PureUpdate, PvState, path_vector};
ghost use Rattle.vector_block.specs.Nexts.{HasListener, IsNext};
ghost use Rattle.vector_block.specs.Blocks.{waiting};
ghost use Rattle.vector_block.specs.Stores.{IsStored, pure_store};

use crate::change::rechoose;
use crate::look::Hearing;
use crate::report::ReportId;
use crate::store::{Site, Store, hear};
use alg_model::Algebra;
use arc_labels::NeighbourLabels;
use journal_merge::NodeDelivery;
use meta_base::{Delivery, Gate, NoMemory};
use std::alloc::Global;
use std::marker::Model;
use woven_laws::AllNodes;

/// All path-vector nodes of a network, begun, with what is on its way between them. What a node reports is kept once, for
/// all who listen to it, and is its row; what waits are the reports from a place on. So a delivery copies no route, and
/// takes memory only where a row changes, and for the log (Griffin and Sobrinho 2005 have the protocol).
#[derive(Drop)]
pub struct VectorBlock<'a, A: Algebra> {
    pub(crate) site: Site<'a, A>,
    pub(crate) listeners: &'a NeighbourLabels<'a, A::Lab>,
    pub(crate) speakers: &'a NeighbourLabels<'a, A::Lab>,
    pub(crate) store: Store<A::Sig>,
    // By node: its last clock.
    pub(crate) clocks: Vec<u64>,
    // The deliveries in the order in which they were made.
    pub(crate) log: Vec<NodeDelivery>,
    // The report that is being heard, and how many of its speaker's listeners have passed.
    pub(crate) front: usize,
    pub(crate) passed: usize,
    // A value that is no longer wanted, in whose memory offers are made.
    pub(crate) spare: Option<A::Sig>,
}

impl<'a, A: Algebra> Model for VectorBlock<'a, A> {
    ghost use Rattle.std.specs.Prelude.{map};
    ghost use Rattle.journal_merge.specs.Timing.{tagged_of};
    ghost use Rattle.vector_block.specs.Blocks.{IsBlock, PureBlock, coded_block};
    ghost use Rattle.vector_block.specs.Stores.{said_by, update_of};

    ghost Value = { PureBlock };

    ghost coded = { coded_block };

    ghost view = { λ b. let said = said_by (A.sig_value b.site.algebra.now) b.store.paths b.store.reports.items in record {
      net = b.site.net.now;
      reports = map (λ r. (r.node.0, update_of (A.sig_value b.site.algebra.now) b.store.paths r)) b.store.reports.items;
      heard = map (λ c. map said c.heard.items) b.store.columns.items;
      rows = map (λ c. map said c.rows.items) b.store.columns.items;
      clocks = b.clocks.items;
      log = map tagged_of b.log.items;
      front = b.front;
      passed = b.passed;
    } };

    ghost invariant = { λ b. IsBlock (A.stands_for b.site.algebra.now) (A.is_sig b.site.algebra.now) (A.sig_value b.site.algebra.now)
        (A.expression b.site.algebra.now) b.site.net.now b.listeners.now b.speakers.now b.store b.clocks.items (map tagged_of b.log.items)
        b.front b.passed };
}

// Goes on to the next report that someone hears, past those of which all listeners have passed, if there is one.
#[inline(always)]
fn skip_heard<A: Algebra>(
    _site: &Site<'_, A>,
    listeners: &NeighbourLabels<'_, A::Lab>,
    store: &Store<A::Sig>,
    front: &mut usize,
    passed: &mut usize,
)
    requires stored { let at = _site.now in IsStored (A.is_sig at.algebra.now) at.net.now store.now }
    requires listeners { let at = _site.now in
        AreListenerLabels (A.stands_for at.algebra.now) at.net.now listeners.now }
    ensures same { let at = _site.now in let reports = (pure_store (A.sig_value at.algebra.now) store.now).reports in
        waiting at.net.now passed.new (drop front.new reports) ≡ waiting at.net.now passed.old (drop front.old reports) }
    ensures found { let at = _site.now in let reports = (pure_store (A.sig_value at.algebra.now) store.now).reports in
        HasListener at.net.now reports front.new passed.new }
{
    while *front < store.reports.len() {
        let speaker = store.reports[*front].node;
        if *passed < listeners.of(speaker).len() {
            return;
        }
        *front += 1;
        *passed = 0;
    }
}

// A report that is heard next, and the label of the arc.
struct Next<'l, L> {
    hearing: Hearing,
    label: &'l L,
}

// The delivery that is made next: the listener whose turn it is hears the report in front.
#[inline(always)]
fn next_hearing<'l, A: Algebra>(
    _site: &Site<'_, A>,
    listeners: &'l NeighbourLabels<'_, A::Lab>,
    store: &Store<A::Sig>,
    clocks: &[u64],
    front: usize,
    passed: usize,
) -> Next<'l, A::Lab>
    requires stored { let at = _site.now in IsStored (A.is_sig at.algebra.now) at.net.now store.now }
    requires listeners { let at = _site.now in
        AreListenerLabels (A.stands_for at.algebra.now) at.net.now listeners.now }
    requires net { IsNet _site.now.net.now }
    requires clocks { length clocks.now ≡ length _site.now.net.now.nodes }
    requires few { front < 2 ^ 32 }
    requires some { front < length store.now.reports.items }
    requires passed { let at = _site.now in let reports = (pure_store (A.sig_value at.algebra.now) store.now).reports in
        HasListener at.net.now reports front passed }
    ensures { let at = _site.now in let reports = (pure_store (A.sig_value at.algebra.now) store.now).reports in
        (a : PureArc) × A.stands_for at.algebra.now result.label.now a.label
        × IsNext at.net.now reports clocks.now front passed a result.hearing }
{
    let report = &store.reports[front];
    let listener = &listeners.of(report.node)[passed];
    let last = clocks[listener.node.0 as usize].max(report.stamp);
    Next {
        hearing: Hearing {
            report: ReportId(front as u32),
            dest: report.dest,
            speaker: report.node,
            arc: listener.arc,
            node: listener.node,
            clock: last.saturating_add(1),
        },
        label: listener.label,
    }
}

impl<'a, A: Algebra> AllNodes for VectorBlock<'a, A> {
    ghost use Rattle.vector_block.specs.Blocks.{log_of, machine_of};

    ghost State = { PvState };

    ghost Note = { PureUpdate };

    ghost kind = { path_vector };

    ghost net = { λ b. b.net };

    ghost machine = { machine_of };

    ghost log = { log_of };

    ghost lawful = { path_vector_is_lawful };

    fn deliver<G: Gate>(&mut self, gate: &G) -> Result<u64, NoMemory> {
        let alloc = *self.clocks.allocator();
        skip_heard(
            &self.site,
            self.listeners,
            &self.store,
            &mut self.front,
            &mut self.passed,
        );
        // Reports have numbers of 32 bits.
        if self.front > u32::MAX as usize {
            return Err(NoMemory);
        }
        let Next { hearing, label } = next_hearing(
            &self.site,
            self.listeners,
            &self.store,
            &self.clocks,
            self.front,
            self.passed,
        );
        let Hearing {
            dest,
            arc,
            node,
            clock,
            report,
            ..
        } = hearing;
        let made = Delivery { clock, arc };
        self.log.push(NodeDelivery::new(node, made))?;
        let earlier = hear(&self.site, &mut self.store, dest, arc, Some(report));
        let changed = rechoose(
            alloc,
            &self.site,
            &mut self.store,
            self.speakers,
            &hearing,
            label,
            &mut self.spare,
        );
        match changed {
            Ok(is_changed) => {
                gate.pass(0, &made);
                self.clocks[node.0 as usize] = clock;
                self.passed += 1;
                Ok(if is_changed {
                    self.listeners.of(node).len() as u64
                } else {
                    0
                })
            }
            Err(refusal) => {
                hear(&self.site, &mut self.store, dest, arc, earlier);
                Err(refusal)
            }
        }
    }
}
