// A network file that is being read.
ghost use Rattle.std.specs.Prelude.{◌≡◌, ◌<◌, true, false, length, map, Ok, IfOk, IfErr, OnOk, OnErr};
ghost use Rattle.alg_model.specs.Expressions.{PureLabel};
ghost use Rattle.net_graph.specs.Nets.{IsNet, has_arc};
ghost use Rattle.net_graph.specs.Changes.{AreChanges, MayChange, changed, link};
ghost use Rattle.net_graph.specs.ChangeSteps.{is_there_after, is_there_after_all};
ghost use Rattle.net_graph.specs.Views.{pure_change};
ghost use Rattle.sig_text.specs.Spelled.{spelled};
ghost use Rattle.topology_file.specs.NetText.{changed_net, empty_file, has_room_to_link, with_change, after_then_link, after_then_drop, after_form, after_line};
ghost use Rattle.topology_file.specs.LineErrors.{IsFirstAdded, IsFirstRefused, IsRefusedAs, late_fault as late_fault_of};
ghost use Rattle.topology_file.specs.Views.{NamesDest, pure_arc_line, pure_net_line, pure_file};
ghost use Rattle.topology_file.specs.declared.errors.LineError.TheVariants.{Bad};
ghost use Rattle.topology_file.specs.declared.faults.NetKind.TheVariants.{TooMany};
ghost use Rattle.topology_file.specs.declared.faults.What.TheVariants.{Arcs};

use crate::errors::{LineError, label_of};
use crate::forms::{ArcLine, Line, NetLine, line_form};
use crate::known::KnownTexts;
use crate::lines::{add_arcs, add_net_line, fault_after, nodes_of};
use crate::quick_forms::arc_line;
use crate::texts::{first_line, said};
use crate::{MAX_LINE_BYTES, NetFile, NetKind, What};
use alg_model::Alg;
use meta_base::{List, NoMemory, NodeId};
use net_graph::{Change, MAX_ARCS, NetDraft, max_changes};
use std::alloc::Global;
use std::marker::Model;

// So many bytes a line of an arc has, or more, in most files.
const ARC_LINE_BYTES: usize = 16;

/// What the lines so far give. Contracts see the network of the lines without `then`, and the changes of
/// the others.
#[derive(Debug, Drop)]
pub struct FileDraft<'a> {
    alloc: Global,
    draft: NetDraft,
    known: KnownTexts<'a>,
    changes: List<Change>,
    // How many arcs there are after the changes.
    arc_count: usize,
}

impl<'a> Model for FileDraft<'a> {
    ghost use Rattle.topology_file.specs.NetText.{PureNetFile};
    ghost use Rattle.topology_file.specs.KnownTexts.{Knows};
    ghost use Rattle.topology_file.specs.Views.{coded_file, file_with, IsDraft};

    ghost Value = { PureNetFile };

    ghost coded = { coded_file };

    ghost view = { λ d. file_with d.draft d.changes };

    ghost invariant = { λ d. IsDraft (file_with d.draft d.changes) d.arc_count
        × Knows d.draft d.known };
}

impl<'a> FileDraft<'a> {
    /// What no line gives.
    pub fn new(alloc: Global, alg: Alg) -> FileDraft<'a>
        ensures { result ≡ empty_file alg }
    {
        FileDraft {
            alloc,
            draft: NetDraft::new(alloc, alg),
            known: KnownTexts::new(alloc),
            changes: List::new(alloc),
            arc_count: 0,
        }
    }

    /// Makes room for the arcs, and the texts, of so many bytes of lines. Nothing is added.
    pub fn reserve(&mut self, bytes: usize) -> Result<(), NoMemory>
        ensures { self.new ≡ self.old }
    {
        self.known.make_spots(self.alloc, bytes);
        self.draft
            .reserve_arcs((bytes / ARC_LINE_BYTES).min(MAX_ARCS))
    }

    /// The network and its changes.
    pub fn finish(self) -> Result<NetFile, NoMemory>
        ensures file { IfOk result (λ file. pure_file file ≡ self.entry) }
        ensures changes { AreChanges self.entry.net self.entry.changes }
    {
        let FileDraft { draft, changes, .. } = self;
        Ok(NetFile {
            net: draft.finish()?,
            changes,
        })
    }

    /// Adds what the first line of the text asks for, and gives the text of the other lines. Where that is the line of an
    /// arc, its parts are written into the place that is lent. After an error some of it may have been added.
    pub fn add_first_line(
        &mut self,
        text: &'a [u8],
        place: &mut ArcLine<'a>,
    ) -> Result<&'a [u8], LineError>
        requires { 0 < length text.now }
        ensures ok { IfOk result (λ others. IsFirstAdded self.old text.now self.new others.now) }
        ensures bad { IfErr result (IsFirstRefused self.old text.now) }
    {
        if let Some(others) = arc_line(text, place) {
            self.add_arc_line(place)?;
            return Ok(others);
        }
        let (line, others) = first_line(text);
        self.add_line(line)?;
        Ok(others)
    }

    // Adds what the line asks for.
    #[inline(never)]
    fn add_line(&mut self, line: &'a [u8]) -> Result<(), LineError>
        ensures ok { OnOk result (after_line spelled self.old line.now ≡ Ok self.new) }
        ensures bad { IfErr result (IsRefusedAs (after_line spelled self.old line.now)) }
    {
        if line.len() > MAX_LINE_BYTES {
            return Err(LineError::Bad(NetKind::BadLine));
        }
        match line_form(said(line)) {
            Line::Silent => Ok(()),
            Line::Network(line) => self.add_to_network(&line),
            Line::ThenLink {
                listener,
                speaker,
                label,
            } => self.add_then_link(listener, speaker, label),
            Line::ThenDrop { listener, speaker } => self.add_then_drop(listener, speaker),
            Line::Bad => Err(LineError::Bad(NetKind::BadLine)),
        }
    }

    // The line of an arc, which stands before all changes.
    #[tactic(auto, using(crate::proofs::Steps::late_arc, crate::proofs::Steps::early_arc_ok, crate::proofs::Steps::early_arc_bad))]
    fn add_arc_line(&mut self, line: &ArcLine<'a>) -> Result<(), LineError>
        ensures ok { OnOk result (after_form spelled self.old (pure_arc_line line.now) ≡ Ok self.new) }
        ensures bad { IfErr result (IsRefusedAs (after_form spelled self.old (pure_arc_line line.now))) }
    {
        if !self.changes.as_slice().is_empty() {
            return Err(LineError::Bad(NetKind::AfterThen));
        }
        // The arcs are counted after a refusal too: of two, one may have been added.
        let added = add_arcs(self.alloc, &mut self.draft, &mut self.known, line);
        self.arc_count = self.draft.arc_count();
        added
    }

    // A line of the network, which stands before all changes.
    #[tactic(auto, using(crate::proofs::Steps::late, crate::proofs::Steps::early_ok, crate::proofs::Steps::early_bad))]
    fn add_to_network(&mut self, line: &NetLine<'a>) -> Result<(), LineError>
        requires { NamesDest line.now }
        ensures ok { OnOk result (after_form spelled self.old (pure_net_line line.now) ≡ Ok self.new) }
        ensures bad { IfErr result (IsRefusedAs (after_form spelled self.old (pure_net_line line.now))) }
    {
        if !self.changes.as_slice().is_empty() {
            return Err(late_fault(line));
        }
        // The arcs are counted after a refusal too: of two, one may have been added.
        let added = add_net_line(self.alloc, &mut self.draft, &mut self.known, line);
        self.arc_count = self.draft.arc_count();
        added
    }

    // The arc gets this label after the changes so far, or is added.
    #[inline(never)]
    #[tactic(auto, using(crate::proofs::Steps::link_made))]
    fn add_then_link(
        &mut self,
        listener: &[u8],
        speaker: &[u8],
        label: &[u8],
    ) -> Result<(), LineError>
        ensures ok { OnOk result (after_then_link spelled self.old listener.now speaker.now label.now ≡ Ok self.new) }
        ensures bad { IfErr result (IsRefusedAs (after_then_link spelled self.old listener.now speaker.now label.now)) }
    {
        let (tail, head) = nodes_of(&self.draft, listener, speaker)?;
        let label = label_of(self.alloc, self.draft.alg(), label)?;
        let arc_count = self.count_with(tail, head)?;
        self.add_change(Change::Link { tail, head, label }, arc_count)
    }

    // The arc is taken out after the changes so far.
    #[inline(never)]
    #[tactic(auto, using(crate::proofs::Steps::drop_made, crate::proofs::Steps::dropped))]
    fn add_then_drop(&mut self, listener: &[u8], speaker: &[u8]) -> Result<(), LineError>
        ensures ok { OnOk result (after_then_drop self.old listener.now speaker.now ≡ Ok self.new) }
        ensures bad { IfErr result (IsRefusedAs (after_then_drop self.old listener.now speaker.now)) }
    {
        let (tail, head) = nodes_of(&self.draft, listener, speaker)?;
        if !self.has_arc(tail, head) {
            return Err(LineError::Bad(NetKind::NoArc));
        }
        self.add_change(Change::Drop { tail, head }, self.arc_count - 1)
    }

    // One change more, after which there are so many arcs.
    fn add_change(&mut self, change: Change, arc_count: usize) -> Result<(), LineError>
        requires may { MayChange (changed_net self.old) (pure_change change) }
        requires count { arc_count ≡ length (changed (changed_net self.old) (pure_change change)).arcs }
        ensures ok { OnOk result (with_change self.old (pure_change change) ≡ Ok self.new) }
        ensures bad { IfErr result (IsRefusedAs (with_change self.old (pure_change change))) }
    {
        if self.changes.as_slice().len() >= max_changes(self.draft.edition()) {
            return Err(LineError::Bad(NetKind::TooMany(What::Changes)));
        }
        self.changes.push(change)?;
        self.arc_count = arc_count;
        Ok(())
    }

    // How many arcs there are if this one gets a label after the changes so far.
    #[tactic(auto, using(crate::proofs::Steps::linked, crate::proofs::Steps::added))]
    fn count_with(&self, tail: NodeId, head: NodeId) -> Result<usize, LineError>
        ensures count { IfOk result (λ count. (l : PureLabel) →
            count ≡ length (changed (changed_net self.now) (link tail.0 head.0 l)).arcs) }
        ensures room { OnOk result (has_room_to_link self.now tail.0 head.0 ≡ true) }
        ensures full { OnErr result (has_room_to_link self.now tail.0 head.0 ≡ false) }
        ensures fault { IfErr result (λ e. e ≡ Bad (TooMany Arcs)) }
    {
        if self.has_arc(tail, head) {
            return Ok(self.arc_count);
        }
        if self.arc_count >= MAX_ARCS {
            return Err(LineError::Bad(NetKind::TooMany(What::Arcs)));
        }
        Ok(self.arc_count + 1)
    }

    // Whether the arc is there after the changes so far, which leave a network.
    #[tactic(auto, using(crate::proofs::Steps::draft_has_arc))]
    fn has_arc(&self, tail: NodeId, head: NodeId) -> bool
        ensures there { result ≡ has_arc (changed_net self.now) tail.0 head.0 }
        ensures net { IsNet (changed_net self.now) }
    {
        is_there_after_all(
            self.draft.has_arc(tail, head),
            self.changes.as_slice(),
            tail,
            head,
        )
    }
}

// Whether the arc is there after these changes, by whether it is there before them.
fn is_there_after_all(is_there: bool, changes: &[Change], tail: NodeId, head: NodeId) -> bool
    ensures { result ≡ is_there_after_all tail.0 head.0 (map pure_change changes.now) is_there }
{
    let mut is_there = is_there;
    let mut rest = changes;
    while let [change, later @ ..] = rest {
        is_there = is_there_after(is_there, change, tail, head);
        rest = later;
    }
    is_there
}

// The same of one change.
fn is_there_after(is_there: bool, change: &Change, tail: NodeId, head: NodeId) -> bool
    ensures { result ≡ is_there_after tail.0 head.0 (pure_change change.now) is_there }
{
    match change {
        Change::Link {
            tail: t,
            head: h,
            ..
        } => is_there || (*t == tail && *h == head),
        Change::Drop { tail: t, head: h } => is_there && !(*t == tail && *h == head),
    }
}

// The fault of a line of the network after a change: a word that is no name comes before it.
fn late_fault(line: &NetLine<'_>) -> LineError
    ensures { result ≡ Bad (late_fault_of line.now) }
{
    match line {
        NetLine::Nodes(names) => fault_after(NetKind::AfterThen, names),
        NetLine::Arc(_) | NetLine::Origin { .. } => LineError::Bad(NetKind::AfterThen),
    }
}
