// What the lines of the network add to it: nodes, arcs and origins.
ghost use Rattle.std.specs.Prelude.{◌≡◌, ◌<◌, ◌≤◌, ◌∷◌, true, false, None, Ok, length, option_map, IfOk, IfErr, OnOk, OnErr};
ghost use Rattle.alg_model.specs.Bounds.{AtMost, greatest_number};
ghost use Rattle.alg_model.specs.Carriers.{carrier_of, In};
ghost use Rattle.alg_model.specs.Views.{pure_value};
ghost use Rattle.alg_model.specs.Expressions.{PureLabel};
ghost use Rattle.net_graph.specs.Nets.{PureNet, number_of, is_name, has_arc};
ghost use Rattle.net_graph.specs.Limits.{max_nodes};
ghost use Rattle.sig_text.specs.Spelled.{spelled};
ghost use Rattle.topology_file.specs.Texts.{words_of};
ghost use Rattle.topology_file.specs.KnownTexts.{HasSameArcs, IsLinked, KeepsNodes, Knows, has_room_for_arcs};
ghost use Rattle.topology_file.specs.NetText.{and_then, if_room, label_in, ends_in, node_in, names_twice, has_origin_of, one_origin, after_link, after_both, after_origin};
ghost use Rattle.topology_file.specs.LineErrors.{AreEnds, IsRefusedAs, fault_after as fault_after_names, after_names, after_arc_line, after_net_line};
ghost use Rattle.topology_file.specs.Views.{NamesDest};
ghost use Rattle.topology_file.specs.declared.errors.LineError.TheVariants.{Bad};
ghost use Rattle.topology_file.specs.declared.faults.NetKind.TheVariants.{TooMany};
ghost use Rattle.topology_file.specs.declared.faults.What.TheVariants.{Arcs};

use crate::errors::{LineError, label_of, value_of};
use crate::forms::{ArcLine, NetLine, Ways};
use crate::known::KnownTexts;
use crate::names::{are_all_names, has_word, is_name};
use crate::texts::split_word;
use crate::word::Word;
use crate::{NetKind, What};
use alg_model::Value;
use meta_base::{ArcId, DestId, NodeId};
use net_graph::{MAX_ARCS, NetDraft, max_dests, max_nodes};
use std::alloc::Global;

/// Adds what a line of the network asks for. After an error some of it may have been added.
pub fn add_net_line<'a>(
    alloc: Global,
    draft: &mut NetDraft,
    known: &mut KnownTexts<'a>,
    line: &NetLine<'a>,
) -> Result<(), LineError>
    requires dest { NamesDest line.now }
    requires known { Knows draft.old known.old }
    ensures known { Knows draft.new known.new }
    ensures ok { OnOk result (after_net_line draft.old line.now ≡ Ok draft.new) }
    ensures bad { IfErr result (IsRefusedAs (after_net_line draft.old line.now)) }
{
    match line {
        NetLine::Nodes(names) => add_nodes(draft, names),
        NetLine::Arc(line) => add_arcs(alloc, draft, known, line),
        NetLine::Origin { dest, node, value } => add_origin(alloc, draft, dest, node, value),
    }
}

// The node of that name.
#[tactic(auto, using(crate::proofs::NameLists::named_within))]
fn node_of(draft: &NetDraft, name: &[u8]) -> Result<NodeId, LineError>
    ensures node { IfOk result (λ node. node_in draft.now name.now ≡ Ok node.0) }
    ensures within { IfOk result (λ node. node.0 < length draft.now.nodes) }
    ensures bad { IfErr result (IsRefusedAs (node_in draft.now name.now)) }
{
    match draft.node_named(name) {
        Some(node) => Ok(node),
        None => Err(LineError::Bad(NetKind::UnknownNode)),
    }
}

// The same, where names that were met before are at hand.
#[inline]
#[tactic(auto, using(crate::proofs::KnownNames::node_within))]
fn known_node<'a>(
    draft: &NetDraft,
    known: &mut KnownTexts<'a>,
    name: &Word<'a>,
) -> Result<NodeId, LineError>
    requires known { Knows draft.now known.old }
    ensures known { Knows draft.now known.new }
    ensures node { IfOk result (λ node. node_in draft.now name.now ≡ Ok node.0) }
    ensures within { IfOk result (λ node. node.0 < length draft.now.nodes) }
    ensures bad { IfErr result (IsRefusedAs (node_in draft.now name.now)) }
{
    match known.node_of(name) {
        Some(node) => Ok(node),
        None => new_node(draft, known, name),
    }
}

// The same of a name that isn't at hand, but is from now on.
#[inline(never)]
fn new_node<'a>(
    draft: &NetDraft,
    known: &mut KnownTexts<'a>,
    name: &Word<'a>,
) -> Result<NodeId, LineError>
    requires known { Knows draft.now known.old }
    ensures known { Knows draft.now known.new }
    ensures node { IfOk result (λ node. node_in draft.now name.now ≡ Ok node.0) }
    ensures within { IfOk result (λ node. node.0 < length draft.now.nodes) }
    ensures bad { IfErr result (IsRefusedAs (node_in draft.now name.now)) }
{
    let node = node_of(draft, name.text())?;
    known.note_node(name.copy(), node);
    Ok(node)
}

/// The nodes of two names, which differ.
pub fn nodes_of(
    draft: &NetDraft,
    listener: &[u8],
    speaker: &[u8],
) -> Result<(NodeId, NodeId), LineError>
    ensures nodes { IfOk result (λ ends. ends_in draft.now listener.now speaker.now ≡ Ok (ends.0.0, ends.1.0)) }
    ensures ends { IfOk result (λ ends. AreEnds draft.now ends.0.0 ends.1.0) }
    ensures bad { IfErr result (IsRefusedAs (ends_in draft.now listener.now speaker.now)) }
{
    let tail = node_of(draft, listener)?;
    let head = node_of(draft, speaker)?;
    if tail == head {
        return Err(LineError::Bad(NetKind::SelfArc));
    }
    Ok((tail, head))
}

// The same, where names that were met before are at hand.
#[inline(always)]
fn known_nodes<'a>(
    draft: &NetDraft,
    known: &mut KnownTexts<'a>,
    listener: &Word<'a>,
    speaker: &Word<'a>,
) -> Result<(NodeId, NodeId), LineError>
    requires known { Knows draft.now known.old }
    ensures known { Knows draft.now known.new }
    ensures nodes { IfOk result (λ ends. ends_in draft.now listener.now speaker.now ≡ Ok (ends.0.0, ends.1.0)) }
    ensures ends { IfOk result (λ ends. AreEnds draft.now ends.0.0 ends.1.0) }
    ensures bad { IfErr result (IsRefusedAs (ends_in draft.now listener.now speaker.now)) }
{
    let tail = known_node(draft, known, listener)?;
    let head = known_node(draft, known, speaker)?;
    if tail == head {
        return Err(LineError::Bad(NetKind::SelfArc));
    }
    Ok((tail, head))
}

/// The fault of a line with these names, if they are names: else it is a bad line.
pub fn fault_after(kind: NetKind, names: &[u8]) -> LineError
    ensures { result ≡ Bad (fault_after_names kind (words_of names.now)) }
{
    if are_all_names(names) {
        LineError::Bad(kind)
    } else {
        LineError::Bad(NetKind::BadLine)
    }
}

// Whether a name is one of a node, or stands twice.
#[tactic(auto, using(crate::proofs::NameLists::twice_first))]
fn has_twice(draft: &NetDraft, names: &[u8]) -> bool
    ensures { result ≡ names_twice draft.now.nodes (words_of names.now) }
{
    let mut rest = names;
    while let Some((name, others)) = split_word(rest) {
        if draft.node_named(name).is_some() || has_word(others, name) {
            return true;
        }
        rest = others;
    }
    false
}

// The fault of a new name, and those after it, where no node may be added.
fn fault_of_full(draft: &NetDraft, name: &[u8], others: &[u8]) -> LineError
    requires name { is_name name.now ≡ true }
    requires absent { number_of draft.now.nodes name.now ≡ None }
    requires full { max_nodes draft.now.alg.edition ≤ length draft.now.nodes }
    ensures { IsRefusedAs (after_names draft.now (name.now ∷ words_of others.now)) result }
{
    if has_word(others, name) || has_twice(draft, others) {
        fault_after(NetKind::NodeTwice, others)
    } else {
        fault_after(NetKind::TooMany(What::Nodes), others)
    }
}

// Adds a node of the first name of a line. The others are those after it.
#[tactic(auto, using(crate::proofs::NameLists::names_more, crate::proofs::NameLists::names_there, crate::proofs::KnownNames::nodes_more))]
fn add_first(draft: &mut NetDraft, name: &[u8], others: &[u8]) -> Result<(), LineError>
    ensures arcs { HasSameArcs draft.old draft.new }
    ensures nodes { KeepsNodes draft.old draft.new }
    ensures ok { OnOk result (
        after_names draft.old (name.now ∷ words_of others.now) ≡ after_names draft.new (words_of others.now)) }
    ensures bad { IfErr result (IsRefusedAs (after_names draft.old (name.now ∷ words_of others.now))) }
{
    if !is_name(name) {
        return Err(LineError::Bad(NetKind::BadLine));
    }
    if draft.node_named(name).is_some() {
        return Err(fault_after(NetKind::NodeTwice, others));
    }
    if draft.node_count() >= max_nodes(draft.edition()) {
        return Err(fault_of_full(draft, name, others));
    }
    draft.add_node(name)?;
    Ok(())
}

// Adds nodes of the names that are the words of the text.
#[inline(never)]
fn add_nodes(draft: &mut NetDraft, names: &[u8]) -> Result<(), LineError>
    ensures arcs { HasSameArcs draft.old draft.new }
    ensures nodes { KeepsNodes draft.old draft.new }
    ensures ok { OnOk result (after_names draft.old (words_of names.now) ≡ Ok draft.new) }
    ensures bad { IfErr result (IsRefusedAs (after_names draft.old (words_of names.now))) }
{
    let mut rest = names;
    while let Some((name, others)) = split_word(rest) {
        add_first(draft, name, others)?;
        rest = others;
    }
    // To count its nodes is to know that the draft has no more of them than it may.
    let _ = draft.node_count();
    Ok(())
}

// Adds an arc, with the label that the text spells, where so many arcs may be added. After an error it may have
// been added.
#[inline(always)]
fn add_arc<'a>(
    alloc: Global,
    draft: &mut NetDraft,
    known: &mut KnownTexts<'a>,
    ends: (NodeId, NodeId),
    text: &Word<'a>,
    count: usize,
) -> Result<(), LineError>
    requires ends { AreEnds draft.old ends.0.0 ends.1.0 }
    requires absent { has_arc draft.old ends.0.0 ends.1.0 ≡ false }
    requires count { 0 < count × count ≤ 2 }
    requires known { Knows draft.old known.old }
    ensures known { Knows draft.new known.new }
    ensures ok { OnOk result (IsLinked draft.old text.now ends.0.0 ends.1.0 count draft.new) }
    ensures bad { (made : PureLabel → PureNet) → IfErr result (IsRefusedAs
        (and_then (label_in spelled draft.old.alg text.now)
        (λ l. if_room (has_room_for_arcs draft.old count) Arcs (made l)))) }
{
    let (tail, head) = ends;
    let id = ArcId(draft.arc_count() as u32);
    if let Some(like) = known.arc_of(text) {
        check_room(draft, count)?;
        draft.add_arc_like(tail, head, like)?;
        return Ok(());
    }
    let literal = text.text();
    let label = label_of(alloc, draft.alg(), literal)?;
    check_room(draft, count)?;
    draft.add_arc(tail, head, label)?;
    known.note_arc(literal, id)?;
    Ok(())
}

// There is room for so many arcs more.
fn check_room(draft: &NetDraft, count: usize) -> Result<(), LineError>
    requires { count ≤ 2 }
    ensures room { OnOk result (has_room_for_arcs draft.now count ≡ true) }
    ensures full { OnErr result (has_room_for_arcs draft.now count ≡ false) }
    ensures fault { IfErr result (λ e. e ≡ Bad (TooMany Arcs)) }
{
    if draft.arc_count() + count > MAX_ARCS {
        return Err(LineError::Bad(NetKind::TooMany(What::Arcs)));
    }
    Ok(())
}

/// Adds the arcs that a line asks for, with the label that its text spells. After an error some of it may have been added.
pub fn add_arcs<'a>(
    alloc: Global,
    draft: &mut NetDraft,
    known: &mut KnownTexts<'a>,
    line: &ArcLine<'a>,
) -> Result<(), LineError>
    requires known { Knows draft.old known.old }
    ensures known { Knows draft.new known.new }
    ensures ok { OnOk result (after_arc_line draft.old line.now ≡ Ok draft.new) }
    ensures bad { IfErr result (IsRefusedAs (after_arc_line draft.old line.now)) }
{
    match line.ways {
        Ways::One => add_link(alloc, draft, known, line),
        Ways::Both => add_both(alloc, draft, known, line),
    }
}

// Adds the arc between the nodes of two names.
fn add_link<'a>(
    alloc: Global,
    draft: &mut NetDraft,
    known: &mut KnownTexts<'a>,
    line: &ArcLine<'a>,
) -> Result<(), LineError>
    requires known { Knows draft.old known.old }
    ensures known { Knows draft.new known.new }
    ensures ok { OnOk result (
        after_link spelled draft.old line.now.listener line.now.speaker line.now.label ≡ Ok draft.new) }
    ensures bad { IfErr result (IsRefusedAs (
        after_link spelled draft.old line.now.listener line.now.speaker line.now.label)) }
{
    let (tail, head) = known_nodes(draft, known, &line.listener, &line.speaker)?;
    if draft.has_arc(tail, head) {
        return Err(LineError::Bad(NetKind::ArcTwice));
    }
    add_arc(alloc, draft, known, (tail, head), &line.label, 1)
}

// Adds that arc, and the one back.
#[inline(never)]
fn add_both<'a>(
    alloc: Global,
    draft: &mut NetDraft,
    known: &mut KnownTexts<'a>,
    line: &ArcLine<'a>,
) -> Result<(), LineError>
    requires known { Knows draft.old known.old }
    ensures known { Knows draft.new known.new }
    ensures ok { OnOk result (
        after_both spelled draft.old line.now.listener line.now.speaker line.now.label ≡ Ok draft.new) }
    ensures bad { IfErr result (IsRefusedAs (
        after_both spelled draft.old line.now.listener line.now.speaker line.now.label)) }
{
    let (tail, head) = known_nodes(draft, known, &line.listener, &line.speaker)?;
    if draft.has_arc(tail, head) || draft.has_arc(head, tail) {
        return Err(LineError::Bad(NetKind::ArcTwice));
    }
    let like = ArcId(draft.arc_count() as u32);
    add_arc(alloc, draft, known, (tail, head), &line.label, 2)?;
    draft.add_arc_like(head, tail, like)?;
    Ok(())
}

// Adds an origin at the node of a name, with the value that the text spells.
#[inline(never)]
fn add_origin(
    alloc: Global,
    draft: &mut NetDraft,
    dest: &[u8],
    node: &[u8],
    value: &[u8],
) -> Result<(), LineError>
    requires { is_name dest.now ≡ true }
    ensures arcs { HasSameArcs draft.old draft.new }
    ensures nodes { KeepsNodes draft.old draft.new }
    ensures ok { OnOk result (after_origin spelled draft.old dest.now node.now value.now ≡ Ok draft.new) }
    ensures bad { IfErr result (IsRefusedAs (after_origin spelled draft.old dest.now node.now value.now)) }
{
    let node = node_of(draft, node)?;
    let known = draft.dest_named(dest);
    if has_origin(draft, known, node) {
        return Err(LineError::Bad(NetKind::OriginTwice));
    }
    let value = value_of(alloc, draft.alg(), value)?;
    match known {
        Some(id) => draft.add_origin_of(id, node, value)?,
        None => add_first_origin(draft, dest, node, value)?,
    }
    Ok(())
}

// Whether the destination, if it is there, has an origin at the node.
fn has_origin(draft: &NetDraft, dest: Option<DestId>, node: NodeId) -> bool
    ensures { result ≡ has_origin_of draft.now (option_map (λ dest. dest.0) dest) node.0 }
{
    match dest {
        Some(dest) => draft.has_origin(dest, node),
        None => false,
    }
}

// Adds an origin of a new destination.
fn add_first_origin(
    draft: &mut NetDraft,
    dest: &[u8],
    node: NodeId,
    value: Value,
) -> Result<(), LineError>
    requires name { is_name dest.now ≡ true }
    requires absent { number_of draft.old.dests dest.now ≡ None }
    requires node { node.0 < length draft.old.nodes }
    requires value { In (carrier_of draft.old.alg.expression) (pure_value value) }
    requires small { AtMost (greatest_number draft.old.alg.edition) (pure_value value) }
    ensures arcs { HasSameArcs draft.old draft.new }
    ensures nodes { KeepsNodes draft.old draft.new }
    ensures ok { OnOk result (one_origin draft.old dest.now node.0 (pure_value value) ≡ Ok draft.new) }
    ensures bad { IfErr result (IsRefusedAs (one_origin draft.old dest.now node.0 (pure_value value))) }
{
    let count = draft.dest_count();
    if count >= max_dests(draft.edition()) {
        return Err(LineError::Bad(NetKind::TooMany(What::Dests)));
    }
    draft.add_dest(dest)?;
    draft.add_origin_of(DestId(count as u32), node, value)?;
    Ok(())
}
