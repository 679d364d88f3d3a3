// The lines of judgements and of next hops.
ghost use Rattle.std.specs.Prelude.{◌≡◌, ◌++◌, Some, codes, map, IfOk, OnOk};
ghost use Rattle.alg_classes.specs.Instances.{pure_instance};
ghost use Rattle.meta_base.specs.Appending.{Gains};
ghost use Rattle.net_graph.specs.RowTexts.{AreNodesOf, IsRouteIn, path_text};
ghost use Rattle.net_graph.specs.Views.{pure_route};
ghost use Rattle.report_check.specs.Judged.{beaten, better, no_walk, not_offered, unsettled};
ghost use Rattle.report_check.specs.Views.{pure_hops, pure_judgement, pure_optimal, pure_stable};
ghost use Rattle.report_text.specs.JudgedTexts.{CanPrintHops, CanPrintJudgement, CanPrintOptimal, CanPrintStable, IsRowName, hops_text, judgement_text, optimal_text, row_names, stability_text, ways_text};
ghost use Rattle.report_text.specs.Refusals.{CanMiss};

use crate::refusals::push_misses_line;
use crate::rows::{push_dest, push_node, push_path, push_route};
use alg_classes::Instance;
use meta_base::{ArcId, DestId, NoMemory, NodeId, Text};
use net_graph::{Net, Route};
use report_check::{Judgement, ManyHops, OptimalFinding, StableFinding};
use sig_text::push_value;
use std::alloc::Global;

// The names of a row's node and destination.
fn push_names(out: &mut String, net: &Net, node: NodeId, dest: DestId) -> Result<(), NoMemory>
    requires { IsRowName net.now node.0 dest.0 }
    ensures { OnOk result (Gains out.old (row_names net.now node.0 dest.0) out.new) }
{
    push_node(out, net, node)?;
    out.push(' ')?;
    push_dest(out, net, dest)
}

// The names of the row that a finding is about, between these words.
fn push_about(
    out: &mut String,
    net: &Net,
    node: NodeId,
    dest: DestId,
    before: &str,
    after: &str,
) -> Result<(), NoMemory>
    requires { IsRowName net.now node.0 dest.0 }
    ensures { OnOk result (Gains out.old (before.now ++ row_names net.now node.0 dest.0 ++ after.now) out.new) }
{
    out.push_str(before)?;
    push_names(out, net, node, dest)?;
    Ok(out.push_str(after)?)
}

// The line on a row whose path is no walk of its value.
fn push_no_walk(out: &mut String, net: &Net, node: NodeId, dest: DestId) -> Result<(), NoMemory>
    requires { IsRowName net.now node.0 dest.0 }
    ensures { OnOk result (Gains out.old (optimal_text net.now (no_walk node.0 dest.0)) out.new) }
{
    let after = " isn't a walk of that value\n";
    push_about(out, net, node, dest, "optimal no: ", after)
}

// The line on a row that a walk beats.
fn push_beaten(
    out: &mut String,
    net: &Net,
    node: NodeId,
    dest: DestId,
    walk: &[NodeId],
) -> Result<(), NoMemory>
    requires row { IsRowName net.now node.0 dest.0 }
    requires walk { AreNodesOf net.now (map (λ node. node.0) walk.now) }
    ensures { OnOk result (Gains out.old
        (optimal_text net.now (beaten node.0 dest.0 (map (λ node. node.0) walk.now))) out.new) }
{
    push_about(out, net, node, dest, "optimal no: ", " is beaten by")?;
    push_path_end(out, net, walk)?;
    Ok(())
}

// The names of the nodes of a path, at the end of a line.
fn push_path_end(out: &mut String, net: &Net, path: &[NodeId]) -> Result<(), NoMemory>
    requires { AreNodesOf net.now (map (λ node. node.0) path.now) }
    ensures { OnOk result (Gains out.old (path_text net.now (map (λ node. node.0) path.now) ++ codes "\n") out.new) }
{
    push_path(out, net, path)?;
    Ok(out.push_str("\n")?)
}

// The line on routes that a label leaves open.
fn push_unsettled(
    alloc: Global,
    out: &mut String,
    net: &Net,
    arc: ArcId,
    instance: &Instance,
) -> Result<(), NoMemory>
    requires { CanMiss arc.0 (pure_instance instance.now) (Some net.now) }
    ensures { OnOk result (Gains out.old
        (optimal_text net.now (unsettled arc.0 (pure_instance instance.now))) out.new) }
{
    out.push_str("optimal open: ")?;
    push_misses_line(alloc, out, net, arc, instance)
}

// The line on how good the routes are.
fn push_optimal(
    alloc: Global,
    out: &mut String,
    net: &Net,
    finding: &OptimalFinding,
) -> Result<(), NoMemory>
    requires { CanPrintOptimal net.now (pure_optimal finding.now) }
    ensures { OnOk result (Gains out.old (optimal_text net.now (pure_optimal finding.now)) out.new) }
{
    match finding {
        OptimalFinding::Yes => Ok(out.push_str("optimal yes\n")?),
        OptimalFinding::NoWalk { node, dest } => push_no_walk(out, net, *node, *dest),
        OptimalFinding::Beaten { node, dest, walk } => {
            push_beaten(out, net, *node, *dest, walk.as_slice())
        }
        OptimalFinding::Unsettled { arc, instance } => {
            push_unsettled(alloc, out, net, *arc, instance)
        }
    }
}

// The line on a row whose route nothing offers.
fn push_not_offered(out: &mut String, net: &Net, node: NodeId, dest: DestId) -> Result<(), NoMemory>
    requires { IsRowName net.now node.0 dest.0 }
    ensures { OnOk result (Gains out.old (stability_text net.now (not_offered node.0 dest.0)) out.new) }
{
    push_about(out, net, node, dest, "stable no: ", " isn't offered\n")
}

// The line on a row that has a better offer.
fn push_better(
    out: &mut String,
    net: &Net,
    node: NodeId,
    dest: DestId,
    offer: &Route,
) -> Result<(), NoMemory>
    requires row { IsRowName net.now node.0 dest.0 }
    requires offer { IsRouteIn net.now (pure_route offer.now) }
    ensures { OnOk result (Gains out.old
        (stability_text net.now (better node.0 dest.0 (pure_route offer.now))) out.new) }
{
    let after = " has the better offer ";
    push_about(out, net, node, dest, "stable no: ", after)?;
    push_route(out, net, Some(offer))?;
    Ok(out.push_str("\n")?)
}

// The line on whether they are stable.
fn push_stability(out: &mut String, net: &Net, finding: &StableFinding) -> Result<(), NoMemory>
    requires { CanPrintStable net.now (pure_stable finding.now) }
    ensures { OnOk result (Gains out.old (stability_text net.now (pure_stable finding.now)) out.new) }
{
    match finding {
        StableFinding::Yes => Ok(out.push_str("stable yes\n")?),
        StableFinding::NotOffered { node, dest } => push_not_offered(out, net, *node, *dest),
        StableFinding::Better { node, dest, offer } => push_better(out, net, *node, *dest, offer),
    }
}

/// The two lines of a judgement: whether no walk beats the routes that were judged, and whether they are stable. All
/// that they name is the network's. It is refused for want of memory alone.
pub fn judgement_lines(alloc: Global, net: &Net, judgement: &Judgement) -> Result<Text, NoMemory>
    requires { CanPrintJudgement net.now (pure_judgement judgement.now) }
    ensures { IfOk result (λ text. text ≡ judgement_text net.now (pure_judgement judgement.now)) }
{
    let mut out = String::new(alloc);
    push_optimal(alloc, &mut out, net, &judgement.optimal)?;
    push_stability(&mut out, net, &judgement.stable)?;
    Ok(Text::from_string(out))
}

/// Appends the line of a row with all next hops that are equally good: `NODE DEST VALUE`, then `here` where an origin of
/// the node is as good, then the names of the next hops; or `NODE DEST none`. It is refused for want of memory alone; what
/// the text holds then isn't said.
pub fn push_hops_line(out: &mut String, net: &Net, hops: &ManyHops) -> Result<(), NoMemory>
    requires { CanPrintHops net.now (pure_hops hops.now) }
    ensures { OnOk result (Gains out.old (hops_text net.now (pure_hops hops.now)) out.new) }
{
    push_names(out, net, hops.node, hops.dest)?;
    out.push(' ')?;
    push_ways(out, net, hops)?;
    Ok(out.push('\n')?)
}

/// For a line alone; the program appends it to a text. The line of a row with its next hops, as [`push_hops_line`]
/// appends it. It is refused for want of memory alone.
pub fn hops_line(alloc: Global, net: &Net, hops: &ManyHops) -> Result<Text, NoMemory>
    requires { CanPrintHops net.now (pure_hops hops.now) }
    ensures { IfOk result (λ text. text ≡ hops_text net.now (pure_hops hops.now)) }
{
    let mut out = String::new(alloc);
    push_hops_line(&mut out, net, hops)?;
    Ok(Text::from_string(out))
}

// The value and the next hops of a row, or the word none.
fn push_ways(out: &mut String, net: &Net, hops: &ManyHops) -> Result<(), NoMemory>
    requires { CanPrintHops net.now (pure_hops hops.now) }
    ensures { OnOk result (Gains out.old
        (ways_text net.now (pure_hops hops.now) (pure_hops hops.now).value) out.new) }
{
    let Some(value) = &hops.value else {
        return Ok(out.push_str("none")?);
    };
    push_value(out, net.alg(), value)?;
    if hops.here {
        out.push_str(" here")?;
    }
    push_path(out, net, hops.heads.as_slice())
}
