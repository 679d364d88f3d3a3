// The lines of refusals.
ghost use Rattle.std.specs.Prelude.{◌≡◌, ◌<◌, Option, Some, None, length, OnOk, IfOk};
ghost use Rattle.meta_base.specs.Appending.{Gains};
ghost use Rattle.alg_classes.specs.Instances.{pure_instance};
ghost use Rattle.net_graph.specs.Views.{pure_arc};
ghost use Rattle.report_text.specs.VerdictTexts.{CanPrint};
ghost use Rattle.report_text.specs.Refusals.{words, expr, network, report, misses, read, long, memory, pure_refusal, which_text, arc_text, ends_text, misses_text, refusal_text};
ghost use Rattle.net_graph.specs.Nets.{PureNet};

use crate::rows::push_node;
use crate::verdicts::{push_instance, word_of};
use alg_classes::Instance;
use meta_base::{ArcId, NoMemory, Text, Which, push_number};
use net_graph::{Arc, Net};
use raml_syntax::ExprFault;
use report_check::ReportFault;
use std::alloc::Global;
use topology_file::NetFault;

/// Why the program does nothing of what it is asked, but for an arc whose label doesn't have a property:
/// [`misses_line`].
#[derive(Clone, Copy, Debug)]
pub enum Refusal {
    /// The words mean no command: the number of what is wrong with them; printed after a C.
    Words(u8),
    /// The expression file means no algebra; its kind is printed after an X.
    Expr(ExprFault),
    /// The network file means no network; its kind is printed after an N.
    Network(NetFault),
    /// The report means no tables; its kind is printed after a V.
    Report(ReportFault),
    /// That file can't be read.
    Read(Which),
    /// That file has more bytes than [`meta_base::MAX_FILE_BYTES`].
    Long(Which),
    /// There is no memory for it.
    Memory,
}

fn words_line(alloc: Global, number: u8) -> Result<Text, NoMemory>
    ensures { IfOk result (λ text. text ≡ refusal_text (words number) None) }
{
    let mut out = String::new(alloc);
    out.push_str("words refused: C")?;
    push_number(&mut out, u128::from(number))?;
    out.push_str("\n")?;
    Ok(Text::from_string(out))
}

fn expr_line(alloc: Global, fault: ExprFault) -> Result<Text, NoMemory>
    ensures { IfOk result (λ text. text ≡ refusal_text (expr fault) None) }
{
    let mut out = String::new(alloc);
    out.push_str("expression refused: X")?;
    push_number(&mut out, u128::from(fault.kind.number()))?;
    out.push_str(" at ")?;
    push_number(&mut out, u128::from(fault.place.line))?;
    out.push_str(":")?;
    push_number(&mut out, u128::from(fault.place.column))?;
    out.push_str("\n")?;
    Ok(Text::from_string(out))
}

fn network_line(alloc: Global, fault: NetFault) -> Result<Text, NoMemory>
    ensures { IfOk result (λ text. text ≡ refusal_text (network fault) None) }
{
    let mut out = String::new(alloc);
    out.push_str("network refused: N")?;
    push_number(&mut out, u128::from(fault.kind.number()))?;
    out.push_str(" at line ")?;
    push_number(&mut out, u128::from(fault.line))?;
    out.push_str("\n")?;
    Ok(Text::from_string(out))
}

fn report_line(alloc: Global, fault: ReportFault) -> Result<Text, NoMemory>
    ensures { IfOk result (λ text. text ≡ refusal_text (report fault) None) }
{
    let mut out = String::new(alloc);
    out.push_str("report refused: V")?;
    push_number(&mut out, u128::from(fault.kind.number()))?;
    out.push_str(" at line ")?;
    push_number(&mut out, u128::from(fault.line))?;
    out.push_str("\n")?;
    Ok(Text::from_string(out))
}

// The names of the arc's listener and of its speaker.
pub(crate) fn push_arc(out: &mut String, net: &Net, arc: ArcId) -> Result<(), NoMemory>
    requires { arc.0 < length net.now.arcs }
    ensures { OnOk result (Gains out.old (arc_text net.now arc.0) out.new) }
{
    push_ends(out, net, &net.arc(arc))
}

// The same of an arc that is lent.
pub(crate) fn push_ends(out: &mut String, net: &Net, arc: &Arc<'_>) -> Result<(), NoMemory>
    requires tail { arc.now.tail.0 < length net.now.nodes }
    requires head { arc.now.head.0 < length net.now.nodes }
    ensures { OnOk result (Gains out.old (ends_text net.now (Some (pure_arc arc.now))) out.new) }
{
    push_node(out, net, arc.tail)?;
    out.push_str(" ")?;
    push_node(out, net, arc.head)
}

/// The one line of an arc of the network whose label doesn't have a property, which the instance shows: it names the
/// listener and then the speaker. It is refused for want of memory alone.
pub fn misses_line(
    alloc: Global,
    net: &Net,
    arc: ArcId,
    instance: &Instance,
) -> Result<Text, NoMemory>
    requires arc { arc.0 < length net.now.arcs }
    requires instance { CanPrint net.now.alg.expression (pure_instance instance.now) }
    ensures { IfOk result (λ text. text ≡ refusal_text (misses arc.0 (pure_instance instance.now)) (Some net.now)) }
{
    let mut out = String::new(alloc);
    push_misses_line(alloc, &mut out, net, arc, instance)?;
    Ok(Text::from_string(out))
}

// That line, after what stands there.
pub(crate) fn push_misses_line(
    alloc: Global,
    out: &mut String,
    net: &Net,
    arc: ArcId,
    instance: &Instance,
) -> Result<(), NoMemory>
    requires arc { arc.0 < length net.now.arcs }
    requires instance { CanPrint net.now.alg.expression (pure_instance instance.now) }
    ensures { OnOk result (Gains out.old (misses_text arc.0 (pure_instance instance.now) (Some net.now)) out.new) }
{
    out.push_str(word_of(instance.property))?;
    out.push_str(" fails on ")?;
    push_arc(out, net, arc)?;
    out.push_str(": ")?;
    push_instance(alloc, out, net.alg(), instance)?;
    Ok(out.push_str("\n")?)
}

fn which_word(which: Which) -> &'static str
    ensures { result.now ≡ which_text which }
{
    match which {
        Which::Expr => "expression",
        Which::Network => "network",
        Which::Report => "report",
    }
}

fn read_line(alloc: Global, which: Which) -> Result<Text, NoMemory>
    ensures { IfOk result (λ text. text ≡ refusal_text (read which) None) }
{
    let mut out = String::new(alloc);
    out.push_str("read fault on the ")?;
    out.push_str(which_word(which))?;
    out.push_str("\n")?;
    Ok(Text::from_string(out))
}

fn long_line(alloc: Global, which: Which) -> Result<Text, NoMemory>
    ensures { IfOk result (λ text. text ≡ refusal_text (long which) None) }
{
    let mut out = String::new(alloc);
    out.push_str("too long: the ")?;
    out.push_str(which_word(which))?;
    out.push_str("\n")?;
    Ok(Text::from_string(out))
}

/// The one line of a refusal, which needs no network. It is refused for want of memory alone.
pub fn refusal_line(alloc: Global, refusal: Refusal) -> Result<Text, NoMemory>
    ensures { (net : Option PureNet) → IfOk result (λ text. text ≡ refusal_text (pure_refusal refusal) net) }
{
    match refusal {
        Refusal::Words(number) => words_line(alloc, number),
        Refusal::Expr(fault) => expr_line(alloc, fault),
        Refusal::Network(fault) => network_line(alloc, fault),
        Refusal::Report(fault) => report_line(alloc, fault),
        Refusal::Read(which) => read_line(alloc, which),
        Refusal::Long(which) => long_line(alloc, which),
        Refusal::Memory => Ok(Text::copy(alloc, "out of memory\n")?),
    }
}
