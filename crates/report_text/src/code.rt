// The lines of compiled code.
ghost use Rattle.std.specs.Prelude.{◌≡◌, ◌++◌, ℕ, List, length, option_map, codes, decimal, OnOk, IfOk};
ghost use Rattle.meta_base.specs.Appending.{Gains};
ghost use Rattle.net_graph.specs.Nets.{IsArcOf};
ghost use Rattle.net_graph.specs.Views.{pure_arc};
ghost use Rattle.report_text.specs.CodeTexts.{CanList, arc_code_text, arc_line_text, arcs_text, code_text, entries_text, entry_text, lines_from, op_text, operation_text, ord_op_text, order_line_text, order_text, ranks_text};

use crate::refusals::push_ends;
use alg_model::Alg;
use code_gen::{LabelCodes, Listing};
use label_code::{Op, OrdOp, OrderCode, Word};
use meta_base::{ArcId, NoMemory, Text, push_number};
use net_graph::{Arc, Net};
use sig_text::push_label;
use std::alloc::Global;

const ORDER_LINE: &str = "order\n";

/// An operation of a code, which is printed on a line of its own.
pub trait Operation {
    /// Its printed form.
    ghost text: { Self → List ℕ };

    /// Appends its printed form. After a refusal a front of that may be there.
    fn push_to(&self, out: &mut String) -> Result<(), NoMemory>
        ensures { OnOk result (Gains out.old (text self.now) out.new) };
}

impl Operation for Op {
    ghost text = { op_text };

    fn push_to(&self, out: &mut String) -> Result<(), NoMemory> {
        match self {
            Op::Add(n) => push_with(out, "add ", *n),
            Op::Cap(n, top) => {
                push_with(out, "cap ", *n)?;
                push_with(out, " ", *top)
            }
            Op::Max(n) => push_with(out, "max ", *n),
            Op::Min(n) => push_with(out, "min ", *n),
            Op::Copy => Ok(out.push_str("copy")?),
            Op::Drop => Ok(out.push_str("drop")?),
            Op::CopySeq => Ok(out.push_str("copyseq")?),
            Op::DropSeq => Ok(out.push_str("dropseq")?),
            Op::Emit(n) => push_with(out, "emit ", *n),
            Op::Append(symbol) => push_with(out, "append ", *symbol),
            Op::Fresh(symbol) => push_with(out, "fresh ", *symbol),
            Op::SetBit(k) => push_with(out, "set ", Word::from(*k)),
            Op::ClearBit(k) => push_with(out, "clear ", Word::from(*k)),
            Op::NeedBit(k) => push_with(out, "need ", Word::from(*k)),
            Op::BarBit(k) => push_with(out, "bar ", Word::from(*k)),
            Op::Look(entries) => {
                out.push_str("look")?;
                push_entries(out, entries.as_slice())
            }
            Op::Deny => Ok(out.push_str("deny")?),
            Op::Fork(jump) => push_with(out, "fork ", *jump as Word),
            Op::Test(jump) => push_with(out, "test ", *jump as Word),
            Op::Skip(jump) => push_with(out, "skip ", *jump as Word),
        }
    }
}

impl Operation for OrdOp {
    ghost text = { ord_op_text };

    fn push_to(&self, out: &mut String) -> Result<(), NoMemory> {
        match self {
            OrdOp::Less => Ok(out.push_str("less")?),
            OrdOp::More => Ok(out.push_str("more")?),
            OrdOp::Length => Ok(out.push_str("length")?),
            OrdOp::Pass => Ok(out.push_str("pass")?),
            OrdOp::Rank(ranks) => {
                out.push_str("rank")?;
                push_ranks(out, ranks.as_slice())
            }
            OrdOp::Sides(jump) => push_with(out, "sides ", *jump as Word),
            OrdOp::Leap(jump) => push_with(out, "skip ", *jump as Word),
        }
    }
}

// A number after what begins it.
fn push_with(out: &mut String, start: &str, n: Word) -> Result<(), NoMemory>
    ensures { OnOk result (Gains out.old (start.now ++ decimal n) out.new) }
{
    out.push_str(start)?;
    push_number(out, n)
}

// The ranks, each after a space.
fn push_ranks(out: &mut String, ranks: &[Word]) -> Result<(), NoMemory>
    ensures { OnOk result (Gains out.old (ranks_text ranks.now) out.new) }
{
    match ranks {
        [] => Ok(()),
        [rank, rest @ ..] => {
            push_with(out, " ", *rank)?;
            push_ranks(out, rest)
        }
    }
}

// The entries, each after a space.
fn push_entries(out: &mut String, entries: &[Option<Word>]) -> Result<(), NoMemory>
    ensures { OnOk result (Gains out.old (entries_text entries.now) out.new) }
{
    match entries {
        [] => Ok(()),
        [entry, rest @ ..] => {
            push_entry(out, *entry)?;
            push_entries(out, rest)
        }
    }
}

fn push_entry(out: &mut String, entry: Option<Word>) -> Result<(), NoMemory>
    ensures { OnOk result (Gains out.old (codes " " ++ entry_text entry) out.new) }
{
    match entry {
        Some(word) => push_with(out, " ", word),
        None => Ok(out.push_str(" -")?),
    }
}

// The lines of operations.
fn push_operations<T: Operation>(out: &mut String, code: &[T]) -> Result<(), NoMemory>
    ensures { OnOk result (Gains out.old (lines_from T.text 0 code.now) out.new) }
{
    for (place, operation) in code.iter().enumerate() {
        push_operation(out, place, operation)?;
    }
    Ok(())
}

fn push_operation<T: Operation>(
    out: &mut String,
    place: usize,
    operation: &T,
) -> Result<(), NoMemory>
    ensures { OnOk result (Gains out.old (operation_text T.text place operation.now) out.new) }
{
    push_number(out, place as u128)?;
    out.push_str(" ")?;
    operation.push_to(out)?;
    Ok(out.push_str("\n")?)
}

/// For a line alone; the program appends it to a text. The line of an operation, with its place in its code, from 0. It
/// is refused for want of memory alone.
pub fn operation_line<T: Operation>(
    alloc: Global,
    place: usize,
    operation: &T,
) -> Result<Text, NoMemory>
    ensures { IfOk result (λ text. text ≡ operation_text T.text place operation.now) }
{
    let mut out = String::new(alloc);
    push_operation(&mut out, place, operation)?;
    Ok(Text::from_string(out))
}

/// For a line alone; the program appends it to a text. The line before the operations of the order. It is refused for
/// want of memory alone.
pub fn order_line(alloc: Global) -> Result<Text, NoMemory>
    ensures { IfOk result (λ text. text ≡ order_line_text) }
{
    Text::copy(alloc, ORDER_LINE)
}

fn push_order(out: &mut String, order: &OrderCode) -> Result<(), NoMemory>
    ensures { OnOk result (Gains out.old (order_text order.now) out.new) }
{
    out.push_str(ORDER_LINE)?;
    push_operations(out, order.as_slice())
}

fn push_arc_line(out: &mut String, alg: &Alg, net: &Net, arc: &Arc<'_>) -> Result<(), NoMemory>
    requires arc { IsArcOf net.now.alg (length net.now.nodes) (pure_arc arc.now) }
    requires algebra { net.now.alg ≡ alg.now }
    ensures { OnOk result (Gains out.old (arc_line_text alg.now.expression net.now (pure_arc arc.now)) out.new) }
{
    out.push_str("arc ")?;
    push_ends(out, net, arc)?;
    out.push_str(" ")?;
    push_label(out, alg, arc.label)?;
    Ok(out.push_str("\n")?)
}

/// For a line alone; the program appends it to a text. The line of an arc of a network over the algebra: its listener,
/// its speaker and its label. It is refused for want of memory alone.
pub fn arc_line(alloc: Global, alg: &Alg, net: &Net, arc: &Arc<'_>) -> Result<Text, NoMemory>
    requires arc { IsArcOf net.now.alg (length net.now.nodes) (pure_arc arc.now) }
    requires algebra { net.now.alg ≡ alg.now }
    ensures { IfOk result (λ text. text ≡ arc_line_text alg.now.expression net.now (pure_arc arc.now)) }
{
    let mut out = String::new(alloc);
    push_arc_line(&mut out, alg, net, arc)?;
    Ok(Text::from_string(out))
}

// The line of an arc, and those of its label's code.
fn push_arc_code(
    out: &mut String,
    alg: &Alg,
    net: &Net,
    arc: &Arc<'_>,
    code: &[Op],
) -> Result<(), NoMemory>
    requires arc { IsArcOf net.now.alg (length net.now.nodes) (pure_arc arc.now) }
    requires algebra { net.now.alg ≡ alg.now }
    ensures { OnOk result (Gains out.old
        (arc_code_text alg.now.expression net.now (pure_arc arc.now) code.now) out.new) }
{
    push_arc_line(out, alg, net, arc)?;
    push_operations(out, code)
}

// The same of each arc of the network.
fn push_arcs(out: &mut String, alg: &Alg, net: &Net, labels: &LabelCodes) -> Result<(), NoMemory>
    requires algebra { net.now.alg ≡ alg.now }
    requires labels { length labels.now ≡ length net.now.arcs }
    ensures { OnOk result (Gains out.old (arcs_text alg.now.expression net.now net.now.arcs labels.now) out.new) }
{
    for arc in 0..net.arc_count() {
        push_arc_code(out, alg, net, &net.arc(ArcId(arc as u32)), labels.code(arc))?;
    }
    Ok(())
}

/// The lines of a listing of an algebra's code: those of the order's operations, each with its place, and, where
/// there is a network, for each of its arcs in file order a line that names the listener, the speaker and the label,
/// and those of the label's operations. The network is over the algebra, and the listing has a label's code for each
/// of its arcs, and none where there is no network. They are refused for want of memory alone.
pub fn code_lines(
    alloc: Global,
    alg: &Alg,
    net: Option<&Net>,
    listing: &Listing,
) -> Result<Text, NoMemory>
    requires { CanList alg.now (option_map (λ net. net.now) net) listing.now }
    ensures { IfOk result (λ text.
        text ≡ code_text alg.now.expression (option_map (λ net. net.now) net.entry) listing.now) }
{
    let mut out = String::new(alloc);
    push_order(&mut out, &listing.order)?;
    if let Some(net) = net {
        push_arcs(&mut out, alg, net, &listing.labels)?;
    }
    Ok(Text::from_string(out))
}
