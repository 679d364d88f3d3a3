// The lines of rows with their next hop.
ghost use Rattle.std.specs.Prelude.{◌<◌, length, option_map, IfSome, OnOk};
ghost use Rattle.distance_node.specs.Rows.{IsHopRowOf, pure_hop_row};
ghost use Rattle.meta_base.specs.Appending.{Gains};
ghost use Rattle.report_text.specs.HopTexts.{hop_row_text, hop_text, next_text};

use crate::rows::{push_dest, push_node};
use distance_node::HopRow;
use meta_base::{NoMemory, NodeId};
use net_graph::Net;
use sig_text::push_value;

// The name of a next hop, or the word here.
fn push_next(out: &mut String, net: &Net, next: Option<NodeId>) -> Result<(), NoMemory>
    requires { IfSome (option_map (λ n. n.0) next) (λ j. j < length net.now.nodes) }
    ensures { OnOk result (Gains out.old (next_text net.now (option_map (λ n. n.0) next)) out.new) }
{
    match next {
        None => Ok(out.push_str(" here")?),
        Some(node) => {
            out.push_str(" via ")?;
            push_node(out, net, node)
        }
    }
}

// The value and the next hop of a row, or the word none.
fn push_hop(out: &mut String, net: &Net, row: &HopRow) -> Result<(), NoMemory>
    requires { IsHopRowOf net.now (pure_hop_row row.now) }
    ensures { OnOk result (Gains out.old
        (hop_text net.now (pure_hop_row row.now).value (pure_hop_row row.now).next) out.new) }
{
    let Some(value) = &row.value else {
        return Ok(out.push_str("none")?);
    };
    push_value(out, net.alg(), value)?;
    push_next(out, net, row.next)
}

/// Appends the line of a row with its next hop: `NODE DEST VALUE via NEXT`, `NODE DEST VALUE here` where the value is the
/// node's own origin's, or `NODE DEST none`. It is refused for want of memory alone; what the text holds then isn't said.
pub fn push_hop_row_line(out: &mut String, net: &Net, row: &HopRow) -> Result<(), NoMemory>
    requires { IsHopRowOf net.now (pure_hop_row row.now) }
    ensures { OnOk result (Gains out.old (hop_row_text net.now (pure_hop_row row.now)) out.new) }
{
    push_node(out, net, row.node)?;
    out.push(' ')?;
    push_dest(out, net, row.dest)?;
    out.push(' ')?;
    push_hop(out, net, row)?;
    Ok(out.push('\n')?)
}
