// The lines of generated networks.
ghost use Rattle.std.specs.Prelude.{◌≡◌, ◌≤◌, ◌-◌, map, OnOk};
ghost use Rattle.meta_base.specs.Appending.{Gains};
ghost use Rattle.topology_file.specs.LineTexts.{ended, text_of};
ghost use Rattle.net_gen.specs.Generated.{node_name, node_line, link_line, node_lines, links_of, links_to};

use crate::draws::Draws;
use crate::links::Link;
use meta_base::{NoMemory, push_number};

// The name of a node.
fn push_name(out: &mut String, node: u32) -> Result<(), NoMemory>
    ensures { OnOk result (Gains out.old (node_name node) out.new) }
{
    out.push_str("n")?;
    push_number(out, u128::from(node))
}

fn push_node(out: &mut String, node: u32) -> Result<(), NoMemory>
    ensures { OnOk result (Gains out.old (ended (node_line node)) out.new) }
{
    out.push_str("node ")?;
    push_name(out, node)?;
    Ok(out.push_str("\n")?)
}

fn push_link(out: &mut String, link: Link) -> Result<(), NoMemory>
    ensures { OnOk result (Gains out.old (ended (link_line link)) out.new) }
{
    out.push_str("link ")?;
    push_name(out, link.listener)?;
    out.push_str(" ")?;
    push_name(out, link.speaker)?;
    out.push_str(" : ")?;
    push_number(out, u128::from(link.weight))?;
    Ok(out.push_str("\n")?)
}

// The lines of the links of a node, which isn't the first one.
fn push_links(out: &mut String, draws: &mut Draws, node: u32) -> Result<(), NoMemory>
    requires { 1 ≤ node }
    ensures lines { OnOk result
        (Gains out.old (text_of (map link_line (links_of node draws.old.state).links)) out.new) }
    ensures state { draws.new.state ≡ (links_of node draws.old.state).state }
{
    let (first, second) = draws.links(node);
    push_link(out, first)?;
    if let Some(link) = second {
        push_link(out, link)?;
    }
    Ok(())
}

/// Appends the lines of so many nodes. After a refusal a front of them may be there.
pub fn push_nodes(out: &mut String, nodes: u32) -> Result<(), NoMemory>
    ensures { OnOk result (Gains out.old (text_of (node_lines nodes)) out.new) }
{
    for node in 0..nodes {
        push_node(out, node)?;
    }
    Ok(())
}

/// Appends the lines of the links between so many nodes. After a refusal a front of them may be there.
pub fn push_all_links(out: &mut String, seed: u64, nodes: u32) -> Result<(), NoMemory>
    requires { 1 ≤ nodes }
    ensures { OnOk result (Gains out.old (text_of (map link_line (links_to seed (nodes - 1)).links)) out.new) }
{
    let mut draws = Draws { state: seed };
    for node in 1..nodes {
        push_links(out, &mut draws, node)?;
    }
    Ok(())
}
