ghost use Rattle.std.specs.Prelude.{◌≡◌, IfOk};
ghost use Rattle.meta_base.specs.Numbers.{max_demo_nodes, min_demo_nodes};
ghost use Rattle.net_gen.specs.Generated.{AreDemoNodes, Generated};

use crate::lines::{push_all_links, push_nodes};
use meta_base::{NoMemory, Text};
use std::alloc::Global;

/// The fewest nodes of a generated network.
pub const MIN_DEMO_NODES: u32 = 2;

/// The most nodes of a generated network: as many as a network of profile 1 may have.
pub const MAX_DEMO_NODES: u32 = 512;

/// The bounds of generated networks are the numbers of the specification.
pub fn numbers_are_specified()
    ensures fewest { MIN_DEMO_NODES ≡ min_demo_nodes }
    ensures most { MAX_DEMO_NODES ≡ max_demo_nodes }
{}

// The most bytes of the line of a node and the lines of its links, and the lines of the origins.
const MOST_NODE_BYTES: usize = 48;

const ORIGIN_LINES: &str = "origin x0 at n0 : 0\norigin x1 at n1 : 0\n";

/// The text of a network file over `add(1..9)` with so many nodes, [`MIN_DEMO_NODES`] to [`MAX_DEMO_NODES`].
///
/// The nodes are `n0`, `n1` and so on. The node of number k, from 1 on, listens to nodes before it of one group,
/// whose numbers leave the rest of k - 1 by 5: to `n0` alone where that rest is 0, and else to two that are drawn,
/// or to one where both draws are the same. Labels are drawn too, 1 to 9. `x0` has an origin of value 0 at `n0`,
/// and `x1` one at `n1`. Draws are those of Knuth's MMIX linear congruential generator from the seed on.
///
/// It is refused for want of memory alone.
pub fn network_text(alloc: Global, seed: u64, nodes: u32) -> Result<Text, NoMemory>
    requires nodes { AreDemoNodes nodes }
    ensures { IfOk result (λ text. text ≡ Generated seed nodes) }
{
    let mut out = String::with_capacity(
        alloc,
        nodes as usize * MOST_NODE_BYTES + ORIGIN_LINES.len(),
    )?;
    push_nodes(&mut out, nodes)?;
    push_all_links(&mut out, seed, nodes)?;
    out.push_str(ORIGIN_LINES)?;
    Ok(Text::from_string(out))
}
