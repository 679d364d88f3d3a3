// Marks of nodes, a bit for each.
ghost use Rattle.std.specs.Prelude.{◌≡◌, ◌<◌, ◌/◌, ◌==◌, ◌||◌, ℕ, length};
ghost use Rattle.path_vector.specs.Marks.{is_marked};

use meta_base::NodeId;
use net_graph::MOST_NODES;

// How many nodes a word has marks of.
pub(crate) const WORD_BITS: u32 = u64::BITS;

// How many words have marks of the nodes of any network.
pub(crate) const MARK_WORDS: usize = MOST_NODES / WORD_BITS as usize;

// Whether the node is marked.
pub(crate) fn is_marked(words: &[u64], node: NodeId) -> bool
    requires { node.0 / WORD_BITS < length words.now }
    ensures { result ≡ is_marked words.now node.0 }
{
    (words[(node.0 / WORD_BITS) as usize] >> (node.0 % WORD_BITS)) & 1 == 1
}

// Marks the node.
pub(crate) fn mark(words: &mut [u64], node: NodeId)
    requires { node.0 / WORD_BITS < length words.old }
    ensures count { length words.new ≡ length words.old }
    ensures marked { (i : ℕ) → is_marked words.new i ≡ (is_marked words.old i || node.0 == i) }
{
    words[(node.0 / WORD_BITS) as usize] |= 1 << (node.0 % WORD_BITS);
}
