ghost use Rattle.std.specs.Prelude.{◌≡◌, ◌≤◌, ℕ, List, length};
ghost use Rattle.alg_model.specs.Expressions.{PureAlg};
ghost use Rattle.net_graph.specs.Changes.{AreChanges};
ghost use Rattle.net_graph.specs.Limits.{max_changes};
ghost use Rattle.topology_file.specs.NetText.{PureNetFile, NetText, HasOneOutcome};

use sig_text::{spelled_labels_are_labels, texts_have_one_spelling};

/// Each text means one network with its changes over an algebra, or has one fault there, and not both. So
/// what [`crate::read_net`] answers, where it isn't for want of memory, is the only answer.
pub fn one_text_one_network()
    ensures { (text : List ℕ) (alg : PureAlg) → HasOneOutcome text alg }
{
    // All literals spell what they spell.
    texts_have_one_spelling();
}

/// The network of a text is over the algebra that it was read over.
pub fn networks_keep_their_algebra()
    ensures { (text : List ℕ) (alg : PureAlg) (f : PureNetFile) → NetText text alg f → f.net.alg ≡ alg }
{
    // The labels of changes are the algebra's.
    spelled_labels_are_labels();
}

/// A text has no more changes than the algebra's edition allows, and each is one that the network after
/// those before it may have.
pub fn changes_of_texts_may_be_made()
    ensures few { (text : List ℕ) (alg : PureAlg) (f : PureNetFile) → NetText text alg f →
        length f.changes ≤ max_changes alg.edition }
    ensures may { (text : List ℕ) (alg : PureAlg) (f : PureNetFile) → NetText text alg f →
        AreChanges f.net f.changes }
{
    // The labels of changes are the algebra's.
    spelled_labels_are_labels();
}
