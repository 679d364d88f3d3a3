ghost use Rattle.std.specs.Prelude.{◌≡◌, ◌<◌, ℕ, length};
ghost use Rattle.topology_file.specs.NetText.{PureNetFile, NetText, IsNetFault};
ghost use Rattle.topology_file.specs.declared.faults.NetFault.{NetFault};
ghost use Rattle.net_gen.specs.Generated.{AreDemoNodes, Generated};
ghost use Rattle.net_gen.specs.Networks.{demo_alg, generated_net, generated_file};

use sig_text::texts_have_one_spelling;
use topology_file::one_text_one_network;

/// A generated text has fewer than 65,536 bytes, which is much less than a file may have.
pub fn generated_texts_are_short()
    ensures { (seed n : ℕ) → AreDemoNodes n → length (Generated seed n) < 65536 }
{}

/// A generated text is that of a network file over `add(1..9)`: it means the network of n nodes and of the links
/// that are drawn, which `generated_net` of specs spells out, and no changes.
pub fn generated_texts_are_networks()
    ensures network { (seed n : ℕ) → AreDemoNodes n →
        NetText (Generated seed n) demo_alg (generated_file seed n) }
    ensures nodes { (seed n : ℕ) → length (generated_net seed n).nodes ≡ n }
{
    // The literals of its lines are read as what they spell.
    texts_have_one_spelling();
}

/// A generated text means nothing else, and no line of it breaks a rule. So [`topology_file::read_net`] answers
/// that network with no changes, or that there is no memory for it.
pub fn generated_texts_are_never_refused()
    ensures only { (seed n : ℕ) (f : PureNetFile) → AreDemoNodes n → NetText (Generated seed n) demo_alg f →
        f ≡ generated_file seed n }
    ensures no_fault { (seed n : ℕ) (fault : NetFault) → AreDemoNodes n →
        ¬ IsNetFault (Generated seed n) demo_alg fault }
{
    texts_have_one_spelling();
    one_text_one_network();
}
