ghost use Rattle.std.specs.Prelude.{◌≡◌, true, false};
ghost use Rattle.alg_model.specs.Expressions.{PureAlg};
ghost use Rattle.alg_model.specs.Formation.{IsAlg};
ghost use Rattle.alg_model.specs.Verdicts.{PureInstance, holds, fails};
ghost use Rattle.topology_file.specs.NetText.{PureNetFile, NetText, IsNetFault, empty_file};
ghost use Rattle.topology_file.specs.declared.faults.NetFault.{NetFault};
ghost use Rattle.wedge_nets.specs.Gadgets.{wedge_file, IsGadget};
ghost use Rattle.wedge_nets.specs.GadgetTexts.{gadget_lines, are_short, gadget_text};

use sig_text::{
    labels_are_reported, printed_labels_are_read_back, printed_values_are_read_back,
    texts_have_one_spelling, values_are_reported,
};
use topology_file::one_text_one_network;

/// The text of each verdict that [`crate::gadget`] gives is a network file over the algebra: where the verdict is no,
/// that of the wedge of the instance's label and value, if its lines are short; else it is a comment alone, and means
/// the network without nodes.
pub fn gadget_texts_are_networks()
    ensures wedge { (alg : PureAlg) (x : PureInstance) → IsAlg alg → IsGadget alg x →
        are_short (gadget_lines alg.expression x) ≡ true →
        NetText (gadget_text alg (fails x)) alg (wedge_file alg x.label x.first) }
    ensures long { (alg : PureAlg) (x : PureInstance) → are_short (gadget_lines alg.expression x) ≡ false →
        NetText (gadget_text alg (fails x)) alg (empty_file alg) }
    ensures yes { (alg : PureAlg) → NetText (gadget_text alg holds) alg (empty_file alg) }
{
    // The label and the value stand in the lines as they are printed.
    texts_have_one_spelling();
    labels_are_reported();
    values_are_reported();
    printed_labels_are_read_back();
    printed_values_are_read_back();
}

/// The text of a wedge means nothing else, and no line of it breaks a rule. So [`topology_file::read_net`] answers the
/// wedge, or that there is no memory for it.
pub fn wedges_are_never_refused()
    ensures only { (alg : PureAlg) (x : PureInstance) (f : PureNetFile) → IsAlg alg → IsGadget alg x →
        are_short (gadget_lines alg.expression x) ≡ true → NetText (gadget_text alg (fails x)) alg f →
        f ≡ wedge_file alg x.label x.first }
    ensures no_fault { (alg : PureAlg) (x : PureInstance) (fault : NetFault) → IsAlg alg → IsGadget alg x →
        are_short (gadget_lines alg.expression x) ≡ true → ¬ IsNetFault (gadget_text alg (fails x)) alg fault }
{
    gadget_texts_are_networks();
    one_text_one_network();
}
