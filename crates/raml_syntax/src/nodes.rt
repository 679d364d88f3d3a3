// The nodes of a tree that is being read.
ghost use Rattle.std.specs.Prelude.{◌≡◌, ◌≤◌, ◌<◌, ◌+◌, IfErr, OnOk};
ghost use Rattle.raml_syntax.specs.declared.faults.AlgError.TheVariants.{Bad};
ghost use Rattle.raml_syntax.specs.declared.faults.ExprKind.TheVariants.{TooLarge};

use crate::expect::refused;
use crate::{AlgError, ExprKind};
use alg_model::MAX_TREE_NODES;
use meta_base::Place;

/// Counts the node of the word at the place.
pub fn count_node(nodes: &mut usize, place: Place) -> Result<(), AlgError>
    requires { nodes.old ≤ MAX_TREE_NODES }
    ensures counted { OnOk result (nodes.new ≡ nodes.old + 1) }
    ensures room { OnOk result (nodes.old + 1 ≤ MAX_TREE_NODES) }
    ensures full { IfErr result (λ e. MAX_TREE_NODES < nodes.old + 1) }
    ensures fault { IfErr result (λ e. e ≡ Bad (record { kind = TooLarge; place = place })) }
{
    if *nodes == MAX_TREE_NODES {
        return Err(refused(ExprKind::TooLarge, place));
    }
    *nodes += 1;
    Ok(())
}
