ghost use Rattle.std.specs.Prelude.{◌≡◌, ◌≤◌, IfSome};
ghost use Rattle.alg_model.specs.Carriers.{carrier_of};
ghost use Rattle.alg_model.specs.Views.{expression_of};
ghost use Rattle.label_code.specs.declared.words.TheConstants.{HERE};
ghost use Rattle.code_gen.specs.Widths.{few, width_of};

use alg_model::{Alg, Form, Tree};
use label_code::HERE;

/// How many words each value of the algebra has, where all have the same few, at most [`HERE`]. It is `None` where
/// there are sequences or sides.
pub fn row_width(alg: &Alg) -> Option<usize>
    ensures { result ≡ width_of (carrier_of alg.now.expression) }
{
    width(alg.tree())
}

// The same of the tree's carrier.
#[cycle(width)]
fn width(tree: &Tree) -> Option<usize>
    ensures width { result ≡ width_of (carrier_of (expression_of tree.now)) }
    ensures few { IfSome result (λ width. width ≤ HERE) }
{
    match tree.value_form() {
        Form::Whole | Form::UpTo(_) | Form::DownFrom(_) | Form::Sets(_) | Form::Named(_, _) => {
            Some(1)
        }
        Form::One => Some(0),
        Form::Pair(a, b) => few(width(a), width(b)),
        Form::Seqs(_) | Form::SimSeqs(_) | Form::Side(_, _) => None,
    }
}

// The sum of both, where there are both and it is small.
fn few(a: Option<usize>, b: Option<usize>) -> Option<usize>
    requires first { IfSome a (λ width. width ≤ HERE) }
    requires second { IfSome b (λ width. width ≤ HERE) }
    ensures sum { result ≡ few a b }
    ensures few { IfSome result (λ width. width ≤ HERE) }
{
    match (a, b) {
        (Some(m), Some(n)) if m + n <= HERE => Some(m + n),
        _ => None,
    }
}
