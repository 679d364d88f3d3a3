// The verdicts on an algebra, and on one of its labels.
ghost use Rattle.std.specs.Prelude.{◌≡◌, IfOk};
ghost use Rattle.alg_model.specs.Application.{IsLabel};
ghost use Rattle.alg_model.specs.Bounds.{LabelAtMost, greatest_number};
ghost use Rattle.alg_model.specs.declared.alg.TheConstants.{MAX_INSTANCE_NUMBER};
ghost use Rattle.alg_model.specs.Instances.{VerdictsAtMost};
ghost use Rattle.alg_model.specs.Verdicts.{ExactFor};
ghost use Rattle.alg_model.specs.Views.{pure_label};
ghost use Rattle.property_infer.specs.Views.{pure_verdicts};

use crate::{Verdicts, add_label, verdicts_of};
use alg_model::{Alg, Label};
use meta_base::{List, NoMemory};
use profile_labels::deciding_labels;
use std::alloc::Global;

/// The exact verdicts on an algebra: each property holds of all its labels, or an instance shows that one of
/// them doesn't have it. No number of an instance's label is above the greatest of the algebra's edition, and none of
/// its values above [`alg_model::MAX_INSTANCE_NUMBER`]. They are refused for want of memory alone.
pub fn verdicts(alloc: Global, alg: &Alg) -> Result<Verdicts, NoMemory>
    ensures exact { IfOk result (λ verdicts.
        ExactFor alg.now.expression (IsLabel alg.now.expression) (pure_verdicts verdicts)) }
    ensures bound { IfOk result (λ verdicts.
        VerdictsAtMost (greatest_number alg.now.edition) MAX_INSTANCE_NUMBER (pure_verdicts verdicts)) }
{
    let labels = deciding_labels(alloc, alg)?;
    verdicts_of(alloc, alg, labels.as_slice())
}

/// The exact verdicts on one label of the algebra: each property holds of it, or an instance of it shows that
/// it doesn't. The bounds are those of [`verdicts`], so no number of the label is above the greatest of the
/// algebra's edition. They are refused for want of memory alone.
pub fn label_verdicts(alloc: Global, alg: &Alg, label: &Label) -> Result<Verdicts, NoMemory>
    requires label { IsLabel alg.now.expression (pure_label label.now) }
    requires small { LabelAtMost (greatest_number alg.now.edition) (pure_label label.now) }
    ensures exact { IfOk result (λ verdicts.
        ExactFor alg.now.expression (λ l. l ≡ pure_label label.now) (pure_verdicts verdicts)) }
    ensures bound { IfOk result (λ verdicts.
        VerdictsAtMost (greatest_number alg.now.edition) MAX_INSTANCE_NUMBER (pure_verdicts verdicts)) }
{
    let mut labels = List::new(alloc);
    add_label(alloc, alg, label, &mut labels)?;
    verdicts_of(alloc, alg, labels.as_slice())
}
