// All labels that cover an algebra.
ghost use Rattle.std.specs.Prelude.{IfOk, OnOk};
ghost use Rattle.std.specs.List.{AllByRecursion};
ghost use Rattle.alg_model.specs.Expressions.{PureAlg};
ghost use Rattle.profile_labels.specs.Deciding.{AreGrown};
ghost use Rattle.profile_labels.specs.Labels.{CoversBy};
ghost use Rattle.profile_labels.specs.Outlines.{OutlinedOf};

use crate::Labelled;
use crate::outlined::Outlined;
use crate::parts::part_labels;
use alg_classes::has_profile;
use alg_model::Alg;
use meta_base::{List, NoMemory};
use std::alloc::Global;

/// For whoever wants all profiles of an algebra; the program takes the labels that decide it. Labels of the algebra, each
/// with its profile: one for each profile that a label of it has. They are refused for want of memory alone.
pub fn covering_labels(alloc: Global, alg: &Alg) -> Result<List<Labelled>, NoMemory>
    ensures { IfOk result (CoversBy alg.now) }
{
    let outlines = part_labels(alloc, alg, alg.tree())?;
    let mut labels = List::new(alloc);
    make_labels(alloc, &mut labels, outlines.as_slice())?;
    Ok(labels)
}

// Adds the labels that are outlined, unless their profiles are there.
fn make_labels(
    alloc: Global,
    labels: &mut List<Labelled>,
    outlines: &[Outlined<'_>],
) -> Result<(), NoMemory>
    ensures { (a : PureAlg) → AllByRecursion (OutlinedOf a) outlines.now → OnOk result
        (AreGrown a outlines.now labels.old labels.new) }
{
    match outlines {
        [] => Ok(()),
        [first, rest @ ..] => {
            if has_profile(labels.as_slice(), &first.profile) {
                return make_labels(alloc, labels, rest);
            }
            let label = first.outline.label(alloc)?;
            labels.push(Labelled {
                profile: first.profile,
                label,
            })?;
            make_labels(alloc, labels, rest)
        }
    }
}
