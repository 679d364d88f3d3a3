ghost use Rattle.std.specs.List.{AllByRecursion};
ghost use Rattle.alg_model.specs.Expressions.{PureAlg};
ghost use Rattle.alg_model.specs.Views.{pure_label};
ghost use Rattle.alg_classes.specs.Classes.{ClassOf, HasProfile};
ghost use Rattle.std.specs.Prelude.{OnOk};
ghost use Rattle.alg_classes.specs.Growth.{Only};
ghost use Rattle.profile_labels.specs.Growth.{Grown};
ghost use Rattle.profile_labels.specs.Labels.{IsLabelWith};
ghost use Rattle.profile_labels.specs.Outlines.{OutlinedOf};

use crate::outline::Outline;
use alg_classes::{Class, Profile, Profiled, has_profile};
use alg_model::Label;
use meta_base::{List, NoMemory};
use std::alloc::Global;
use std::rc::Rc;

/// What a label is made of, and its exact facts. It stands for all labels that have its profile.
#[derive(Drop)]
pub(crate) struct Outlined<'a> {
    pub(crate) profile: Profile,
    pub(crate) outline: Rc<Outline<'a>>,
}

impl<'a> Profiled for Outlined<'a> {
    ghost use Rattle.profile_labels.specs.Outlines.{of_outlined};

    ghost profile_of = { of_outlined };

    fn profile(&self) -> &Profile {
        &self.profile
    }
}

// Adds the label, unless its profile is there.
pub(crate) fn add_label(
    alloc: Global,
    list: &mut List<Outlined<'_>>,
    profile: Profile,
    label: Label,
) -> Result<(), NoMemory>
    ensures { (a : PureAlg) → IsLabelWith a (pure_label label) profile → OnOk result
        (Grown (OutlinedOf a) (Only profile) list.old list.new) }
{
    if has_profile(list.as_slice(), &profile) {
        return Ok(());
    }
    let outline = Rc::new(alloc, Outline::Whole(label))?;
    list.push(Outlined { profile, outline })
}

// Adds the labels of the classes.
pub(crate) fn add_labels(
    alloc: Global,
    list: &mut List<Outlined<'_>>,
    classes: &[Class],
) -> Result<(), NoMemory>
    ensures { (a : PureAlg) → AllByRecursion (ClassOf a) classes.now → OnOk result
        (Grown (OutlinedOf a) (HasProfile classes.now) list.old list.new) }
{
    match classes {
        [] => Ok(()),
        [class, rest @ ..] => {
            add_label(alloc, list, class.profile, class.label.copy(alloc)?)?;
            add_labels(alloc, list, rest)
        }
    }
}
