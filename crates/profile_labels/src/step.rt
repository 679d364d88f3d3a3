// How labels of an operator come from those of a part.
ghost use Rattle.std.specs.Prelude.{◌≡◌, IfOk, OnOk};
ghost use Rattle.std.specs.List.{AllByRecursion};
ghost use Rattle.alg_model.specs.Expressions.{PureAlg};
ghost use Rattle.alg_classes.specs.Growth.{Only};
ghost use Rattle.profile_labels.specs.Growth.{Grown, Over};
ghost use Rattle.profile_labels.specs.Outlines.{OutlinedOf, outline_label};
ghost use Rattle.profile_labels.specs.Steps.{Joins, Makes, joint_profile, step_label, step_profile};

use crate::extreme::Extreme;
use crate::joint::Joint;
use crate::outline::Outline;
use crate::outlined::Outlined;
use crate::part::Part;
use alg_classes::{Profile, has_profile, pair_profile};
use meta_base::{List, NoMemory};
use std::alloc::Global;
use std::rc::Rc;
use union_classes::{union_first_profile, union_second_profile};

/// What makes a label of an operator of one of a part.
#[derive(Drop)]
pub(crate) enum Step<'s, 'a> {
    /// It is joined after this label of the first part.
    After(Joint, &'s Outlined<'a>),
    UnionFirst,
    UnionSecond,
    PlusFirst,
    PlusSecond,
    /// The second part is set to its value at this end, which has the profile.
    Outer(Part<'a>, Extreme, Profile),
    /// The first part is kept, which has this profile.
    Inner(Profile),
}

impl<'s, 'a> Step<'s, 'a> {
    // The profile of what is made, which takes no memory.
    fn profile(&self, part: &Profile) -> Profile
        ensures { result ≡ step_profile self.now part.now }
    {
        match self {
            Step::After(joint, first) => joint.profile(&first.profile, part),
            Step::UnionFirst => union_first_profile(part),
            Step::UnionSecond => union_second_profile(part),
            Step::PlusFirst | Step::PlusSecond => *part,
            Step::Outer(_, _, set) => pair_profile(part, set),
            Step::Inner(kept) => pair_profile(kept, part),
        }
    }

    // The outline of the label that is made.
    fn outline(&self, part: &Rc<Outline<'a>>) -> Result<Outline<'a>, NoMemory>
        ensures { IfOk result (λ made. outline_label made ≡ step_label self.now (outline_label part.now.value)) }
    {
        let part = Rc::clone(part)?;
        Ok(match self {
            Step::After(Joint::Lex, first) => Outline::Pair(Rc::clone(&first.outline)?, part),
            Step::After(Joint::Sum, first) => Outline::Both(Rc::clone(&first.outline)?, part),
            Step::UnionFirst | Step::PlusFirst => Outline::First(part),
            Step::UnionSecond | Step::PlusSecond => Outline::Second(part),
            Step::Outer(second, end, _) => Outline::Outer(part, second.again(), *end),
            Step::Inner(_) => Outline::Inner(part),
        })
    }
}

// Adds the label that the step makes of this one, unless its profile is there: then it isn't made.
fn add_step<'a>(
    alloc: Global,
    list: &mut List<Outlined<'a>>,
    step: &Step<'_, 'a>,
    part: &Outlined<'a>,
) -> Result<(), NoMemory>
    ensures { (a c : PureAlg) → Makes step.now a c → OutlinedOf a part.now → OnOk result
        (Grown (OutlinedOf c) (Only (step_profile step.now part.now.profile)) list.old list.new) }
{
    let profile = step.profile(&part.profile);
    if has_profile(list.as_slice(), &profile) {
        return Ok(());
    }
    let made = step.outline(&part.outline)?;
    let outline = Rc::new(alloc, made)?;
    list.push(Outlined { profile, outline })
}

// Adds those that it makes of all these.
pub(crate) fn add_steps<'a>(
    alloc: Global,
    list: &mut List<Outlined<'a>>,
    step: &Step<'_, 'a>,
    parts: &[Outlined<'a>],
) -> Result<(), NoMemory>
    ensures { (a c : PureAlg) → Makes step.now a c → AllByRecursion (OutlinedOf a) parts.now → OnOk result
        (Grown (OutlinedOf c) (Over (λ p. Only (step_profile step.now p)) parts.now) list.old list.new) }
{
    for part in parts {
        add_step(alloc, list, step, part)?;
    }
    Ok(())
}

// Adds all joined ones, of one label of each of both.
pub(crate) fn add_joined<'a>(
    alloc: Global,
    list: &mut List<Outlined<'a>>,
    joint: Joint,
    xs: &[Outlined<'a>],
    ys: &[Outlined<'a>],
) -> Result<(), NoMemory>
    ensures { (a b c : PureAlg) → Joins joint a b c →
        AllByRecursion (OutlinedOf a) xs.now → AllByRecursion (OutlinedOf b) ys.now → OnOk result
        (Grown (OutlinedOf c) (Over (λ p. Over (λ q. Only (joint_profile joint p q)) ys.now) xs.now)
        list.old list.new) }
{
    for x in xs {
        let step = Step::After(joint, x);
        add_steps(alloc, list, &step, ys)?;
    }
    Ok(())
}
