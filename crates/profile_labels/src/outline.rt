ghost use Rattle.std.specs.Prelude.{◌≡◌, IfOk};
ghost use Rattle.alg_model.specs.Views.{pure_label};
ghost use Rattle.profile_labels.specs.Outlines.{outline_label};

use crate::extreme::Extreme;
use crate::part::Part;
use alg_model::Label;
use meta_base::NoMemory;
use std::alloc::Global;
use std::rc::Rc;

/// What a label is made of. All labels that are made of one share it, so each takes room for its topmost node alone, and
/// only those that are wanted are made.
#[derive(Drop)]
pub(crate) enum Outline<'a> {
    /// This label, of an algebra whose labels aren't made of those of parts.
    Whole(Label),
    Pair(Rc<Outline<'a>>, Rc<Outline<'a>>),
    Both(Rc<Outline<'a>>, Rc<Outline<'a>>),
    First(Rc<Outline<'a>>),
    Second(Rc<Outline<'a>>),
    /// Changes the first part of a pair, and sets the second, this one, to the value at that end.
    Outer(Rc<Outline<'a>>, Part<'a>, Extreme),
    Inner(Rc<Outline<'a>>),
}

impl Outline<'_> {
    // The label. It is refused for want of memory alone.
    pub(crate) fn label(&self, alloc: Global) -> Result<Label, NoMemory>
        ensures { IfOk result (λ label. pure_label label ≡ outline_label self.now) }
    {
        Ok(match self {
            Outline::Whole(label) => label.copy(alloc)?,
            Outline::Pair(l, m) => Label::Pair(
                Box::new(alloc, l.label(alloc)?)?,
                Box::new(alloc, m.label(alloc)?)?,
            ),
            Outline::Both(l, m) => Label::Both(
                Box::new(alloc, l.label(alloc)?)?,
                Box::new(alloc, m.label(alloc)?)?,
            ),
            Outline::First(l) => Label::First(Box::new(alloc, l.label(alloc)?)?),
            Outline::Second(m) => Label::Second(Box::new(alloc, m.label(alloc)?)?),
            Outline::Outer(l, second, end) => {
                Label::Outer(Box::new(alloc, l.label(alloc)?)?, end.value(alloc, second)?)
            }
            Outline::Inner(m) => Label::Inner(Box::new(alloc, m.label(alloc)?)?),
        })
    }
}
