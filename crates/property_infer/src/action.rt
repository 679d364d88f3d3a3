// What acts on the values of a part of an algebra.
ghost use Rattle.std.specs.Prelude.{◌≡◌};
ghost use Rattle.alg_classes.specs.Profiles.{IsProfile};
ghost use Rattle.alg_model.specs.Views.{expression_of};
ghost use Rattle.alg_model.specs.declared.edition.Edition.{Edition};
ghost use Rattle.property_infer.specs.Asked.{part_of, carrier_under, action_of, IsAction};

use crate::labels::part_profile;
use alg_classes::{Profile, constant_profile, denied_profile, kept_profile};
use alg_model::{Label, Tree, Value};

/// What acts on the values of a part of an algebra. A label of an operator does by two of them, one for each part.
#[derive(Clone, Copy, Debug)]
pub(crate) enum Action<'a> {
    /// What the label of the part does.
    OfLabel(&'a Tree, &'a Label),
    /// Sends every value of the part to this one.
    Constant(&'a Tree, &'a Value),
    /// Keeps every value of the part.
    Keep(&'a Tree),
    /// Sends every value of the part to none.
    Deny(&'a Tree),
}

impl<'a> Action<'a> {
    // The part.
    pub(crate) fn part(self) -> &'a Tree
        ensures { expression_of result.now ≡ part_of self.entry }
    {
        match self {
            Action::OfLabel(part, _) => part,
            Action::Constant(part, _) => part,
            Action::Keep(part) => part,
            Action::Deny(part) => part,
        }
    }

    // The exact facts of the action. It takes no memory.
    pub(crate) fn profile(self) -> Profile
        requires { (e : Edition) × IsAction e self }
        ensures { IsProfile (carrier_under self.entry) (action_of self.entry) result }
    {
        match self {
            Action::OfLabel(part, label) => part_profile(part, label),
            Action::Constant(part, value) => constant_profile(part, value),
            Action::Keep(part) => kept_profile(part),
            Action::Deny(_) => denied_profile(),
        }
    }
}
