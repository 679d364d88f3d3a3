ghost use Rattle.std.specs.Prelude.{◌≡◌};
ghost use Rattle.profile_labels.specs.Steps.{joint_profile};

use alg_classes::Profile;
use lex_classes::lex_profile;
use union_classes::sum_profile;

/// An operator each label of which joins two, one of each part.
#[derive(Clone, Copy, Debug)]
pub(crate) enum Joint {
    Lex,
    Sum,
}

impl Joint {
    // The profile of two labels joined.
    pub(crate) fn profile(self, first: &Profile, second: &Profile) -> Profile
        ensures { result ≡ joint_profile self first.now second.now }
    {
        match self {
            Joint::Lex => lex_profile(first, second),
            Joint::Sum => sum_profile(first, second),
        }
    }
}
