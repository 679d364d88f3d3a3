use alg_classes::{Profile, Profiled};
use alg_model::Label;

/// A label, and its exact facts. It stands for all labels that have its profile.
#[derive(Debug, Drop)]
pub struct Labelled {
    pub profile: Profile,
    pub label: Label,
}

impl Profiled for Labelled {
    ghost use Rattle.profile_labels.specs.Labels.{of_label};

    ghost profile_of = { of_label };

    fn profile(&self) -> &Profile {
        &self.profile
    }
}
