ghost use Rattle.std.specs.Prelude.{◌≡◌};
ghost use Rattle.alg_classes.specs.Instances.{pure_property};
ghost use Rattle.alg_model.specs.Verdicts.{verdict_on};
ghost use Rattle.property_infer.specs.Views.{pure_verdict, pure_verdicts};

use alg_classes::{Instance, Property};

/// Whether a property holds.
#[derive(Debug, Drop)]
pub enum Verdict {
    /// It holds of all labels that were asked about.
    Yes,
    /// It fails of one of them, at these values.
    No(Instance),
}

/// A verdict on each property.
#[derive(Debug, Drop)]
pub struct Verdicts {
    pub monotone: Verdict,
    pub strict: Verdict,
    pub isotone: Verdict,
    pub cancellative: Verdict,
    pub total: Verdict,
}

impl Verdicts {
    /// Lends the verdict on that property.
    pub fn on(&self, property: Property) -> &Verdict
        ensures { pure_verdict result.now ≡ verdict_on (pure_verdicts self.now) (pure_property property) }
    {
        match property {
            Property::Monotone => &self.monotone,
            Property::Strict => &self.strict,
            Property::Isotone => &self.isotone,
            Property::Cancellative => &self.cancellative,
            Property::Total => &self.total,
        }
    }
}
