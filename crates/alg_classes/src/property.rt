ghost use Rattle.std.specs.Prelude.{◌≡◌};
ghost use Rattle.alg_classes.specs.Facts.{fact_of};
ghost use Rattle.alg_classes.specs.Instances.{pure_property};

use crate::Fact;
use alg_model::{Label, Value};

/// A property of labels. An algebra has it if all its labels have it.
#[derive(Clone, Copy, Debug, PartialEq, Eq)]
pub enum Property {
    /// A label's image is never preferred to the value (Sobrinho 2002).
    Monotone,
    /// The value is always preferred to the label's image (Sobrinho 2005).
    Strict,
    /// A label keeps the order of values (Sobrinho 2002).
    Isotone,
    /// A label makes no values equivalent that weren't (Gurney and Griffin 2007).
    Cancellative,
    /// A label prohibits no value.
    Total,
}

impl Property {
    /// All properties, in the order in which they are printed.
    pub const ALL: [Property; 5] = [
        Property::Monotone,
        Property::Strict,
        Property::Isotone,
        Property::Cancellative,
        Property::Total,
    ];

    /// The fact of a label that the property is.
    pub fn fact(self) -> Fact
        ensures { result ≡ fact_of (pure_property self) }
    {
        match self {
            Property::Monotone => Fact::Monotone,
            Property::Strict => Fact::Strict,
            Property::Isotone => Fact::Isotone,
            Property::Cancellative => Fact::Cancellative,
            Property::Total => Fact::Total,
        }
    }
}

/// Values at which a label doesn't have a property.
#[derive(Debug, Drop)]
pub struct Instance {
    pub property: Property,
    pub label: Label,
    pub first: Value,
    /// The second value, which isotone and cancellative speak of.
    pub second: Option<Value>,
}
