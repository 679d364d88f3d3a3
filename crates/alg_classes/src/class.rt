use crate::Profile;
use alg_model::{Label, Value};

/// One example for each fact that fails, and none for those that hold.
#[derive(Debug, Drop)]
pub struct Examples {
    /// A value that has an image, where the label isn't dead.
    pub inside: Option<Value>,
    /// A value that is sent to none, where the label isn't total.
    pub outside: Option<Value>,
    /// Its image is preferred to it.
    pub not_mono: Option<Value>,
    /// It has an image, and isn't preferred to that.
    pub not_strict: Option<Value>,
    /// The second isn't preferred to the first, and its image is preferred to that of the first.
    pub not_iso: Option<(Value, Value)>,
    /// The first is preferred to the second, and their images are equivalent.
    pub not_canc: Option<(Value, Value)>,
    /// The image of the first is preferred to that of the second.
    pub not_cond: Option<(Value, Value)>,
    /// The first is preferred to the second, and both have images.
    pub not_narrow: Option<(Value, Value)>,
}

/// A label, its exact facts, and an example for each that fails. It stands for all labels that have its
/// profile.
#[derive(Debug, Drop)]
pub struct Class {
    pub profile: Profile,
    pub label: Label,
    pub examples: Examples,
}
