ghost use Rattle.std.specs.Prelude.{◌≡◌, ℕ, ◌+◌, Some};
ghost use Rattle.alg_model.specs.Application.{IsLabel, App};
ghost use Rattle.alg_model.specs.Bounds.{AtMost, LabelAtMost};
ghost use Rattle.alg_model.specs.Carriers.{carrier_of, In};
ghost use Rattle.alg_model.specs.Expressions.{Expression, PureCarrier, PureLabel, PureValue};
ghost use Rattle.alg_model.specs.Formation.{IsFormed, IsCarrier};
ghost use Rattle.alg_model.specs.Preorder.{IsTotalPreorder};
ghost use Rattle.alg_model.specs.Properties.{Has};
ghost use Rattle.alg_model.specs.Scoped.{IsUnscoped};
ghost use Rattle.alg_model.specs.Verdicts.{PureInstance, Violates};

/// An instance that violates a property shows that its label doesn't have it, so no label is both said to
/// have a property and shown to violate it.
#[tactic(auto, using(crate::proofs::Refuted::refuted))]
pub fn violations_refute()
    ensures { (a : Expression) (x : PureInstance) → Violates a x → ¬ Has x.property a x.label }
{}

/// Preference is a total preorder on each carrier (Griffin and Sobrinho 2005).
#[tactic(auto, using(crate::specs::Laws::total_preorder))]
pub fn preference_is_total_preorder()
    ensures { (c : PureCarrier) → IsTotalPreorder c }
{}

/// What a label of an algebra makes of a value of its carrier is in the carrier too.
#[tactic(auto, using(crate::specs::Laws::images_in))]
pub fn images_are_values()
    ensures { (a : Expression) (l : PureLabel) (v w : PureValue) → IsFormed a → IsLabel a l →
        In (carrier_of a) v → App a l v ≡ Some w → In (carrier_of a) w }
{}

/// The carrier of an algebra is one that an algebra may have, and so are its parts.
#[tactic(auto, using(crate::specs::CarrierLaws::carriers_are))]
pub fn carriers_are_carriers()
    ensures { (a : Expression) → IsFormed a → IsCarrier (carrier_of a) }
{}

/// No number of what a label makes of a value is above the greatest number of the value and the
/// greatest of the label together, so a hop adds at most the greatest number of a text.
#[tactic(auto, using(crate::specs::Laws::images_at_most))]
pub fn images_are_bounded()
    ensures { (a : Expression) (l : PureLabel) (v w : PureValue) (m n : ℕ) → IsLabel a l → LabelAtMost n l →
        AtMost m v → App a l v ≡ Some w → AtMost (m + n) w }
{}

/// A scoped product has the values of the function union of two lexical products, and its labels are
/// theirs under other names (Gurney and Griffin 2007).
#[tactic(auto, using(crate::specs::Laws::scoped_is_a_union))]
pub fn scoped_is_a_union_of_lexical_products()
    ensures { (a b : Expression) → IsUnscoped a b }
{}
