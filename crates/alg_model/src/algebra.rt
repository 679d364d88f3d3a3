ghost use Rattle.std.specs.Prelude.{◌≡◌, ◌≤◌, ◌^◌, ◌+◌, ℕ, IfOk, IfSome, option_map};
ghost use Rattle.alg_model.specs.declared.edition.TheConstants.{MAX_LABEL_NUMBER};
ghost use Rattle.alg_model.specs.declared.alg.TheConstants.{MAX_VALUE_NUMBER};
ghost use Rattle.alg_model.specs.Expressions.{Expression, PureValue, PureLabel};
ghost use Rattle.alg_model.specs.Views.{pure_value, pure_label};
ghost use Rattle.alg_model.specs.Carriers.{carrier_of, In, Order};
ghost use Rattle.alg_model.specs.Application.{IsLabel, App};
ghost use Rattle.alg_model.specs.Bounds.{AtMost, LabelAtMost};
ghost use Rattle.alg_model.specs.Actions.{held};

use crate::{Alg, Label, Value, apply, apply_into, order};
use meta_base::NoMemory;
use std::alloc::Global;
use std::cmp::Ordering;

/// An algebra as a mechanism sees it: values and labels in a form of its own, which is fast to
/// compare and to apply. All mechanisms are generic over it. A mechanism that works on threads asks that the
/// algebra and its labels are `Sync`, and its values `Send`.
pub trait Algebra {
    /// A value in that form.
    type Sig: Drop;

    /// A label in that form.
    type Lab: Drop;

    /// The algebra.
    ghost expression: { Self → Expression };

    /// The value that a `Sig` stands for.
    ghost sig_value: { Self → Self.Sig → PureValue };

    /// The `Sig` stands for a value of the algebra.
    ghost is_sig: { Self → Self.Sig → Type 0 };

    /// The `Lab` stands for this label of the algebra. Two labels may have one form.
    ghost stands_for: { Self → Self.Lab → PureLabel → Type 0 };

    /// The form of a value of the algebra.
    fn sig_of(&self, alloc: Global, value: &Value) -> Result<Self::Sig, NoMemory>
        requires { In (carrier_of (expression self.now)) (pure_value value.now) }
        ensures sig { IfOk result (is_sig self.now) }
        ensures value { IfOk result (λ sig. sig_value self.now sig ≡ pure_value value.now) };

    /// The value that a `Sig` stands for.
    fn value_of(&self, alloc: Global, sig: &Self::Sig) -> Result<Value, NoMemory>
        requires { is_sig self.now sig.now }
        ensures { IfOk result (λ result. pure_value result ≡ sig_value self.now sig.now) };

    /// The form of a label of the algebra, no number of which is above [`crate::MAX_LABEL_NUMBER`].
    fn lab_of(&self, alloc: Global, label: &Label) -> Result<Self::Lab, NoMemory>
        requires label { IsLabel (expression self.now) (pure_label label.now) }
        requires small { LabelAtMost MAX_LABEL_NUMBER (pure_label label.now) }
        ensures { IfOk result (λ lab. stands_for self.now lab (pure_label label.now)) };

    /// A `Sig` for the same value.
    fn copy(&self, alloc: Global, sig: &Self::Sig) -> Result<Self::Sig, NoMemory>
        requires { is_sig self.now sig.now }
        ensures sig { IfOk result (is_sig self.now) }
        ensures value { IfOk result (λ copied. sig_value self.now copied ≡ sig_value self.now sig.now) };

    /// Which of two values is preferred: `Less` is the first. It takes no memory.
    fn order(&self, a: &Self::Sig, b: &Self::Sig) -> Ordering
        requires first { is_sig self.now a.now }
        requires second { is_sig self.now b.now }
        ensures { result ≡
            Order (carrier_of (expression self.now)) (sig_value self.now a.now) (sig_value self.now b.now) };

    /// What the label makes of the value, no number of which is above [`crate::MAX_VALUE_NUMBER`]: a value, or
    /// `None` where it prohibits it. No number of the result is above the greatest of the value plus
    /// [`crate::MAX_LABEL_NUMBER`].
    fn apply(
        &self,
        alloc: Global,
        lab: &Self::Lab,
        sig: &Self::Sig,
    ) -> Result<Option<Self::Sig>, NoMemory>
        requires lab { (l : PureLabel) × stands_for self.now lab.now l }
        requires sig { is_sig self.now sig.now }
        requires small { AtMost MAX_VALUE_NUMBER (sig_value self.now sig.now) }
        ensures sig { IfOk result (λ image. IfSome image (is_sig self.now)) }
        ensures image { (l : PureLabel) → stands_for self.now lab.now l →
            IfOk result (λ image.
            option_map (sig_value self.now) image ≡ App (expression self.now) l (sig_value self.now sig.now)) }
        ensures bound { (n : ℕ) → AtMost n (sig_value self.now sig.now) →
            IfOk result (λ image. IfSome image (λ s. AtMost (n + MAX_LABEL_NUMBER) (sig_value self.now s))) };

    /// What [`Algebra::apply`] makes, put into `out`: `true` where it stands there, and `false` where the label
    /// prohibits the value. Where it isn't `true`, nothing is said of `out`. A mechanism that keeps few of
    /// the values that it is offered makes them here, one after another in one place.
    fn apply_into(
        &self,
        alloc: Global,
        lab: &Self::Lab,
        sig: &Self::Sig,
        out: &mut Self::Sig,
    ) -> Result<bool, NoMemory>
        requires lab { (l : PureLabel) × stands_for self.now lab.now l }
        requires sig { is_sig self.now sig.now }
        requires small { AtMost MAX_VALUE_NUMBER (sig_value self.now sig.now) }
        ensures sig { IfOk result (λ placed. IfSome (held placed out.new) (is_sig self.now)) }
        ensures image { (l : PureLabel) → stands_for self.now lab.now l →
            IfOk result (λ placed. option_map (sig_value self.now) (held placed out.new) ≡
            App (expression self.now) l (sig_value self.now sig.now)) }
        ensures bound { (n : ℕ) → AtMost n (sig_value self.now sig.now) → IfOk result (λ placed.
            IfSome (held placed out.new) (λ s. AtMost (n + MAX_LABEL_NUMBER) (sig_value self.now s))) };

    // What stands for a value stands for one of the algebra.
    ghost sig_in: { (s : Self) (a : Self.Sig) → is_sig s a → In (carrier_of (expression s)) (sig_value s a) };

    // What stands for a label stands for one of the algebra, with small numbers.
    ghost lab_in: { (s : Self) (lab : Self.Lab) (l : PureLabel) → stands_for s lab l →
        IsLabel (expression s) l × LabelAtMost MAX_LABEL_NUMBER l };
}

/// The algebra by its tree: values and labels stand for themselves.
#[derive(Debug, Drop)]
pub struct TreeAlgebra<'a> {
    alg: &'a Alg,
}

impl<'a> TreeAlgebra<'a> {
    /// That algebra, carried out by its tree.
    pub fn new(alg: &'a Alg) -> TreeAlgebra<'a>
        ensures { result.alg.now ≡ alg.now }
    {
        TreeAlgebra { alg }
    }
}

impl<'a> Algebra for TreeAlgebra<'a> {
    type Sig = Value;

    type Lab = Label;

    ghost expression = { λ s. s.alg.now.expression };

    ghost sig_value = { λ s v. pure_value v };

    ghost is_sig = { λ s v. In (carrier_of s.alg.now.expression) (pure_value v) };

    ghost stands_for = { λ s label l.
        (pure_label label ≡ l) × IsLabel s.alg.now.expression l × LabelAtMost MAX_LABEL_NUMBER l };

    ghost sig_in = { λ s v i. i };

    ghost lab_in = { λ s label l i. (i.1, i.2) };

    fn sig_of(&self, alloc: Global, value: &Value) -> Result<Value, NoMemory> {
        value.copy(alloc)
    }

    fn value_of(&self, alloc: Global, sig: &Value) -> Result<Value, NoMemory> {
        sig.copy(alloc)
    }

    fn lab_of(&self, alloc: Global, label: &Label) -> Result<Label, NoMemory> {
        label.copy(alloc)
    }

    fn copy(&self, alloc: Global, sig: &Value) -> Result<Value, NoMemory> {
        sig.copy(alloc)
    }

    fn order(&self, a: &Value, b: &Value) -> Ordering {
        order(self.alg, a, b)
    }

    fn apply(&self, alloc: Global, lab: &Label, sig: &Value) -> Result<Option<Value>, NoMemory> {
        apply(alloc, self.alg, lab, sig)
    }

    fn apply_into(
        &self,
        alloc: Global,
        lab: &Label,
        sig: &Value,
        out: &mut Value,
    ) -> Result<bool, NoMemory> {
        apply_into(alloc, self.alg, lab, sig, out)
    }
}
