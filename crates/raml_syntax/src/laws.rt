ghost use Rattle.std.specs.Prelude.{◌≡◌, ℕ, List};
ghost use Rattle.alg_model.specs.Expressions.{PureAlg};
ghost use Rattle.alg_model.specs.Formation.{IsAlg};
ghost use Rattle.raml_syntax.specs.ExprText.{ExprText, IsExprFault};
ghost use Rattle.raml_syntax.specs.Printed.{alg_text};
ghost use Rattle.raml_syntax.specs.declared.faults.ExprFault.{ExprFault};

/// One text means at most one algebra.
pub fn one_text_one_algebra()
    ensures { (text : List ℕ) (a b : PureAlg) → ExprText text a → ExprText text b → a ≡ b }
{}

/// One text has at most one first fault: one kind at one place.
pub fn one_text_one_fault()
    ensures { (text : List ℕ) (f g : ExprFault) → IsExprFault text f → IsExprFault text g → f ≡ g }
{}

/// A text that means an algebra has no fault.
pub fn no_fault_beside_an_algebra()
    ensures { (text : List ℕ) (a : PureAlg) (f : ExprFault) → ExprText text a → IsExprFault text f → ⊥ }
{}

/// What a text means is an algebra: it breaks no formation rule, and its numbers are at most the
/// greatest of its edition.
pub fn texts_mean_algebras()
    ensures { (text : List ℕ) (a : PureAlg) → ExprText text a → IsAlg a }
{}

/// The text in which an algebra is printed means that algebra.
pub fn printed_text_means_the_algebra()
    ensures { (a : PureAlg) → IsAlg a → ExprText (alg_text a) a }
{}
