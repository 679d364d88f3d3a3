ghost use Rattle.std.specs.Prelude.{◌≡◌, ℕ, Some};
ghost use Rattle.alg_model.specs.Expressions.{Expression, PureCarrier};
ghost use Rattle.alg_model.specs.Formation.{IsCarrier};
ghost use Rattle.label_code.specs.Rows.{has_width};
ghost use Rattle.code_gen.specs.Meaning.{CodeMeansApplication, CodeMeansOrder};
ghost use Rattle.code_gen.specs.Widths.{width_of, HoldValues};

/// The code of a label makes of a value's words those of what the label makes of the value, and prohibits exactly what
/// the label prohibits; so it fits every value's words: no word is missing and no bound is passed.
#[tactic(auto, using(crate::proofs::Labels::code_means_application))]
pub fn code_means_application()
    ensures { (a : Expression) → CodeMeansApplication a }
{}

/// The code of an algebra's order compares the words of two values as the algebra compares the values.
#[tactic(auto, using(crate::proofs::Orders::code_means_order))]
pub fn code_means_order()
    ensures { (c : PureCarrier) → IsCarrier c → CodeMeansOrder c }
{}

/// Where [`crate::row_width`] tells a width, the words of each value have it.
pub fn rows_have_their_width()
    ensures { (c : PureCarrier) (width : ℕ) → width_of c ≡ Some width → HoldValues (has_width width) c }
{}
