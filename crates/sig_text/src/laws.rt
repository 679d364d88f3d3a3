ghost use Rattle.std.specs.Prelude.{◌≡◌, ◌⊎◌, ℕ, ◌≤◌, List};
ghost use Rattle.alg_model.specs.Application.{IsLabel};
ghost use Rattle.alg_model.specs.Bounds.{AtMost, LabelAtMost, greatest_number};
ghost use Rattle.alg_model.specs.Carriers.{carrier_of, In};
ghost use Rattle.alg_model.specs.Formation.{IsFormed};
ghost use Rattle.alg_model.specs.Texts.{value_text, label_text};
ghost use Rattle.alg_model.specs.Expressions.{Expression, PureAlg, PureLabel, PureValue};
ghost use Rattle.alg_model.specs.declared.alg.TheConstants.{MAX_MARKS};
ghost use Rattle.sig_text.specs.Literals.{ValueText, ValueTextTo, LabelText, LabelTextTo, IsValueFault, IsValueFaultTo, IsLabelFault, IsLabelFaultTo, Spelling, IsSpelling};
ghost use Rattle.sig_text.specs.Spelled.{Reports, spelled, spelled_value_to, spelled_label_to};
ghost use Rattle.sig_text.specs.declared.bytes.TheConstants.{MAX_LITERAL_NUMBER};
ghost use Rattle.sig_text.specs.declared.faults.LitFault.{LitFault};

/// A text spells at most one value of an algebra.
pub fn values_are_unique()
    ensures { (a : PureAlg) (text : List ℕ) (u v : PureValue) → ValueText a text u → ValueText a text v → u ≡ v }
{}

/// A text spells at most one label of an algebra.
pub fn labels_are_unique()
    ensures { (a : PureAlg) (text : List ℕ) (l m : PureLabel) → LabelText a text l → LabelText a text m → l ≡ m }
{}

/// No text both spells a value and is refused.
pub fn spelled_values_are_not_refused()
    ensures { (a : PureAlg) (text : List ℕ) (v : PureValue) (fault : LitFault) → ValueText a text v →
        ¬ IsValueFault a text fault }
{}

/// No text both spells a label and is refused.
pub fn spelled_labels_are_not_refused()
    ensures { (a : PureAlg) (text : List ℕ) (l : PureLabel) (fault : LitFault) → LabelText a text l →
        ¬ IsLabelFault a text fault }
{}

/// One fault at most refuses a text as that of a value.
pub fn one_text_one_value_fault()
    ensures { (a : PureAlg) (text : List ℕ) (f g : LitFault) → IsValueFault a text f → IsValueFault a text g → f ≡ g }
{}

/// One fault at most refuses a text as that of a label.
pub fn one_text_one_label_fault()
    ensures { (a : PureAlg) (text : List ℕ) (f g : LitFault) → IsLabelFault a text f → IsLabelFault a text g → f ≡ g }
{}

/// Each text spells a value of an algebra, or is refused.
pub fn values_are_spelled_or_refused()
    ensures { (a : PureAlg) (text : List ℕ) →
        ((v : PureValue) × ValueText a text v) ⊎ ((fault : LitFault) × IsValueFault a text fault) }
{}

/// Each text spells a label of an algebra, or is refused.
pub fn labels_are_spelled_or_refused()
    ensures { (a : PureAlg) (text : List ℕ) →
        ((l : PureLabel) × LabelText a text l) ⊎ ((fault : LitFault) × IsLabelFault a text fault) }
{}

/// What a text spells as a value is in the carrier, and none of its numbers is above the edition's
/// greatest.
pub fn spelled_values_are_values()
    ensures { (a : PureAlg) (text : List ℕ) (v : PureValue) → ValueText a text v →
        In (carrier_of a.expression) v × AtMost (greatest_number a.edition) v }
{}

/// What a text spells as a label is a label of the algebra, and none of its numbers is above the
/// edition's greatest.
pub fn spelled_labels_are_labels()
    ensures { (a : PureAlg) (text : List ℕ) (l : PureLabel) → LabelText a text l →
        IsLabel a.expression l × LabelAtMost (greatest_number a.edition) l }
{}

/// The printed text of a value of an algebra spells that value, if none of its numbers is above the
/// greatest of the algebra's edition.
pub fn printed_values_are_read_back()
    ensures { (a : PureAlg) (v : PureValue) → IsFormed a.expression → In (carrier_of a.expression) v →
        AtMost (greatest_number a.edition) v → ValueText a (value_text (carrier_of a.expression) v) v }
{}

/// The printed text of a label of an algebra spells that label, if none of its numbers is above the
/// greatest of the algebra's edition.
pub fn printed_labels_are_read_back()
    ensures { (a : PureAlg) (l : PureLabel) → IsFormed a.expression → IsLabel a.expression l →
        LabelAtMost (greatest_number a.edition) l → LabelText a (label_text a.expression l) l }
{}

/// A printed value is read back as well with any greatest number that [`crate::read_value_to`] takes and that leaves
/// room for the numbers of every set.
pub fn printed_values_are_read_back_to()
    ensures { (greatest : ℕ) (a : Expression) (v : PureValue) → MAX_MARKS ≤ greatest →
        greatest ≤ MAX_LITERAL_NUMBER → IsFormed a → In (carrier_of a) v → AtMost greatest v →
        ValueTextTo greatest a (value_text (carrier_of a) v) v }
{}

/// With any greatest number, `spelled_value_to` of specs is the value that a text spells, or the fault
/// that refuses it.
pub fn values_are_reported()
    ensures { (greatest : ℕ) (a : Expression) (text : List ℕ) →
        Reports (spelled_value_to greatest a text) (ValueTextTo greatest a text) (IsValueFaultTo greatest a text) }
{}

/// With any greatest number, `spelled_label_to` of specs is the label that a text spells, or the fault
/// that refuses it.
pub fn labels_are_reported()
    ensures { (greatest : ℕ) (a : Expression) (text : List ℕ) →
        Reports (spelled_label_to greatest a text) (LabelTextTo greatest a text) (IsLabelFaultTo greatest a text) }
{}

/// The functions `spelled` of specs say of all texts what they spell, and no others do.
pub fn texts_have_one_spelling()
    ensures is { IsSpelling spelled }
    ensures only { (s : Spelling) → IsSpelling s → s ≡ spelled }
{}
