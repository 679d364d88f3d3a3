// What tests read values and labels from, and what they print words and codes to.
ghost use Rattle.std.specs.Prelude.{IfOk};
ghost use Rattle.alg_model.specs.declared.alg.TheConstants.{MAX_VALUE_NUMBER};
ghost use Rattle.alg_model.specs.declared.edition.TheConstants.{MAX_LABEL_NUMBER};
ghost use Rattle.alg_model.specs.Application.{IsLabel};
ghost use Rattle.alg_model.specs.Bounds.{AtMost, LabelAtMost};
ghost use Rattle.alg_model.specs.Carriers.{carrier_of, In};
ghost use Rattle.alg_model.specs.Views.{pure_label, pure_value};

use alg_model::{Alg, Label, Value};
use label_code::Word;
use meta_base::push_number;
use sig_text::{MAX_LITERAL_NUMBER, read_label, read_value_to};
use std::alloc::Global;
use std::fmt::Debug;
use std::test::Fail;

/// The value that the text spells, whose numbers may be those of sums.
#[tactic(auto, using(alg_model::specs::BoundLaws::at_most_more))]
pub fn value(alloc: Global, alg: &Alg, text: &str) -> Result<Value, Fail>
    ensures value { IfOk result (λ v. In (carrier_of alg.now.expression) (pure_value v)) }
    ensures small { IfOk result (λ v. AtMost MAX_VALUE_NUMBER (pure_value v)) }
{
    Ok(read_value_to(alloc, alg, text.as_bytes(), MAX_LITERAL_NUMBER)?)
}

/// The label that the text spells.
#[tactic(auto, using(crate::proofs::Fitting::small_label))]
pub fn label(alloc: Global, alg: &Alg, text: &str) -> Result<Label, Fail>
    ensures label { IfOk result (λ l. IsLabel alg.now.expression (pure_label l)) }
    ensures small { IfOk result (λ l. LabelAtMost MAX_LABEL_NUMBER (pure_label l)) }
{
    Ok(read_label(alloc, alg, text.as_bytes())?)
}

/// The words with a space between, or `nothing`.
pub fn words_text(alloc: Global, words: &[Word]) -> Result<String, Fail> {
    let mut text = String::new(alloc);
    for word in words {
        if !text.is_empty() {
            text.push_str(" ")?;
        }
        push_number(&mut text, *word)?;
    }
    or_nothing(text)
}

/// The operations with a comma between, or `nothing`.
pub fn code_text<T: Debug>(alloc: Global, code: &[T]) -> Result<String, Fail> {
    let mut text = String::new(alloc);
    for operation in code {
        if !text.is_empty() {
            text.push_str(", ")?;
        }
        text.push_str(format!(in alloc; "{operation:?}")?.as_str())?;
    }
    or_nothing(text)
}

fn or_nothing(text: String) -> Result<String, Fail> {
    let mut text = text;
    if text.is_empty() {
        text.push_str("nothing")?;
    }
    Ok(text)
}
