// Values of one carrier that are printed in many lines.
ghost use Rattle.std.specs.Prelude.{◌≡◌, ◌≢◌, ◌++◌, map, IfOk, None, OnOk};
ghost use Rattle.alg_model.specs.Formation.{IsCarrier};
ghost use Rattle.alg_model.specs.Views.{pure_carrier};
ghost use Rattle.code_gen.specs.Encoding.{Dec};
ghost use Rattle.word_text.specs.Fronts.{front_text};
ghost use Rattle.word_text.specs.PathNames.{name_text};
ghost use Rattle.word_text.specs.Parts.{closing, parts_of, parts_text, pure_part, rest_in, AreThere};

use crate::line::{Line, PathName};
use crate::text::{push_front, take_word};
use alg_model::Carrier;
use label_code::Word;
use meta_base::NoMemory;
use std::alloc::Global;

/// A part of a carrier that is no pair, and the text before its value.
#[derive(Drop)]
pub struct Part {
    before: PathName,
    carrier: Carrier,
}

/// A carrier that is prepared for printing many of its values: its parts that are no pairs, with the texts between.
#[derive(Drop)]
pub struct ValueForm {
    parts: Vec<Part>,
    end: PathName,
}

impl ValueForm {
    ghost use Rattle.word_text.specs.Forms.{form_parts, form_text, Prints};

    /// The form of a carrier. It is refused for want of memory alone.
    #[tactic(auto, using(crate::proofs::Opening::prints))]
    pub fn of(alloc: Global, carrier: Carrier) -> Result<ValueForm, NoMemory>
        ensures { IfOk result (Prints (pure_carrier carrier)) }
    {
        let mut parts = Vec::new(alloc);
        let mut text = Line::new(alloc)?;
        add_parts(alloc, &mut parts, &mut text, carrier)?;
        let end = PathName::of(alloc, text.as_bytes())?;
        Ok(ValueForm { parts, end })
    }

    /// Appends the text that the form has with these words: where they are those of a value of its carrier, as
    /// `sig_text` prints the value. After a refusal, which is for want of memory alone, it isn't said what the line has.
    pub fn push(&self, out: &mut Line, words: &[Word]) -> Result<(), NoMemory>
        requires { AreThere (form_parts self.now) words.now }
        ensures { OnOk result (out.new ≡ out.old ++ form_text self.now words.now) }
    {
        let mut rest = words;
        push_parts(out, self.parts.as_slice(), &mut rest)?;
        push_between(out, &self.end)
    }
}

// Adds the parts of a carrier that are no pairs, of which the first has this text before it. What is left there is the
// text after the last.
fn add_parts(
    alloc: Global,
    parts: &mut Vec<Part>,
    text: &mut Line,
    carrier: Carrier,
) -> Result<(), NoMemory>
    ensures parts { OnOk result (map pure_part parts.new.items
        ≡ map pure_part parts.old.items ++ parts_of text.old (pure_carrier carrier)) }
    ensures text { OnOk result (text.new ≡ closing (pure_carrier carrier)) }
{
    match carrier {
        Carrier::Pair(c, d) => {
            text.push_bytes(b"(")?;
            add_parts(alloc, parts, text, Box::into_inner(c))?;
            text.push_bytes(b",")?;
            add_parts(alloc, parts, text, Box::into_inner(d))?;
            text.push_bytes(b")")
        }
        carrier => {
            let before = PathName::of(alloc, text.as_bytes())?;
            parts.push(Part { before, carrier })?;
            text.clear();
            Ok(())
        }
    }
}

// Takes the words of the parts' values from the front of the row, and appends the text before each and its own.
fn push_parts(out: &mut Line, parts: &[Part], row: &mut &[Word]) -> Result<(), NoMemory>
    requires { AreThere (map pure_part parts.now) row.old.now }
    ensures { OnOk result (out.new ≡ out.old ++ parts_text (map pure_part parts.now) row.old.now) }
{
    match parts {
        [] => Ok(()),
        [part, rest @ ..] => {
            push_part(out, part, row)?;
            push_parts(out, rest, row)
        }
    }
}

// The text before a part or after the last, which is empty where the carrier is no pair.
#[inline(always)]
fn push_between(out: &mut Line, text: &PathName) -> Result<(), NoMemory>
    ensures { OnOk result (out.new ≡ out.old ++ name_text text.now) }
{
    if text.is_empty() {
        return Ok(());
    }
    out.push_name(text)
}

// The same of one part. A call keeps the digits' room out of the loop over parts.
#[inline(never)]
#[tactic(auto, using(crate::proofs::Opening::left_rest))]
fn push_part(out: &mut Line, part: &Part, row: &mut &[Word]) -> Result<(), NoMemory>
    requires carrier { IsCarrier (pure_part part.now).carrier }
    requires there { Dec (pure_part part.now).carrier row.old.now ≢ None }
    ensures row { OnOk result (row.new.now ≡ rest_in (Dec (pure_part part.now).carrier row.old.now)) }
    ensures text { OnOk result (out.new ≡ (out.old ++ (pure_part part.now).before)
        ++ front_text (pure_part part.now).carrier row.old.now) }
{
    push_between(out, &part.before)?;
    match &part.carrier {
        // Most parts are numbers.
        Carrier::Whole | Carrier::UpTo(_) | Carrier::DownFrom(_) => {
            out.push_number(take_word(row))
        }
        carrier => push_front(out, carrier, row),
    }
}
