// Putting lines to a sink, one after another.
ghost use Rattle.std.specs.Prelude.{◌≡◌, ◌≢◌, [], ℕ, List, IfOk, OnOk, string_bytes};
ghost use Rattle.meta_base.specs.Sink.{Held};
ghost use Rattle.metacli.specs.Answers.{memory_refused, pure_answer, write_fault};
ghost use Rattle.metacli.specs.Texts.{PutsText, Written, cut_answer};
ghost use Rattle.metacli.specs.declared.putting.Cut.TheVariants as cut;

use crate::Answer;
use meta_base::{Failed, NoMemory, Sink, Text, put_all};
use std::alloc::Global;

/// Why a text was cut short: the sink failed, or there was no memory for a line.
#[derive(Clone, Copy, Debug)]
pub(crate) enum Cut {
    Sink,
    Memory,
}

impl From<Failed> for Cut {
    ghost from_gives = { λ _ why. why ≡ cut.Sink };

    fn from(_: Failed) -> Self {
        Cut::Sink
    }
}

impl From<NoMemory> for Cut {
    ghost from_gives = { λ _ why. why ≡ cut.Memory };

    fn from(_: NoMemory) -> Self {
        Cut::Memory
    }
}

impl Cut {
    // The answer that says so.
    fn answer(self) -> Answer
        ensures { pure_answer result ≡ cut_answer self }
    {
        match self {
            Cut::Sink => Answer::WriteFault,
            Cut::Memory => Answer::NoMemory,
        }
    }
}

/// Puts a line, if there was memory for it.
pub(crate) fn put_line<K: Sink>(out: &mut K, line: Result<Text, NoMemory>) -> Result<(), Cut>
    ensures { (text : List ℕ) → IfOk line (λ l. l ≡ text) →
        PutsText (K.holds out.old) text result (K.holds out.new) }
{
    let line = line?;
    put_all(out, line.as_str().as_bytes())?;
    Ok(())
}

/// Room in which a line is written, one after another, with none yet.
pub(crate) fn room_for_lines(alloc: Global) -> Result<String, NoMemory>
    ensures { IfOk result (λ room. string_bytes room ≡ []) }
{
    Ok(String::with_capacity(alloc, USUAL_LINE)?)
}

// As many bytes as most lines have, so that the room seldom grows.
const USUAL_LINE: usize = 256;

/// Puts the line that was written there, and empties the room.
pub(crate) fn put_room<K: Sink>(out: &mut K, room: &mut String) -> Result<(), Cut>
    ensures put { PutsText (K.holds out.old) (string_bytes room.old) result (K.holds out.new) }
    ensures empty { OnOk result (string_bytes room.new ≡ []) }
{
    put_all(out, room.as_bytes())?;
    room.clear();
    Ok(())
}

/// The answer to how a text was put, where this was decided before.
pub(crate) fn answered(put: Result<(), Cut>, decided: Answer) -> Answer
    requires sink { pure_answer decided ≢ write_fault }
    requires memory { pure_answer decided ≢ memory_refused }
    ensures { (old new : Held) (text : List ℕ) → PutsText old text put new →
        Written old text new (pure_answer decided) (pure_answer result) }
{
    match put {
        Ok(()) => decided,
        Err(cut) => {
            drop(decided);
            cut.answer()
        }
    }
}
