ghost use Rattle.std.specs.Prelude.{◌≡◌, ◌≢◌, ◌+◌, ◌<◌, ◌≤◌, ◌==◌, [], ◌∷◌, ◌++◌, length, take, drop, None, if◌then◌else◌, IfOk, OnErr};
ghost use Rattle.std.specs.List.{list_any};
ghost use Rattle.label_code.specs.Effects.{effect, goes_on, writes, turns, denies, misses};
ghost use Rattle.label_code.specs.Machine.{RunCode, Fits, after_written};
ghost use Rattle.label_code.specs.Rows.{Reports};
ghost use Rattle.label_code.specs.Steps.{Does, effect_in_place};
ghost use Rattle.label_code.specs.declared.machine.Halt.TheVariants as halts;

use crate::in_place::{InPlace, in_place};
use crate::pieces::{after, sequence};
use crate::{LabelCode, Op, Output, Row, Run, Word};
use meta_base::{List, NoMemory};
use std::alloc::Global;

/// What the code makes of the row, which it fits: `Made` where the new row stands in `out`, and `Prohibited` where the
/// label prohibits the value. What stood in `out` is gone, and its room is used again. It is refused for want of
/// memory alone; after that, and after `Prohibited`, `out` is empty.
pub fn run(alloc: Global, code: &LabelCode, row: &Row, out: &mut Row) -> Result<Run, NoMemory>
    requires { Fits code.now row.now }
    ensures ok { IfOk result (λ run. Reports run out.new (RunCode code.now row.now)) }
    ensures prohibited { IfOk result (λ run. run ≡ Run.Prohibited → out.new ≡ []) }
    ensures err { OnErr result (out.new ≡ []) }
{
    let mut words = std::mem::replace(out, List::new(alloc)).into_vec();
    words.clear();
    let run = execute(alloc, code.as_slice(), row.as_slice(), &mut words)?;
    if run == Run::Prohibited {
        words.clear();
    }
    *out = List::from_vec(words);
    Ok(run)
}

/// What the code makes of the row, which it fits: `Made` where the new row stands in `out`, after what stood there
/// before, and `Prohibited` where the label prohibits the value. Nothing is said of `out` where it isn't `Made`. It is
/// refused for want of memory alone.
pub fn execute<W: Output>(
    alloc: Global,
    code: &[Op],
    row: &[Word],
    out: &mut W,
) -> Result<Run, NoMemory>
    requires { Fits code.now row.now }
    ensures { IfOk result (λ run.
        Reports run (W.written out.new) (after_written (W.written out.old) (RunCode code.now row.now))) }
{
    let mut code = code;
    let mut row = row;
    loop {
        let Some((op, rest)) = code.split_first() else {
            return Ok(Run::Made);
        };
        match step(alloc, op, row, out) {
            Ok(next) => {
                row = next.row;
                code = after(rest, next.jump);
            }
            Err(Halt::Prohibited) => return Ok(Run::Prohibited),
            Err(Halt::NoMemory) => return Err(NoMemory),
        }
    }
}

// What an operation leaves of the row that is read, and over how many operations it jumps.
#[derive(Clone, Copy)]
struct Next<'a> {
    row: &'a [Word],
    jump: usize,
}

// Why nothing is left.
#[derive(Clone, Copy)]
enum Halt {
    Prohibited,
    NoMemory,
}

impl From<NoMemory> for Halt {
    ghost from_gives = { λ _ halt. halt ≡ halts.NoMemory };

    fn from(_: NoMemory) -> Self {
        Halt::NoMemory
    }
}

// What the operation leaves.
fn step<'a, W: Output>(
    alloc: Global,
    op: &Op,
    row: &'a [Word],
    out: &mut W,
) -> Result<Next<'a>, Halt>
    requires { effect op.now row.now ≢ misses }
    ensures { Does result (W.written out.old) (W.written out.new) (effect op.now row.now) }
{
    match row {
        [word, rest @ ..] => match in_place(op, *word, rest) {
            InPlace::Writes(word, rest) => write(alloc, word, rest, out),
            InPlace::Prohibits => Err(Halt::Prohibited),
            InPlace::Other => step_otherwise(alloc, op, *word, rest, row, out),
        },
        [] => step_at_end(alloc, op, row, out),
    }
}

// The same of an operation that doesn't write a word in place of one, where a word is left to be read: the row is that
// word and the rest.
fn step_otherwise<'a, W: Output>(
    alloc: Global,
    op: &Op,
    word: Word,
    rest: &'a [Word],
    row: &'a [Word],
    out: &mut W,
) -> Result<Next<'a>, Halt>
    requires row { row.now ≡ word ∷ rest.now }
    requires fits { effect op.now (word ∷ rest.now) ≢ misses }
    requires other { effect_in_place op.now (word ∷ rest.now) ≡ None }
    ensures { Does result (W.written out.old) (W.written out.new) (effect op.now (word ∷ rest.now)) }
{
    match op {
        Op::Drop => Ok(Next::after(rest)),
        Op::CopySeq => copy_sequence(alloc, word, rest, out),
        Op::DropSeq => Ok(Next::after(sequence(word, rest).1)),
        Op::Emit(word) => write(alloc, *word, row, out),
        Op::Append(symbol) => append(alloc, word, rest, *symbol, out),
        Op::Fresh(symbol) => append_fresh(alloc, word, rest, *symbol, out),
        Op::Deny => Err(Halt::Prohibited),
        Op::Fork(jump) => fork(alloc, word, rest, *jump, out),
        Op::Test(jump) => Ok(Next::after_side(word, rest, *jump)),
        Op::Skip(jump) => Ok(Next { row, jump: *jump }),
        _ => unreachable!(),
    }
}

// The same where no word is left: the row is empty.
fn step_at_end<'a, W: Output>(
    alloc: Global,
    op: &Op,
    row: &'a [Word],
    out: &mut W,
) -> Result<Next<'a>, Halt>
    requires row { row.now ≡ [] }
    requires fits { effect op.now [] ≢ misses }
    ensures { Does result (W.written out.old) (W.written out.new) (effect op.now []) }
{
    match op {
        Op::Emit(word) => write(alloc, *word, row, out),
        Op::Skip(jump) => Ok(Next { row, jump: *jump }),
        _ => Err(Halt::Prohibited),
    }
}

// Writes the word, and leaves the row.
fn write<'a, W: Output>(
    alloc: Global,
    word: Word,
    row: &'a [Word],
    out: &mut W,
) -> Result<Next<'a>, Halt>
    ensures { Does result (W.written out.old) (W.written out.new) (writes word row.now) }
{
    out.push(alloc, word)?;
    Ok(Next::after(row))
}

// Writes the side and leaves the row, with this jump after the second side.
fn fork<'a, W: Output>(
    alloc: Global,
    side: Word,
    row: &'a [Word],
    jump: usize,
    out: &mut W,
) -> Result<Next<'a>, Halt>
    requires { side < 2 }
    ensures { Does result (W.written out.old) (W.written out.new) (turns side (side ∷ []) row.now jump) }
{
    out.push(alloc, side)?;
    Ok(Next::after_side(side, row, jump))
}

// Writes the length and so many words from the front of the row, and leaves what is after them.
fn copy_sequence<'a, W: Output>(
    alloc: Global,
    count: Word,
    row: &'a [Word],
    out: &mut W,
) -> Result<Next<'a>, Halt>
    requires { count ≤ length row.now }
    ensures { Does result (W.written out.old) (W.written out.new)
        (goes_on (count ∷ take count row.now) (drop count row.now) 0) }
{
    let (words, rest) = sequence(count, row);
    out.push(alloc, count)?;
    out.extend(alloc, words)?;
    Ok(Next::after(rest))
}

// Writes the length and one, so many words from the front of the row, and the symbol, and leaves what is after them.
fn append<'a, W: Output>(
    alloc: Global,
    count: Word,
    row: &'a [Word],
    symbol: Word,
    out: &mut W,
) -> Result<Next<'a>, Halt>
    requires { count ≤ length row.now }
    ensures { Does result (W.written out.old) (W.written out.new)
        (goes_on ((count + 1) ∷ take count row.now ++ symbol ∷ []) (drop count row.now) 0) }
{
    let (words, rest) = sequence(count, row);
    out.push(alloc, count + 1)?;
    out.extend(alloc, words)?;
    out.push(alloc, symbol)?;
    Ok(Next::after(rest))
}

// The same, or prohibits where the symbol is among the words.
fn append_fresh<'a, W: Output>(
    alloc: Global,
    count: Word,
    row: &'a [Word],
    symbol: Word,
    out: &mut W,
) -> Result<Next<'a>, Halt>
    requires { count ≤ length row.now }
    ensures { Does result (W.written out.old) (W.written out.new)
        (if list_any (λ m. m == symbol) (take count row.now) then denies
        else goes_on ((count + 1) ∷ take count row.now ++ symbol ∷ []) (drop count row.now) 0) }
{
    if sequence(count, row).0.contains(&symbol) {
        return Err(Halt::Prohibited);
    }
    append(alloc, count, row, symbol, out)
}

impl<'a> Next<'a> {
    // This row, with no jump.
    fn after(row: &'a [Word]) -> Next<'a>
        ensures row { result.row.now ≡ row.now }
        ensures jump { result.jump ≡ 0 }
    {
        Next { row, jump: 0 }
    }

    // This row, with this jump after the second side.
    fn after_side(side: Word, row: &'a [Word], jump: usize) -> Next<'a>
        requires { side < 2 }
        ensures row { result.row.now ≡ row.now }
        ensures first { side ≡ 0 → result.jump ≡ 0 }
        ensures second { side ≡ 1 → result.jump ≡ jump }
    {
        Next {
            row,
            jump: if side == 0 { 0 } else { jump },
        }
    }
}
