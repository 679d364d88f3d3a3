ghost use Rattle.std.specs.Prelude.{◌≡◌, ◌≢◌, ◌≤◌, [], ◌∷◌, ◌++◌, length, take, IfOk, OnOk};
ghost use Rattle.label_code.specs.declared.words.TheConstants.{HERE};
ghost use Rattle.label_code.specs.Effects.{effect, misses};
ghost use Rattle.label_code.specs.Steps.{IsReplacing};
ghost use Rattle.label_code.specs.Rows.{has_width, MakesOnly, Reports};
ghost use Rattle.label_code.specs.Machine.{Fits, RunCode, after_written};

use crate::in_place::{InPlace, in_place};
use crate::{HeldRow, Op, Output, Run, Word, Words, execute};
use meta_base::NoMemory;
use std::alloc::Global;
use std::marker::Model;

/// A row of exactly `N` words, at most [`crate::HERE`]. It takes no memory of its own.
#[derive(Clone, Copy, Debug)]
pub struct FixedRow<const N: usize> {
    words: [Word; N],
    ghost few: { N ≤ HERE },
}

impl<const N: usize> HeldRow for FixedRow<N> {
    ghost held = { λ s. s.words };

    ghost can_hold = { λ row. has_width N row };

    fn of(words: Words) -> FixedRow<N> {
        match words.as_slice().as_array() {
            Some(words) => FixedRow { words: *words },
            None => unreachable!(),
        }
    }

    fn as_slice(&self) -> &[Word] {
        &self.words
    }

    fn copy(&self, _alloc: Global) -> Result<FixedRow<N>, NoMemory> {
        Ok(FixedRow { words: self.words })
    }

    #[inline(always)]
    fn rewrite(&mut self, alloc: Global, code: &[Op], row: &[Word]) -> Result<Run, NoMemory> {
        self.write_all(alloc, code, row)
    }
}

impl<const N: usize> FixedRow<N> {
    // Writes what the code makes of the row, as [`HeldRow::rewrite`] tells it. Most codes write a word in place of
    // each, `N` in all; what does something else is left to the machine, with all after it.
    #[inline(always)]
    fn write_all(&mut self, alloc: Global, code: &[Op], row: &[Word]) -> Result<Run, NoMemory>
        requires fits { Fits code.now row.now }
        requires holds { MakesOnly (λ row. has_width N row) (RunCode code.now row.now) }
        ensures { IfOk result (λ run. Reports run self.new.words (RunCode code.now row.now)) }
    {
        let mut code = code;
        let mut row = row;
        for count in 0..N {
            let Some((op, others)) = code.split_first() else {
                return self.write_left(alloc, count, code, row);
            };
            let Some((word, left)) = row.split_first() else {
                return self.write_left(alloc, count, code, row);
            };
            match in_place(op, *word, left) {
                InPlace::Writes(word, rest) => {
                    self.words[count] = word;
                    code = others;
                    row = rest;
                }
                InPlace::Prohibits => return Ok(Run::Prohibited),
                InPlace::Other => return self.write_left(alloc, count, code, row),
            }
        }
        if code.is_empty() {
            return Ok(Run::Made);
        }
        self.write_left(alloc, N, code, row)
    }

    // Writes what is left of the code and the row after so many words, which stand. Codes that replace some words by
    // others drop the old and write the new, which is done here; what does something else is left to the machine.
    #[inline(never)]
    fn write_left(
        &mut self,
        alloc: Global,
        count: usize,
        code: &[Op],
        row: &[Word],
    ) -> Result<Run, NoMemory>
        requires count { count ≤ N }
        requires fits { Fits code.now row.now }
        requires holds { MakesOnly (λ row. has_width N row)
            (after_written (take count self.old.words) (RunCode code.now row.now)) }
        ensures { IfOk result (λ run. Reports run self.new.words
            (after_written (take count self.old.words) (RunCode code.now row.now))) }
    {
        let mut count = count;
        let mut code = code;
        let mut row = row;
        while count < N {
            let Some((op, others)) = code.split_first() else {
                break;
            };
            match replace_word(op, row) {
                Replacing::Writes(written, rest) => {
                    self.words[count] = written;
                    count += 1;
                    row = rest;
                }
                Replacing::Drops(rest) => row = rest,
                Replacing::Other => break,
            }
            code = others;
        }
        if code.is_empty() {
            return Ok(Run::Made);
        }
        self.write_rest(alloc, count, code, row)
    }

    // The same by the machine.
    #[inline(never)]
    fn write_rest(
        &mut self,
        alloc: Global,
        count: usize,
        code: &[Op],
        row: &[Word],
    ) -> Result<Run, NoMemory>
        requires count { count ≤ N }
        requires fits { Fits code.now row.now }
        requires holds { MakesOnly (λ row. has_width N row)
            (after_written (take count self.old.words) (RunCode code.now row.now)) }
        ensures { IfOk result (λ run. Reports run self.new.words
            (after_written (take count self.old.words) (RunCode code.now row.now))) }
    {
        let mut written = Written::<N>::new(alloc, self.words, count);
        let run = execute(alloc, code, row, &mut written)?;
        if run == Run::Made {
            self.words = written.words();
        }
        Ok(run)
    }
}

// What an operation does of those that replace words by others.
#[derive(Clone, Copy)]
enum Replacing<'a> {
    // It writes this word, and leaves these to be read.
    Writes(Word, &'a [Word]),
    // It writes no word, and leaves these to be read.
    Drops(&'a [Word]),
    // It isn't such an operation.
    Other,
}

// What the operation does, if it is one of those that replace words by others.
#[inline(always)]
fn replace_word<'a>(op: &Op, row: &'a [Word]) -> Replacing<'a>
    requires { effect op.now row.now ≢ misses }
    ensures { IsReplacing result (effect op.now row.now) }
{
    match (op, row) {
        (Op::Emit(word), _) => Replacing::Writes(*word, row),
        (Op::Drop, [_, rest @ ..]) => Replacing::Drops(rest),
        (_, [word, rest @ ..]) => match in_place(op, *word, rest) {
            InPlace::Writes(word, rest) => Replacing::Writes(word, rest),
            _ => Replacing::Other,
        },
        _ => Replacing::Other,
    }
}

// The words that the machine has written: the first `N` stand here, and those after them in memory, though a row that
// is written to its end has none.
#[derive(Drop)]
struct Written<const N: usize> {
    words: [Word; N],
    len: usize,
    more: Vec<Word>,
}

impl<const N: usize> Model for Written<N> {
    ghost use Rattle.std.specs.Prelude.{List, ℕ};
    ghost use Rattle.label_code.specs.Rows.{IsFilled, written_of};

    ghost Value = { List ℕ };

    ghost view = { λ s. written_of s.words s.len s.more.items };

    ghost invariant = { λ s. IsFilled N s.len s.more.items };
}

impl<const N: usize> Written<N> {
    // So many of these words.
    fn new(alloc: Global, words: [Word; N], len: usize) -> Written<N>
        requires few { N ≤ HERE }
        requires room { len ≤ N }
        ensures { result ≡ take len words.entry }
    {
        Written {
            words,
            len,
            more: Vec::new(alloc),
        }
    }

    // The words, which are `N`.
    fn words(&self) -> [Word; N]
        requires { length self.now ≡ N }
        ensures { result ≡ self.now }
    {
        self.words
    }

    // Adds a word where `N` stand in place.
    #[cold]
    fn push_after(&mut self, word: Word) -> Result<(), NoMemory>
        requires { N ≤ length self.old }
        ensures { OnOk result (self.new ≡ self.old ++ word ∷ []) }
    {
        self.more.push(word)?;
        Ok(())
    }
}

impl<const N: usize> Output for Written<N> {
    ghost written = { λ s. s };

    #[inline(always)]
    fn push(&mut self, _alloc: Global, word: Word) -> Result<(), NoMemory> {
        if self.len < N {
            self.words[self.len] = word;
            self.len += 1;
            return Ok(());
        }
        self.push_after(word)
    }
}
