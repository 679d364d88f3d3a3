ghost use Rattle.std.specs.Prelude.{◌≡◌, ◌≢◌, ◌++◌, ◌∷◌, ◌≤◌, ◌<◌, ◌^◌, [], length, OnOk, Some, None, decimal, codes, slice_index_or};
ghost use Rattle.alg_model.specs.Application.{has_mark};
ghost use Rattle.alg_model.specs.Expressions.{marks as marks_value, pairs, sides, symbols};
ghost use Rattle.alg_model.specs.Formation.{IsCarrier};
ghost use Rattle.alg_model.specs.Texts.{numbers_text, members};
ghost use Rattle.alg_model.specs.Views.{pure_carrier};
ghost use Rattle.alg_model.specs.declared.alg.TheConstants.{MAX_MARKS};
ghost use Rattle.code_gen.specs.Encoding.{Dec, small_front, symbols_front};
ghost use Rattle.sig_text.specs.Listed.{separator};
ghost use Rattle.word_text.specs.Fronts.{front_text, Leaves};

use crate::line::Line;
use alg_model::Carrier;
use label_code::Word;
use meta_base::{NoMemory, Text};

// Takes the words of a value of the carrier from the front of the row, and appends its text.
#[cycle(push_front)]
pub(crate) fn push_front(
    out: &mut Line,
    carrier: &Carrier,
    row: &mut &[Word],
) -> Result<(), NoMemory>
    requires carrier { IsCarrier (pure_carrier carrier.now) }
    requires there { Dec (pure_carrier carrier.now) row.old.now ≢ None }
    ensures row { OnOk result (Leaves (pure_carrier carrier.now) row.old.now row.new.now) }
    ensures text { OnOk result (out.new ≡ out.old ++ front_text (pure_carrier carrier.now) row.old.now) }
{
    match carrier {
        Carrier::Whole | Carrier::UpTo(_) | Carrier::DownFrom(_) => {
            out.push_number(take_word(row))
        }
        Carrier::Seqs(count) | Carrier::SimSeqs(count) => {
            push_symbols(out, take_symbols(row, *count))
        }
        Carrier::Sets(count) => push_set(out, *count, take_marks(row, *count)),
        Carrier::One => out.push_bytes(b"unit"),
        Carrier::Named(names, _) => push_name(out, names.as_slice(), take_word(row)),
        Carrier::Pair(c, d) => push_pair(out, c, d, row),
        Carrier::Side(c, d) => push_side(out, c, d, row),
    }
}

// The same of a pair.
#[cycle(push_front)]
fn push_pair(out: &mut Line, c: &Carrier, d: &Carrier, row: &mut &[Word]) -> Result<(), NoMemory>
    requires first { IsCarrier (pure_carrier c.now) }
    requires second { IsCarrier (pure_carrier d.now) }
    requires there { Dec (pairs (pure_carrier c.now) (pure_carrier d.now)) row.old.now ≢ None }
    ensures row { OnOk result (Leaves (pairs (pure_carrier c.now) (pure_carrier d.now)) row.old.now row.new.now) }
    ensures text { OnOk result (out.new ≡ out.old
        ++ front_text (pairs (pure_carrier c.now) (pure_carrier d.now)) row.old.now) }
{
    out.push_bytes(b"(")?;
    push_front(out, c, row)?;
    out.push_bytes(b",")?;
    push_front(out, d, row)?;
    out.push_bytes(b")")
}

// The same of a value of either side.
#[cycle(push_front)]
fn push_side(out: &mut Line, c: &Carrier, d: &Carrier, row: &mut &[Word]) -> Result<(), NoMemory>
    requires first { IsCarrier (pure_carrier c.now) }
    requires second { IsCarrier (pure_carrier d.now) }
    requires there { Dec (sides (pure_carrier c.now) (pure_carrier d.now)) row.old.now ≢ None }
    ensures row { OnOk result (Leaves (sides (pure_carrier c.now) (pure_carrier d.now)) row.old.now row.new.now) }
    ensures text { OnOk result (out.new ≡ out.old
        ++ front_text (sides (pure_carrier c.now) (pure_carrier d.now)) row.old.now) }
{
    match take_word(row) {
        0 => {
            out.push_bytes(b"l:")?;
            push_front(out, c, row)
        }
        1 => {
            out.push_bytes(b"r:")?;
            push_front(out, d, row)
        }
        _ => unreachable!(),
    }
}

#[inline(always)]
pub(crate) fn take_word(row: &mut &[Word]) -> Word
    requires { row.old.now ≢ [] }
    ensures { row.old.now ≡ result ∷ row.new.now }
{
    let whole = *row;
    let Some((word, rest)) = whole.split_first() else {
        unreachable!()
    };
    *row = rest;
    *word
}

fn push_name(out: &mut Line, names: &[Text], place: Word) -> Result<(), NoMemory>
    requires { place < length names.now }
    ensures { OnOk result (out.new ≡ out.old ++ slice_index_or names.now place []) }
{
    out.push_bytes(names[place as usize].as_str().as_bytes())
}

// Takes a length from the front of the row, and so many symbols.
fn take_symbols<'a>(row: &mut &'a [Word], count: u64) -> &'a [Word]
    requires { symbols_front count row.old.now ≢ None }
    ensures { Some (symbols result.now, row.new.now) ≡ symbols_front count row.old.now }
{
    let length = take_word(row);
    let whole = *row;
    let (words, rest) = whole.split_at(length as usize);
    *row = rest;
    words
}

fn push_symbols(out: &mut Line, words: &[Word]) -> Result<(), NoMemory>
    ensures { OnOk result (out.new ≡ out.old ++ (codes "[" ++ numbers_text words.now ++ codes "]")) }
{
    out.push_bytes(b"[")?;
    push_numbers(out, words)?;
    out.push_bytes(b"]")
}

#[tactic(auto, using(sig_text::proofs::Printed::listed_at))]
fn push_numbers(out: &mut Line, words: &[Word]) -> Result<(), NoMemory>
    ensures { OnOk result (out.new ≡ out.old ++ numbers_text words.now) }
{
    let mut follows = false;
    for word in words {
        push_next(out, follows, *word)?;
        follows = true;
    }
    Ok(())
}

// Appends a number that stands alone, or follows others.
#[inline(always)]
fn push_next(out: &mut Line, follows: bool, n: u128) -> Result<(), NoMemory>
    ensures { OnOk result (out.new ≡ (out.old ++ separator follows) ++ decimal n) }
{
    if follows {
        out.push_bytes(b",")?;
    }
    out.push_number(n)
}

// Takes the word of a set of numbers below the count from the front of the row.
#[tactic(auto, using(crate::proofs::Marks::marks_fit))]
fn take_marks(row: &mut &[Word], count: u64) -> u64
    requires count { count ≤ MAX_MARKS }
    requires there { small_front (2 ^ count) marks_value row.old.now ≢ None }
    ensures { Some (marks_value result, row.new.now) ≡ small_front (2 ^ count) marks_value row.old.now }
{
    take_word(row) as u64
}

fn push_set(out: &mut Line, count: u64, marks: u64) -> Result<(), NoMemory>
    requires { count ≤ MAX_MARKS }
    ensures { OnOk result (out.new ≡ out.old ++ (codes "{" ++ numbers_text (members count marks) ++ codes "}")) }
{
    out.push_bytes(b"{")?;
    push_members(out, count, marks)?;
    out.push_bytes(b"}")
}

// The numbers below the count that are in the set, ascending.
fn push_members(out: &mut Line, count: u64, marks: u64) -> Result<(), NoMemory>
    requires { count ≤ MAX_MARKS }
    ensures { OnOk result (out.new ≡ out.old ++ numbers_text (members count marks)) }
{
    let mut follows = false;
    for k in 0..count {
        if is_in(marks, k) {
            push_next(out, follows, u128::from(k))?;
            follows = true;
        }
    }
    Ok(())
}

fn is_in(marks: u64, k: u64) -> bool
    requires { k < MAX_MARKS }
    ensures { result ≡ has_mark marks k }
{
    (marks >> k) & 1 == 1
}
