// Tests of rows that hold their words in place or beside them.
ghost use Rattle.std.specs.Prelude.{◌≡◌, [], ◌∷◌, IfOk};

use alg_model::Value;
use code_gen::write_value;
use label_code::{FixedRow, HeldRow, Op, Output, Run, Word, Words};
use meta_base::{List, NoMemory};
use std::alloc::Global;
use std::test::Fail;

// The sequence of so many symbols, from 5 on.
fn sequence(alloc: Global, symbols: u64) -> Result<Value, NoMemory> {
    let mut list = List::new(alloc);
    for symbol in 0..symbols {
        list.push(symbol.wrapping_add(5))?;
    }
    Ok(Value::Symbols(list))
}

// Its words, by hand: the length and the symbols.
fn sequence_words(alloc: Global, symbols: u64) -> Result<Vec<Word>, NoMemory> {
    let mut words = Vec::new(alloc);
    words.push(Word::from(symbols))?;
    for symbol in 0..symbols {
        words.push(Word::from(symbol) + 5)?;
    }
    Ok(words)
}

// Whether a row takes a sequence's words and keeps them, whether a copy keeps them while the row is cleared, and
// whether the row takes a shorter sequence's then, and one word more.
fn keeps_sequence(alloc: Global, symbols: u64) -> Result<bool, NoMemory> {
    let value = sequence(alloc, symbols)?;
    let words = sequence_words(alloc, symbols)?;
    let mut row = Words::new();
    write_value(alloc, &value, &mut row)?;
    let is_kept = row.as_slice() == words.as_slice();
    let copied = row.copy(alloc)?;
    row.clear();
    let is_cleared = row.as_slice().is_empty() && copied.as_slice() == words.as_slice();
    write_value(alloc, &sequence(alloc, 1)?, &mut row)?;
    row.push(alloc, 9)?;
    Ok(is_kept && is_cleared && row.as_slice() == [1, 5, 9].as_slice())
}

#[test]
fn rows_spill_out_of_place(rt: HostRuntime) -> Result<(), Fail> {
    for symbols in [2, 3, 4, 8] {
        assert!(rt; keeps_sequence(rt.alloc(), symbols)?, "{symbols} symbols");
    }
    Ok(())
}

// The row of this word alone.
fn one_word(alloc: Global, word: Word) -> Result<FixedRow<1>, NoMemory>
    ensures { IfOk result (λ row. row.words ≡ word ∷ []) }
{
    let mut words = Words::new();
    words.push(alloc, word)?;
    Ok(FixedRow::of(words))
}

// A row of one word takes what code makes of another.
#[test]
fn fixed_rows_are_rewritten(rt: HostRuntime) -> Result<(), Fail> {
    let alloc = rt.alloc();
    let mut row = one_word(alloc, 9)?;
    let run = row.rewrite(alloc, &[Op::Add(3)], &[4])?;
    assert!(rt;
        run == Run::Made && row.as_slice() == [7].as_slice(),
        "a sum"
    );
    Ok(())
}

// What is written before a value is prohibited may be longer than any value.
#[test]
fn fixed_rows_bear_longer_beginnings(rt: HostRuntime) -> Result<(), Fail> {
    let alloc = rt.alloc();
    let mut row = one_word(alloc, 9)?;
    let run = row.rewrite(alloc, &[Op::Copy, Op::Emit(1), Op::Emit(2), Op::Deny], &[4])?;
    assert!(rt; run == Run::Prohibited, "two words too many");
    Ok(())
}
