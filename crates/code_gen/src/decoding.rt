ghost use Rattle.std.specs.Prelude.{◌≡◌, ◌≢◌, ◌∷◌, ◌^◌, ◌≤◌, ◌<◌, [], length, IfOk, Some, None};
ghost use Rattle.std.specs.List.{AllByRecursion};
ghost use Rattle.alg_model.specs.Carriers.{carrier_of, In};
ghost use Rattle.alg_model.specs.Expressions.{PureValue, marks, name, first, second};
ghost use Rattle.alg_model.specs.Formation.{MeetsRanges};
ghost use Rattle.alg_model.specs.Views.{expression_of, pure_value};
ghost use Rattle.alg_model.specs.declared.alg.TheConstants.{MAX_TABLE_NAMES};
ghost use Rattle.code_gen.specs.Encoding.{Enc, Dec, decoded, IsEncoded, small_front, symbols_front, side_front};

use alg_model::{Alg, Form, Tree, Value};
use label_code::{Row, Word};
use meta_base::{List, NoMemory, Text};
use std::alloc::Global;

/// For a row alone; the program's rows are decoded by their algebra. The value of the algebra whose words the row is.
/// It is refused for want of memory alone.
pub fn decode(alloc: Global, alg: &Alg, row: &Row) -> Result<Value, NoMemory>
    requires { IsEncoded (carrier_of alg.now.expression) row.now }
    ensures { (v : PureValue) → In (carrier_of alg.now.expression) v → Enc v ≡ row.now →
        IfOk result (λ value. pure_value value ≡ v) }
{
    decode_words(alloc, alg, row.as_slice())
}

/// What [`decode`] tells, of a row that is a slice.
pub(crate) fn decode_words(alloc: Global, alg: &Alg, row: &[Word]) -> Result<Value, NoMemory>
    requires { IsEncoded (carrier_of alg.now.expression) row.now }
    ensures { IfOk result (λ value. pure_value value ≡ decoded (carrier_of alg.now.expression) row.now) }
{
    let mut rest = row;
    take_value(alloc, alg.tree(), &mut rest)
}

// Takes the words of a value of the tree's carrier from the front of the row.
#[cycle(take_value)]
#[inline(always)]
fn take_value(alloc: Global, tree: &Tree, row: &mut &[Word]) -> Result<Value, NoMemory>
    requires ranges { MeetsRanges (expression_of tree.now) }
    requires there { Dec (carrier_of (expression_of tree.now)) row.old.now ≢ None }
    ensures { IfOk result (λ value.
        Some (pure_value value, row.new.now) ≡ Dec (carrier_of (expression_of tree.now)) row.old.now) }
{
    match tree.value_form() {
        Form::Whole | Form::UpTo(_) | Form::DownFrom(_) => Ok(Value::Number(take_word(row))),
        Form::Seqs(symbols) | Form::SimSeqs(symbols) => take_symbols(alloc, symbols, row),
        Form::Sets(count) => Ok(take_marks(count, row)),
        Form::One => Ok(Value::Unit),
        Form::Named(names, _) => Ok(take_name(names, row)),
        Form::Pair(a, b) => {
            let u = take_boxed(alloc, a, row)?;
            let v = take_boxed(alloc, b, row)?;
            Ok(Value::Pair(u, v))
        }
        Form::Side(a, b) => take_side(alloc, a, b, row),
    }
}

// The same, into memory of its own. Parts of values are made by this call, which hands back one word, so that no call
// has to make room for a whole value of each part.
#[cycle(take_value)]
#[inline(never)]
fn take_boxed(alloc: Global, tree: &Tree, row: &mut &[Word]) -> Result<Box<Value>, NoMemory>
    requires ranges { MeetsRanges (expression_of tree.now) }
    requires there { Dec (carrier_of (expression_of tree.now)) row.old.now ≢ None }
    ensures { IfOk result (λ boxed.
        Some (pure_value boxed.value, row.new.now) ≡ Dec (carrier_of (expression_of tree.now)) row.old.now) }
{
    Ok(Box::new(alloc, take_value(alloc, tree, row)?)?)
}

#[cycle(take_value)]
fn take_side(alloc: Global, a: &Tree, b: &Tree, row: &mut &[Word]) -> Result<Value, NoMemory>
    requires first { MeetsRanges (expression_of a.now) }
    requires second { MeetsRanges (expression_of b.now) }
    requires there { side_front (λ rest. Dec (carrier_of (expression_of a.now)) rest)
        (λ rest. Dec (carrier_of (expression_of b.now)) rest) row.old.now ≢ None }
    ensures { IfOk result (λ value. Some (pure_value value, row.new.now) ≡
        side_front (λ rest. Dec (carrier_of (expression_of a.now)) rest)
        (λ rest. Dec (carrier_of (expression_of b.now)) rest) row.old.now) }
{
    match take_word(row) {
        0 => Ok(Value::First(take_boxed(alloc, a, row)?)),
        1 => Ok(Value::Second(take_boxed(alloc, b, row)?)),
        _ => unreachable!(),
    }
}

fn take_word(row: &mut &[Word]) -> Word
    requires { row.old.now ≢ [] }
    ensures { row.old.now ≡ result ∷ row.new.now }
{
    let whole = *row;
    let Some((word, rest)) = whole.split_first() else {
        unreachable!()
    };
    *row = rest;
    *word
}

fn take_marks(count: u64, row: &mut &[Word]) -> Value
    requires count { count ≤ 64 }
    requires there { small_front (2 ^ count) marks row.old.now ≢ None }
    ensures { Some (pure_value result, row.new.now) ≡ small_front (2 ^ count) marks row.old.now }
{
    Value::Marks(take_word(row) as u64)
}

fn take_name(names: &[Text], row: &mut &[Word]) -> Value
    requires names { length names.now ≤ MAX_TABLE_NAMES }
    requires there { small_front (length names.now) name row.old.now ≢ None }
    ensures { Some (pure_value result, row.new.now) ≡ small_front (length names.now) name row.old.now }
{
    Value::Name(take_word(row) as u8)
}

fn take_symbols(alloc: Global, count: u64, row: &mut &[Word]) -> Result<Value, NoMemory>
    requires { symbols_front count row.old.now ≢ None }
    ensures { IfOk result (λ value. Some (pure_value value, row.new.now) ≡ symbols_front count row.old.now) }
{
    let length = take_word(row);
    let whole = *row;
    let (words, rest) = whole.split_at(length as usize);
    *row = rest;
    Ok(Value::Symbols(narrowed(alloc, words)?))
}

// The words as symbols.
fn narrowed(alloc: Global, words: &[Word]) -> Result<List<u64>, NoMemory>
    requires { AllByRecursion (λ w. w < 2 ^ 64) words.now }
    ensures { IfOk result (λ symbols. symbols ≡ words.now) }
{
    let mut symbols = List::new(alloc);
    for word in words {
        symbols.push(*word as u64)?;
    }
    Ok(symbols)
}
