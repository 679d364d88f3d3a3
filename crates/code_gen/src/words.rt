ghost use Rattle.std.specs.Prelude.{◌≡◌, ◌++◌, ◌∷◌, length, IfOk, OnOk};
ghost use Rattle.alg_model.specs.Views.{pure_value};
ghost use Rattle.code_gen.specs.Encoding.{Enc};

use alg_model::Value;
use label_code::{Output, Row, Word};
use meta_base::{List, NoMemory};
use std::alloc::Global;

/// For a value alone; the program writes values into rows that it has. The words of a value. It is refused for want of
/// memory alone.
pub fn encode(alloc: Global, value: &Value) -> Result<Row, NoMemory>
    ensures { IfOk result (λ row. row ≡ Enc (pure_value value.now)) }
{
    let mut words = Vec::new(alloc);
    write_value(alloc, value, &mut words)?;
    Ok(List::from_vec(words))
}

/// Writes the words of the value after those that stand there.
pub fn write_value<W: Output>(alloc: Global, value: &Value, out: &mut W) -> Result<(), NoMemory>
    ensures { OnOk result (W.written out.new ≡ W.written out.old ++ Enc (pure_value value.now)) }
{
    match value {
        Value::Number(n) => out.push(alloc, *n),
        Value::Symbols(symbols) => write_symbols(alloc, symbols.as_slice(), out),
        Value::Marks(marks) => out.push(alloc, Word::from(*marks)),
        Value::Unit => Ok(()),
        Value::Name(place) => out.push(alloc, Word::from(*place)),
        Value::Pair(u, v) => {
            write_value(alloc, u, out)?;
            write_value(alloc, v, out)
        }
        Value::First(u) => {
            out.push(alloc, 0)?;
            write_value(alloc, u, out)
        }
        Value::Second(v) => {
            out.push(alloc, 1)?;
            write_value(alloc, v, out)
        }
    }
}

// Writes the length and the symbols.
fn write_symbols<W: Output>(alloc: Global, symbols: &[u64], out: &mut W) -> Result<(), NoMemory>
    ensures { OnOk result (W.written out.new ≡ W.written out.old ++ length symbols.now ∷ symbols.now) }
{
    out.push(alloc, symbols.len() as Word)?;
    for symbol in symbols {
        out.push(alloc, Word::from(*symbol))?;
    }
    Ok(())
}
