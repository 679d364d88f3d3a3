ghost use Rattle.std.specs.Prelude.{◌≡◌, [], ◌∷◌, ◌++◌, IfOk, OnOk};
ghost use Rattle.alg_model.specs.Carriers.{carrier_of};
ghost use Rattle.alg_model.specs.Expressions.{sides};
ghost use Rattle.alg_model.specs.Views.{expression_of};
ghost use Rattle.code_gen.specs.Compilation.{CompileOrder};

use alg_model::{Alg, Form, Tree};
use label_code::{OrdOp, OrderCode, Word};
use meta_base::{List, NoMemory};
use std::alloc::Global;

/// The code of the algebra's preference. It is refused for want of memory alone.
pub fn compile_order(alloc: Global, alg: &Alg) -> Result<OrderCode, NoMemory>
    ensures { IfOk result (λ code. code ≡ CompileOrder (carrier_of alg.now.expression)) }
{
    let mut code = Vec::new(alloc);
    push_order(alloc, alg.tree(), &mut code)?;
    Ok(List::from_vec(code))
}

// Writes the code of the preference after what stands there.
#[cycle(push_order)]
fn push_order(alloc: Global, tree: &Tree, code: &mut Vec<OrdOp>) -> Result<(), NoMemory>
    ensures { OnOk result (code.new.items ≡ code.old.items ++ CompileOrder (carrier_of (expression_of tree.now))) }
{
    match tree.value_form() {
        Form::Whole | Form::UpTo(_) => push_op(OrdOp::Less, code),
        Form::DownFrom(_) => push_op(OrdOp::More, code),
        Form::Seqs(_) | Form::SimSeqs(_) => push_op(OrdOp::Length, code),
        Form::Sets(_) => push_op(OrdOp::Pass, code),
        Form::One => Ok(()),
        Form::Named(_, ranks) => push_op(OrdOp::Rank(rank_words(alloc, ranks)?), code),
        Form::Pair(a, b) => {
            push_order(alloc, a, code)?;
            push_order(alloc, b, code)
        }
        Form::Side(a, b) => push_sides(alloc, a, b, code),
    }
}

// The same of two sides: the code of the first jumps over that of the second.
#[cycle(push_order)]
fn push_sides(alloc: Global, a: &Tree, b: &Tree, code: &mut Vec<OrdOp>) -> Result<(), NoMemory>
    ensures { OnOk result (code.new.items ≡ code.old.items
        ++ CompileOrder (sides (carrier_of (expression_of a.now)) (carrier_of (expression_of b.now)))) }
{
    let mut first = Vec::new(alloc);
    push_order(alloc, a, &mut first)?;
    let mut second = Vec::new(alloc);
    push_order(alloc, b, &mut second)?;
    push_op(OrdOp::Sides(first.len() + 1), code)?;
    code.append(&mut first)?;
    push_op(OrdOp::Leap(second.len()), code)?;
    code.append(&mut second)?;
    Ok(())
}

// Writes an operation.
fn push_op(op: OrdOp, code: &mut Vec<OrdOp>) -> Result<(), NoMemory>
    ensures { OnOk result (code.new.items ≡ code.old.items ++ op ∷ []) }
{
    code.push(op)?;
    Ok(())
}

// The ranks of a table's values, as words.
fn rank_words(alloc: Global, ranks: &[u8]) -> Result<List<Word>, NoMemory>
    ensures { IfOk result (λ words. words ≡ ranks.now) }
{
    let mut words = List::new(alloc);
    for rank in ranks {
        words.push(Word::from(*rank))?;
    }
    Ok(words)
}
