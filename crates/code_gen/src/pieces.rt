// Pieces of code that those of labels are made of.
ghost use Rattle.std.specs.Prelude.{◌≡◌, ◌+◌, [], ◌∷◌, ◌++◌, length, OnOk};
ghost use Rattle.alg_model.specs.Carriers.{carrier_of};
ghost use Rattle.alg_model.specs.Views.{expression_of, pure_value};
ghost use Rattle.label_code.specs.declared.operations.Op.TheVariants.{Skip};
ghost use Rattle.code_gen.specs.Compilation.{Say};
ghost use Rattle.code_gen.specs.Passing.{of_word, of_sequence, of_side, passing_code};

use crate::write_value;
use alg_model::{Form, Tree, Value};
use label_code::Op;
use meta_base::NoMemory;
use std::alloc::Global;

// Writes an operation.
pub(crate) fn push_op(op: Op, code: &mut Vec<Op>) -> Result<(), NoMemory>
    ensures { OnOk result (code.new.items ≡ code.old.items ++ op ∷ []) }
{
    code.push(op)?;
    Ok(())
}

// Writes the operation that reads a side, and the code for each side, so that the first jumps over the second.
pub(crate) fn push_either(
    choose: Op,
    first: Vec<Op>,
    second: Vec<Op>,
    code: &mut Vec<Op>,
) -> Result<(), NoMemory>
    ensures { OnOk result (code.new.items ≡
        code.old.items ++ (choose ∷ first.items ++ Skip (length second.items) ∷ second.items)) }
{
    let mut first = first;
    let mut second = second;
    push_op(choose, code)?;
    code.append(&mut first)?;
    push_op(Op::Skip(second.len()), code)?;
    code.append(&mut second)?;
    Ok(())
}

/// What is done with a value that code comes to.
#[derive(Clone, Copy, Debug)]
pub(crate) enum Passing {
    /// It is copied.
    Keep,
    /// It is passed over.
    Lose,
}

impl Passing {
    fn of_word(self) -> Op
        ensures { result ≡ of_word self }
    {
        match self {
            Passing::Keep => Op::Copy,
            Passing::Lose => Op::Drop,
        }
    }

    fn of_sequence(self) -> Op
        ensures { result ≡ of_sequence self }
    {
        match self {
            Passing::Keep => Op::CopySeq,
            Passing::Lose => Op::DropSeq,
        }
    }

    // It jumps so many operations ahead for the second side.
    fn of_side(self, jump: usize) -> Op
        ensures { result ≡ of_side self jump }
    {
        match self {
            Passing::Keep => Op::Fork(jump),
            Passing::Lose => Op::Test(jump),
        }
    }
}

// Writes the code that does so with a value of the tree's carrier.
pub(crate) fn push_passing(
    alloc: Global,
    passing: Passing,
    tree: &Tree,
    code: &mut Vec<Op>,
) -> Result<(), NoMemory>
    ensures { OnOk result (code.new.items ≡
        code.old.items ++ passing_code passing (carrier_of (expression_of tree.now))) }
{
    match tree.value_form() {
        Form::Whole | Form::UpTo(_) | Form::DownFrom(_) | Form::Sets(_) | Form::Named(_, _) => {
            push_op(passing.of_word(), code)
        }
        Form::Seqs(_) | Form::SimSeqs(_) => push_op(passing.of_sequence(), code),
        Form::One => Ok(()),
        Form::Pair(a, b) => {
            push_passing(alloc, passing, a, code)?;
            push_passing(alloc, passing, b, code)
        }
        Form::Side(a, b) => {
            let mut first = Vec::new(alloc);
            push_passing(alloc, passing, a, &mut first)?;
            let mut second = Vec::new(alloc);
            push_passing(alloc, passing, b, &mut second)?;
            push_either(passing.of_side(first.len() + 1), first, second, code)
        }
    }
}

// Writes the code that writes the value.
pub(crate) fn push_say(alloc: Global, value: &Value, code: &mut Vec<Op>) -> Result<(), NoMemory>
    ensures { OnOk result (code.new.items ≡ code.old.items ++ Say (pure_value value.now)) }
{
    let mut words = Vec::new(alloc);
    write_value(alloc, value, &mut words)?;
    for word in &words {
        push_op(Op::Emit(*word), code)?;
    }
    Ok(())
}
