ghost use Rattle.std.specs.Prelude.{◌≡◌, IfOk};
ghost use Rattle.alg_model.specs.Carriers.{carrier_of};
ghost use Rattle.alg_model.specs.Formation.{IsFormed};
ghost use Rattle.code_gen.specs.Compilation.{CompileOrder};
ghost use Rattle.code_gen.specs.Encoding.{decoded, IsEncoded};
ghost use Rattle.code_gen.specs.EncodingLaws.{encoded_in};
ghost use Rattle.code_gen.specs.Meaning.{IsCodeOf};
ghost use Rattle.code_gen.specs.Widths.{HoldValues};

use crate::decoding::decode_words;
use crate::{compile_label, compile_order, write_value};
use alg_model::{Alg, Algebra, Label, Value};
use label_code::{HeldRow, LabelCode, OrderCode, Run, Words, compare_words};
use meta_base::NoMemory;
use std::alloc::Global;
use std::cmp::Ordering;
use std::marker::PhantomData;

/// The algebra by compiled code: values are rows of words, which are held as rows of this kind, and labels are lists of
/// operations on them.
#[derive(Debug, Drop)]
pub struct CodeAlgebra<'a, W: HeldRow> {
    alg: &'a Alg,
    order: OrderCode,
    row: PhantomData<W>,
    ghost compiled: { order ≡ CompileOrder (carrier_of alg.now.expression) },
    ghost holds: { HoldValues W.can_hold (carrier_of alg.now.expression) },
}

impl<'a, W: HeldRow> CodeAlgebra<'a, W> {
    /// That algebra, carried out by code, where the rows can hold its values: its order is compiled here. It is refused
    /// for want of memory alone.
    pub fn new(alloc: Global, alg: &'a Alg) -> Result<CodeAlgebra<'a, W>, NoMemory>
        requires { HoldValues W.can_hold (carrier_of alg.now.expression) }
        ensures { IfOk result (λ algebra. algebra.alg.now ≡ alg.now) }
    {
        let order = compile_order(alloc, alg)?;
        Ok(CodeAlgebra {
            alg,
            order,
            row: PhantomData,
        })
    }

    // An algebra is formed, which its own calls don't say.
    fn keeps_rules(&self)
        ensures { IsFormed self.now.alg.now.expression }
    {
        let _tree = self.alg.tree();
    }
}

impl<'a, W: HeldRow> Algebra for CodeAlgebra<'a, W> {
    type Sig = W;

    type Lab = LabelCode;

    ghost expression = { λ s. s.alg.now.expression };

    ghost sig_value = { λ s row. decoded (carrier_of s.alg.now.expression) (W.held row) };

    ghost is_sig = { λ s row. IsEncoded (carrier_of s.alg.now.expression) (W.held row) };

    ghost stands_for = { λ s lab l. IsCodeOf s.alg.now.expression lab l };

    ghost sig_in = { λ s row i. encoded_in (carrier_of s.alg.now.expression) (W.held row) i };

    ghost lab_in = { λ s lab l i. (i.1, i.2) };

    fn sig_of(&self, alloc: Global, value: &Value) -> Result<W, NoMemory> {
        let mut words = Words::new();
        write_value(alloc, value, &mut words)?;
        Ok(W::of(words))
    }

    fn value_of(&self, alloc: Global, sig: &W) -> Result<Value, NoMemory> {
        decode_words(alloc, self.alg, sig.as_slice())
    }

    fn lab_of(&self, alloc: Global, label: &Label) -> Result<LabelCode, NoMemory> {
        compile_label(alloc, self.alg, label)
    }

    fn copy(&self, alloc: Global, sig: &W) -> Result<W, NoMemory> {
        sig.copy(alloc)
    }

    #[inline(always)]
    fn order(&self, a: &W, b: &W) -> Ordering {
        self.keeps_rules();
        compare_words(self.order.as_slice(), a.as_slice(), b.as_slice())
    }

    #[inline(always)]
    fn apply(&self, alloc: Global, lab: &LabelCode, sig: &W) -> Result<Option<W>, NoMemory> {
        // A row of as many words, whatever they are.
        let mut image = sig.copy(alloc)?;
        match self.apply_into(alloc, lab, sig, &mut image)? {
            true => Ok(Some(image)),
            false => Ok(None),
        }
    }

    #[inline(always)]
    fn apply_into(
        &self,
        alloc: Global,
        lab: &LabelCode,
        sig: &W,
        out: &mut W,
    ) -> Result<bool, NoMemory> {
        self.keeps_rules();
        match out.rewrite(alloc, lab.as_slice(), sig.as_slice())? {
            Run::Made => Ok(true),
            Run::Prohibited => Ok(false),
        }
    }
}
