// The carriers of algebras.
ghost use Rattle.std.specs.Prelude.{◌≡◌, ◌↔◌, true, IfOk};
ghost use Rattle.meta_base.specs.declared.limits.TheConstants.{MAX_NUMBER};
ghost use Rattle.alg_model.specs.Views.{expression_of, pure_carrier, pure_value};
ghost use Rattle.alg_model.specs.Carriers.{carrier_of, In};
ghost use Rattle.alg_model.specs.Formation.{IsCarrier};
ghost use Rattle.alg_model.specs.Bounds.{AtMost};

use crate::copying::{copy_list, copy_texts};
use crate::{Alg, Carrier, Form, Tree, Value};
use meta_base::{List, NoMemory, Text};
use std::alloc::Global;

/// For whoever composes algebras; the program compares the carriers of trees. Whether two algebras have the same
/// carrier: the same values in the same order of preference. It takes no memory.
pub fn same_carrier(a: &Alg, b: &Alg) -> bool
    ensures { (result ≡ true) ↔ (carrier_of a.now.expression ≡ carrier_of b.now.expression) }
{
    have_same_carrier(a.tree(), b.tree())
}

/// The carrier of an algebra. It is refused for want of memory alone.
pub fn carrier_of(alloc: Global, alg: &Alg) -> Result<Carrier, NoMemory>
    ensures carrier { IfOk result (λ c. pure_carrier c ≡ carrier_of alg.now.expression) }
    ensures may_be { IfOk result (λ c. IsCarrier (pure_carrier c)) }
{
    tree_carrier(alloc, alg.tree())
}

/// The carrier of a tree's expression, which need not meet the formation rules. It is refused for want of
/// memory alone.
pub fn tree_carrier(alloc: Global, tree: &Tree) -> Result<Carrier, NoMemory>
    ensures { IfOk result (λ c. pure_carrier c ≡ carrier_of (expression_of tree.now)) }
{
    match tree.value_form() {
        Form::Whole => Ok(Carrier::Whole),
        Form::UpTo(top) => Ok(Carrier::UpTo(top)),
        Form::DownFrom(top) => Ok(Carrier::DownFrom(top)),
        Form::Seqs(symbols) => Ok(Carrier::Seqs(symbols)),
        Form::SimSeqs(symbols) => Ok(Carrier::SimSeqs(symbols)),
        Form::Sets(count) => Ok(Carrier::Sets(count)),
        Form::One => Ok(Carrier::One),
        Form::Named(names, ranks) => Ok(Carrier::Named(
            copy_texts(alloc, names)?,
            copy_list(alloc, ranks)?,
        )),
        Form::Pair(a, b) => Ok(Carrier::Pair(
            Box::new(alloc, tree_carrier(alloc, a)?)?,
            Box::new(alloc, tree_carrier(alloc, b)?)?,
        )),
        Form::Side(a, b) => Ok(Carrier::Side(
            Box::new(alloc, tree_carrier(alloc, a)?)?,
            Box::new(alloc, tree_carrier(alloc, b)?)?,
        )),
    }
}

impl Carrier {
    /// Some value of a carrier that an algebra may have, or a part of it, whose numbers are small. It is
    /// refused for want of memory alone.
    pub fn member(&self, alloc: Global) -> Result<Value, NoMemory>
        requires { IsCarrier (pure_carrier self.now) }
        ensures member { IfOk result (λ v. In (pure_carrier self.now) (pure_value v)) }
        ensures small { IfOk result (λ v. AtMost MAX_NUMBER (pure_value v)) }
    {
        match self {
            Carrier::Whole | Carrier::UpTo(_) | Carrier::DownFrom(_) => Ok(Value::Number(0)),
            Carrier::Seqs(_) | Carrier::SimSeqs(_) => Ok(Value::Symbols(List::new(alloc))),
            Carrier::Sets(_) => Ok(Value::Marks(0)),
            Carrier::One => Ok(Value::Unit),
            Carrier::Named(_, _) => Ok(Value::Name(0)),
            Carrier::Pair(c, d) => Ok(Value::Pair(
                Box::new(alloc, c.member(alloc)?)?,
                Box::new(alloc, d.member(alloc)?)?,
            )),
            Carrier::Side(c, _) => Ok(Value::First(Box::new(alloc, c.member(alloc)?)?)),
        }
    }
}

/// The same of two trees, which need not meet the formation rules.
pub fn have_same_carrier(a: &Tree, b: &Tree) -> bool
    ensures { (result ≡ true) ↔ (carrier_of (expression_of a.now) ≡ carrier_of (expression_of b.now)) }
{
    match (a.value_form(), b.value_form()) {
        (Form::Whole, Form::Whole) | (Form::One, Form::One) => true,
        (Form::UpTo(k), Form::UpTo(n))
        | (Form::DownFrom(k), Form::DownFrom(n))
        | (Form::Seqs(k), Form::Seqs(n))
        | (Form::SimSeqs(k), Form::SimSeqs(n))
        | (Form::Sets(k), Form::Sets(n)) => k == n,
        (Form::Named(ts, ranks), Form::Named(us, others)) => {
            are_same_texts(ts, us) && ranks == others
        }
        (Form::Pair(a, b), Form::Pair(c, d)) | (Form::Side(a, b), Form::Side(c, d)) => {
            have_same_carrier(a, c) && have_same_carrier(b, d)
        }
        _ => false,
    }
}

// Whether there are the same texts in the same order.
fn are_same_texts(ts: &[Text], us: &[Text]) -> bool
    ensures { (result ≡ true) ↔ (ts.now ≡ us.now) }
{
    match (ts, us) {
        ([t, ts @ ..], [u, us @ ..]) => is_same_text(t, u) && are_same_texts(ts, us),
        ([], []) => true,
        _ => false,
    }
}

#[tactic(auto, using(crate::proofs::Texts::same_text))]
fn is_same_text(t: &Text, u: &Text) -> bool
    ensures { (result ≡ true) ↔ (t.now ≡ u.now) }
{
    t.as_str() == u.as_str()
}
