ghost use Rattle.std.specs.Prelude.{◌≡◌, None, Some, IfOk, replicate};
ghost use Rattle.arc_labels.specs.Forms.{AreForms, HasPlace, form_at, forms_at};
ghost use Rattle.net_graph.specs.LabelNumbers.{AreLabelNumbers};

use alg_model::Algebra;
use meta_base::{ArcId, NoMemory};
use net_graph::{LabelNumbers, Net};
use std::alloc::Global;
use std::marker::Model;

/// The labels on a network's arcs in an algebra's own form, each made once, however many arcs have it. Contracts see, by
/// arc, the form of its label.
#[derive(Drop)]
pub struct LabelForms<'n, L> {
    numbers: LabelNumbers<'n>,
    // By their numbers, with none for a number that no arc's label has.
    forms: Vec<Option<L>>,
}

impl<'n, L> Model for LabelForms<'n, L> {
    ghost use Rattle.std.specs.Prelude.{List, Option};
    ghost use Rattle.arc_labels.specs.Forms.{forms_at};

    ghost Value = { List (Option L) };

    ghost view = { λ s. forms_at s.forms.items s.numbers };
}

impl<'n, L> LabelForms<'n, L> {
    /// Lends the form of the arc's label.
    pub fn form(&self, arc: ArcId) -> &L
        requires { HasPlace self.now arc.0 }
        ensures { form_at self.now arc.0 ≡ Some result.now }
    {
        let Some(form) = &self.forms[self.numbers.of(arc)] else {
            unreachable!()
        };
        form
    }
}

/// The labels on the network's arcs in the algebra's form. The algebra is the network's. It is refused for want of memory
/// alone.
pub fn label_forms<'n, A: Algebra>(
    alloc: Global,
    algebra: &A,
    net: &'n Net,
) -> Result<LabelForms<'n, A::Lab>, NoMemory>
    requires { A.expression algebra.now ≡ net.now.alg.expression }
    ensures { IfOk result (AreForms (A.stands_for algebra.now) net.now) }
{
    let numbers = net.label_numbers();
    let forms = forms_of(alloc, algebra, net, &numbers)?;
    Ok(LabelForms { numbers, forms })
}

// Places for so many forms, with none in them yet.
fn no_forms<L: Drop>(alloc: Global, count: usize) -> Result<Vec<Option<L>>, NoMemory>
    ensures { IfOk result (λ forms. forms.items ≡ replicate count None) }
{
    let mut forms = Vec::with_capacity(alloc, count)?;
    for _made in 0..count {
        forms.push(None)?;
    }
    Ok(forms)
}

// By its number, the form of each label that an arc has.
fn forms_of<A: Algebra>(
    alloc: Global,
    algebra: &A,
    net: &Net,
    numbers: &LabelNumbers<'_>,
) -> Result<Vec<Option<A::Lab>>, NoMemory>
    requires algebra { A.expression algebra.now ≡ net.now.alg.expression }
    requires numbers { AreLabelNumbers net.now numbers.now }
    ensures { IfOk result (λ forms.
        AreForms (A.stands_for algebra.now) net.now (forms_at forms.items numbers.now)) }
{
    let mut forms = no_forms(alloc, numbers.count())?;
    for arc in 0..net.arc_count() {
        let id = ArcId(arc as u32);
        let number = numbers.of(id);
        if forms[number].is_none() {
            forms[number] = Some(algebra.lab_of(alloc, net.arc(id).label)?);
        }
    }
    Ok(forms)
}
