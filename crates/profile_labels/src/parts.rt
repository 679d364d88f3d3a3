// The labels of an algebra, from those of its parts.
ghost use Rattle.std.specs.Prelude.{IfOk, OnOk};
ghost use Rattle.std.specs.List.{AllByRecursion};
ghost use Rattle.alg_classes.specs.Classes.{Covers, alg_in};
ghost use Rattle.alg_model.specs.Bounds.{ExpressionAtMost, greatest_number};
ghost use Rattle.alg_model.specs.Carriers.{carrier_of};
ghost use Rattle.alg_model.specs.Expressions.{Expression, PureAlg, lex, scoped, union, sum, plus, right};
ghost use Rattle.alg_model.specs.Formation.{IsAlg, IsFormed};
ghost use Rattle.alg_model.specs.Views.{expression_of};
ghost use Rattle.alg_model.specs.declared.edition.Edition.{Edition};
ghost use Rattle.alg_classes.specs.Growth.{Only};
ghost use Rattle.profile_labels.specs.Growth.{Grown, Over};
ghost use Rattle.profile_labels.specs.Extremes.{HasExtreme};
ghost use Rattle.profile_labels.specs.Outlines.{CoversBy, OutlinedOf, extreme_of};
ghost use Rattle.scoped_classes.specs.Scoped.{OfOuters, outer_rule};

use crate::extreme::{Extreme, has_worst};
use crate::joint::Joint;
use crate::leaves::{labels_of_base, labels_of_table};
use crate::outlined::{Outlined, add_labels};
use crate::part::Part;
use crate::step::{Step, add_joined, add_steps};
use alg_classes::{ClassList, kept_profile};
use alg_model::{Alg, LabelForm, Tree};
use meta_base::{List, NoMemory};
use std::alloc::Global;
use union_classes::{left_class_list, right_class_list};

// Labels of the part of the algebra: one for each profile that a label of it has. They are refused for want of memory
// alone.
#[cycle(part_labels)]
pub(crate) fn part_labels<'a>(
    alloc: Global,
    alg: &Alg,
    part: &'a Tree,
) -> Result<List<Outlined<'a>>, NoMemory>
    requires { IsAlg (alg_in (expression_of part.now) alg.now.edition) }
    ensures { IfOk result (CoversBy (alg_in (expression_of part.now) alg.now.edition)) }
{
    match part.label_form() {
        LabelForm::Lex(a, b) => labels_of_lex(alloc, alg, a, b),
        LabelForm::Scoped(a, b) => labels_of_scoped(alloc, alg, a, b),
        LabelForm::Union(a, b) => labels_of_union(alloc, alg, a, b),
        LabelForm::Sum(a, b) => labels_of_sum(alloc, alg, a, b),
        LabelForm::Plus(a, b) => labels_of_plus(alloc, alg, a, b),
        LabelForm::Left(a) => labels_of(
            alloc,
            &left_class_list(alloc, &Part::of(a).carrier(alloc)?)?,
        ),
        LabelForm::Right(a) => labels_of_right(alloc, alg, a),
        LabelForm::Table(_) => labels_of_table(alloc, part),
        LabelForm::Numbers(_, _)
        | LabelForm::UpTo(_)
        | LabelForm::Keep
        | LabelForm::Symbol(_)
        | LabelForm::Tag(_)
        | LabelForm::Guard(_)
        | LabelForm::Gate => labels_of_base(alloc, part),
    }
}

// The labels of classes that cover an algebra.
fn labels_of<'a>(alloc: Global, classes: &ClassList) -> Result<List<Outlined<'a>>, NoMemory>
    ensures { (a : PureAlg) → Covers a classes.now → IfOk result (CoversBy a) }
{
    let mut list = List::new(alloc);
    add_labels(alloc, &mut list, classes.classes())?;
    Ok(list)
}

#[cycle(part_labels)]
fn labels_of_lex<'a>(
    alloc: Global,
    alg: &Alg,
    a: &'a Tree,
    b: &'a Tree,
) -> Result<List<Outlined<'a>>, NoMemory>
    requires { IsAlg (alg_in (lex (expression_of a.now) (expression_of b.now)) alg.now.edition) }
    ensures { IfOk result (CoversBy (alg_in (lex (expression_of a.now) (expression_of b.now)) alg.now.edition)) }
{
    let xs = part_labels(alloc, alg, a)?;
    let ys = part_labels(alloc, alg, b)?;
    let mut list = List::new(alloc);
    add_joined(alloc, &mut list, Joint::Lex, xs.as_slice(), ys.as_slice())?;
    Ok(list)
}

#[cycle(part_labels)]
fn labels_of_sum<'a>(
    alloc: Global,
    alg: &Alg,
    a: &'a Tree,
    b: &'a Tree,
) -> Result<List<Outlined<'a>>, NoMemory>
    requires { IsAlg (alg_in (sum (expression_of a.now) (expression_of b.now)) alg.now.edition) }
    ensures { IfOk result (CoversBy (alg_in (sum (expression_of a.now) (expression_of b.now)) alg.now.edition)) }
{
    let xs = part_labels(alloc, alg, a)?;
    let ys = part_labels(alloc, alg, b)?;
    let mut list = List::new(alloc);
    add_joined(alloc, &mut list, Joint::Sum, xs.as_slice(), ys.as_slice())?;
    Ok(list)
}

#[cycle(part_labels)]
fn labels_of_union<'a>(
    alloc: Global,
    alg: &Alg,
    a: &'a Tree,
    b: &'a Tree,
) -> Result<List<Outlined<'a>>, NoMemory>
    requires { IsAlg (alg_in (union (expression_of a.now) (expression_of b.now)) alg.now.edition) }
    ensures { IfOk result (CoversBy (alg_in (union (expression_of a.now) (expression_of b.now)) alg.now.edition)) }
{
    let xs = part_labels(alloc, alg, a)?;
    let ys = part_labels(alloc, alg, b)?;
    let mut list = List::new(alloc);
    add_steps(alloc, &mut list, &Step::UnionFirst, xs.as_slice())?;
    add_steps(alloc, &mut list, &Step::UnionSecond, ys.as_slice())?;
    Ok(list)
}

#[cycle(part_labels)]
fn labels_of_plus<'a>(
    alloc: Global,
    alg: &Alg,
    a: &'a Tree,
    b: &'a Tree,
) -> Result<List<Outlined<'a>>, NoMemory>
    requires { IsAlg (alg_in (plus (expression_of a.now) (expression_of b.now)) alg.now.edition) }
    ensures { IfOk result (CoversBy (alg_in (plus (expression_of a.now) (expression_of b.now)) alg.now.edition)) }
{
    let xs = part_labels(alloc, alg, a)?;
    let ys = part_labels(alloc, alg, b)?;
    let mut list = List::new(alloc);
    add_steps(alloc, &mut list, &Step::PlusFirst, xs.as_slice())?;
    add_steps(alloc, &mut list, &Step::PlusSecond, ys.as_slice())?;
    Ok(list)
}

#[cycle(part_labels)]
fn labels_of_scoped<'a>(
    alloc: Global,
    alg: &Alg,
    a: &'a Tree,
    b: &'a Tree,
) -> Result<List<Outlined<'a>>, NoMemory>
    requires { IsAlg (alg_in (scoped (expression_of a.now) (expression_of b.now)) alg.now.edition) }
    ensures { IfOk result (CoversBy (alg_in (scoped (expression_of a.now) (expression_of b.now)) alg.now.edition)) }
{
    let xs = part_labels(alloc, alg, a)?;
    let ys = part_labels(alloc, alg, b)?;
    let mut list = List::new(alloc);
    add_outers(alloc, &mut list, xs.as_slice(), b)?;
    add_steps(
        alloc,
        &mut list,
        &Step::Inner(kept_profile(a)),
        ys.as_slice(),
    )?;
    Ok(list)
}

fn labels_of_right<'a>(alloc: Global, alg: &Alg, a: &Tree) -> Result<List<Outlined<'a>>, NoMemory>
    requires { IsAlg (alg_in (right (expression_of a.now)) alg.now.edition) }
    ensures { IfOk result (CoversBy (alg_in (right (expression_of a.now)) alg.now.edition)) }
{
    let carrier = Part::of(a).carrier(alloc)?;
    let classes = right_class_list(alloc, &carrier)?;
    labels_of(alloc, &classes)
}

// Adds the labels that set the second part. There are as many as it has values, but two do: only whether a value
// has a worse one shows in the profile.
fn add_outers<'a>(
    alloc: Global,
    list: &mut List<Outlined<'a>>,
    xs: &[Outlined<'a>],
    second: &'a Tree,
) -> Result<(), NoMemory>
    requires { IsFormed (expression_of second.now) }
    ensures { (a : Expression) (e : Edition) → IsFormed (scoped a (expression_of second.now)) →
        ExpressionAtMost (greatest_number e) (expression_of second.now) →
        AllByRecursion (OutlinedOf (alg_in a e)) xs.now → OnOk result
        (Grown (OutlinedOf (alg_in (scoped a (expression_of second.now)) e))
        (Over (OfOuters (carrier_of (expression_of second.now))) xs.now) list.old list.new) }
{
    add_outers_to(alloc, list, xs, second, Extreme::Best)?;
    if has_worst(second) {
        add_outers_to(alloc, list, xs, second, Extreme::Worst)
    } else {
        Ok(())
    }
}

// Adds those that set it to its value at this end.
fn add_outers_to<'a>(
    alloc: Global,
    list: &mut List<Outlined<'a>>,
    xs: &[Outlined<'a>],
    second: &'a Tree,
    end: Extreme,
) -> Result<(), NoMemory>
    requires formed { IsFormed (expression_of second.now) }
    requires there { HasExtreme (carrier_of (expression_of second.now)) end }
    ensures { (a : Expression) (e : Edition) → IsFormed (scoped a (expression_of second.now)) →
        ExpressionAtMost (greatest_number e) (expression_of second.now) →
        AllByRecursion (OutlinedOf (alg_in a e)) xs.now → OnOk result
        (Grown (OutlinedOf (alg_in (scoped a (expression_of second.now)) e))
        (Over (λ p. Only (outer_rule (carrier_of (expression_of second.now))
        (extreme_of (carrier_of (expression_of second.now)) end) p)) xs.now) list.old list.new) }
{
    let step = Step::Outer(Part::of(second), end, end.profile(second));
    add_steps(alloc, list, &step, xs)
}
