// The exact facts of one label.
ghost use Rattle.std.specs.Prelude.{◌≡◌, ◌++◌, ◌∷◌, [], List, OnOk, OnErr};
ghost use Rattle.alg_classes.specs.Profiles.{ProfileOf};
ghost use Rattle.alg_model.specs.Application.{IsLabel};
ghost use Rattle.property_infer.specs.Labels.{CoversLabels};
ghost use Rattle.alg_model.specs.Expressions.{PureLabel};
ghost use Rattle.alg_model.specs.Bounds.{LabelAtMost, greatest_number};
ghost use Rattle.alg_model.specs.Formation.{IsFormed};
ghost use Rattle.alg_model.specs.Views.{expression_of, pure_label};

use alg_classes::{Profile, has_profile};
use alg_model::{Alg, Label, LabelForm, Tree};
use base_classes::base_tree_profile;
use lex_classes::lex_profile;
use meta_base::{List, NoMemory};
use profile_labels::Labelled;
use scoped_classes::{inner_profile, outer_profile};
use std::alloc::Global;
use table_classes::table_tree_profile;
use union_classes::{
    const_profile, keep_profile, sum_profile, union_first_profile, union_second_profile,
};

/// The exact facts of a label of the algebra. It takes no memory.
pub fn label_profile(alg: &Alg, label: &Label) -> Profile
    requires { IsLabel alg.now.expression (pure_label label.now) }
    ensures { ProfileOf alg.now.expression (pure_label label.now) result }
{
    part_profile(alg.tree(), label)
}

// The same of a part.
pub(crate) fn part_profile(part: &Tree, label: &Label) -> Profile
    requires formed { IsFormed (expression_of part.now) }
    requires label { IsLabel (expression_of part.now) (pure_label label.now) }
    ensures { ProfileOf (expression_of part.now) (pure_label label.now) result }
{
    match part.label_form() {
        LabelForm::Lex(a, b) => match label {
            Label::Pair(l, m) => lex_profile(&part_profile(a, l), &part_profile(b, m)),
            _ => unreachable!(),
        },
        LabelForm::Scoped(a, b) => match label {
            Label::Outer(l, v) => outer_profile(&part_profile(a, l), b, v),
            Label::Inner(m) => inner_profile(a, &part_profile(b, m)),
            _ => unreachable!(),
        },
        LabelForm::Union(a, b) => match label {
            Label::First(l) => union_first_profile(&part_profile(a, l)),
            Label::Second(m) => union_second_profile(&part_profile(b, m)),
            _ => unreachable!(),
        },
        LabelForm::Sum(a, b) => match label {
            Label::Both(l, m) => sum_profile(&part_profile(a, l), &part_profile(b, m)),
            _ => unreachable!(),
        },
        LabelForm::Plus(a, b) => match label {
            Label::First(l) => part_profile(a, l),
            Label::Second(m) => part_profile(b, m),
            _ => unreachable!(),
        },
        LabelForm::Left(a) => match label {
            Label::Const(v) => const_profile(a, v),
            _ => unreachable!(),
        },
        LabelForm::Right(a) => keep_profile(a),
        LabelForm::Table(_) => table_tree_profile(part, label),
        LabelForm::Numbers(_, _)
        | LabelForm::UpTo(_)
        | LabelForm::Keep
        | LabelForm::Symbol(_)
        | LabelForm::Tag(_)
        | LabelForm::Guard(_)
        | LabelForm::Gate => base_tree_profile(part, label),
    }
}

/// Adds the label of the algebra with its profile, unless the profile is there. So a list that covers labels comes
/// to cover one more. After a refusal, which is for want of memory alone, the list is as it was.
pub fn add_label(
    alloc: Global,
    alg: &Alg,
    label: &Label,
    labels: &mut List<Labelled>,
) -> Result<(), NoMemory>
    requires label { IsLabel alg.now.expression (pure_label label.now) }
    requires small { LabelAtMost (greatest_number alg.now.edition) (pure_label label.now) }
    ensures covers { (all : List PureLabel) → CoversLabels alg.now all labels.old → OnOk result
        (CoversLabels alg.now (all ++ pure_label label.now ∷ []) labels.new) }
    ensures err { OnErr result (labels.new ≡ labels.old) }
{
    let profile = label_profile(alg, label);
    if has_profile(labels.as_slice(), &profile) {
        return Ok(());
    }
    labels.push(Labelled {
        profile,
        label: label.copy(alloc)?,
    })
}
