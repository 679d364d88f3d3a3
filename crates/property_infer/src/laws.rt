ghost use Rattle.std.specs.Prelude.{List};
ghost use Rattle.std.specs.List.{Contains};
ghost use Rattle.alg_model.specs.Application.{IsLabel};
ghost use Rattle.alg_model.specs.Expressions.{PureAlg, PureLabel};
ghost use Rattle.alg_model.specs.Verdicts.{ExactFor, PureVerdicts};
ghost use Rattle.profile_labels.specs.Labels.{CoversBy};
ghost use Rattle.profile_labels.specs.declared.labelled.Labelled.{Labelled};
ghost use Rattle.property_infer.specs.Labels.{CoversLabels};
ghost use Rattle.property_infer.specs.Reported.{AreReported};

/// What labels that cover an algebra tell is exact for all of its labels.
#[tactic(auto, using(crate::specs::ReportedLaws::stated_of_all))]
pub fn verdicts_of_covering_labels_are_exact()
    ensures { (a : PureAlg) (labels : List Labelled) (v : PureVerdicts) → CoversBy a labels → AreReported a labels v →
        ExactFor a.expression (IsLabel a.expression) v }
{}

/// What labels that cover those of a list tell is exact for these.
#[tactic(auto, using(crate::specs::ReportedLaws::reported_of_labels))]
pub fn verdicts_of_covered_labels_are_exact()
    ensures { (a : PureAlg) (all : List PureLabel) (labels : List Labelled) (v : PureVerdicts) →
        CoversLabels a all labels → AreReported a labels v → ExactFor a.expression (Contains all) v }
{}
