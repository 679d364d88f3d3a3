ghost use Rattle.alg_classes.specs.Classes.{ClassOf};
ghost use Rattle.alg_classes.specs.declared.fact.Fact.{Fact};
ghost use Rattle.alg_classes.specs.Facts.{Action, Holds, PureExample, Refutes};
ghost use Rattle.alg_classes.specs.Profiles.{ProfileOf};
ghost use Rattle.alg_classes.specs.declared.class.Class.{Class};
ghost use Rattle.alg_model.specs.Expressions.{PureAlg, PureCarrier};
ghost use Rattle.alg_model.specs.Views.{pure_label};

/// An example refutes its fact, so no fact is both said to hold and shown to fail.
#[tactic(auto, using(crate::specs::FactLaws::example_refutes))]
pub fn examples_refute()
    ensures { (c : PureCarrier) (f : Action) (k : Fact) (e : PureExample) → Refutes c f k e → ¬ Holds c f k }
{}

/// A class has the exact facts of its label.
#[tactic(auto, using(crate::specs::ClassLaws::class_profile))]
pub fn classes_have_their_profiles()
    ensures { (a : PureAlg) (class : Class) → ClassOf a class →
        ProfileOf a.expression (pure_label class.label) class.profile }
{}
