ghost use Rattle.std.specs.Prelude.{◌≡◌, IfOk};
ghost use Rattle.alg_model.specs.Expressions.{Expression, lex};
ghost use Rattle.alg_model.specs.Expressions as pure;
ghost use Rattle.alg_model.specs.Formation.{IsFormed};
ghost use Rattle.alg_model.specs.Views.{pure_label};
ghost use Rattle.alg_model.specs.declared.edition.Edition.{Edition};
ghost use Rattle.alg_classes.specs.Classes.{ClassOf, alg_in};
ghost use Rattle.alg_classes.specs.Pairs as rule;
ghost use Rattle.lex_classes.specs.Lexical.{IsLexProfile};

use alg_classes::{Class, Profile, pair_examples, pair_profile};
use alg_model::Label;
use meta_base::NoMemory;
use std::alloc::Global;

/// The profile of a lexical label from those of its two labels, whatever algebras they are of.
#[tactic(auto, using(crate::specs::LexLaws::rule_is_exact))]
pub fn lex_profile(l: &Profile, m: &Profile) -> Profile
    ensures rule { result ≡ rule.pair_profile l.now m.now }
    ensures exact { IsLexProfile l.now m.now result }
{
    pair_profile(l, m)
}

/// For whoever wants classes with their examples; the program needs none. The class of a lexical label from those of
/// its two labels. It is refused for want of memory alone.
pub fn lex_class(alloc: Global, x: &Class, y: &Class) -> Result<Class, NoMemory>
    ensures profile { IfOk result (λ z. z.profile ≡ rule.pair_profile x.now.profile y.now.profile) }
    ensures label { IfOk result (λ z.
        pure_label z.label ≡ pure.pair_label (pure_label x.now.label) (pure_label y.now.label)) }
    ensures class { (a b : Expression) (e : Edition) → IsFormed (lex a b) →
        ClassOf (alg_in a e) x.now → ClassOf (alg_in b e) y.now → IfOk result (ClassOf (alg_in (lex a b) e)) }
{
    Ok(Class {
        profile: lex_profile(&x.profile, &y.profile),
        label: pair_label(alloc, &x.label, &y.label)?,
        examples: pair_examples(alloc, &x.examples, &y.examples)?,
    })
}

fn pair_label(alloc: Global, l: &Label, m: &Label) -> Result<Label, NoMemory>
    ensures { IfOk result (λ k. pure_label k ≡ pure.pair_label (pure_label l.now) (pure_label m.now)) }
{
    Ok(Label::Pair(
        Box::new(alloc, l.copy(alloc)?)?,
        Box::new(alloc, m.copy(alloc)?)?,
    ))
}
