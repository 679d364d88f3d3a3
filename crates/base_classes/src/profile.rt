// The facts of labels, by the table of rules, and the labels that show each of their profiles.
ghost use Rattle.std.specs.Prelude.{◌≡◌, ◌≤◌, IfNone, IfSome};
ghost use Rattle.alg_model.specs.Views.{expression_of, pure_label};
ghost use Rattle.alg_model.specs.Application.{IsLabel};
ghost use Rattle.alg_model.specs.Expressions.{number_label};
ghost use Rattle.alg_model.specs.Formation.{MeetsRanges};
ghost use Rattle.alg_model.specs.Forms.{IsBase};
ghost use Rattle.alg_classes.specs.Profiles.{ProfileOf};
ghost use Rattle.base_classes.specs.Kinds.{number_in, is_allow};
ghost use Rattle.base_classes.specs.Lists.{candidate, candidate_number};
ghost use Rattle.base_classes.specs.Profiles.{base_profile_of, add_profile, cap_profile, worst_profile, width_profile};
ghost use Rattle.base_classes.specs.Profiles.{pref_profile, keep_profile, seq_profile, simseq_profile};
ghost use Rattle.base_classes.specs.Profiles.{guard_profile};

use alg_classes::{Profile, denied_profile};
use alg_model::{Alg, Label, Tree};

/// Which facts the label of a base algebra has. It takes no memory.
///
/// The algebra's root is a base algebra other than a table, and the label is the algebra's.
pub fn base_profile(alg: &Alg, label: &Label) -> Profile
    requires base { IsBase alg.now.expression }
    requires label { IsLabel alg.now.expression (pure_label label.now) }
    ensures { ProfileOf alg.now.expression (pure_label label.now) result }
{
    base_tree_profile(alg.tree(), label)
}

/// The same of a tree that meets the formation rule on ranges.
#[tactic(auto, using(crate::specs::BaseLaws::base_is_profile))]
pub fn base_tree_profile(tree: &Tree, label: &Label) -> Profile
    requires base { IsBase (expression_of tree.now) }
    requires ranges { MeetsRanges (expression_of tree.now) }
    requires label { IsLabel (expression_of tree.now) (pure_label label.now) }
    ensures { ProfileOf (expression_of tree.now) (pure_label label.now) result }
{
    rule(tree, label)
}

// What the table says of the label.
pub(crate) fn rule(tree: &Tree, label: &Label) -> Profile
    requires { IsBase (expression_of tree.now) }
    ensures { result ≡ base_profile_of (expression_of tree.now) (pure_label label.now) }
{
    match tree {
        Tree::Add { .. } => add_rule(number_in(label)),
        Tree::Cap { top, .. } => cap_rule(*top, number_in(label)),
        Tree::Worst { top, .. } => worst_rule(*top, number_in(label)),
        Tree::Width { top, .. } => width_rule(*top, number_in(label)),
        Tree::Pref { top } => pref_rule(*top, number_in(label)),
        Tree::Orig { top } => keep_rule(*top == 0),
        Tree::Seq { .. } => seq_rule(),
        Tree::SimSeq { symbols } => simseq_rule(*symbols),
        Tree::Tags { .. } => keep_rule(true),
        Tree::Guard { .. } => guard_rule(),
        Tree::Gate if is_allow(label) => keep_rule(true),
        Tree::Gate => denied_profile(),
        Tree::Table(_)
        | Tree::Lex(_, _)
        | Tree::Scoped(_, _)
        | Tree::Union(_, _)
        | Tree::Sum(_, _)
        | Tree::Plus(_, _)
        | Tree::Left(_)
        | Tree::Right(_) => unreachable!(),
    }
}

/// The label at that place, below [`crate::BASE_CANDIDATES`], among those of which each profile of a label is that of one;
/// `None` where it is none of the algebra's. It takes no memory.
///
/// The tree is a base algebra other than a table, and meets the formation rule on ranges.
pub fn base_candidate(tree: &Tree, place: usize) -> Option<Label>
    requires base { IsBase (expression_of tree.now) }
    requires ranges { MeetsRanges (expression_of tree.now) }
    ensures some { IfSome result (λ label. (pure_label label ≡ candidate (expression_of tree.now) place) ×
        IsLabel (expression_of tree.now) (pure_label label)) }
    ensures none { IfNone result (¬ IsLabel (expression_of tree.now) (candidate (expression_of tree.now) place)) }
{
    match tree {
        Tree::Add { low, high } => {
            number_between(*low, *high, candidate_number(place, *low, *low, *high))
        }
        Tree::Cap { top, low, high }
        | Tree::Worst { top, low, high }
        | Tree::Width { top, low, high } => {
            number_between(*low, *high, candidate_number(place, *low, *top, *high))
        }
        Tree::Pref { top } => number_between(0, *top, candidate_number(place, 0, *top, *top)),
        Tree::Orig { .. } | Tree::Tags { .. } => Some(Label::Keep),
        Tree::Seq { .. } | Tree::SimSeq { .. } => Some(Label::Symbol(0)),
        Tree::Guard { .. } => Some(Label::Need(0)),
        Tree::Gate if place == 0 => Some(Label::Allow),
        Tree::Gate => Some(Label::Deny),
        Tree::Table(_)
        | Tree::Lex(_, _)
        | Tree::Scoped(_, _)
        | Tree::Union(_, _)
        | Tree::Sum(_, _)
        | Tree::Plus(_, _)
        | Tree::Left(_)
        | Tree::Right(_) => unreachable!(),
    }
}

// The label of the number, if it is in the range.
fn number_between(low: u64, high: u64, n: u64) -> Option<Label>
    ensures some { IfSome result (λ label. (pure_label label ≡ number_label n) × (low ≤ n) × (n ≤ high)) }
    ensures none { IfNone result (¬ ((low ≤ n) × (n ≤ high))) }
{
    if low <= n && n <= high {
        Some(Label::Number(n))
    } else {
        None
    }
}

fn candidate_number(place: usize, low: u64, top: u64, high: u64) -> u64
    ensures { result ≡ candidate_number place low top high }
{
    match place {
        0 => low,
        1 => 1,
        2 => top,
        _ => high,
    }
}

// The number that the label holds, or 0.
pub(crate) fn number_in(label: &Label) -> u64
    ensures { result ≡ number_in (pure_label label.now) }
{
    match label {
        Label::Number(n) | Label::Symbol(n) => *n,
        Label::Mark(k) | Label::Unmark(k) | Label::Need(k) | Label::Bar(k) => u64::from(*k),
        _ => 0,
    }
}

fn is_allow(label: &Label) -> bool
    ensures { result ≡ is_allow (pure_label label.now) }
{
    matches!(label, Label::Allow)
}

// In what follows, a fact that a rule doesn't name is that of a label that keeps each value.

fn add_rule(n: u64) -> Profile
    ensures { result ≡ add_profile n }
{
    Profile {
        strict: n != 0,
        ..keep_rule(false)
    }
}

fn cap_rule(top: u64, n: u64) -> Profile
    ensures { result ≡ cap_profile top n }
{
    Profile {
        total: n == 0,
        dead: n > top,
        strict: n != 0,
        ..keep_rule(n >= top)
    }
}

fn worst_rule(top: u64, n: u64) -> Profile
    ensures { result ≡ worst_profile top n }
{
    Profile {
        canc: n == 0,
        cond: n == top,
        ..keep_rule(top == 0)
    }
}

fn width_rule(top: u64, n: u64) -> Profile
    ensures { result ≡ width_profile top n }
{
    Profile {
        canc: n == top,
        cond: n == 0,
        ..keep_rule(top == 0)
    }
}

fn pref_rule(top: u64, n: u64) -> Profile
    ensures { result ≡ pref_profile top n }
{
    Profile {
        mono: n == 0,
        canc: top == 0,
        cond: true,
        ..keep_rule(top == 0)
    }
}

fn seq_rule() -> Profile
    ensures { result ≡ seq_profile }
{
    Profile {
        strict: true,
        ..keep_rule(false)
    }
}

fn simseq_rule(symbols: u64) -> Profile
    ensures { result ≡ simseq_profile symbols }
{
    Profile {
        total: false,
        strict: true,
        iso: symbols == 1,
        ..keep_rule(symbols == 1)
    }
}

fn guard_rule() -> Profile
    ensures { result ≡ guard_profile }
{
    Profile {
        total: false,
        iso: false,
        ..keep_rule(true)
    }
}

// A label that keeps each value, or makes a set of each set.
fn keep_rule(flat: bool) -> Profile
    ensures { result ≡ keep_profile flat }
{
    Profile {
        total: true,
        dead: false,
        mono: true,
        strict: false,
        iso: true,
        canc: true,
        cond: flat,
        narrow: flat,
    }
}
