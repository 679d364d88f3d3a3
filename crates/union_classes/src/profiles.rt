ghost use Rattle.std.specs.Prelude.{◌≡◌};
ghost use Rattle.alg_model.specs.Application.{IsLabel};
ghost use Rattle.alg_model.specs.Expressions.{Expression, PureLabel, sum, union, both_label, first_label, second_label};
ghost use Rattle.alg_model.specs.Formation.{IsFormed};
ghost use Rattle.alg_classes.specs.Profiles.{ProfileOf};
ghost use Rattle.union_classes.specs.Sums.{all_of_both, beside_profile, first_profile, second_profile};

use alg_classes::Profile;

// Each fact that both have.
fn all_of_both(l: &Profile, m: &Profile) -> Profile
    ensures { result ≡ all_of_both l.now m.now }
{
    Profile {
        total: l.total && m.total,
        dead: l.dead && m.dead,
        mono: l.mono && m.mono,
        strict: l.strict && m.strict,
        iso: l.iso && m.iso,
        canc: l.canc && m.canc,
        cond: l.cond && m.cond,
        narrow: l.narrow && m.narrow,
    }
}

// The profile of one action on the first side beside another on the second.
fn beside(l: &Profile, m: &Profile) -> Profile
    ensures { result ≡ beside_profile l.now m.now }
{
    let both = all_of_both(l, m);
    let one_dead = l.dead || m.dead;
    Profile {
        // Order is lost where a value of the first side is sent to none, and one of the second isn't.
        iso: both.iso && (l.total || m.dead),
        // Images of both sides are never equivalent, nor are values of both.
        cond: both.cond && one_dead,
        narrow: both.narrow && one_dead,
        ..both
    }
}

/// The profile of a sum's label, from those of its parts.
pub fn sum_profile(l: &Profile, m: &Profile) -> Profile
    ensures rule { result ≡ beside_profile l.now m.now }
    ensures exact { (a b : Expression) (x y : PureLabel) → IsFormed (sum a b) → IsLabel a x → IsLabel b y →
        ProfileOf a x l.now → ProfileOf b y m.now → ProfileOf (sum a b) (both_label x y) result }
{
    beside(l, m)
}

/// The profile of a union's label of the first side, from that of its part.
pub fn union_first_profile(x: &Profile) -> Profile
    ensures rule { result ≡ first_profile x.now }
    ensures exact { (a b : Expression) (l : PureLabel) → IsFormed (union a b) → IsLabel a l →
        ProfileOf a l x.now → ProfileOf (union a b) (first_label l) result }
{
    Profile { total: false, ..*x }
}

/// The profile of a union's label of the second side, from that of its part.
pub fn union_second_profile(x: &Profile) -> Profile
    ensures rule { result ≡ second_profile x.now }
    ensures exact { (a b : Expression) (m : PureLabel) → IsFormed (union a b) → IsLabel b m →
        ProfileOf b m x.now → ProfileOf (union a b) (second_label m) result }
{
    Profile {
        total: false,
        // The first side's values are sent to none: no image of the second side may be better than that.
        iso: x.dead,
        ..*x
    }
}
