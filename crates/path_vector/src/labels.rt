// Whether labels of two networks are one.
ghost use Rattle.std.specs.Prelude.{◌≡◌};
ghost use Rattle.alg_model.specs.Views.{pure_label};
ghost use Rattle.path_vector.specs.Alike.{same_label};

use alg_model::{Label, same_value};

// Whether the labels are one and the same. It takes no memory.
pub(crate) fn same_label(label: &Label, other: &Label) -> bool
    ensures { result ≡ same_label (pure_label label.now) (pure_label other.now) }
{
    match (label, other) {
        (Label::Number(m), Label::Number(n)) | (Label::Symbol(m), Label::Symbol(n)) => m == n,
        (Label::Mark(j), Label::Mark(k))
        | (Label::Unmark(j), Label::Unmark(k))
        | (Label::Need(j), Label::Need(k))
        | (Label::Bar(j), Label::Bar(k))
        | (Label::Row(j), Label::Row(k)) => j == k,
        (Label::Keep, Label::Keep) | (Label::Allow, Label::Allow) | (Label::Deny, Label::Deny) =>
            true,
        (Label::Pair(l, m), Label::Pair(n, o)) | (Label::Both(l, m), Label::Both(n, o)) => {
            same_label(l, n) && same_label(m, o)
        }
        (Label::First(l), Label::First(n))
        | (Label::Second(l), Label::Second(n))
        | (Label::Inner(l), Label::Inner(n)) => same_label(l, n),
        (Label::Const(u), Label::Const(v)) => same_value(u, v),
        (Label::Outer(l, u), Label::Outer(n, v)) => same_label(l, n) && same_value(u, v),
        _ => false,
    }
}
