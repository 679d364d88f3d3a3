ghost use Rattle.std.specs.Prelude.{◌≡◌, IfOk, IfSome, option_map};
ghost use Rattle.alg_model.specs.declared.alg.TheConstants.{MAX_VALUE_NUMBER};
ghost use Rattle.alg_model.specs.Application.{App};
ghost use Rattle.alg_model.specs.Bounds.{AtMost};
ghost use Rattle.alg_model.specs.Expressions.{PureLabel};
ghost use Rattle.arc_labels.specs.Images.{made_in};

use alg_model::Algebra;
use meta_base::NoMemory;
use std::alloc::Global;

/// Puts into the place what the label makes of the value: `true` where it stands there, and `false` where the label
/// prohibits it. It is made in the memory of what the place held, and refused for want of memory alone.
#[inline(always)]
pub fn image_into<A: Algebra>(
    alloc: Global,
    algebra: &A,
    lab: &A::Lab,
    sig: &A::Sig,
    place: &mut Option<A::Sig>,
) -> Result<bool, NoMemory>
    requires lab { (l : PureLabel) × A.stands_for algebra.now lab.now l }
    requires sig { A.is_sig algebra.now sig.now }
    requires small { AtMost MAX_VALUE_NUMBER (A.sig_value algebra.now sig.now) }
    ensures sig { IfOk result (λ placed. IfSome (made_in placed place.new) (A.is_sig algebra.now)) }
    ensures image { (l : PureLabel) → A.stands_for algebra.now lab.now l → IfOk result (λ placed.
        option_map (A.sig_value algebra.now) (made_in placed place.new) ≡
        App (A.expression algebra.now) l (A.sig_value algebra.now sig.now)) }
{
    match place {
        Some(out) => algebra.apply_into(alloc, lab, sig, out),
        None => image_into_empty(alloc, algebra, lab, sig, place),
    }
}

// The same where the place holds no value. Mostly it holds one, so this stands apart.
#[inline(never)]
fn image_into_empty<A: Algebra>(
    alloc: Global,
    algebra: &A,
    lab: &A::Lab,
    sig: &A::Sig,
    place: &mut Option<A::Sig>,
) -> Result<bool, NoMemory>
    requires lab { (l : PureLabel) × A.stands_for algebra.now lab.now l }
    requires sig { A.is_sig algebra.now sig.now }
    requires small { AtMost MAX_VALUE_NUMBER (A.sig_value algebra.now sig.now) }
    ensures sig { IfOk result (λ placed. IfSome (made_in placed place.new) (A.is_sig algebra.now)) }
    ensures image { (l : PureLabel) → A.stands_for algebra.now lab.now l → IfOk result (λ placed.
        option_map (A.sig_value algebra.now) (made_in placed place.new) ≡
        App (A.expression algebra.now) l (A.sig_value algebra.now sig.now)) }
{
    let Some(image) = algebra.apply(alloc, lab, sig)? else {
        return Ok(false);
    };
    *place = Some(image);
    Ok(true)
}
