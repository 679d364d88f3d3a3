// Labels of both sides, or of one.
ghost use Rattle.std.specs.Prelude.{◌≡◌, IfOk};
ghost use Rattle.alg_model.specs.Expressions as pure;
ghost use Rattle.alg_model.specs.Views.{pure_label};

use alg_model::Label;
use meta_base::NoMemory;
use std::alloc::Global;

/// The label that acts on both sides. It is refused for want of memory alone.
pub fn both_label(alloc: Global, l: &Label, m: &Label) -> Result<Label, NoMemory>
    ensures { IfOk result (λ both. pure_label both ≡ pure.both_label (pure_label l.now) (pure_label m.now)) }
{
    Ok(Label::Both(
        Box::new(alloc, l.copy(alloc)?)?,
        Box::new(alloc, m.copy(alloc)?)?,
    ))
}

/// The label that acts on the first side. It is refused for want of memory alone.
pub fn first_label(alloc: Global, l: &Label) -> Result<Label, NoMemory>
    ensures { IfOk result (λ on_first. pure_label on_first ≡ pure.first_label (pure_label l.now)) }
{
    Ok(Label::First(Box::new(alloc, l.copy(alloc)?)?))
}

/// The label that acts on the second side. It is refused for want of memory alone.
pub fn second_label(alloc: Global, m: &Label) -> Result<Label, NoMemory>
    ensures { IfOk result (λ on_second. pure_label on_second ≡ pure.second_label (pure_label m.now)) }
{
    Ok(Label::Second(Box::new(alloc, m.copy(alloc)?)?))
}
