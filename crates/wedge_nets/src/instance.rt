// The label and the value of a wedge.
ghost use Rattle.std.specs.Prelude.{◌≡◌, IfOk};
ghost use Rattle.alg_classes.specs.Instances.{pure_instance};
ghost use Rattle.alg_model.specs.Application.{IsLabel};
ghost use Rattle.alg_model.specs.Properties.{monotone};
ghost use Rattle.alg_model.specs.Verdicts.{IsExact, Violates};
ghost use Rattle.property_infer.specs.Views.{pure_verdict};
ghost use Rattle.wedge_nets.specs.Gadgets.{IsGadget, HasGadget};

use crate::small::small_acting;
use alg_classes::{Instance, Property};
use alg_model::Alg;
use meta_base::NoMemory;
use property_infer::{Verdict, verdicts};
use std::alloc::Global;

/// The exact verdict on monotone (Sobrinho 2002) for all labels of an algebra, with an instance, where it is no, whose
/// wedge a network file can hold: no number of its label or its value is above the greatest of the algebra's edition.
/// There always is one. It is refused for want of memory alone.
pub fn gadget(alloc: Global, alg: &Alg) -> Result<Verdict, NoMemory>
    ensures exact { IfOk result (λ verdict.
        IsExact monotone alg.now.expression (IsLabel alg.now.expression) (pure_verdict verdict)) }
    ensures wedge { IfOk result (λ verdict. HasGadget alg.now (pure_verdict verdict)) }
{
    let verdicts = verdicts(alloc, alg)?;
    small_verdict(alloc, alg, &verdicts.monotone)
}

// The verdict, with an instance whose wedge a network file can hold.
fn small_verdict(alloc: Global, alg: &Alg, verdict: &Verdict) -> Result<Verdict, NoMemory>
    requires { IsExact monotone alg.now.expression (IsLabel alg.now.expression) (pure_verdict verdict.now) }
    ensures exact { IfOk result (λ small.
        IsExact monotone alg.now.expression (IsLabel alg.now.expression) (pure_verdict small)) }
    ensures wedge { IfOk result (λ small. HasGadget alg.now (pure_verdict small)) }
{
    match verdict {
        Verdict::Yes => Ok(Verdict::Yes),
        Verdict::No(instance) => Ok(Verdict::No(small_instance(alloc, alg, instance)?)),
    }
}

// The instance against monotone that another one leads to, without great numbers.
fn small_instance(alloc: Global, alg: &Alg, instance: &Instance) -> Result<Instance, NoMemory>
    requires property { (pure_instance instance.now).property ≡ monotone }
    requires violates { Violates alg.now.expression (pure_instance instance.now) }
    ensures { IfOk result (λ small. IsGadget alg.now (pure_instance small)) }
{
    let (label, first) = small_acting(alloc, alg.tree(), &instance.label, &instance.first)?;
    Ok(Instance {
        property: Property::Monotone,
        label,
        first,
        second: None,
    })
}
