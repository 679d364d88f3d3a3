// Equal examples.
ghost use Rattle.std.specs.Prelude.{◌≡◌, option_map, IfOk};
ghost use Rattle.alg_classes.specs.Classes.{pure_at, pure_between, pure_examples};
ghost use Rattle.union_classes.specs.Made.{AreExamples};

use alg_classes::Examples;
use alg_model::Value;
use meta_base::NoMemory;
use std::alloc::Global;

fn copy_one(alloc: Global, example: &Option<Value>) -> Result<Option<Value>, NoMemory>
    ensures { IfOk result (λ copied. option_map pure_at copied ≡ option_map pure_at example.now) }
{
    Ok(match example {
        Some(v) => Some(v.copy(alloc)?),
        None => None,
    })
}

fn copy_two(
    alloc: Global,
    example: &Option<(Value, Value)>,
) -> Result<Option<(Value, Value)>, NoMemory>
    ensures { IfOk result (λ copied. option_map pure_between copied ≡ option_map pure_between example.now) }
{
    Ok(match example {
        Some((u, v)) => Some((u.copy(alloc)?, v.copy(alloc)?)),
        None => None,
    })
}

/// Equal examples. They are refused for want of memory alone.
pub fn copy_examples(alloc: Global, x: &Examples) -> Result<Examples, NoMemory>
    ensures { IfOk result (λ copied. AreExamples copied (pure_examples x.now)) }
{
    Ok(Examples {
        inside: copy_one(alloc, &x.inside)?,
        outside: copy_one(alloc, &x.outside)?,
        not_mono: copy_one(alloc, &x.not_mono)?,
        not_strict: copy_one(alloc, &x.not_strict)?,
        not_iso: copy_two(alloc, &x.not_iso)?,
        not_canc: copy_two(alloc, &x.not_canc)?,
        not_cond: copy_two(alloc, &x.not_cond)?,
        not_narrow: copy_two(alloc, &x.not_narrow)?,
    })
}
