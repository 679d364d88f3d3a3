// What `gadget` decides.
ghost use Rattle.std.specs.Prelude.{◌≡◌};
ghost use Rattle.metacli.specs.Outcome.{IsWedgedAs};
ghost use Rattle.metacli.specs.Views.{CanBeWritten, pure_outcome};

use crate::outcome::{Outcome, Stop, Wedged};
use alg_model::Alg;
use meta_base::NoMemory;
use std::alloc::Global;
use wedge_nets::gadget_texts_are_networks;

/// What `gadget` comes to on an algebra.
pub fn gadget(alloc: Global, alg: Alg) -> Outcome
    ensures wedged { IsWedgedAs alg (pure_outcome result) }
    ensures printable { CanBeWritten result }
{
    gadget_texts_are_networks();
    // (the tree of an algebra is formed)
    alg.tree();
    match wedge_nets::gadget(alloc, &alg) {
        Ok(verdict) => Outcome::Wedged(Wedged { alg, verdict }),
        Err(NoMemory) => Outcome::Stopped {
            alg: Some(alg),
            file: None,
            stop: Stop::Memory,
        },
    }
}
