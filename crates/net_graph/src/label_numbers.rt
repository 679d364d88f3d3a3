ghost use Rattle.std.specs.Prelude.{◌≡◌, ◌<◌, Some, length, slice_get};
ghost use Rattle.std.specs.List.{AllByRecursion};
ghost use Rattle.net_graph.specs.LabelNumbers.{AreCounted, numbers_at};

use crate::arcs::KeptArc;
use crate::groups::{Groups, Spot};
use meta_base::ArcId;
use std::marker::Model;

/// The numbers of the labels on a network's arcs. Arcs with the same number have the same label, so what is made of a
/// label need be made once for all of them. Contracts see the list of the numbers, by arc.
#[derive(Debug, Drop)]
pub struct LabelNumbers<'a> {
    count: usize,
    out: &'a Groups<KeptArc>,
    spots: &'a [Spot],
}

impl<'a> Model for LabelNumbers<'a> {
    ghost use Rattle.std.specs.Prelude.{ℕ, List};
    ghost use Rattle.net_graph.specs.LabelNumbers.{AreCounted, numbers_at};

    ghost Value = { List ℕ };

    ghost view = { λ s. numbers_at s.out.now s.spots.now };

    ghost invariant = { λ s. AreCounted s.count s.out.now s.spots.now };
}

impl<'a> LabelNumbers<'a> {
    // The numbers of the arcs at these spots, where there are so many labels.
    pub(crate) fn new(count: usize, out: &'a Groups<KeptArc>, spots: &'a [Spot]) -> LabelNumbers<'a>
        requires { AreCounted count out.now spots.now }
        ensures { result ≡ numbers_at out.now spots.now }
    {
        LabelNumbers { count, out, spots }
    }

    /// How many numbers there are, from 0 on. Some may be of no arc.
    pub fn count(&self) -> usize
        ensures { AllByRecursion (λ n. n < result) self.now }
    {
        self.count
    }

    /// The number of the label on the arc.
    pub fn of(&self, arc: ArcId) -> usize
        requires { arc.0 < length self.now }
        ensures { slice_get self.now arc.0 ≡ Some result }
    {
        self.out.item(self.spots[arc.0 as usize]).label.0 as usize
    }
}
