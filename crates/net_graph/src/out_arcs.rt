ghost use Rattle.std.specs.Prelude.{◌≡◌, ◌<◌, Some, length, slice_get};
ghost use Rattle.net_graph.specs.Kept.{arcs_of, HaveLabels};
ghost use Rattle.net_graph.specs.Views.{pure_arc};

use crate::arcs::{Arc, KeptArc, arc_at};
use alg_model::Label;
use std::marker::Model;

/// The arcs that a node may route by, as their network lends them. Contracts see the list of them.
#[derive(Debug, Drop)]
pub struct OutArcs<'a> {
    labels: &'a [Label],
    arcs: &'a [KeptArc],
}

impl<'a> Model for OutArcs<'a> {
    ghost use Rattle.std.specs.Prelude.{List, length};
    ghost use Rattle.net_graph.specs.Codes.{coded_arcs};
    ghost use Rattle.net_graph.specs.Kept.{arcs_of, HaveLabels};
    ghost use Rattle.net_graph.specs.Nets.{PureArc};

    ghost Value = { List PureArc };

    ghost coded = { coded_arcs };

    ghost view = { λ s. arcs_of s.labels.now s.arcs.now };

    ghost invariant = { λ s. HaveLabels (length s.labels.now) s.arcs.now };
}

impl<'a> OutArcs<'a> {
    // These arcs, whose labels stand in that list.
    pub(crate) fn new(labels: &'a [Label], arcs: &'a [KeptArc]) -> OutArcs<'a>
        requires { HaveLabels (length labels.now) arcs.now }
        ensures { result ≡ arcs_of labels.now arcs.now }
    {
        OutArcs { labels, arcs }
    }

    /// How many there are.
    pub fn count(&self) -> usize
        ensures { result ≡ length self.now }
    {
        self.arcs.len()
    }

    /// Lends the one at that place.
    pub fn get(&self, place: usize) -> Arc<'a>
        requires { place < length self.now }
        ensures { slice_get self.now place ≡ Some (pure_arc result) }
    {
        arc_at(self.labels, self.arcs, place)
    }
}
