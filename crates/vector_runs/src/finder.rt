ghost use Rattle.std.specs.Prelude.{◌≡◌, IfOk, map};
ghost use Rattle.net_graph.specs.Views.{pure_row};
ghost use Rattle.path_vector.specs.Node.{node_rows};
ghost use Rattle.path_vector.specs.Nodes.{state_of};

use alg_model::Algebra;
use meta_base::{List, NoMemory};
use net_graph::{Net, RouteRow};
use node_runs::Finder;
use path_vector::{PvNode, rows_of};
use std::alloc::Global;
use std::marker::PhantomData;

// What finds the rows of path-vector nodes, by destination, then node.
#[derive(Drop)]
pub(crate) struct VectorFinder<'a, A: Algebra> {
    algebra: PhantomData<&'a A>,
}

impl<'a, A: Algebra> VectorFinder<'a, A> {
    pub(crate) fn new() -> VectorFinder<'a, A> {
        VectorFinder {
            algebra: PhantomData,
        }
    }
}

impl<'a, A: Algebra> Finder for VectorFinder<'a, A> {
    type Node = PvNode<'a, A>;

    type Found = List<RouteRow>;

    ghost Fits = { λ finder net. Unit {0} };

    ghost AreFound = { λ net nodes rows. map pure_row rows ≡ node_rows net (map state_of nodes) };

    fn find(
        &self,
        alloc: Global,
        _net: &Net,
        nodes: &[PvNode<'a, A>],
    ) -> Result<List<RouteRow>, NoMemory> {
        rows_of(alloc, nodes)
    }
}
