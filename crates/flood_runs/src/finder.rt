ghost use Rattle.std.specs.Prelude.{◌≡◌, IfOk, map};
ghost use Rattle.net_graph.specs.Views.{pure_row};
ghost use Rattle.flood_node.specs.Reported.{AreFloodRows};

use alg_model::Algebra;
use flood_node::{FloodNode, flood_rows, replayed_nodes_are_ready};
use meta_base::{List, NoMemory};
use net_graph::{Net, RouteRow};
use node_runs::Finder;
use std::alloc::Global;
use std::marker::PhantomData;

// What finds the rows that flooding nodes compute, by destination, then node, over an algebra that is the network's.
#[derive(Drop)]
pub(crate) struct FloodFinder<'f, 'n, A: Algebra> {
    algebra: &'f A,
    net: PhantomData<&'n Net>,
}

impl<'f, 'n, A: Algebra> FloodFinder<'f, 'n, A> {
    pub(crate) fn new(algebra: &'f A) -> FloodFinder<'f, 'n, A>
        ensures { result.algebra.now ≡ algebra.now }
    {
        FloodFinder {
            algebra,
            net: PhantomData,
        }
    }
}

impl<'f, 'n, A: Algebra> Finder for FloodFinder<'f, 'n, A> {
    type Node = FloodNode<'n>;

    type Found = List<RouteRow>;

    ghost Fits = { λ finder net. A.expression finder.algebra.now ≡ net.alg.expression };

    ghost AreFound = { λ net nodes rows. AreFloodRows net nodes (map pure_row rows) };

    fn find(
        &self,
        alloc: Global,
        net: &Net,
        nodes: &[FloodNode<'n>],
    ) -> Result<List<RouteRow>, NoMemory> {
        replayed_nodes_are_ready();
        flood_rows(alloc, self.algebra, net, nodes)
    }
}
