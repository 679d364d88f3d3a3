// What the nodes come to.
ghost use Rattle.std.specs.Prelude.{◌≡◌, ◌<◌, ◌++◌, IfOk, OnOk, length, map};
ghost use Rattle.net_graph.specs.Tables.{PureRow};
ghost use Rattle.net_graph.specs.Views.{pure_route, pure_row};
ghost use Rattle.path_vector.specs.Node.{dest_rows, node_rows};
ghost use Rattle.std.specs.List.{AllByRecursion};
ghost use Rattle.journal_merge.specs.Timing.{tagged_of};
ghost use Rattle.vector_block.specs.Blocks.{at_place, states_of};

use crate::block::VectorBlock;
use crate::report::Reported;
use crate::store::row;
use alg_model::Algebra;
use journal_merge::NodeDelivery;
use meta_base::{DestId, List, NoMemory, NodeId};
use net_graph::{Route, RouteRow};
use std::alloc::Global;

impl<'a, A: Algebra> VectorBlock<'a, A> {
    /// The rows of the nodes, by destination, then node. It is refused for want of memory alone.
    pub fn rows(&self, alloc: Global) -> Result<List<RouteRow>, NoMemory>
        ensures { IfOk result (λ rows. map pure_row rows ≡ node_rows self.now.net (states_of self.now)) }
    {
        let dests = self.site.net.dest_count();
        let mut rows = Vec::with_capacity(alloc, self.site.net.node_count() * dests)?;
        for dest in 0..dests {
            self.push_rows(alloc, DestId(dest as u32), &mut rows)?;
        }
        Ok(List::from_vec(rows))
    }

    // Adds the rows of the nodes for the destination.
    fn push_rows(
        &self,
        alloc: Global,
        dest: DestId,
        rows: &mut Vec<RouteRow>,
    ) -> Result<(), NoMemory>
        requires { dest.0 < length self.now.net.dests }
        ensures { OnOk result (map pure_row rows.new.items ≡ map pure_row rows.old.items
            ++ dest_rows (states_of self.now) dest.0) }
    {
        for node in 0..self.site.net.node_count() {
            rows.push(self.row_at(alloc, dest, NodeId(node as u32))?)?;
        }
        Ok(())
    }

    // The row of the node for the destination.
    fn row_at(&self, alloc: Global, dest: DestId, node: NodeId) -> Result<RouteRow, NoMemory>
        requires dest { dest.0 < length self.now.net.dests }
        requires node { node.0 < length self.now.net.nodes }
        ensures { IfOk result (λ row. pure_row row ≡ record {
          node = node.0;
          dest = dest.0;
          route = at_place self.now.rows node.0 dest.0;
        }) }
    {
        let route = match row(&self.site, &self.store, dest, node) {
            Some(route) => Some(Route {
                value: self.site.algebra.value_of(alloc, &route.sig)?,
                path: self.store.paths.path(route.path).to_list(alloc)?,
            }),
            None => None,
        };
        Ok(RouteRow { node, dest, route })
    }

    /// The deliveries in the order in which they were made, each with the node that took it.
    pub fn into_log(self) -> Vec<NodeDelivery>
        ensures log { map tagged_of result.items ≡ self.entry.log }
        ensures nodes { AllByRecursion (λ entry. entry.0 < length self.entry.net.nodes) self.entry.log }
    {
        self.log
    }
}
