// The routes of a destination as the search left them, which are lent as rows.
ghost use Rattle.std.proofs.Props.{props};
ghost use Rattle.std.specs.Prelude.{◌≡◌, ◌<◌, Some, length, option_map, slice_get, IfSome};
ghost use Rattle.alg_model.specs.Expressions.{PureCarrier};
ghost use Rattle.net_graph.specs.Nets.{CanBeNumbered};
ghost use Rattle.code_gen.specs.Encoding.{decoded, IsEncoded};
ghost use Rattle.best_first.specs.Fixed.{fixed_route, fixed_rows, AreFixedBy};
ghost use Rattle.best_first.specs.Found.{found_at, AllFound};
ghost use Rattle.word_tables.specs.Routes.{lent_route, lent_row};

use crate::lent::{LentRoute, LentRow};
use best_first::Fixed;
use label_code::HeldRow;
use meta_base::{DestId, NodeId};

/// The routes of all nodes for a destination, as the search has them: each value is a row of words, of a carrier that
/// the table doesn't know.
#[derive(Debug, Drop)]
pub struct FoundTable<W> {
    dest: DestId,
    fixed: Fixed<W>,
    ghost ids: { AllFound (λ f. f.path.0 < length fixed.paths) fixed.rows } by { Prim.hlevel props },
    ghost few: { CanBeNumbered (length fixed.rows) },
}

impl<W: HeldRow> FoundTable<W> {
    ghost use Rattle.word_tables.specs.Found.{found_rows, AreFoundWords};

    /// The table of these routes, which are of that destination. It takes no memory: they stay where they are.
    pub fn of(dest: DestId, fixed: Fixed<W>) -> FoundTable<W>
        requires ids { AllFound (λ f. f.path.0 < length fixed.paths) fixed.rows }
        requires few { CanBeNumbered (length fixed.rows) }
        ensures rows { (c : PureCarrier) →
            found_rows W.held c result ≡ fixed_rows (λ row. decoded c (W.held row)) dest.0 fixed }
        ensures words { (c : PureCarrier) → AreFixedBy (λ row. IsEncoded c (W.held row)) fixed.rows fixed.paths →
            AreFoundWords W.held c result }
    {
        FoundTable { dest, fixed }
    }

    /// How many nodes there are.
    pub fn node_count(&self) -> usize
        ensures { (c : PureCarrier) → result ≡ length (found_rows W.held c self.now) }
    {
        self.fixed.node_count()
    }

    /// Lends the row of the node of that number.
    pub fn row(&self, node: usize) -> LentRow<'_>
        requires node { (c : PureCarrier) × (node < length (found_rows W.held c self.now)) }
        ensures row { (c : PureCarrier) → slice_get (found_rows W.held c self.now) node ≡ Some (lent_row c result) }
        ensures words { (c : PureCarrier) → AreFoundWords W.held c self.now →
            IfSome result.route (λ r. IsEncoded c r.words.now) }
    {
        let node = NodeId(node as u32);
        LentRow {
            node,
            dest: self.dest,
            route: self.route(node),
        }
    }

    // Lends the route of that node.
    fn route(&self, node: NodeId) -> Option<LentRoute<'_>>
        requires node { node.0 < length self.now.fixed.rows }
        ensures route { (c : PureCarrier) → option_map (lent_route c) result
            ≡ option_map (fixed_route (λ row. decoded c (W.held row)) self.now.fixed.paths)
            (found_at self.now.fixed.rows node.0) }
        ensures words { (c : PureCarrier) → AreFoundWords W.held c self.now →
            IfSome result (λ r. IsEncoded c r.words.now) }
    {
        match self.fixed.route(node) {
            Some(route) => Some(LentRoute {
                words: route.sig.as_slice(),
                path: self.fixed.paths().path(route.path),
            }),
            None => None,
        }
    }
}
