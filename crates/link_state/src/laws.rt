ghost use Rattle.std.specs.Prelude.{◌≡◌, List, map};
ghost use Rattle.net_graph.specs.declared.route.DestTable.{DestTable};
ghost use Rattle.net_graph.specs.Nets.{PureNet, IsNet};
ghost use Rattle.net_graph.specs.Views.{rows_of};
ghost use Rattle.link_state.specs.Tables.{AreTablesOf};

use best_first::best_first_is_unique;

/// A network has one list of tables at most, row for row. So [`crate::all_tables`] gives the same rows for any
/// number of workers and in any form of the algebra.
pub fn tables_are_unique()
    ensures { (net : PureNet) (t u : List DestTable) → IsNet net →
        AreTablesOf net t → AreTablesOf net u → map rows_of t ≡ map rows_of u }
{
    best_first_is_unique();
}
