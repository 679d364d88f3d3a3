// The rows of all destinations.
ghost use Rattle.std.specs.Prelude.{◌≡◌, length, map, IfOk};
ghost use Rattle.std.specs.List.{AllByRecursion};
ghost use Rattle.alg_model.specs.Expressions.{PureCarrier};
ghost use Rattle.alg_model.specs.Views.{pure_carrier};
ghost use Rattle.net_graph.specs.Nets.{CanBeNumbered};
ghost use Rattle.code_gen.specs.Encoding.{decoded, IsEncoded};
ghost use Rattle.word_tables.specs.Tables.{word_rows, AreWordsOf};
ghost use Rattle.word_tables.specs.Joined.{all_fixed_rows, AreAllFixed};

use crate::found::FoundTable;
use crate::table::{TableRow, WordTable};
use alg_model::Carrier;
use best_first::Fixed;
use meta_base::{DestId, List, NoMemory};
use std::alloc::Global;

/// The rows of all destinations, one table after another, and the carrier whose values their words are.
#[derive(Debug, Drop)]
pub struct WordRows {
    pub carrier: Carrier,
    pub tables: List<WordTable>,
}

// The tables of these routes, in the same order.
fn tables_of<W: TableRow>(alloc: Global, found: List<Fixed<W>>) -> Result<List<WordTable>, NoMemory>
    requires found { (c : PureCarrier) × AreAllFixed (λ row. IsEncoded c (W.held row)) found }
    requires few { CanBeNumbered (length found) }
    ensures tables { (c : PureCarrier) → IfOk result (λ tables. map (word_rows c) tables
        ≡ all_fixed_rows (λ row. decoded c (W.held row)) 0 found) }
    ensures words { (c : PureCarrier) → AreAllFixed (λ row. IsEncoded c (W.held row)) found →
        IfOk result (AllByRecursion (AreWordsOf c)) }
{
    let mut tables = Vec::with_capacity(alloc, found.as_slice().len())?;
    let mut dest = 0;
    for fixed in found.into_vec() {
        let table = FoundTable::of(DestId(dest), fixed);
        tables.push(W::table_of(table))?;
        dest += 1;
    }
    Ok(List::from_vec(tables))
}

impl WordRows {
    /// The rows of these routes, which are of destinations 0, 1 and so on. Their values are of the carrier. It is refused for
    /// want of memory alone.
    pub fn of<W: TableRow>(
        alloc: Global,
        carrier: Carrier,
        found: List<Fixed<W>>,
    ) -> Result<WordRows, NoMemory>
        requires found { AreAllFixed (λ row. IsEncoded (pure_carrier carrier) (W.held row)) found }
        requires few { CanBeNumbered (length found) }
        ensures carrier { IfOk result (λ rows. rows.carrier ≡ carrier) }
        ensures tables { IfOk result (λ rows. map (word_rows (pure_carrier carrier)) rows.tables
            ≡ all_fixed_rows (λ row. decoded (pure_carrier carrier) (W.held row)) 0 found) }
        ensures words { IfOk result (λ rows. AllByRecursion (AreWordsOf (pure_carrier carrier)) rows.tables) }
    {
        let tables = tables_of(alloc, found)?;
        Ok(WordRows { carrier, tables })
    }
}
