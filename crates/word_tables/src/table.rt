// The tables of all forms of rows.
ghost use Rattle.word_tables.specs.Tables.{fixed_words, own_words, IsTableOf};

use crate::found::FoundTable;
use label_code::{FixedRow, HeldRow, Words};

/// The routes of all nodes for a destination, by how many words each value has. Their values are words of a carrier
/// that the table doesn't know. What goes over the rows matches once, and then knows the form of all of them.
#[derive(Debug, Drop)]
pub enum WordTable {
    /// One each.
    One(FoundTable<FixedRow<1>>),
    /// Two each.
    Two(FoundTable<FixedRow<2>>),
    /// Three each.
    Three(FoundTable<FixedRow<3>>),
    /// Four each.
    Four(FoundTable<FixedRow<4>>),
    /// Any number.
    Any(FoundTable<Words>),
}

/// A row of words whose tables are among [`WordTable`]'s.
pub trait TableRow: HeldRow {
    /// The table in the variant of this form of rows, with the same routes. It takes no memory.
    fn table_of(found: FoundTable<Self>) -> WordTable
        ensures { IsTableOf Self.held found result };
}

// Each of these repeats the trait's clause at its own words, since rt can't give it to a method of such an impl.
impl TableRow for FixedRow<1> {
    fn table_of(found: FoundTable<FixedRow<1>>) -> WordTable
        ensures { IsTableOf fixed_words found result }
    {
        WordTable::One(found)
    }
}

impl TableRow for FixedRow<2> {
    fn table_of(found: FoundTable<FixedRow<2>>) -> WordTable
        ensures { IsTableOf fixed_words found result }
    {
        WordTable::Two(found)
    }
}

impl TableRow for FixedRow<3> {
    fn table_of(found: FoundTable<FixedRow<3>>) -> WordTable
        ensures { IsTableOf fixed_words found result }
    {
        WordTable::Three(found)
    }
}

impl TableRow for FixedRow<4> {
    fn table_of(found: FoundTable<FixedRow<4>>) -> WordTable
        ensures { IsTableOf fixed_words found result }
    {
        WordTable::Four(found)
    }
}

impl TableRow for Words {
    fn table_of(found: FoundTable<Words>) -> WordTable
        ensures { IsTableOf own_words found result }
    {
        WordTable::Any(found)
    }
}
