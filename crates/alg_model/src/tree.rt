use meta_base::{List, Text};

/// The numbers inside values: sums of labels' numbers along a path.
pub type Amount = u128;

/// The tree of an expression of the Routing Algebra Meta-Language (Griffin and Sobrinho 2005; `Union`
/// and `Sum` are this project's own). In what follows, small numbers are preferred unless great ones
/// are said to be.
#[derive(Debug, Drop)]
pub enum Tree {
    /// `add(low..high)`: all whole numbers; a label is a number in the range, which is added.
    Add { low: u64, high: u64 },
    /// `cap(top; low..high)`: 0 to top; a label is a number in the range, which is added, and
    /// prohibits where the sum is above top.
    Cap { top: u64, low: u64, high: u64 },
    /// `worst(top; low..high)`: 0 to top; the greater of the label and the value.
    Worst { top: u64, low: u64, high: u64 },
    /// `width(top; low..high)`: 0 to top, great numbers preferred; the smaller of the label and the
    /// value.
    Width { top: u64, low: u64, high: u64 },
    /// `lp(top)`, local preference: 0 to top, great numbers preferred; the label replaces the value.
    Pref { top: u64 },
    /// `op(top)`, origin preference: 0 to top; the one label keeps the value.
    Orig { top: u64 },
    /// `seq(symbols)`: sequences of symbols below that number, short ones preferred; the label is a
    /// symbol, which is appended.
    Seq { symbols: u64 },
    /// `simseq(symbols)`: such sequences without a repeat; a symbol that is in is prohibited.
    SimSeq { symbols: u64 },
    /// `tags(count)`: sets of numbers below the count, all equivalent; a label keeps the set, adds a
    /// number or takes one away.
    Tags { count: u64 },
    /// `guard(count)`: such sets; a label asks for a number, or bars one.
    Guard { count: u64 },
    /// `gate`: one value; a label allows or denies.
    Gate,
    /// `table{..}`: named values in ranks, and named rows that map them.
    Table(TableSpec),
    /// `lex(a,b)`: pairs, compared by the first and then by the second.
    Lex(Box<Tree>, Box<Tree>),
    /// `scoped(a,b)`: such pairs; a label changes the first and sets the second, or changes the second
    /// alone.
    Scoped(Box<Tree>, Box<Tree>),
    /// `union(a,b)`: values of either side, those of the first preferred; a label acts on its own side.
    Union(Box<Tree>, Box<Tree>),
    /// `sum(a,b)`: such values; a label acts on both sides.
    Sum(Box<Tree>, Box<Tree>),
    /// `plus(a,b)`: two algebras of one carrier; a label is one of either.
    Plus(Box<Tree>, Box<Tree>),
    /// `left(a)`: a label is a value, which replaces every value.
    Left(Box<Tree>),
    /// `right(a)`: the one label keeps the value.
    Right(Box<Tree>),
}

/// A table of named values and rows.
#[derive(Debug, Drop)]
pub struct TableSpec {
    /// The values' names, 1 to 16, which differ.
    pub names: List<Text>,
    /// A rank for each value, small ones preferred: the first is 0, and each next is the same or one
    /// more.
    pub ranks: List<u8>,
    /// The labels, 1 to 16, whose names differ.
    pub rows: List<TableRow>,
}

/// A label of a table.
#[derive(Debug, Drop)]
pub struct TableRow {
    pub name: Text,
    /// For each value the place of its image among the values, or `None` where it is prohibited.
    pub images: List<Option<u8>>,
}

/// A value of an algebra's carrier: what a route is worth.
#[derive(Debug, Drop)]
pub enum Value {
    Number(Amount),
    /// A sequence of symbols.
    Symbols(List<u64>),
    /// A set of numbers below 64: bit k is set if k is in.
    Marks(u64),
    /// The one value of a gate.
    Unit,
    /// The place of a table's value, from 0.
    Name(u8),
    Pair(Box<Value>, Box<Value>),
    /// A value of the first side.
    First(Box<Value>),
    /// A value of the second side.
    Second(Box<Value>),
}

/// A label: what an arc does to the value of a route that passes it.
#[derive(Debug, Drop)]
pub enum Label {
    Number(u64),
    /// Keeps the value.
    Keep,
    /// Appends this symbol.
    Symbol(u64),
    /// Adds this number to a set.
    Mark(u8),
    /// Takes this number from a set.
    Unmark(u8),
    /// Prohibits sets without this number.
    Need(u8),
    /// Prohibits sets with this number.
    Bar(u8),
    Allow,
    Deny,
    /// The place of a table's row, from 0.
    Row(u8),
    /// A label for each part of a pair.
    Pair(Box<Label>, Box<Label>),
    /// A label for each side.
    Both(Box<Label>, Box<Label>),
    /// A label of the first algebra.
    First(Box<Label>),
    /// A label of the second algebra.
    Second(Box<Label>),
    /// Replaces every value by this one.
    Const(Value),
    /// Changes the first part of a pair, and sets the second.
    Outer(Box<Label>, Value),
    /// Changes the second part of a pair.
    Inner(Box<Label>),
}

/// The values of an algebra and their preference.
#[derive(Debug, Drop)]
pub enum Carrier {
    /// All whole numbers, small ones preferred.
    Whole,
    /// 0 to this number, small ones preferred.
    UpTo(u64),
    /// 0 to this number, great ones preferred.
    DownFrom(u64),
    /// Sequences of symbols below this number, short ones preferred.
    Seqs(u64),
    /// Such sequences without a repeat.
    SimSeqs(u64),
    /// Sets of numbers below this one, all equivalent.
    Sets(u64),
    /// One value.
    One,
    /// Named values, each with its rank.
    Named(List<Text>, List<u8>),
    /// Pairs, compared by the first and then by the second.
    Pair(Box<Carrier>, Box<Carrier>),
    /// Values of either side, those of the first preferred.
    Side(Box<Carrier>, Box<Carrier>),
}
