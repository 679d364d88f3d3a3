use meta_base::List;

/// A word of a row: a number, a set by its bits, the place of a name, a length or a side.
pub type Word = u128;

/// A value as words.
pub type Row = List<Word>;

/// What a label does to a row: its operations in order.
pub type LabelCode = List<Op>;

/// How two rows are compared: its operations in order.
pub type OrderCode = List<OrdOp>;

/// An operation on a row that is read from the front, while a new row is written.
#[derive(Debug, Drop)]
pub enum Op {
    /// Reads a word, and writes its sum with this number.
    Add(Word),
    /// Reads a word, and writes its sum with the first number, or prohibits where that is above the second.
    Cap(Word, Word),
    /// Reads a word, and writes the greater of it and this number.
    Max(Word),
    /// Reads a word, and writes the smaller of it and this number.
    Min(Word),
    /// Reads a word and writes it.
    Copy,
    /// Reads a word.
    Drop,
    /// Reads a length and so many words, and writes them all.
    CopySeq,
    /// Reads a length and so many words.
    DropSeq,
    /// Writes this word.
    Emit(Word),
    /// Reads a length and so many words, and writes the length and one, the words, and this one.
    Append(Word),
    /// Does what `Append` does, or prohibits where this word is among those that it reads.
    Fresh(Word),
    /// Reads a word, and writes it with this bit set.
    SetBit(u8),
    /// Reads a word, and writes it with this bit cleared.
    ClearBit(u8),
    /// Reads a word and writes it, or prohibits where this bit isn't set.
    NeedBit(u8),
    /// Reads a word and writes it, or prohibits where this bit is set.
    BarBit(u8),
    /// Reads a word, and writes the entry at that place, or prohibits where that is none.
    Look(List<Option<Word>>),
    /// Prohibits.
    Deny,
    /// Reads a side and writes it; after the second side it jumps over so many operations.
    Fork(usize),
    /// Reads a side; after the second side it jumps over so many operations.
    Test(usize),
    /// Jumps over so many operations.
    Skip(usize),
}

/// An operation on two rows that are read side by side from the front.
#[derive(Debug, Drop)]
pub enum OrdOp {
    /// Reads a word of each: the smaller is preferred, and equal words go on.
    Less,
    /// Reads a word of each: the greater is preferred, and equal words go on.
    More,
    /// Reads a length and so many words of each: the smaller length is preferred, and equal lengths go on.
    Length,
    /// Reads a word of each and goes on.
    Pass,
    /// Reads a word of each: the one whose rank is smaller is preferred, and equal ranks go on.
    Rank(List<Word>),
    /// Reads a side of each: the first is preferred to the second, two firsts go on, and after two seconds it jumps
    /// over so many operations.
    Sides(usize),
    /// Jumps over so many operations.
    Leap(usize),
}

/// What comes of a row.
#[derive(Clone, Copy, Debug, PartialEq, Eq)]
pub enum Run {
    /// The new row.
    Made,
    /// The label prohibits the value.
    Prohibited,
}
