// The words that begin an expression of their own, and what they begin where numbers alone follow.
ghost use Rattle.std.specs.Prelude.{◌≡◌, false, MatchOption};
ghost use Rattle.alg_model.specs.Views.{expression_of};
ghost use Rattle.raml_syntax.specs.Meaning.{ranged_meaning, counted_meaning};
ghost use Rattle.raml_syntax.specs.Tests.{is_in_range};
ghost use Rattle.raml_syntax.specs.Syntax.{ranged_word, counted_word, paired_word, single_word, is_among, is_expression_word};
ghost use Rattle.raml_syntax.specs.Heads.{ranged_of, counted_of, paired_of, single_of, head_word, base_words, operator_words};

use alg_model::{MAX_MARKS, MAX_SIMPLE_SYMBOLS, Tree};

/// The algebras that have a top and a range.
#[derive(Clone, Copy, Debug)]
pub enum Ranged {
    Cap,
    Worst,
    Width,
}

/// The algebras that have one number.
#[derive(Clone, Copy, Debug)]
pub enum Counted {
    Pref,
    Orig,
    Seq,
    SimSeq,
    Tags,
    Guard,
}

/// The operators on two expressions.
#[derive(Clone, Copy, Debug)]
pub enum Paired {
    Lex,
    Scoped,
    Union,
    Sum,
    Plus,
}

/// The operators on one expression.
#[derive(Clone, Copy, Debug)]
pub enum Single {
    Left,
    Right,
}

/// What a first word says of the form of its expression.
#[derive(Clone, Copy, Debug)]
pub enum Head {
    Add,
    Ranged(Ranged),
    Counted(Counted),
    Gate,
    Table,
    Paired(Paired),
    Single(Single),
}

impl Ranged {
    /// Whether the algebra with these numbers meets the rule on ranges.
    pub fn accepts(self, top: u64, low: u64, high: u64) -> bool
        ensures { result ≡ is_in_range (ranged_meaning (ranged_of self) top low high) }
    {
        match self {
            Ranged::Cap => low <= high,
            Ranged::Worst | Ranged::Width => low <= high && high <= top,
        }
    }

    /// The algebra with these numbers.
    pub fn tree(self, top: u64, low: u64, high: u64) -> Tree
        ensures { expression_of result ≡ ranged_meaning (ranged_of self) top low high }
    {
        match self {
            Ranged::Cap => Tree::Cap { top, low, high },
            Ranged::Worst => Tree::Worst { top, low, high },
            Ranged::Width => Tree::Width { top, low, high },
        }
    }
}

impl Counted {
    /// Whether the algebra with this number meets the rule on ranges.
    pub fn accepts(self, number: u64) -> bool
        ensures { result ≡ is_in_range (counted_meaning (counted_of self) number) }
    {
        match self {
            Counted::Pref | Counted::Orig => true,
            Counted::Seq => 1 <= number,
            Counted::SimSeq => 1 <= number && number <= MAX_SIMPLE_SYMBOLS,
            Counted::Tags | Counted::Guard => 1 <= number && number <= MAX_MARKS,
        }
    }

    /// The algebra with this number.
    pub fn tree(self, number: u64) -> Tree
        ensures { expression_of result ≡ counted_meaning (counted_of self) number }
    {
        match self {
            Counted::Pref => Tree::Pref { top: number },
            Counted::Orig => Tree::Orig { top: number },
            Counted::Seq => Tree::Seq { symbols: number },
            Counted::SimSeq => Tree::SimSeq { symbols: number },
            Counted::Tags => Tree::Tags { count: number },
            Counted::Guard => Tree::Guard { count: number },
        }
    }
}

/// The head of this word; any other word is a name.
pub fn head_of(word: &[u8]) -> Option<Head>
    ensures { MatchOption result (is_expression_word word.now ≡ false) (λ head. head_word head ≡ word.now) }
{
    match base_of(word) {
        Some(head) => Some(head),
        None => operator_of(word),
    }
}

// The head of a base algebra.
fn base_of(word: &[u8]) -> Option<Head>
    ensures { MatchOption result (is_among base_words word.now ≡ false) (λ head. head_word head ≡ word.now) }
{
    match word {
        b"add" => Some(Head::Add),
        b"cap" => Some(Head::Ranged(Ranged::Cap)),
        b"worst" => Some(Head::Ranged(Ranged::Worst)),
        b"width" => Some(Head::Ranged(Ranged::Width)),
        b"lp" => Some(Head::Counted(Counted::Pref)),
        b"op" => Some(Head::Counted(Counted::Orig)),
        b"seq" => Some(Head::Counted(Counted::Seq)),
        b"simseq" => Some(Head::Counted(Counted::SimSeq)),
        b"tags" => Some(Head::Counted(Counted::Tags)),
        b"guard" => Some(Head::Counted(Counted::Guard)),
        b"gate" => Some(Head::Gate),
        b"table" => Some(Head::Table),
        _ => None,
    }
}

// The head of an operator on expressions.
fn operator_of(word: &[u8]) -> Option<Head>
    ensures { MatchOption result (is_among operator_words word.now ≡ false) (λ head. head_word head ≡ word.now) }
{
    match word {
        b"lex" => Some(Head::Paired(Paired::Lex)),
        b"scoped" => Some(Head::Paired(Paired::Scoped)),
        b"union" => Some(Head::Paired(Paired::Union)),
        b"sum" => Some(Head::Paired(Paired::Sum)),
        b"plus" => Some(Head::Paired(Paired::Plus)),
        b"left" => Some(Head::Single(Single::Left)),
        b"right" => Some(Head::Single(Single::Right)),
        _ => None,
    }
}

/// The word of an algebra that has a top and a range.
pub fn ranged_word(head: Ranged) -> &'static str
    ensures { result.now ≡ ranged_word (ranged_of head) }
{
    match head {
        Ranged::Cap => "cap",
        Ranged::Worst => "worst",
        Ranged::Width => "width",
    }
}

/// The word of an algebra that has one number.
pub fn counted_word(head: Counted) -> &'static str
    ensures { result.now ≡ counted_word (counted_of head) }
{
    match head {
        Counted::Pref => "lp",
        Counted::Orig => "op",
        Counted::Seq => "seq",
        Counted::SimSeq => "simseq",
        Counted::Tags => "tags",
        Counted::Guard => "guard",
    }
}

/// The word of an operator on two expressions.
pub fn paired_word(head: Paired) -> &'static str
    ensures { result.now ≡ paired_word (paired_of head) }
{
    match head {
        Paired::Lex => "lex",
        Paired::Scoped => "scoped",
        Paired::Union => "union",
        Paired::Sum => "sum",
        Paired::Plus => "plus",
    }
}

/// The word of an operator on one expression.
pub fn single_word(head: Single) -> &'static str
    ensures { result.now ≡ single_word (single_of head) }
{
    match head {
        Single::Left => "left",
        Single::Right => "right",
    }
}
