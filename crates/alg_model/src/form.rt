// What the values and the labels of an algebra look like, whichever operator made it. What asks no more than that
// matches these forms, and a new operator with known values and labels needs no case there.
ghost use Rattle.std.specs.Prelude.{◌≡◌};
ghost use Rattle.alg_model.specs.Carriers.{carrier_of};
ghost use Rattle.alg_model.specs.Expressions.{PureCarrier};
ghost use Rattle.alg_model.specs.Formation.{MeetsRanges};
ghost use Rattle.alg_model.specs.Forms.{form_carrier, MeetsFormRanges, form_expression, labels_as, HasOperator};
ghost use Rattle.alg_model.specs.Views.{expression_of, pure_carrier};

use crate::{Carrier, TableSpec, Tree};
use meta_base::Text;

/// The topmost node of a carrier, with what its parts stand for: each kind is as [`Carrier`] has it.
#[derive(Debug, Drop)]
pub enum Form<'a, C> {
    Whole,
    UpTo(u64),
    DownFrom(u64),
    Seqs(u64),
    SimSeqs(u64),
    Sets(u64),
    One,
    /// The names, and the rank of each.
    Named(&'a [Text], &'a [u8]),
    Pair(&'a C, &'a C),
    Side(&'a C, &'a C),
}

/// What stands for a carrier: a [`Carrier`] does, and a [`Tree`], for that of its expression. So a question
/// about the carrier of a tree takes no memory.
pub trait Shaped: Sized {
    /// The carrier.
    ghost carrier: { Self → PureCarrier };

    /// The topmost node of it.
    fn form(&self) -> Form<'_, Self>
        ensures { form_carrier carrier result ≡ carrier self.now };
}

impl Shaped for Carrier {
    ghost carrier = { pure_carrier };

    fn form(&self) -> Form<'_, Carrier> {
        match self {
            Carrier::Whole => Form::Whole,
            Carrier::UpTo(top) => Form::UpTo(*top),
            Carrier::DownFrom(top) => Form::DownFrom(*top),
            Carrier::Seqs(symbols) => Form::Seqs(*symbols),
            Carrier::SimSeqs(symbols) => Form::SimSeqs(*symbols),
            Carrier::Sets(count) => Form::Sets(*count),
            Carrier::One => Form::One,
            Carrier::Named(names, ranks) => Form::Named(names.as_slice(), ranks.as_slice()),
            Carrier::Pair(c, d) => Form::Pair(c, d),
            Carrier::Side(c, d) => Form::Side(c, d),
        }
    }
}

impl Shaped for Tree {
    ghost carrier = { λ tree. carrier_of (expression_of tree) };

    fn form(&self) -> Form<'_, Tree> {
        self.value_form()
    }
}

/// What the labels of an algebra look like. The operators on algebras each have a form of their own, and base
/// algebras with the same labels share one.
#[derive(Clone, Copy, Debug)]
pub enum LabelForm<'a> {
    /// A number from the first to the second.
    Numbers(u64, u64),
    /// A number up to this one.
    UpTo(u64),
    /// The one label that keeps the value.
    Keep,
    /// A symbol below this number.
    Symbol(u64),
    /// A change of a set of numbers below this one.
    Tag(u64),
    /// A test of such a set.
    Guard(u64),
    Gate,
    Table(&'a TableSpec),
    Lex(&'a Tree, &'a Tree),
    Scoped(&'a Tree, &'a Tree),
    Union(&'a Tree, &'a Tree),
    Sum(&'a Tree, &'a Tree),
    Plus(&'a Tree, &'a Tree),
    Left(&'a Tree),
    Right(&'a Tree),
}

impl Tree {
    /// What the values look like: the topmost node of the carrier of the tree's expression. It takes no memory.
    pub fn value_form(&self) -> Form<'_, Tree>
        ensures carrier { form_carrier (λ part. carrier_of (expression_of part)) result ≡
            carrier_of (expression_of self.now) }
        ensures ranges { MeetsRanges (expression_of self.now) → MeetsFormRanges result }
    {
        match self {
            Tree::Add { .. } => Form::Whole,
            Tree::Cap { top, .. } | Tree::Worst { top, .. } | Tree::Orig { top } => {
                Form::UpTo(*top)
            }
            Tree::Width { top, .. } | Tree::Pref { top } => Form::DownFrom(*top),
            Tree::Seq { symbols } => Form::Seqs(*symbols),
            Tree::SimSeq { symbols } => Form::SimSeqs(*symbols),
            Tree::Tags { count } | Tree::Guard { count } => Form::Sets(*count),
            Tree::Gate => Form::One,
            Tree::Table(table) => Form::Named(table.names.as_slice(), table.ranks.as_slice()),
            Tree::Lex(a, b) | Tree::Scoped(a, b) => Form::Pair(a, b),
            Tree::Union(a, b) | Tree::Sum(a, b) => Form::Side(a, b),
            Tree::Plus(a, _) | Tree::Left(a) | Tree::Right(a) => a.value_form(),
        }
    }

    /// What the labels look like. It takes no memory.
    pub fn label_form(&self) -> LabelForm<'_>
        ensures labels { form_expression result ≡ labels_as (expression_of self.now) }
        ensures operator { HasOperator (expression_of self.now) result }
    {
        match self {
            Tree::Add { low, high }
            | Tree::Cap { low, high, .. }
            | Tree::Worst { low, high, .. }
            | Tree::Width { low, high, .. } => LabelForm::Numbers(*low, *high),
            Tree::Pref { top } => LabelForm::UpTo(*top),
            Tree::Orig { .. } => LabelForm::Keep,
            Tree::Seq { symbols } | Tree::SimSeq { symbols } => LabelForm::Symbol(*symbols),
            Tree::Tags { count } => LabelForm::Tag(*count),
            Tree::Guard { count } => LabelForm::Guard(*count),
            Tree::Gate => LabelForm::Gate,
            Tree::Table(table) => LabelForm::Table(table),
            Tree::Lex(a, b) => LabelForm::Lex(a, b),
            Tree::Scoped(a, b) => LabelForm::Scoped(a, b),
            Tree::Union(a, b) => LabelForm::Union(a, b),
            Tree::Sum(a, b) => LabelForm::Sum(a, b),
            Tree::Plus(a, b) => LabelForm::Plus(a, b),
            Tree::Left(a) => LabelForm::Left(a),
            Tree::Right(a) => LabelForm::Right(a),
        }
    }
}
