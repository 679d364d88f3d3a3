ghost use Rattle.std.specs.Prelude.{◌≡◌};
ghost use Rattle.raml_syntax.specs.Faults.{fault_number};
ghost use Rattle.raml_syntax.specs.declared.faults.AlgError.TheVariants.{Bad, NoMemory};

use meta_base::{NoMemory, Place};
use std::alloc::{AllocError, AllocFailed};
use thiserror::Error;

/// What is wrong with the text of an expression. Where several are wrong, the one whose token comes
/// first is answered, and of two at one token the one that comes first here.
#[derive(Clone, Copy, Debug, PartialEq, Eq)]
pub enum ExprKind {
    /// A byte outside comments that begins no token; printed as X1.
    BadByte,
    /// A token that can't follow what stands before it; printed as X2.
    Unexpected,
    /// The end of the text, where more is needed; printed as X3.
    EndOfText,
    /// A number above the greatest of the file's profile ([`alg_model::Edition::greatest_number`]), and
    /// up to the semicolon of a header above that of profile 1; printed as X4.
    NumberTooLarge,
    /// A word in place of an expression that no earlier `let` names; printed as X5.
    UnknownName,
    /// The word after a `let`, where it is reserved or named before; printed as X6.
    NameTwice,
    /// The last number of a base algebra that breaks the rule on ranges; printed as X7.
    BadRange,
    /// The closing parenthesis of a `plus` of two carriers; printed as X8.
    CarriersDiffer,
    /// The word with which a tree passes [`alg_model::MAX_TREE_NODES`] nodes; printed as X9.
    TooLarge,
    /// A name in a table that is one too many, there twice, mapped twice, unknown as a value, or `none`
    /// where a value or a row is named; printed as X10.
    BadTable,
    /// A token after the semicolon of `main`; printed as X11.
    TrailingText,
    /// The number of a header that is neither 1 nor 2; printed as X12.
    UnknownProfile,
}

impl ExprKind {
    /// The number that stands after the X of a printed fault.
    pub fn number(self) -> u8
        ensures { result ≡ fault_number self }
    {
        match self {
            ExprKind::BadByte => 1,
            ExprKind::Unexpected => 2,
            ExprKind::EndOfText => 3,
            ExprKind::NumberTooLarge => 4,
            ExprKind::UnknownName => 5,
            ExprKind::NameTwice => 6,
            ExprKind::BadRange => 7,
            ExprKind::CarriersDiffer => 8,
            ExprKind::TooLarge => 9,
            ExprKind::BadTable => 10,
            ExprKind::TrailingText => 11,
            ExprKind::UnknownProfile => 12,
        }
    }
}

/// What is wrong with the text of an expression, and the place of the token that shows it: of its first
/// byte, or just past the last byte of the text.
#[derive(Clone, Copy, Debug, PartialEq, Eq)]
pub struct ExprFault {
    pub kind: ExprKind,
    pub place: Place,
}

/// Why a text gave no algebra.
#[derive(Clone, Copy, Debug, PartialEq, Eq, Error)]
pub enum AlgError {
    /// It isn't an expression file.
    #[error("the expression is refused")]
    Bad(ExprFault),
    /// There was no memory for the algebra.
    #[error("out of memory")]
    NoMemory,
}

impl From<ExprFault> for AlgError {
    ghost from_gives = { λ f e. e ≡ Bad f };

    fn from(fault: ExprFault) -> Self {
        AlgError::Bad(fault)
    }
}

impl From<NoMemory> for AlgError {
    ghost from_gives = { λ _ e. e ≡ NoMemory };

    fn from(_: NoMemory) -> Self {
        AlgError::NoMemory
    }
}

impl From<AllocError> for AlgError {
    ghost from_gives = { λ _ e. e ≡ NoMemory };

    fn from(_: AllocError) -> Self {
        AlgError::NoMemory
    }
}

impl<T: Drop> From<AllocFailed<T>> for AlgError {
    ghost from_gives = { λ _ e. e ≡ NoMemory };

    fn from(_: AllocFailed<T>) -> Self {
        AlgError::NoMemory
    }
}
