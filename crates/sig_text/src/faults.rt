ghost use Rattle.std.specs.Prelude.{◌≡◌, IfOk};
ghost use Rattle.sig_text.specs.Faults.{lit_fault_number};
ghost use Rattle.sig_text.specs.Literals.{both_of, one_of};
ghost use Rattle.sig_text.specs.declared.faults.LitError.TheVariants as error;
ghost use Rattle.sig_text.specs.declared.faults.ReadStop.TheVariants as stop;

use meta_base::NoMemory;
use std::alloc::{AllocError, AllocFailed, Global};
use thiserror::Error;

/// What is wrong with the text of a label or a value.
#[derive(Clone, Copy, Debug, PartialEq, Eq)]
pub enum LitFault {
    /// The text hasn't the shape that the algebra's kind asks for; printed as L1.
    BadText,
    /// The text has that shape, but what it spells isn't in the carrier; printed as L2.
    NotInCarrier,
    /// The text has that shape, but what it spells isn't a label of the algebra; printed as L3.
    NotALabel,
}

impl LitFault {
    /// The number that stands after the L of a printed fault. It takes no memory.
    pub fn number(&self) -> u8
        ensures { result ≡ lit_fault_number self.now }
    {
        match self {
            LitFault::BadText => 1,
            LitFault::NotInCarrier => 2,
            LitFault::NotALabel => 3,
        }
    }
}

/// Why a text gave no value or no label.
#[derive(Clone, Copy, Debug, PartialEq, Eq, Error)]
pub enum LitError {
    /// It spells none.
    #[error("the literal is refused")]
    Bad(LitFault),
    /// There was no memory for it.
    #[error("out of memory")]
    NoMemory,
}

impl From<NoMemory> for LitError {
    ghost from_gives = { λ _ e. e ≡ error.NoMemory };

    fn from(_: NoMemory) -> Self {
        LitError::NoMemory
    }
}

impl From<AllocError> for LitError {
    ghost from_gives = { λ _ e. e ≡ error.NoMemory };

    fn from(_: AllocError) -> Self {
        LitError::NoMemory
    }
}

impl<T: Drop> From<AllocFailed<T>> for LitError {
    ghost from_gives = { λ _ e. e ≡ error.NoMemory };

    fn from(_: AllocFailed<T>) -> Self {
        LitError::NoMemory
    }
}

// Both parts, or the first fault from the left.
pub(crate) fn both<A: Drop, B: Drop>(
    first: Result<A, LitFault>,
    second: Result<B, LitFault>,
) -> Result<(A, B), LitFault>
    ensures { result ≡ both_of (λ a b. (a, b)) first second }
{
    Ok((first?, second?))
}

/// The same in a box, where it is there.
pub(crate) fn boxed<T: Drop>(
    alloc: Global,
    part: Result<T, LitFault>,
) -> Result<Result<Box<T>, LitFault>, NoMemory>
    ensures { IfOk result (λ boxed. one_of (λ b. b.value) boxed ≡ part) }
{
    match part {
        Ok(part) => Ok(Ok(Box::new(alloc, part)?)),
        Err(fault) => Ok(Err(fault)),
    }
}

/// Why a reader stopped before the end of a shape.
#[derive(Clone, Copy)]
pub(crate) enum ReadStop {
    /// What stands there has not the shape that is asked for.
    NoShape,
    NoMemory,
}

impl From<NoMemory> for ReadStop {
    ghost from_gives = { λ _ e. e ≡ stop.NoMemory };

    fn from(_: NoMemory) -> Self {
        ReadStop::NoMemory
    }
}

impl From<AllocError> for ReadStop {
    ghost from_gives = { λ _ e. e ≡ stop.NoMemory };

    fn from(_: AllocError) -> Self {
        ReadStop::NoMemory
    }
}

impl<T: Drop> From<AllocFailed<T>> for ReadStop {
    ghost from_gives = { λ _ e. e ≡ stop.NoMemory };

    fn from(_: AllocFailed<T>) -> Self {
        ReadStop::NoMemory
    }
}
