//! Why a text could not be read.

ghost use Rattle.std.specs.Prelude.{◌≡◌};
ghost use Rattle.krb_codec.specs.declared.fault.ReadError.TheVariants.{Fault, Memory};

use std::alloc::{AllocError, AllocFailed};
use thiserror::Error;

/// What is wrong with a text.
#[derive(Clone, Copy, Debug, Drop)]
pub enum FaultKind {
    /// An element that is required, or a part of one, is missing at the end.
    Truncated,
    /// An element has another tag than required.
    WrongTag,
    /// A length that isn't in its shortest form, is indefinite or takes more than four bytes.
    BadLength,
    /// An INTEGER that isn't in its shortest form, or a BIT STRING whose unused bits are wrong.
    BadInteger,
    /// A GeneralizedTime in another form, or of a day that isn't in the calendar.
    BadTime,
    /// Bytes after the last element.
    Trailing,
    /// An INTEGER outside its range.
    OutOfRange,
}

impl FaultKind {
    fn words(self) -> &'static str {
        match self {
            FaultKind::Truncated => "missing or cut short",
            FaultKind::WrongTag => "another tag",
            FaultKind::BadLength => "a length in another form",
            FaultKind::BadInteger => "an INTEGER or BIT STRING in another form",
            FaultKind::BadTime => "no time",
            FaultKind::Trailing => "trailing bytes",
            FaultKind::OutOfRange => "a number out of range",
        }
    }
}

/// The first fault from left to right.
#[derive(Clone, Copy, Debug, Drop, Error)]
#[error("{} at byte {place}", .kind.words())]
pub struct DerFault {
    /// Its distance from the text's start: where the faulty element, or what trails, starts.
    pub place: usize,
    pub kind: FaultKind,
}

/// Why a text wasn't read.
#[derive(Clone, Copy, Drop)]
pub enum ReadError {
    Fault(DerFault),
    /// A growth was refused.
    Memory,
}

impl From<DerFault> for ReadError {
    ghost from_gives = { λ f e. e ≡ Fault f };

    fn from(fault: DerFault) -> ReadError {
        ReadError::Fault(fault)
    }
}

impl From<AllocError> for ReadError {
    ghost from_gives = { λ _ e. e ≡ Memory };

    fn from(_e: AllocError) -> ReadError {
        ReadError::Memory
    }
}

impl<T: Drop> From<AllocFailed<T>> for ReadError {
    ghost from_gives = { λ _ e. e ≡ Memory };

    fn from(_e: AllocFailed<T>) -> ReadError {
        ReadError::Memory
    }
}
