//! Why a case has no answer.

use hex::FromHexError;
use krb_keys::{BadKey, UnsealFault};
use std::alloc::AllocError;
use std::num::ParseIntError;
use thiserror::Error;

/// The text of an answer, or why there is none.
pub type Answer = Result<String, Refusal>;

/// Why a case has no answer.
#[derive(Debug, Drop, Error)]
pub enum Refusal {
    /// Its first word names no case.
    #[error("there is no such case")]
    NoSuchCase,
    /// The case takes another number of words.
    #[error("too few words or too many")]
    WordCount,
    /// A word is not hexadecimal.
    #[error("not hexadecimal")]
    NotHex,
    /// A word is not a number in the range that the call takes.
    #[error("not a number that is taken here")]
    BadNumber,
    /// A byte string has a length that the call does not take.
    #[error("not a length that is taken here")]
    BadLength,
    /// The encryption type and the bytes make no key.
    #[error(transparent)]
    BadKey(#[from] BadKey),
    /// The text does not unseal: too short, or not sealed under this key and usage.
    #[error(transparent)]
    Sealed(UnsealFault),
    /// Memory ran out.
    #[error("out of memory")]
    Memory,
}

impl From<AllocError> for Refusal {
    fn from(_: AllocError) -> Refusal {
        Refusal::Memory
    }
}

impl From<ParseIntError> for Refusal {
    fn from(_: ParseIntError) -> Refusal {
        Refusal::BadNumber
    }
}

impl From<FromHexError> for Refusal {
    fn from(error: FromHexError) -> Refusal {
        match error {
            FromHexError::OutOfMemory => Refusal::Memory,
            FromHexError::InvalidStringLength => Refusal::BadLength,
            _ => Refusal::NotHex,
        }
    }
}

impl From<UnsealFault> for Refusal {
    fn from(fault: UnsealFault) -> Refusal {
        match fault {
            UnsealFault::Memory => Refusal::Memory,
            UnsealFault::TooShort | UnsealFault::BadMac => Refusal::Sealed(fault),
        }
    }
}
