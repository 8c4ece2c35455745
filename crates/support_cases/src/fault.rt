//! Why a case has no answer.

use std::alloc::{AllocError, AllocFailed};
use std::io;

/// Why a case has no answer.
#[derive(Clone, Copy, Drop)]
pub enum Fault {
    /// The line is no case.
    NoSuchCase,
    /// A growth was refused.
    Memory,
}

impl From<AllocError> for Fault {
    fn from(_error: AllocError) -> Fault {
        Fault::Memory
    }
}

impl<T: Drop> From<AllocFailed<T>> for Fault {
    fn from(_error: AllocFailed<T>) -> Fault {
        Fault::Memory
    }
}

impl From<Fault> for io::Error {
    fn from(fault: Fault) -> io::Error {
        match fault {
            Fault::NoSuchCase => io::Error::from(io::ErrorKind::InvalidInput),
            Fault::Memory => io::Error::from(io::ErrorKind::OutOfMemory),
        }
    }
}
