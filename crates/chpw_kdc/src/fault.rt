//! What is wrong with what was heard, and with what was handed in.

use std::alloc::{AllocError, AllocFailed};

/// Why a line is no answer of the agent's, in the order of the checks.
#[derive(Clone, Copy, Drop)]
pub enum LineFault {
    /// Its bytes are no UTF-8.
    NotText,
    /// It doesn't begin as an answer does.
    UnknownWord,
    /// It has too few words or too many.
    WordCount,
    /// A name isn't lower-case hexadecimal digits with `/` between its components.
    Name,
    /// A version isn't a decimal number from 1 to 4294967295 without leading zeros.
    Version,
    /// A key isn't 64 lower-case hexadecimal digits, or 32.
    Key,
    /// A reason isn't one of the five words.
    Reason,
    /// A count isn't a decimal number up to 4294967295 without leading zeros.
    Count,
    /// There is no memory for what it says.
    Memory,
}

impl From<AllocError> for LineFault {
    ghost use Rattle.std.specs.Prelude.{◌≡◌};
    ghost use Rattle.chpw_kdc.specs.declared.fault.LineFault.TheVariants.{Memory};

    ghost from_gives = { λ _ error. error ≡ Memory };

    fn from(_error: AllocError) -> LineFault {
        LineFault::Memory
    }
}

impl<T: Drop> From<AllocFailed<T>> for LineFault {
    ghost use Rattle.std.specs.Prelude.{◌≡◌};
    ghost use Rattle.chpw_kdc.specs.declared.fault.LineFault.TheVariants.{Memory};

    ghost from_gives = { λ _ error. error ≡ Memory };

    fn from(_error: AllocFailed<T>) -> LineFault {
        LineFault::Memory
    }
}

/// Why a connection is given up.
#[derive(Clone, Copy, Drop)]
pub enum ProtocolFault {
    /// Bytes came without a connection.
    NotConnected,
    /// A line is longer than 1,024 bytes.
    LineTooLong,
    /// A line is no answer.
    BadLine(LineFault),
    /// Nothing of the kind was asked.
    OutOfTurn,
    /// The answer is about another name than the request.
    OtherName,
    /// The agent wrote a lower version than it was to.
    LowerVersion,
    /// The list has a name twice.
    NamedTwice,
    /// The list's end has another number than that of its lines.
    WrongCount,
    /// The next line of an answer is late; `changed` is none.
    Late,
    /// There is no memory for what a line says.
    Memory,
}

/// Why a key isn't kept.
#[derive(Clone, Copy, Drop)]
pub enum HoldFault {
    /// No line can have the name.
    LongName,
    /// There are no more tickets: 2^64 - 1 were given.
    NoTicket,
    /// 20,000 keys are on their way to the KDC.
    TooMany,
    /// There is no memory for it.
    Memory,
}

impl From<AllocError> for ProtocolFault {
    ghost use Rattle.std.specs.Prelude.{◌≡◌};
    ghost use Rattle.chpw_kdc.specs.declared.fault.ProtocolFault.TheVariants.{Memory};

    ghost from_gives = { λ _ error. error ≡ Memory };

    fn from(_error: AllocError) -> ProtocolFault {
        ProtocolFault::Memory
    }
}

impl<T: Drop> From<AllocFailed<T>> for ProtocolFault {
    ghost use Rattle.std.specs.Prelude.{◌≡◌};
    ghost use Rattle.chpw_kdc.specs.declared.fault.ProtocolFault.TheVariants.{Memory};

    ghost from_gives = { λ _ error. error ≡ Memory };

    fn from(_error: AllocFailed<T>) -> ProtocolFault {
        ProtocolFault::Memory
    }
}

impl From<AllocError> for HoldFault {
    ghost use Rattle.std.specs.Prelude.{◌≡◌};
    ghost use Rattle.chpw_kdc.specs.declared.fault.HoldFault.TheVariants.{Memory};

    ghost from_gives = { λ _ error. error ≡ Memory };

    fn from(_error: AllocError) -> HoldFault {
        HoldFault::Memory
    }
}

impl<T: Drop> From<AllocFailed<T>> for HoldFault {
    ghost use Rattle.std.specs.Prelude.{◌≡◌};
    ghost use Rattle.chpw_kdc.specs.declared.fault.HoldFault.TheVariants.{Memory};

    ghost from_gives = { λ _ error. error ≡ Memory };

    fn from(_error: AllocFailed<T>) -> HoldFault {
        HoldFault::Memory
    }
}

impl From<LineFault> for ProtocolFault {
    ghost use Rattle.std.specs.Prelude.{◌≡◌};
    ghost use Rattle.chpw_kdc.specs.Faults.{fault_of_line};

    ghost from_gives = { λ fault result. result ≡ fault_of_line fault };

    fn from(fault: LineFault) -> ProtocolFault {
        match fault {
            LineFault::Memory => ProtocolFault::Memory,
            fault => ProtocolFault::BadLine(fault),
        }
    }
}
