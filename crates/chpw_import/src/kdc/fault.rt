//! What is wrong with an agent's answer.
use chpw_kdc::LineFault;
use std::alloc::{AllocError, AllocFailed};
use std::fmt;

/// What is wrong with an agent's list, in the order of its bytes; displayed in words.
#[derive(Clone, Copy, Drop)]
pub enum ListFault {
    /// No byte came.
    NoAnswer,
    /// It has more bytes than an answer may have.
    TooLong,
    /// It ends before the list does.
    CutOff,
    /// A line has more than 1,024 bytes with its newline.
    LongLine,
    /// A line is no answer.
    BadLine(LineFault),
    /// A line doesn't belong to a list, or follows its end.
    OutOfTurn,
    /// A name is listed twice.
    NamedTwice,
    /// The end has another number than that of the names.
    WrongCount,
    /// The agent can't read the database at the moment.
    Failed,
    /// A growth was refused.
    Memory,
}

impl fmt::Display for ListFault {
    ghost use Rattle.std.specs.Prelude.{Some};
    ghost use Rattle.chpw_import.specs.KdcLists.{fault_words};

    ghost output = { λ fault. Some (fault_words fault) };

    fn fmt<W: fmt::Write>(&self, f: &mut fmt::Formatter<W>) -> fmt::Result {
        f.write_str(match self {
            ListFault::NoAnswer => "no answer: the agent serves another connection or another user",
            ListFault::TooLong => "the answer is too long",
            ListFault::CutOff => "the answer is cut off",
            ListFault::LongLine => "a line of the answer is too long",
            ListFault::BadLine(_) => "a line of the answer can't be read",
            ListFault::OutOfTurn => "a line of the answer is out of turn",
            ListFault::NamedTwice => "a name is listed twice",
            ListFault::WrongCount => "the list has another number of names than it says",
            ListFault::Failed => "the KDC's database can't be read at the moment",
            ListFault::Memory => "memory",
        })
    }
}

impl From<AllocError> for ListFault {
    ghost use Rattle.std.specs.Prelude.{◌≡◌};
    ghost use Rattle.chpw_import.specs.declared.kdc.fault.ListFault.TheVariants.{Memory};

    ghost from_gives = { λ _ error. error ≡ Memory };

    fn from(_error: AllocError) -> ListFault {
        ListFault::Memory
    }
}

impl<T: Drop> From<AllocFailed<T>> for ListFault {
    ghost use Rattle.std.specs.Prelude.{◌≡◌};
    ghost use Rattle.chpw_import.specs.declared.kdc.fault.ListFault.TheVariants.{Memory};

    ghost from_gives = { λ _ error. error ≡ Memory };

    fn from(_error: AllocFailed<T>) -> ListFault {
        ListFault::Memory
    }
}
