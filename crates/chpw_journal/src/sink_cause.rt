//! Why a journal's file takes no more.
ghost use Rattle.std.specs.Prelude.{◌≡◌, Some};
ghost use Rattle.std.specs.IoError.{raw_os_error};
ghost use Rattle.chpw_journal.specs.Causes.{cause_at, cause_by, cause_of, mark_of, other_cause};

use std::fmt;
use std::io::Error;

/// errno(3): an input or output error.
const EIO: i32 = 5;

/// errno(3): the file would be too large.
const EFBIG: i32 = 27;

/// errno(3): no space is left on the device.
const ENOSPC: i32 = 28;

/// errno(3): the file system is read-only.
const EROFS: i32 = 30;

/// errno(3): the user's quota of disk space is used up.
const EDQUOT: i32 = 122;

/// The first number that stands for an error of another number.
const FIRST_OTHER: u64 = 8;

/// Why an append failed, displayed as the system's words for it: `no space left`.
#[derive(Clone, Copy, Drop)]
pub enum SinkCause {
    NoSpace,
    ReadOnly,
    InputOutput,
    /// Also where the process may make the file no longer.
    TooLarge,
    Quota,
    /// Another error of the system's, with its number.
    Other(u32),
    /// The system gave no number.
    Unknown,
    /// The file may lose its name, so nothing is written to it.
    Nameless,
}

impl SinkCause {
    /// Why a write or a sync failed with this error.
    pub fn of(error: &Error) -> SinkCause
        ensures value { result ≡ cause_of (raw_os_error error.now) }
    {
        match error.raw_os_error() {
            None => SinkCause::Unknown,
            Some(code) => SinkCause::by(code),
        }
    }

    // The cause of this number of the system's.
    fn by(code: i32) -> SinkCause
        ensures value { result ≡ cause_by code }
    {
        if code == ENOSPC {
            SinkCause::NoSpace
        } else if code == EROFS {
            SinkCause::ReadOnly
        } else if code == EIO {
            SinkCause::InputOutput
        } else if code == EFBIG {
            SinkCause::TooLarge
        } else if code == EDQUOT {
            SinkCause::Quota
        } else if code < 0 {
            SinkCause::Unknown
        } else {
            SinkCause::Other(code as u32)
        }
    }

    /// The number that stands for it where threads share one; 0 stands for none.
    pub(crate) fn mark(self) -> u64
        ensures value { result ≡ mark_of self }
        ensures back { cause_at (mark_of self) ≡ Some self }
    {
        match self {
            SinkCause::NoSpace => 1,
            SinkCause::ReadOnly => 2,
            SinkCause::InputOutput => 3,
            SinkCause::TooLarge => 4,
            SinkCause::Quota => 5,
            SinkCause::Unknown => 6,
            SinkCause::Nameless => 7,
            SinkCause::Other(code) => FIRST_OTHER + u64::from(code),
        }
    }

    /// The cause for which this number stands, if there is one.
    pub(crate) fn with_mark(mark: u64) -> Option<SinkCause>
        ensures value { result ≡ cause_at mark }
    {
        match mark {
            0 => None,
            1 => Some(SinkCause::NoSpace),
            2 => Some(SinkCause::ReadOnly),
            3 => Some(SinkCause::InputOutput),
            4 => Some(SinkCause::TooLarge),
            5 => Some(SinkCause::Quota),
            6 => Some(SinkCause::Unknown),
            7 => Some(SinkCause::Nameless),
            other => Some(SinkCause::other(other - FIRST_OTHER)),
        }
    }

    // An error of another number; no error has one of more than 32 bits.
    fn other(code: u64) -> SinkCause
        ensures value { result ≡ other_cause code }
    {
        match u32::try_from(code) {
            Ok(code) => SinkCause::Other(code),
            Err(_) => SinkCause::Unknown,
        }
    }
}

impl fmt::Display for SinkCause {
    ghost use Rattle.std.specs.Prelude.{Some};
    ghost use Rattle.chpw_journal.specs.Causes.{cause_text};

    ghost output = { λ cause. Some (cause_text cause) };

    fn fmt<W: fmt::Write>(&self, f: &mut fmt::Formatter<W>) -> fmt::Result {
        match self {
            SinkCause::NoSpace => f.write_str("no space left"),
            SinkCause::ReadOnly => f.write_str("read-only file system"),
            SinkCause::InputOutput => f.write_str("input/output error"),
            SinkCause::TooLarge => f.write_str("file too large"),
            SinkCause::Quota => f.write_str("quota exceeded"),
            SinkCause::Other(code) => write!(f, "error {code}"),
            SinkCause::Unknown => f.write_str("unknown error"),
            SinkCause::Nameless => f.write_str("its name may be lost"),
        }
    }
}
