//! What one read or write did at a socket that doesn't block.
ghost use Rattle.chpw_transfers.specs.Transfers.{IsOf, IsOfKind};

use std::io;
use std::io::ErrorKind;

/// What one read or write did.
#[derive(Clone, Copy, Drop)]
pub enum Transfer {
    /// It moved this many bytes, at least one.
    Bytes(usize),
    /// It moved none. At a read this is the end: the other side will send no more.
    End,
    /// It would have blocked: it can be made once the socket is reported again.
    Later,
    /// A signal interrupted it: it can be made again at once.
    Again,
    /// The socket has failed for good.
    Fault,
}

impl Transfer {
    /// What a call did that gave this.
    pub fn of(given: io::Result<usize>) -> Transfer
        ensures value { IsOf result given }
    {
        match given {
            Ok(0) => Transfer::End,
            Ok(count) => Transfer::Bytes(count),
            Err(error) => Transfer::of_fault(error.kind()),
        }
    }

    /// What a call did that failed with a fault of this kind.
    pub fn of_fault(kind: ErrorKind) -> Transfer
        ensures value { IsOfKind result kind }
    {
        match kind {
            ErrorKind::WouldBlock => Transfer::Later,
            ErrorKind::Interrupted => Transfer::Again,
            _ => Transfer::Fault,
        }
    }
}
