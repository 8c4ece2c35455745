//! When connections are accepted, and which faults of an accept may pass.
ghost use Rattle.std.specs.Prelude.{◌≡◌, ◌≢◌, ◌+◌, ◌≤◌, ℕ, true, false};
ghost use Rattle.std.specs.IoError.{error_kind, raw_os_error};
ghost use Rattle.chpw_transfers.specs.Accepting.{is_passing as passing};

use std::io::{Error, ErrorKind};

/// The milliseconds after which an accept that failed is tried again.
pub(crate) const PAUSE: u64 = 100;

/// Whether a connection may be accepted. Moments are milliseconds.
#[derive(Clone, Copy, Drop)]
pub enum Accepting {
    /// Accept the next one.
    Ready,
    /// Wait until the listener is reported.
    Waiting,
    /// An accept failed, and is tried again at this moment.
    Paused(u64),
    /// The listener has failed for good.
    Failed,
}

impl Accepting {
    ghost use Rattle.chpw_transfers.specs.Accepting.{reported, resumed, after_fault, is_ready, is_waiting, has_failed};
    ghost use Rattle.chpw_transfers.specs.declared.accepting.Accepting.TheVariants as accepting;

    /// After the listener was reported.
    pub fn after_report(self) -> Accepting
        ensures value { result ≡ reported self }
    {
        match self {
            Accepting::Waiting => Accepting::Ready,
            other => other,
        }
    }

    /// After time has passed up to this moment.
    pub fn after_time(self, now: u64) -> Accepting
        ensures value { result ≡ resumed now self }
    {
        match self {
            Accepting::Paused(until) if until <= now => Accepting::Ready,
            other => other,
        }
    }

    /// After an accept that failed so, at this moment. None is tried before the listener is reported, or time has
    /// passed.
    pub fn after_error(error: &Error, now: u64) -> Accepting
        ensures would_wait { error_kind error.now ≡ ErrorKind.WouldBlock → result ≡ accepting.Waiting }
        ensures fault { error_kind error.now ≢ ErrorKind.WouldBlock → result ≡ after_fault false (passing (raw_os_error error.now)) now }
        ensures not_at_once { is_ready result ≡ false }
    {
        let would_wait = matches!(error.kind(), ErrorKind::WouldBlock);
        Accepting::after_fault(would_wait, is_passing(error), now)
    }

    // After a fault of an accept, at this moment: one that would have blocked, one that may pass, or another one.
    fn after_fault(would_wait: bool, may_pass: bool, now: u64) -> Accepting
        ensures value { result ≡ after_fault would_wait may_pass now }
        ensures not_at_once { is_ready result ≡ false }
        ensures again { (later : ℕ) → would_wait ≡ false → may_pass ≡ true → now + 100 ≤ later → resumed later result ≡ accepting.Ready }
    {
        if would_wait {
            Accepting::Waiting
        } else if may_pass {
            Accepting::Paused(now.saturating_add(PAUSE))
        } else {
            Accepting::Failed
        }
    }

    /// Whether nothing is accepted before the listener is reported.
    pub fn is_waiting(self) -> bool
        ensures value { result ≡ is_waiting self }
    {
        matches!(self, Accepting::Waiting)
    }

    /// Whether the listener has failed for good.
    pub fn has_failed(self) -> bool
        ensures value { result ≡ has_failed self }
    {
        matches!(self, Accepting::Failed)
    }
}

/// accept(2) of Linux: a signal interrupted it.
pub(crate) const EINTR: i32 = 4;

/// accept(2): memory is short.
pub(crate) const ENOMEM: i32 = 12;

/// accept(2): the system has too many open files.
pub(crate) const ENFILE: i32 = 23;

/// accept(2): this process has too many open files.
pub(crate) const EMFILE: i32 = 24;

/// accept(2): the connection ended before it was accepted.
pub(crate) const ECONNABORTED: i32 = 103;

/// accept(2): memory for sockets is short.
pub(crate) const ENOBUFS: i32 = 105;

/// Whether an accept that failed so may succeed a moment later.
pub(crate) fn is_passing(error: &Error) -> bool
    ensures value { result ≡ passing (raw_os_error error.now) }
{
    match error.raw_os_error() {
        None => false,
        Some(code) => {
            code == EINTR
                || code == ENOMEM
                || code == ENFILE
                || code == EMFILE
                || code == ECONNABORTED
                || code == ENOBUFS
        }
    }
}
