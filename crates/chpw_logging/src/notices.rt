//! Notices on standard error of a service that goes on, each once.
ghost use Rattle.std.specs.Prelude.{◌≡◌, ◌+◌, ◌-◌, ◌^◌, ◌&&◌, ◌||◌, if◌then◌else◌, max, min, not, true};

use chpw_journal::SinkCause;
use chpw_start::SetAside;
use std::fmt;

/// What went wrong, displayed as its line.
#[derive(Clone, Copy, Drop)]
pub enum Notice<'a> {
    /// A line of the log at this path is lost.
    LogLost(&'a str),
    /// The journal at this path failed, for this reason.
    JournalFailed(&'a str, SinkCause),
    /// A line on standard output is lost.
    OutputLost,
    /// This many more messages had waited too long for their worker.
    Expired(u32),
    /// The agent at this socket hasn't confirmed a change that was answered.
    Unconfirmed(&'a str),
    /// There is no connection to the agent at this socket.
    KdcDown(&'a str),
    /// The agent at this socket has said what it may not.
    KdcMisspoken(&'a str),
    /// The agent at this socket refuses a name: which, and why.
    KdcRefused(&'a str, &'a str),
    /// The agent at this socket can't get at its database: what it says of it.
    KdcFailed(&'a str, &'a str),
    /// The KDC lacks this many of the names that are held, of so many.
    KdcLacks(&'a str, u64, u64),
    /// This name of the KDC's isn't adopted, since there are as many principals as may be.
    KdcTableFull(&'a str, &'a str),
    /// A change was lost for want of memory on its way to the agent at this socket.
    KdcLost(&'a str),
    /// Others than its owner may read or write this file.
    Shared(&'a str),
    /// The service manager couldn't be told that the service listens.
    ManagerNotTold,
    /// The configuration lacks this many principals that the table has.
    Lacked(u64),
    /// Of the journal at this path this many bytes are kept, and a torn tail after them was cut off.
    TailCut(&'a str, u64),
    /// The resume file at this path is set aside.
    SetAside(&'a str, SetAside),
    /// The resume file at this path couldn't be written at the end.
    NotKept(&'a str),
    /// The table is quiet until this time.
    Quiet(&'a str),
}

impl fmt::Display for Notice<'_> {
    ghost use Rattle.std.specs.Prelude.{Some};
    ghost use Rattle.chpw_logging.specs.Notices.{notice_line};

    ghost output = { λ notice. Some (notice_line notice) };

    fn fmt<W: fmt::Write>(&self, f: &mut fmt::Formatter<W>) -> fmt::Result {
        match self {
            Notice::LogLost(log) => write!(
                f,
                "{log}: a line of the log was lost; further losses are not reported"
            ),
            Notice::JournalFailed(journal, why) => {
                write!(
                    f,
                    "{journal}: journal failed: {why}: no change is accepted until a restart"
                )
            }
            Notice::OutputLost => {
                f.write_str("standard output: a line was lost; further losses are not reported")
            }
            Notice::Expired(count) => {
                write!(
                    f,
                    "messages dropped after waiting 5 seconds for a worker: {count}"
                )
            }
            Notice::Unconfirmed(socket) => {
                write!(
                    f,
                    "{socket}: the KDC did not have a change in time; more are not reported until one is confirmed"
                )
            }
            Notice::KdcDown(socket) => {
                write!(
                    f,
                    "{socket}: no connection to the KDC's agent; it is tried again"
                )
            }
            Notice::KdcMisspoken(socket) => {
                write!(
                    f,
                    "{socket}: the KDC's agent said what it may not; it is called again"
                )
            }
            Notice::KdcRefused(socket, refusal) => {
                write!(f, "{socket}: the KDC's agent refuses {refusal}")
            }
            Notice::KdcFailed(socket, text) => {
                write!(f, "{socket}: the KDC's database can't be had: {text}")
            }
            Notice::KdcLacks(socket, gone, of) => {
                write!(
                    f,
                    "{socket}: the KDC lacks {gone} of {of} principals; none is removed"
                )
            }
            Notice::KdcTableFull(socket, name) => {
                write!(
                    f,
                    "{socket}: {name} is not adopted from the KDC: there are 10000 principals already"
                )
            }
            Notice::KdcLost(socket) => {
                write!(
                    f,
                    "{socket}: a change was lost on its way to the KDC; both are compared"
                )
            }
            Notice::Shared(file) => write!(f, "{file}: other users may read or write it"),
            Notice::ManagerNotTold => f.write_str(
                "NOTIFY_SOCKET: the service manager could not be told that the service is ready",
            ),
            Notice::Lacked(count) => {
                write!(
                    f,
                    "principals missing from the configuration: {count}; the service cannot start once one of them changes its password"
                )
            }
            Notice::TailCut(journal, kept) => {
                write!(f, "{journal}: a torn tail was cut off after {kept} bytes")
            }
            Notice::SetAside(file, why) => write!(f, "{file}: set aside, since {why}"),
            Notice::NotKept(file) => {
                write!(
                    f,
                    "cannot write {file}: the next start will be quiet for 300 seconds"
                )
            }
            Notice::Quiet(time) => {
                write!(
                    f,
                    "quiet until {time}: requests are refused as clock skew until then, since some may have been answered before this \
                    start; the clients' clocks are not at fault"
                )
            }
        }
    }
}

/// How many lines were lost, whether any was, and whether that was reported.
#[derive(Clone, Copy, Default, Drop)]
pub(crate) struct Losses {
    pub count: u64,
    pub is_any: bool,
    pub is_told: bool,
}

impl Losses {
    /// A line was appended, whole or not. Whether a first loss is to be reported now: if it can be.
    pub(crate) fn note(&mut self, whole: bool, can_tell: bool) -> bool
        ensures due { result ≡ ((self.old.is_any || not whole) && (not self.old.is_told && can_tell)) }
        ensures count { self.new.count ≡ (if whole then self.old.count else min (self.old.count + 1) (2 ^ 64 - 1)) }
        ensures any { self.new.is_any ≡ (self.old.is_any || not whole) }
        ensures told { self.new.is_told ≡ (self.old.is_told || result) }
    {
        if !whole {
            self.count = self.count.saturating_add(1);
        }
        self.is_any = self.is_any || !whole;
        self.are_due(can_tell)
    }

    /// Whether a first loss is to be reported now, if it can be. It counts as reported then.
    pub(crate) fn are_due(&mut self, can_tell: bool) -> bool
        ensures due { result ≡ (self.old.is_any && (not self.old.is_told && can_tell)) }
        ensures told { self.new ≡ record self.old { is_told = self.old.is_told || result } }
    {
        let are_due = self.is_any && !self.is_told && can_tell;
        self.is_told = self.is_told || are_due;
        are_due
    }
}

/// Notes what is reported once; whether it is to be reported.
pub fn is_first(told: &mut bool) -> bool
    ensures once { result ≡ not told.old }
    ensures told { told.new ≡ true }
{
    let first = !*told;
    *told = true;
    first
}

/// How many more there are than were reported; all of them count as reported then.
pub fn take_unreported(count: u32, reported: &mut u32) -> u32
    ensures more { result ≡ count - reported.old }
    ensures reported { reported.new ≡ max reported.old count }
{
    let more = count.saturating_sub(*reported);
    *reported = count.max(*reported);
    more
}
