//! The state of the service.
ghost use Rattle.std.specs.Prelude.{◌≡◌};
ghost use Rattle.chpw_control.specs.Statuses.{kdc_word, name_word};

use crate::time::Time;

/// Whether changes can be written to the journal.
#[derive(Clone, Copy, Drop)]
pub enum JournalState<'a> {
    Good,
    /// An append has failed, for this reason, and no change is accepted.
    Failed(&'a str),
}

/// Whether the name of a file that the service has open still leads to it.
#[derive(Clone, Copy, Drop)]
pub enum NameState {
    /// There is no such file.
    Absent,
    Kept,
    /// It leads to no file, or to none that can be examined.
    Gone,
    /// It leads to another file.
    Elsewhere,
}

/// Whether the agent at the KDC's database can be asked.
#[derive(Clone, Copy, Drop)]
pub enum KdcState {
    /// There is none.
    Absent,
    Connected,
    /// There is no connection.
    Down,
}

/// The state of the service, as `status` reports it.
#[derive(Clone, Copy, Drop)]
pub struct Status<'a> {
    pub version: &'a str,
    /// When it started.
    pub since: Time,
    /// Until when no change is accepted, if there is such a time.
    pub quiet_until: Option<Time>,
    pub principals: u64,
    /// The iteration count of new keys.
    pub iterations: u64,
    /// The entries of the history, and the changes among them.
    pub entries: u64,
    pub changes: u64,
    /// Entries and changes with those of the histories before it.
    pub all_entries: u64,
    pub all_changes: u64,
    /// The connections that are open, and then how many of them are in each stage.
    pub connections: u64,
    pub reading: u64,
    pub waiting: u64,
    pub answering: u64,
    pub confirming: u64,
    pub writing: u64,
    pub ending: u64,
    pub workers: u64,
    /// The workers that answer a message, and the messages that wait for one.
    pub busy: u64,
    pub queue: u64,
    pub journal_bytes: u64,
    pub journal: JournalState<'a>,
    pub journal_name: NameState,
    /// The lines of the log that couldn't be written.
    pub log_lost: u64,
    pub log_name: NameState,
    pub kdc: KdcState,
    /// Since when there is a connection to the agent, or none.
    pub kdc_since: Option<Time>,
    /// The keys that are on their way to the KDC.
    pub kdc_behind: u64,
    /// The name that the agent refused last, and why.
    pub kdc_refused: Option<&'a [u8]>,
}

impl NameState {
    pub(crate) fn word(self) -> &'static str
        ensures value { result.now ≡ name_word self }
    {
        match self {
            NameState::Absent => "-",
            NameState::Kept => "good",
            NameState::Gone => "gone",
            NameState::Elsewhere => "elsewhere",
        }
    }
}

impl KdcState {
    pub(crate) fn word(self) -> &'static str
        ensures value { result.now ≡ kdc_word self }
    {
        match self {
            KdcState::Absent => "none",
            KdcState::Connected => "connected",
            KdcState::Down => "down",
        }
    }
}
