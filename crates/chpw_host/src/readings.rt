//! What is read of a service for its status.
ghost use Rattle.chpw_control.specs.Statuses.{IsTold};

use chpw_control::{NameState, Time};
use chpw_journal::SinkCause;
use chpw_table::Moment;

/// What is read of a service for its status, beside its counters and its connections.
#[derive(Clone, Copy, Drop)]
pub struct Readings {
    /// When the service started.
    pub since: Time,
    /// The moment of the status.
    pub moment: Moment,
    pub workers: u8,
    pub files: FileReadings,
    /// What is read of the KDC, if there is one.
    pub kdc: Option<KdcReadings>,
}

/// What is read of the journal and the log.
#[derive(Clone, Copy, Drop)]
pub struct FileReadings {
    pub journal_bytes: u64,
    /// Why an append to the journal has failed, if one has.
    pub failure: Option<SinkCause>,
    /// Whether the names of journal and log lead to them.
    pub journal_name: NameState,
    pub log_name: NameState,
    /// The lines of the log that couldn't be written.
    pub log_lost: u64,
}

/// What is read of the agent at the KDC's database.
#[derive(Clone, Copy, Drop)]
pub struct KdcReadings {
    pub is_connected: bool,
    /// Since when there is a connection, or none.
    pub since: Time,
    /// The keys that are on their way to the KDC.
    pub behind: u64,
    /// The principals that the table has.
    pub held: u64,
    ghost told: { IsTold since },
}
