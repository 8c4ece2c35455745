//! Counters of a running service, and the events that are counted.
ghost use Rattle.std.specs.Prelude.{◌≡◌, ◌<◌};
ghost use Rattle.std.specs.Option.{ForSome};
ghost use Rattle.chpw_table.specs.Times.{IsMoment};
ghost use Rattle.chpw_control.specs.Statuses.{IsTold};
ghost use Rattle.chpw_log.specs.Events.{IsQuietTold, IsWholeMoment};
ghost use Rattle.chpw_logging.specs.Counters.{after_line, after_opening, after_raise, after_update, behind_decision, behind_raise};
ghost use Rattle.chpw_logging.specs.Counters.{ended_event, quiet_moment, quiet_time, raised_event, reloaded_event};
ghost use Rattle.chpw_logging.specs.Counters.{principals_told, rolled_over_event, started_event};

use chpw_control::Time;
use chpw_log::{Line, MessageEvent, ServiceEvent};
use chpw_start::RaiseReport;
use chpw_table::{LAST_SECOND, Moment, Table, Verdict};

/// The counters of a running service, up to 64 bits. Its threads share them, beside its log.
#[derive(Clone, Copy, Default, Drop)]
pub struct Counters {
    /// The principals that the desk opened with, and the iteration count of new keys.
    pub principals: u64,
    pub iterations: u64,
    /// Until when the table is quiet, in seconds since 1970.
    pub quiet_until: i64,
    /// The entries of the history, and the changes among them.
    pub entries: u64,
    pub changes: u64,
    /// Entries and changes with those of the histories before it.
    pub all_entries: u64,
    pub all_changes: u64,
}

impl Counters {
    /// The service starts at this moment, and its first history opens with this table: the event.
    pub fn start(&mut self, now: Moment, table: &Table) -> ServiceEvent
        ensures value { self.new ≡ after_opening self.old table.now }
        ensures event { result ≡ started_event table.now now }
        ensures told { IsQuietTold result }
    {
        self.open(table);
        ServiceEvent::Started {
            principals: principals_told(table),
            iterations: table.count(),
            quiet_until: self.quiet_moment(now),
        }
    }

    /// A further history opens with this table, after a reload: the event.
    pub fn reload(&mut self, table: &Table) -> ServiceEvent
        ensures value { self.new ≡ after_opening self.old table.now }
        ensures event { result ≡ reloaded_event table.now }
        ensures told { IsQuietTold result }
    {
        self.open(table);
        ServiceEvent::Reloaded {
            principals: principals_told(table),
            iterations: table.count(),
        }
    }

    /// A further history opens with this table, which the last one left: the event, with the counts of the last one.
    pub fn roll_over(&mut self, table: &Table) -> ServiceEvent
        ensures value { self.new ≡ after_opening self.old table.now }
        ensures event { result ≡ rolled_over_event self.old }
        ensures told { IsQuietTold result }
    {
        let event = ServiceEvent::RolledOver {
            entries: self.entries,
            changes: self.changes,
        };
        self.open(table);
        event
    }

    /// A raise was decided so, which is an entry of the history: the event, if the count was raised. It is no entry if
    /// the history was full.
    pub fn raise(&mut self, told: RaiseReport) -> Option<ServiceEvent>
        ensures value { self.new ≡ after_raise self.old told }
        ensures event { result ≡ raised_event told }
        ensures told { ForSome result IsQuietTold }
    {
        match told {
            RaiseReport::Raised(iterations) => {
                self.count_raise(u64::from(iterations));
                Some(ServiceEvent::Raised { iterations })
            }
            RaiseReport::NotHigher | RaiseReport::Broken => {
                let iterations = self.iterations;
                self.count_raise(iterations);
                None
            }
            RaiseReport::Full => None,
        }
    }

    /// The service ends: the event, with the counts of all histories.
    pub fn end(&self) -> ServiceEvent
        ensures event { result ≡ ended_event self.now }
        ensures told { IsQuietTold result }
    {
        ServiceEvent::Ended {
            entries: self.all_entries,
            changes: self.all_changes,
        }
    }

    /// The line of a message is to be written: of these a decision is counted.
    pub(crate) fn count_line(&mut self, line: &Line<'_>)
        ensures value { self.new ≡ after_line self.old line.now.news }
    {
        if let MessageEvent::Decided { verdict, .. } = line.news {
            self.count_decision(verdict);
        }
    }

    /// A history opens with this table.
    pub(crate) fn open(&mut self, table: &Table)
        ensures value { self.new ≡ after_opening self.old table.now }
    {
        self.principals = table.principals() as u64;
        self.iterations = u64::from(table.count());
        self.quiet_until = table.quiet_until();
        self.entries = 0;
        self.changes = 0;
    }

    /// A request was decided with this verdict.
    pub(crate) fn count_decision(&mut self, verdict: Verdict)
        ensures value { self.new ≡ behind_decision self.old verdict }
    {
        let change = u64::from(verdict == Verdict::Done);
        self.entries = self.entries.saturating_add(1);
        self.all_entries = self.all_entries.saturating_add(1);
        self.changes = self.changes.saturating_add(change);
        self.all_changes = self.all_changes.saturating_add(change);
    }

    /// A raise was decided, after which new keys are made under this count.
    pub(crate) fn count_raise(&mut self, iterations: u64)
        ensures value { self.new ≡ behind_raise self.old iterations }
    {
        self.iterations = iterations;
        self.entries = self.entries.saturating_add(1);
        self.all_entries = self.all_entries.saturating_add(1);
    }

    /// An update from the KDC was decided.
    pub(crate) fn count_update(&mut self)
        ensures value { self.new ≡ after_update self.old }
    {
        self.entries = self.entries.saturating_add(1);
        self.all_entries = self.all_entries.saturating_add(1);
    }

    /// Until when it refuses to change passwords after a start, if it does at this moment.
    pub fn quiet_time(&self, now: Moment) -> Option<Time>
        ensures value { result ≡ quiet_time self.now.quiet_until now.seconds }
        ensures told { ForSome result IsTold }
    {
        if self.quiet_until < 0 || self.quiet_until < now.seconds {
            return None;
        }
        let seconds = if self.quiet_until <= LAST_SECOND {
            self.quiet_until
        } else {
            LAST_SECOND
        };
        Some(Time { seconds, micros: 0 })
    }

    // The same as a moment.
    fn quiet_moment(&self, now: Moment) -> Option<Moment>
        ensures value { result ≡ quiet_moment self.now.quiet_until now.seconds }
        ensures told { ForSome result IsWholeMoment }
    {
        match self.quiet_time(now) {
            None => None,
            Some(time) => Some(Moment {
                seconds: time.seconds,
                micros: time.micros,
            }),
        }
    }
}

// How many principals are told: at most 32 bits.
fn principals_told(table: &Table) -> u32
    ensures value { result ≡ principals_told table.now }
{
    u32::try_from(table.principals()).unwrap_or(u32::MAX)
}

/// A moment as it is printed.
pub fn time_of(moment: Moment) -> Time
    requires moment { IsMoment moment }
    requires micros { moment.micros < 1000000 }
    ensures value { result ≡ record { seconds = moment.seconds; micros = moment.micros } }
    ensures told { IsTold result }
{
    Time {
        seconds: moment.seconds,
        micros: moment.micros,
    }
}
