//! The drill's journal.
ghost use Rattle.std.specs.Prelude.{◌≡◌, if◌then◌else◌, [], Some, None};

use chpw_table::{JournalSink, SinkFault};

/// The journal of one event. It keeps no bytes; its appends fail or succeed.
#[derive(Drop)]
pub struct RequestSink {
    fails: bool,
    failed: u64,
}

impl RequestSink {
    /// A journal without appends; `fails` says whether they fail.
    pub fn new(fails: bool) -> RequestSink
        ensures value { result ≡ record { fails = fails; failed = 0 } }
    {
        RequestSink { fails, failed: 0 }
    }
}

// A failing one takes nothing, and reports it.
impl JournalSink for RequestSink {
    ghost failed = { λ s. if s.fails then s.failed else 0 };

    // Nothing is on a disk.
    ghost unsynced = { λ _. 0 };

    ghost told = { λ s. if s.fails then Some [] else None };

    fn append(&mut self, _bytes: &[u8]) -> Result<(), SinkFault> {
        if self.fails {
            self.failed += 1;
            return Err(SinkFault);
        }
        Ok(())
    }

    fn failures(&self) -> u64 {
        if self.fails { self.failed } else { 0 }
    }
}
