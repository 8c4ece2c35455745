//! A lock that is held for as long as lookups are made.
ghost use Rattle.std.specs.Prelude.{◌≡◌, None};

use chpw_table::{JournalSink, SinkFault};
use std::sync::atomic::{AtomicBool, Ordering};
use std::thread;
use std::time::{Clock, Duration};

/// How often an append sleeps, at the most.
const SLEEPS: u32 = 10_000;

/// How often it is checked whether an append has begun, a millisecond apart.
const WAITS: u32 = 10_000;

/// What an append and the lookups beside it tell each other: whether the append goes on, and whether the lookups are
/// over.
#[derive(Drop)]
pub struct Hold {
    held: AtomicBool,
    over: AtomicBool,
}

impl Hold {
    /// No append has begun, and the lookups are not over.
    pub fn new() -> Hold {
        Hold {
            held: AtomicBool::new(false),
            over: AtomicBool::new(false),
        }
    }

    /// Waits for an append to begin; false if none has in ten seconds.
    pub fn has_begun<R: Clock>(&self, rt: &R) -> bool {
        for _ in 0..WAITS {
            if self.held.load(Ordering::SeqCst) {
                return true;
            }
            thread::sleep(rt, Duration::from_millis(1));
        }
        false
    }

    /// Says that the lookups are over; whether the append has gone on until now.
    pub fn end(&self) -> bool {
        let held = self.held.load(Ordering::SeqCst);
        self.over.store(true, Ordering::SeqCst);
        held
    }
}

/// A journal that takes everything and has no known bytes. An append sleeps, a while at a time, until the lookups are
/// over, and the desk's lock is held meanwhile.
#[derive(Drop)]
pub struct SlowSink<'a, R: Clock> {
    pub rt: &'a R,
    pub hold: &'a Hold,
    pub sleep: Duration,
}

impl<'a, R: Clock> JournalSink for SlowSink<'a, R> {
    ghost failed = { λ s. 0 };

    // Nothing is on a disk.
    ghost unsynced = { λ _. 0 };

    ghost told = { λ s. None };

    fn append(&mut self, _bytes: &[u8]) -> Result<(), SinkFault> {
        self.hold.held.store(true, Ordering::SeqCst);
        for _ in 0..SLEEPS {
            thread::sleep(self.rt, self.sleep);
            if self.hold.over.load(Ordering::SeqCst) {
                break;
            }
        }
        self.hold.held.store(false, Ordering::SeqCst);
        Ok(())
    }

    fn failures(&self) -> u64 {
        0
    }
}
