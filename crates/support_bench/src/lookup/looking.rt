//! Lookups of a name, and how long they took.

use crate::lookup::hold::Hold;
use chpw_book::{Desk, DeskName, Pass};
use chpw_rules::Name;
use chpw_table::{JournalSink, Opened, Verdict};
use std::io;
use std::sync::Wait;
use std::sync::atomic::{AtomicU64, Ordering};
use std::thread::{self, Threads, join};
use std::time::{Clock, Duration, Instant};
use support_realm::{NOW, PASSWORD};

/// A name, and how often a pass looks it up.
#[derive(Drop)]
pub struct Sought {
    pub name: Name,
    pub times: u32,
}

/// How many lookups found their name, and how long those of one pass took.
#[derive(Clone, Copy, Drop)]
pub struct Looked {
    pub found: u64,
    pub took: Duration,
}

/// The lookups of a pass.
pub fn look_alone<D: DeskName, S: JournalSink, R: Clock>(
    rt: &R,
    desk: &Desk<D, S>,
    pass: &mut Pass<D>,
    sought: &Sought,
) -> io::Result<Looked> {
    let start = Instant::now(rt)?;
    let found = found_by(desk, pass, sought);
    let took = start.elapsed(rt)?;
    Ok(Looked { found, took })
}

/// Those of several passes at once, each in a thread of its own.
pub fn look_together<D, S, R>(
    rt: &R,
    desk: &Desk<D, S>,
    passes: &mut [Pass<D>],
    sought: &Sought,
) -> io::Result<Looked>
where
    D: DeskName + Send + Sync,
    S: JournalSink + Send,
    R: Threads + Clock + Sync,
{
    let found = AtomicU64::new(0);
    let threads = passes.len().max(1);
    let start = Instant::now(rt)?;
    thread::for_each_mut(
        rt,
        passes,
        threads,
        &|_, pass| {
            found.fetch_add(found_by(desk, pass, sought), Ordering::SeqCst);
        },
    );
    let took = start.elapsed(rt)?;
    Ok(Looked {
        found: found.load(Ordering::SeqCst),
        took,
    })
}

/// Those of a pass while another's decision holds the lock.
pub fn look_beside<D, S, R>(
    rt: &R,
    desk: &Desk<D, S>,
    pass: &mut Pass<D>,
    sought: &Sought,
    other: &mut Pass<D>,
    opened: Opened,
    hold: &Hold,
) -> io::Result<Looked>
where
    D: DeskName + Send + Sync,
    S: JournalSink + Send,
    R: Threads + Wait + Clock + Sync,
{
    let (decided, looked) = join(
        rt,
        || desk.decide_deriving(rt, other, NOW, opened, PASSWORD).ok(),
        || look_held(rt, desk, pass, sought, hold),
    );
    if decided == Some(Verdict::Done) {
        looked
    } else {
        Err(io::Error::from(io::ErrorKind::Other))
    }
}

// The lookups of a pass, refused unless the lock is held all the time.
fn look_held<D: DeskName, S: JournalSink, R: Clock>(
    rt: &R,
    desk: &Desk<D, S>,
    pass: &mut Pass<D>,
    sought: &Sought,
    hold: &Hold,
) -> io::Result<Looked> {
    let begun = hold.has_begun(rt);
    let looked = look_alone(rt, desk, pass, sought);
    let held = hold.end();
    if begun && held {
        looked
    } else {
        Err(io::Error::from(io::ErrorKind::TimedOut))
    }
}

// How many lookups of a pass find the name.
fn found_by<D: DeskName, S: JournalSink>(
    desk: &Desk<D, S>,
    pass: &mut Pass<D>,
    sought: &Sought,
) -> u64 {
    let mut found = 0u64;
    for _ in 0..sought.times {
        if let Ok(Some(_)) = desk.lookup(pass, &sought.name) {
            found = found.saturating_add(1);
        }
    }
    found
}
