//! `lookup time N`, in a realm of N principals (1 to 10,000): the nanoseconds of a lookup of the name in the
//! middle beside a desk's lock, by one pass, by each of four passes at once, and by one pass while another's
//! decision holds the lock. With `lookup count N` each of these passes has 1,000 lookups, and how many of
//! them found the name is printed.

ghost use Rattle.std.specs.Prelude.{◌≤◌};
ghost use Rattle.chpw_book.specs.Starting.{IsNamed};

mod hold;
mod looking;

use chpw_book::{Desk, DeskName, Pass, UnnamedDesk};
use chpw_rules::Name;
use chpw_table::{Counts, Digest, JournalSink, Opened, Table};
use hold::{Hold, SlowSink};
use looking::{Looked, Sought, look_alone, look_beside, look_together};
use std::alloc::Global;
use std::io;
use std::marker::Brand;
use std::sync::Wait;
use std::thread::Threads;
use std::time::{Clock, Duration};
use support_realm::{PASSWORD, change, name, table};

/// What is asked for on the command line.
#[derive(Clone, Copy, Drop)]
struct Wanted {
    counts: bool,
    principals: u16,
}

impl Wanted {
    /// The lookups of a pass.
    fn times(self) -> u32
        ensures positive { 1 ≤ result }
    {
        if self.counts { 1_000 } else { 1_000_000 }
    }

    /// How long an append sleeps at a time.
    fn sleep(self) -> Duration {
        if self.counts {
            Duration::from_millis(1)
        } else {
            Duration::from_secs(1)
        }
    }

    /// What is printed of lookups.
    fn figure(self, looked: Looked) -> u128 {
        if self.counts {
            u128::from(looked.found)
        } else {
            looked.took.as_nanos() / u128::from(self.times())
        }
    }
}

/// Measures, or counts.
pub fn measure<R>(rt: &R, what: &str, principals: u16) -> io::Result<()>
where
    R: Threads + Wait + Clock + Print + AllocGlobal + Sync,
{
    let wanted = Wanted {
        counts: what == "count",
        principals,
    };
    let table = opening(rt.alloc(), principals)?;
    at_desk::<Brand, R>(rt, &Hold::new(), UnnamedDesk::of(table, 4), wanted)
}

// A table of the principals client00000, client00001 and so on, with room for one entry.
fn opening(alloc: Global, principals: u16) -> io::Result<Table> {
    let mut names = Vec::new(alloc);
    for number in 0..principals {
        names.push(client(alloc, number)?)?;
    }
    table(alloc, names, 1, 1)
}

fn client(alloc: Global, number: u16) -> io::Result<Name> {
    let text = format!(in alloc; "client{number:05}")?;
    name(alloc, text.as_str())
}

// The first principal asks for another password, its keys derived under no count.
fn first_change(alloc: Global) -> io::Result<Opened> {
    let digest = Digest::derive(alloc, PASSWORD, b"", &Counts::new())?;
    Ok(change(alloc, client(alloc, 0)?, 1, digest)?)
}

// All at a desk of this name, which is then abandoned.
fn at_desk<'a, D, R>(
    rt: &'a R,
    hold: &'a Hold,
    unnamed: UnnamedDesk,
    wanted: Wanted,
) -> io::Result<()>
where
    D: DeskName + Send + Sync,
    R: Threads + Wait + Clock + Print + AllocGlobal + Sync,
    requires name { IsNamed unnamed D.name D.parts D.book D.root D.workers }
{
    let sink = SlowSink {
        rt,
        hold,
        sleep: wanted.sleep(),
    };
    let Ok((desk, mut passes)) = Desk::<D, _>::start(rt, rt.alloc(), unnamed, sink) else {
        return Err(io::Error::from(io::ErrorKind::OutOfMemory));
    };
    let figures = figures(rt, rt.alloc(), &desk, &mut passes, hold, wanted);
    desk.abandon(rt);
    print_figures(rt, figures?, if wanted.counts { "found" } else { "ns" })
}

fn print_figures(rt: &impl Print, figures: [u128; 3], unit: &str) -> io::Result<()> {
    let [alone, four, beside] = figures;
    println!(rt; "lookup {alone} {unit}, four {four} {unit}, beside a held lock {beside} {unit}")
}

// The figures of the three.
fn figures<D, S, R>(
    rt: &R,
    alloc: Global,
    desk: &Desk<D, S>,
    passes: &mut [Pass<D>],
    hold: &Hold,
    wanted: Wanted,
) -> io::Result<[u128; 3]>
where
    D: DeskName + Send + Sync,
    S: JournalSink + Send,
    R: Threads + Wait + Clock + Sync,
{
    let sought = Sought {
        name: client(alloc, wanted.principals / 2)?,
        times: wanted.times(),
    };
    let [alone, four, beside] = look_in_three_ways(rt, alloc, desk, passes, hold, &sought)?;
    Ok([
        wanted.figure(alone),
        wanted.figure(four),
        wanted.figure(beside),
    ])
}

// The lookups of the three.
fn look_in_three_ways<D, S, R>(
    rt: &R,
    alloc: Global,
    desk: &Desk<D, S>,
    passes: &mut [Pass<D>],
    hold: &Hold,
    sought: &Sought,
) -> io::Result<[Looked; 3]>
where
    D: DeskName + Send + Sync,
    S: JournalSink + Send,
    R: Threads + Wait + Clock + Sync,
{
    let four = look_together(rt, desk, passes, sought)?;
    let [pass, other, ..] = passes else {
        return Err(io::Error::from(io::ErrorKind::Other));
    };
    let alone = look_alone(rt, desk, pass, sought)?;
    let opened = first_change(alloc)?;
    let beside = look_beside(rt, desk, pass, sought, other, opened, hold)?;
    Ok([alone, four, beside])
}
