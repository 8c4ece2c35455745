//! The lines of the service's own events.
ghost use Rattle.std.specs.Prelude.{◌≡◌, ◌++◌, ◌<◌, true, IfOk, OnOk};
ghost use Rattle.std.specs.Fmt.{decimal};
ghost use Rattle.std.specs.Option.{ForSome};
ghost use Rattle.chpw_printing.specs.Quoting.{are_printed};
ghost use Rattle.chpw_table.specs.Times.{IsMoment};
ghost use Rattle.chpw_log.specs.Events.{IsQuietTold, IsWholeMoment, both_words, event_line, event_words, quiet_text, quiet_words, start_words};
ghost use Rattle.chpw_log.specs.Lines.{IsRecord};
ghost use Rattle.chpw_log.specs.Moments.{moment_text};

use crate::moment::put_moment;
use chpw_printing::put_number;
use chpw_table::Moment;
use std::alloc::{AllocError, Global};

/// What happens to the service itself.
#[derive(Clone, Copy, Drop)]
pub enum ServiceEvent {
    /// It starts, with this many principals and this iteration count of new keys, quiet until this moment, if there is
    /// one.
    Started {
        principals: u32,
        iterations: u32,
        quiet_until: Option<Moment>,
    },
    /// It has reloaded its configuration, and has this many principals and this iteration count.
    Reloaded {
        principals: u32,
        iterations: u32,
    },
    /// The iteration count was raised to this.
    Raised {
        iterations: u32,
    },
    /// A history ended, with this many entries and changes, and the next one begins.
    RolledOver {
        entries: u64,
        changes: u64,
    },
    /// An append to the journal failed: no change is accepted from now on.
    JournalFailed,
    /// The log was reopened.
    LogReopened,
    /// It ends, with this many entries and changes since it started.
    Ended {
        entries: u64,
        changes: u64,
    },
}

/// The line of an event of the service, with its newline: the moment, `service`, and the event. No message's line has
/// that word there.
pub fn write_event(
    alloc: Global,
    moment: Moment,
    event: &ServiceEvent,
) -> Result<Vec<u8>, AllocError>
    requires moment { IsMoment moment }
    requires micros { moment.micros < 1000000 }
    requires quiet { IsQuietTold event.now }
    ensures value { IfOk result (λ text. text.items ≡ event_line moment event.now) }
    ensures record { IfOk result (λ text. IsRecord text.items) }
{
    let mut text = Vec::new(alloc);
    put_moment(&mut text, moment)?;
    text.extend_from_slice(b" service ")?;
    put_event(&mut text, event)?;
    text.push(b'\n')?;
    Ok(text)
}

// Adds the words of an event.
fn put_event(text: &mut Vec<u8>, event: &ServiceEvent) -> Result<(), AllocError>
    requires quiet { IsQuietTold event.now }
    ensures value { OnOk result (text.new.items ≡ text.old.items ++ event_words event.now) }
    ensures printed { OnOk result (are_printed (event_words event.now) ≡ true) }
{
    match *event {
        ServiceEvent::Started {
            principals,
            iterations,
            quiet_until,
        } => put_start(
            text,
            u64::from(principals),
            u64::from(iterations),
            quiet_until,
        ),
        ServiceEvent::Reloaded {
            principals,
            iterations,
        } => put_both(
            text,
            "reloaded principals ",
            u64::from(principals),
            " iterations ",
            u64::from(iterations),
        ),
        ServiceEvent::Raised { iterations } => put_one(
            text,
            "raised iterations ",
            u64::from(iterations),
        ),
        ServiceEvent::RolledOver { entries, changes } => put_both(
            text,
            "rolled-over entries ",
            entries,
            " changes ",
            changes,
        ),
        ServiceEvent::JournalFailed => text.extend_from_slice(b"journal-failed"),
        ServiceEvent::LogReopened => text.extend_from_slice(b"log-reopened"),
        ServiceEvent::Ended { entries, changes } => put_both(
            text,
            "ended entries ",
            entries,
            " changes ",
            changes,
        ),
    }
}

// Adds the words of a start.
fn put_start(
    text: &mut Vec<u8>,
    principals: u64,
    iterations: u64,
    quiet_until: Option<Moment>,
) -> Result<(), AllocError>
    requires quiet { ForSome quiet_until IsWholeMoment }
    ensures value { OnOk result (text.new.items ≡ text.old.items ++ start_words principals iterations quiet_until) }
    ensures printed { OnOk result (are_printed (start_words principals iterations quiet_until) ≡ true) }
{
    put_both(
        text,
        "started principals ",
        principals,
        " iterations ",
        iterations,
    )?;
    text.extend_from_slice(b" quiet-until ")?;
    put_quiet(text, quiet_until)
}

// Adds until when requests are refused, and that it is no fault of the clients' clocks; or `-`.
fn put_quiet(text: &mut Vec<u8>, moment: Option<Moment>) -> Result<(), AllocError>
    requires quiet { ForSome moment IsWholeMoment }
    ensures value { OnOk result (text.new.items ≡ text.old.items ++ quiet_words moment) }
    ensures printed { OnOk result (are_printed (quiet_words moment) ≡ true) }
{
    match moment {
        Some(until) => put_until(text, until),
        None => text.extend_from_slice(b"-"),
    }
}

fn put_until(text: &mut Vec<u8>, until: Moment) -> Result<(), AllocError>
    requires until { IsWholeMoment until }
    ensures value { OnOk result (text.new.items ≡ text.old.items ++ (moment_text until ++ quiet_text)) }
    ensures printed { OnOk result (are_printed (moment_text until ++ quiet_text) ≡ true) }
{
    put_moment(text, until)?;
    text.extend_from_slice(
        b" text requests are refused after a start; the clients' clocks are not at fault",
    )
}

// Adds words and a number.
fn put_one(text: &mut Vec<u8>, words: &str, number: u64) -> Result<(), AllocError>
    ensures value { OnOk result (text.new.items ≡ text.old.items ++ (words.now ++ decimal number)) }
    ensures printed { are_printed words.now ≡ true → are_printed (words.now ++ decimal number) ≡ true }
{
    text.extend_from_slice(words.as_bytes())?;
    put_number(text, number)
}

// Adds words and a number, twice.
fn put_both(
    text: &mut Vec<u8>,
    words: &str,
    number: u64,
    further: &str,
    other: u64,
) -> Result<(), AllocError>
    ensures value { OnOk result (text.new.items
        ≡ text.old.items ++ both_words words.now number further.now other) }
    ensures printed { are_printed words.now ≡ true → are_printed further.now ≡ true
        → are_printed (both_words words.now number further.now other) ≡ true }
{
    put_one(text, words, number)?;
    put_one(text, further, other)
}
