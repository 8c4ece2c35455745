//! The close of a desk, and what it leaves.

use crate::desk::opening::Opening;
use crate::desk::running::{Block, End};
use crate::desk::updates::verdict_text;
use chpw_book::{CloseFault, CloseRefused, Closed, Desk, DeskName, Pass};
use chpw_journal::{MemorySink, restore};
use chpw_table::{Entry, Event};
use std::alloc::{AllocError, Global};
use std::io;
use std::sync::Wait;
use support_cases::no_case;

/// Closes a desk, once the close without the last worker's pass was refused for that.
pub fn finish<D: DeskName, R: Wait>(
    rt: &R,
    desk: Desk<D, MemorySink>,
    mut passes: Vec<Pass<D>>,
) -> io::Result<Closed<MemorySink>> {
    let last = passes.pop();
    match desk.close(rt, passes) {
        Ok(_) => Err(no_case()),
        Err(
            CloseRefused {
                fault,
                desk,
                mut passes,
            },
        ) => {
            let is_back = match last {
                Some(last) => passes.push(last).is_ok(),
                None => false,
            };
            close(
                rt,
                desk,
                passes,
                is_back && fault == CloseFault::MissingPass,
            )
        }
    }
}

/// Closes a desk that is whole, and abandons another.
fn close<D: DeskName, R: Wait>(
    rt: &R,
    desk: Desk<D, MemorySink>,
    passes: Vec<Pass<D>>,
    is_whole: bool,
) -> io::Result<Closed<MemorySink>> {
    if !is_whole {
        desk.abandon(rt);
        return Err(no_case());
    }
    match desk.close(rt, passes) {
        Ok(closed) => Ok(closed),
        Err(
            CloseRefused {
                fault: _,
                desk,
                passes: _,
            },
        ) => {
            desk.abandon(rt);
            Err(no_case())
        }
    }
}

/// What was said, and what a closed desk leaves of which the end speaks.
pub fn closed_text(
    alloc: Global,
    mut text: String,
    closed: &Closed<MemorySink>,
    block: Block<'_>,
) -> io::Result<String> {
    let history = closed.history.as_slice();
    if matches!(block.end, End::History) {
        show_history(&mut text, history)?;
    }
    let (entries, count, full) = (history.len(), closed.table.count(), closed.table.is_full());
    writeln!(
        text,
        "closed: {entries} entries, count {count}, full {full}"
    )?;
    if !matches!(block.end, End::Counts) {
        show_journal(alloc, &mut text, closed.sink.bytes(), block.opening)?;
    }
    Ok(text)
}

/// Adds how long a journal is, and what it restores.
fn show_journal(
    alloc: Global,
    text: &mut String,
    mut journal: &[u8],
    opening: Opening<'_>,
) -> io::Result<()> {
    let size = journal.len();
    let table = opening.table(alloc)?;
    let Ok(restored) = restore(alloc, table, &mut journal) else {
        return Err(no_case());
    };
    let (records, kept, torn) = (restored.records, restored.kept, restored.torn);
    let count = restored.table.count();
    drop(restored);
    write!(text, "journal: {size} bytes; restored: {records} records, ")?;
    writeln!(text, "{kept} bytes, count {count}, torn {torn}")?;
    Ok(())
}

/// Adds the history, in one line, as copies of its entries show it.
fn show_history(text: &mut String, history: &[Entry]) -> Result<(), AllocError> {
    text.push_str("history:")?;
    for entry in history {
        show_entry(text, entry, &entry.clone()?)?;
    }
    Ok(text.push_str("\n")?)
}

fn show_entry(text: &mut String, entry: &Entry, copy: &Entry) -> Result<(), AllocError> {
    let what = match (copy.is_same(entry), copy.io_failed) {
        (false, _) => ", no copy",
        (true, true) => ", append failed",
        (true, false) => "",
    };
    let (worker, number, said) = (copy.worker, copy.number, event_text(&copy.event));
    write!(text, " {worker}.{number} {said}{what};")
}

fn event_text(event: &Event) -> &'static str {
    match event {
        Event::Ask { verdict, .. } => verdict.text(),
        Event::Raise { verdict, .. } => verdict.text(),
        Event::Update { verdict, .. } => verdict_text(*verdict),
    }
}
