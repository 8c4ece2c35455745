//! A table that one thread owns, and what the KDC says of its principals.

use crate::desk::asking::NOW;
use crate::desk::opening::Opening;
use crate::desk::running::ROOM;
use crate::desk::updates::{update_of, verdict_text};
use crate::desk::words::first_word;
use chpw_decider::{Alone, Decider};
use chpw_journal::MemorySink;
use chpw_table::UpdateFault;
use std::alloc::Global;
use std::io;
use support_cases::no_case;
use support_realm::name;

/// The answer to each of these lines, which are updates.
pub fn alone_text(alloc: Global, opening: Opening<'_>, lines: &str) -> io::Result<String> {
    let sink = MemorySink::new(alloc, ROOM)?;
    let mut alone = Alone::new(alloc, opening.table(alloc)?, sink);
    let mut text = String::new(alloc);
    let shown = show_updates(alloc, &mut text, &mut alone, lines);
    drop(alone);
    shown?;
    Ok(text)
}

fn show_updates(
    alloc: Global,
    text: &mut String,
    alone: &mut Alone<MemorySink>,
    lines: &str,
) -> io::Result<()> {
    for line in lines.lines() {
        let said = update(alloc, alone, line)?;
        let kvno = kvno_of(alloc, alone, line)?;
        let (receipts, made) = (alone.receipts().len(), alone.made_kvno().unwrap_or(0));
        writeln!(
            text,
            "{said}; kvno {kvno}, {receipts} receipts, made {made}"
        )?;
    }
    Ok(())
}

/// The verdict on an update.
fn update(alloc: Global, alone: &mut Alone<MemorySink>, line: &str) -> io::Result<&'static str> {
    let (word, text) = first_word(line);
    let update = update_of(alloc, word, text)?;
    let fits = update.fits();
    if !fits {
        return Err(no_case());
    }
    match alone.update(NOW, update) {
        Ok(verdict) => Ok(verdict_text(verdict)),
        Err(refused) => match refused.fault {
            UpdateFault::Full => Ok("history full"),
            _ => Err(no_case()),
        },
    }
}

/// The newest version of the name that a line is about, 0 if it isn't held.
fn kvno_of(alloc: Global, alone: &mut Alone<MemorySink>, line: &str) -> io::Result<u32> {
    let name = name(alloc, line.split(' ').nth(1).unwrap_or(""))?;
    let Some(found) = alone.lookup(&name) else {
        return Ok(0);
    };
    Ok(found.kvno)
}
