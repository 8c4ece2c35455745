//! Journals in a file.

use crate::journal::restoring::table;
use crate::pieces::journal_of;
use crate::telling::show_table;
use chpw_journal::{Journal, JournalFile, OpenFault, open_journal};
use chpw_table::JournalSink;
use std::alloc::Global;
use std::fs::{self, File, Files};
use std::io::{self, Write};
use std::os::unix::fs::PermissionsExt;
use support_cases::no_case;

/// The journal's file.
const SCRATCH: &str = "scratch-journal";

/// Adds the result for a journal with these pieces as a file, of which there is none with `no file`: `open`, `twice`, or
/// `append`, with the pieces of what is appended before it is opened.
pub fn show_filed<R: Files<File = File>>(
    rt: &R,
    alloc: Global,
    text: &mut Vec<u8>,
    kind: &str,
    more: &str,
    pieces: &str,
) -> io::Result<()> {
    let _ = fs::remove_file(rt, SCRATCH);
    if pieces != "no file" {
        fs::write(rt, SCRATCH, &journal_of(alloc, pieces)?)?;
    }
    match kind {
        "append" => append(rt, alloc, &journal_of(alloc, more)?)?,
        "twice" => show_locked(rt, alloc, text)?,
        _ => {}
    }
    show_opened(rt, alloc, text)?;
    fs::remove_file(rt, SCRATCH)
}

/// Adds what opening the file gives, and how many bytes are in it then.
fn show_opened<R: Files<File = File>>(rt: &R, alloc: Global, text: &mut Vec<u8>) -> io::Result<()> {
    let shown = match open_journal(rt, alloc, SCRATCH, table(alloc)?) {
        Ok(journal) => show_journal(rt, text, &journal),
        Err(OpenFault::CannotRead) => write!(text, "cannot read"),
        Err(OpenFault::CannotWrite) => write!(text, "cannot write"),
        Err(OpenFault::Restore(fault)) => write!(text, "{fault}"),
    };
    shown?;
    let left = fs::metadata(rt, SCRATCH)?.len();
    write!(text, ", {left} bytes")
}

/// Adds whether the file existed, the mode of a new one, what is in the table, and where a torn tail was cut off.
fn show_journal<R: Files<File = File>>(
    rt: &R,
    text: &mut Vec<u8>,
    journal: &Journal<File>,
) -> io::Result<()> {
    if journal.found {
        text.extend_from_slice(b"found,")?;
    } else {
        let mode = fs::metadata(rt, SCRATCH)?.permissions().mode() & 0o777;
        write!(text, "new, mode {mode:o},")?;
    }
    show_table(text, &journal.table)?;
    match journal.cut_at {
        Some(kept) => write!(text, ", cut off behind {kept}"),
        None => Ok(()),
    }
}

/// Opens the file, and appends this to it.
fn append<R: Files<File = File>>(rt: &R, alloc: Global, more: &[u8]) -> io::Result<()> {
    let Ok(mut journal) = open_journal(rt, alloc, SCRATCH, table(alloc)?) else {
        return Err(no_case());
    };
    let appended = journal.sink.append(more);
    drop(journal);
    match appended {
        Ok(()) => Ok(()),
        Err(_) => Err(no_case()),
    }
}

/// Adds whether the file existed when it was locked, and what opening it gives beside the locked file and beside the
/// journal restored from it.
fn show_locked<R: Files<File = File>>(rt: &R, alloc: Global, text: &mut Vec<u8>) -> io::Result<()> {
    let Ok(locked) = JournalFile::lock(rt, SCRATCH) else {
        return Err(no_case());
    };
    let found = if locked.found { "found" } else { "new" };
    write!(text, "{found}; ")?;
    show_opened(rt, alloc, text)?;
    text.extend_from_slice(b"; ")?;
    let Ok(journal) = locked.restore(alloc, table(alloc)?) else {
        return Err(no_case());
    };
    let shown = show_opened(rt, alloc, text);
    drop(journal);
    shown?;
    Ok(text.extend_from_slice(b"; ")?)
}
