//! What restoring a journal gives.

use crate::telling::show_table;
use chpw_journal::{Restored, restore_file};
use chpw_table::Table;
use std::alloc::Global;
use std::io::{self, Write};
use support_realm::name;
use support_streams::{Course, Giver, Way};

/// A table of alice and bob/admin, before any change.
pub fn table(alloc: Global) -> io::Result<Table> {
    let names = vec![in alloc; name(alloc, "alice")?, name(alloc, "bob/admin")?]?;
    support_realm::table(alloc, names, 4096, 100)
}

/// Adds records, bytes and tail of a journal that is read in this way, through a buffer as a file is, and what its table
/// then has; or its fault.
pub fn show_restored(
    alloc: Global,
    text: &mut Vec<u8>,
    way: Way,
    journal: &[u8],
) -> io::Result<()> {
    let giver = Giver {
        left: journal,
        course: Course::start(way),
    };
    match restore_file(alloc, table(alloc)?, giver) {
        Ok((restored, _)) => show_told(text, &restored),
        Err(fault) => write!(text, "{fault}"),
    }
}

fn show_told(text: &mut Vec<u8>, restored: &Restored) -> io::Result<()> {
    let tail = if restored.torn { "torn" } else { "whole" };
    let (records, kept) = (restored.records, restored.kept);
    write!(text, "records {records} kept {kept} {tail},")?;
    Ok(show_table(text, &restored.table)?)
}
