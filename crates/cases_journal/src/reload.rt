//! Cases of chpw_reload, a line each.
//!
//! A line is a configuration, a new one, and a journal, with ` | ` between, and after ` at ` how many of the journal's
//! bytes are present while the old desk still serves. README.md lists the forms.

mod configuration;

use crate::pieces::{journal_of, number};
use crate::reload::configuration::config_of;
use crate::telling::show_table;
use chpw_journal::restore_file;
use chpw_printing::put_name;
use chpw_reload::{NextTable, PreparedReload, ReloadFault, finish, prepare, put_fault};
use chpw_table::Table;
use std::alloc::Global;
use std::io;
use support_cases::no_case;

/// The quiet second of the table with which a desk was closed.
const QUIET_UNTIL: i64 = 300;

/// Adds the principals of the next table with their versions, its count and its quiet second, and the names that the
/// new configuration lacks; or why the reload is refused, and the principals of the closed table.
pub fn show_reload(alloc: Global, text: &mut Vec<u8>, case: &str) -> io::Result<()> {
    let (files, end) = case.rsplit_once(" at ").unwrap_or((case, "0"));
    let Some((files, pieces)) = files.rsplit_once(" | ") else {
        return Err(no_case());
    };
    let Some((old, new)) = files.split_once(" | ") else {
        return Err(no_case());
    };
    let journal = journal_of(alloc, pieces)?;
    let prepared = prepared(alloc, new, &journal, number(end)? as usize)?;
    let closed = closed_table(alloc, old, &journal)?;
    match prepared {
        Ok(renewal) => show_finished(alloc, text, renewal, &journal, closed),
        Err(fault) => show_refused(text, &fault, &closed),
    }
}

/// The renewal by a new configuration and the front of the journal.
fn prepared(
    alloc: Global,
    new: &str,
    journal: &[u8],
    end: usize,
) -> io::Result<Result<PreparedReload, ReloadFault>> {
    let Some(front) = journal.get(..end) else {
        return Err(no_case());
    };
    Ok(prepare(alloc, config_of(alloc, new)?, front))
}

fn show_finished(
    alloc: Global,
    text: &mut Vec<u8>,
    renewal: PreparedReload,
    journal: &[u8],
    closed: Table,
) -> io::Result<()> {
    let rest = journal.get(renewal.kept as usize..).unwrap_or(&[]);
    match finish(alloc, renewal, rest, closed) {
        Ok(next) => show_next(text, &next),
        Err(refused) => show_refused(text, &refused.fault, &refused.closed),
    }
}

/// The table with which a desk was closed: that of a configuration with a journal.
fn closed_table(alloc: Global, words: &str, journal: &[u8]) -> io::Result<Table> {
    let table = Table::start(alloc, config_of(alloc, words)?, QUIET_UNTIL)?;
    match restore_file(alloc, table, journal) {
        Ok((restored, _)) => Ok(restored.table),
        Err(_) => Err(no_case()),
    }
}

fn show_refused(text: &mut Vec<u8>, fault: &ReloadFault, closed: &Table) -> io::Result<()> {
    put_fault(text, fault)?;
    text.extend_from_slice(b"; stays:")?;
    show_held(text, closed)
}

fn show_next(text: &mut Vec<u8>, next: &NextTable) -> io::Result<()> {
    text.extend_from_slice(b"goes on:")?;
    show_held(text, &next.table)?;
    for name in next.lacked.as_slice() {
        text.extend_from_slice(b", lacked ")?;
        put_name(text, name)?;
    }
    Ok(())
}

/// Adds a table's principals with the versions of their keys, its count and whether it has the closed one's quiet second.
fn show_held(text: &mut Vec<u8>, table: &Table) -> io::Result<()> {
    show_table(text, table)?;
    if table.quiet_until() == QUIET_UNTIL {
        text.extend_from_slice(b" quiet")?;
    }
    Ok(())
}
