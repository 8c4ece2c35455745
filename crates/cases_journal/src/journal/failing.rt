//! Changes and raises over a journal in memory that fails, and what is restored from what it holds.

use crate::journal::restoring::{show_restored, table};
use crate::pieces::number;
use crate::telling::show_table;
use chpw_journal::MemorySink;
use chpw_rules::ITERATION_COUNTS;
use chpw_table::{Digest, JournalSink, Opened, Table};
use krb_keys::Key;
use std::alloc::Global;
use std::io::{self, Write};
use support_cases::{Census, no_case, text_of};
use support_realm::{NOW, name};
use support_streams::Way;

/// The length of a record of alice.
const RECORD: usize = 66;

/// Adds the answers to changes, `NAME PASSWORD, ..`, among which `raise COUNT` may stand, and what is restored after them.
/// `N M K`: the journal has room for N bytes, and its append M fails and keeps K of its bytes; none if M is 0.
pub fn show_decided(
    alloc: Global,
    text: &mut Vec<u8>,
    sink: &str,
    changes: &str,
) -> io::Result<()> {
    let (size, choice) = sink.split_once(' ').unwrap_or((sink, ""));
    let (nth, kept) = choice.split_once(' ').unwrap_or((choice, ""));
    let mut sink = MemorySink::new(alloc, number(size)? as usize)?;
    sink.fail_at(number(nth)?, number(kept)? as usize);
    show_over(alloc, text, &mut sink, changes)
}

/// Adds the answers to changes of alice, where an append fails before each byte of their journal in turn.
pub fn show_each_failed(alloc: Global, text: &mut Vec<u8>, changes: &str) -> io::Result<()> {
    let mut census = Census::new(alloc);
    let size = changes.split(", ").count().saturating_mul(RECORD);
    for place in 0..size {
        let before = u32::try_from(place / RECORD).unwrap_or(0);
        let mut sink = MemorySink::new(alloc, size)?;
        sink.fail_at(before.saturating_add(1), place % RECORD);
        let mut told = Vec::new(alloc);
        show_over(alloc, &mut told, &mut sink, changes)?;
        census.add(alloc, place, text_of(&told))?;
    }
    Ok(text.extend_from_slice(census.text(alloc)?.as_bytes())?)
}

/// Adds the answers of a table before any change, over this journal, and what is restored from the journal then.
fn show_over(
    alloc: Global,
    text: &mut Vec<u8>,
    sink: &mut MemorySink,
    changes: &str,
) -> io::Result<()> {
    let mut table = table(alloc)?;
    let shown = show_answers(alloc, text, &mut table, sink, changes);
    drop(table);
    shown?;
    show_restored(alloc, text, Way::of(""), sink.bytes())
}

/// Adds the answer to each change and raise, how many appends failed, and what the table then has.
fn show_answers(
    alloc: Global,
    text: &mut Vec<u8>,
    table: &mut Table,
    sink: &mut MemorySink,
    changes: &str,
) -> io::Result<()> {
    let mut cusec = 0_u32;
    for change in changes.split(", ") {
        cusec = cusec.saturating_add(1);
        match change.strip_prefix("raise ") {
            Some(count) => show_raise(text, table, sink, number(count)?)?,
            None => show_change(text, table, sink, request(alloc, change, cusec)?)?,
        }
    }
    write!(text, "failures {},", sink.failures())?;
    show_table(text, table)?;
    Ok(text.extend_from_slice(b"; ")?)
}

/// A principal's request for a password of its own: the password of this number has keys of that byte throughout, and
/// 161 is that of the keys held at the start.
fn request(alloc: Global, change: &str, cusec: u32) -> io::Result<Opened> {
    let (client, password) = change.split_once(' ').unwrap_or((change, ""));
    let byte = (number(password)? % 256) as u8;
    let keys = vec![in alloc; (4096, Key::Aes128([byte; 16]), Key::Aes256([byte; 32]))]?;
    let Some(digest) = Digest::of(9, 4, keys) else {
        return Err(no_case());
    };
    Ok(support_realm::change(alloc, name(alloc, client)?, cusec, digest)?)
}

fn show_change(
    text: &mut Vec<u8>,
    table: &mut Table,
    sink: &mut MemorySink,
    opened: Opened,
) -> io::Result<()> {
    if sink.failures() == u64::MAX {
        return Err(no_case());
    }
    let Ok(outcome) = table.decide(NOW, opened, sink) else {
        return Err(no_case());
    };
    let verdict = outcome.verdict;
    show_answer(text, verdict.code(), verdict.text(), outcome.io_failed)
}

fn show_raise(
    text: &mut Vec<u8>,
    table: &mut Table,
    sink: &mut MemorySink,
    count: u32,
) -> io::Result<()> {
    if sink.failures() == u64::MAX || !ITERATION_COUNTS.allow(count as usize) {
        return Err(no_case());
    }
    let Ok(raise) = table.raise(NOW, count, sink) else {
        return Err(no_case());
    };
    let verdict = raise.verdict;
    show_answer(text, verdict.code(), verdict.text(), raise.io_failed)
}

/// Adds code and text, and whether an append failed.
fn show_answer(text: &mut Vec<u8>, code: u16, said: &str, io_failed: bool) -> io::Result<()> {
    let append = if io_failed { " (an append failed)" } else { "" };
    write!(text, "{code} {said}{append}; ")
}
