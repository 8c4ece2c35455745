//! Cases of chpw_journal, a line each.
//!
//! A line is a journal, its pieces with commas between, after what is done with it: it is restored onto a table of alice and
//! bob/admin, who have a key of kvno 1 each; a line that begins with `sink` has changes and raises, decided over a journal in
//! memory, and one that begins with `disk` a file that takes bytes in this way. README.md lists the forms.

mod disk;
mod failing;
mod filed;
mod restoring;

use crate::journal::disk::show_appended;
use crate::journal::failing::{show_decided, show_each_failed};
use crate::journal::filed::show_filed;
use crate::journal::restoring::show_restored;
use crate::pieces::journal_of;
use std::alloc::Global;
use std::fs::{File, Files};
use std::io;
use support_cases::no_case;
use support_streams::Way;

/// Adds the answer to a case.
pub fn show_journal_case<R: Files<File = File>>(
    rt: &R,
    alloc: Global,
    text: &mut Vec<u8>,
    case: &str,
) -> io::Result<()> {
    let (what, pieces) = case.split_once(": ").unwrap_or((case, ""));
    let (kind, how) = what.split_once(' ').unwrap_or((what, ""));
    match kind {
        "read" => show_restored(alloc, text, Way::of(how), &journal_of(alloc, pieces)?),
        "open" | "twice" | "append" => show_filed(rt, alloc, text, kind, how, pieces),
        "sink" => show_decided(alloc, text, how, pieces),
        "appends" => show_each_failed(alloc, text, pieces),
        "disk" => show_appended(alloc, text, how, pieces),
        _ => Err(no_case()),
    }
}
