//! What others read of a service's journal: how long it is.
ghost use Rattle.std.specs.Prelude.{◌≡◌, IfErr};
ghost use Rattle.chpw_start.specs.Faults.{IsOfJournal};

use chpw_journal::{FileSink, JournalMarks};
use chpw_start::{ServeFault, unread_fault};
use chpw_table::JournalSink;
use std::alloc::{AllocError, Global};
use std::fs::File;

/// How long the journal is on the disk, with the rest of its marks.
#[derive(Drop)]
pub struct JournalLength {
    marks: JournalMarks,
}

/// The length of the journal at a path, which this sink appends to.
pub fn journal_length<'a>(
    alloc: Global,
    path: &'a str,
    sink: &mut FileSink<File>,
) -> Result<JournalLength, ServeFault<'a>>
    ensures failed { ⟦<FileSink<File> as JournalSink>⟧.failed sink.new ≡ ⟦<FileSink<File> as JournalSink>⟧.failed sink.old }
    ensures fault { IfErr result (IsOfJournal path.now) }
{
    match sink.show_end(alloc) {
        Ok(marks) => Ok(JournalLength { marks }),
        Err(error) => Err(unread_fault(path, error)),
    }
}

impl JournalLength {
    /// In bytes.
    pub fn bytes(&self) -> u64 {
        self.marks.bytes()
    }

    /// What else is read of the journal, for another reader.
    pub fn marks(&self) -> Result<JournalMarks, AllocError> {
        self.marks.share()
    }
}
