//! Where others read how long a journal is on the disk, which file it is, and why it takes no more.
ghost use Rattle.std.specs.Prelude.{◌≡◌, ℕ, Option, None};
ghost use Rattle.std.specs.Option.{option_map};
ghost use Rattle.chpw_journal.specs.Synced.{longer_by};

use crate::file_number::FileNumber;
use crate::sink_cause::SinkCause;
use crate::synced_file::SyncedFile;
use std::alloc::{AllocError, Global};
use std::sync::Arc;
use std::sync::atomic::{AtomicU64, Ordering};

/// A length that others read.
pub(crate) trait EndMark {
    /// The length that it shows, if that is known.
    ghost shows: { Self → Option ℕ };

    /// Shows a length that is greater by this many bytes. All that the file contains has to be on the disk.
    fn grow<F: SyncedFile>(&mut self, file: &F, bytes: u64)
        requires synced { F.synced file.now ≡ F.contents file.now }
        ensures grown { shows self.new ≡ option_map (longer_by bytes) (shows self.old) };
}

/// What others read of a journal that is appended to.
#[derive(Drop)]
pub struct JournalMarks {
    length: Arc<AtomicU64>,
    // The number that stands for the cause of the first failed append; 0 if none failed.
    cause: Arc<AtomicU64>,
    device: Arc<AtomicU64>,
    number: Arc<AtomicU64>,
}

impl JournalMarks {
    /// Those of a journal of this length in this file, to which no append has failed.
    pub(crate) fn of(
        alloc: Global,
        length: u64,
        file: FileNumber,
    ) -> Result<JournalMarks, AllocError> {
        Ok(JournalMarks {
            length: Arc::new(alloc, AtomicU64::new(length))?,
            cause: Arc::new(alloc, AtomicU64::new(0))?,
            device: Arc::new(alloc, AtomicU64::new(file.device))?,
            number: Arc::new(alloc, AtomicU64::new(file.number))?,
        })
    }

    /// The same ones, for another reader.
    pub fn share(&self) -> Result<JournalMarks, AllocError> {
        Ok(JournalMarks {
            length: self.length.clone()?,
            cause: self.cause.clone()?,
            device: self.device.clone()?,
            number: self.number.clone()?,
        })
    }

    /// How long the journal is on the disk, in bytes.
    pub fn bytes(&self) -> u64 {
        self.length.load(Ordering::SeqCst)
    }

    /// Why an append failed, the first time, if one has.
    pub fn cause(&self) -> Option<SinkCause> {
        SinkCause::with_mark(self.cause.load(Ordering::SeqCst))
    }

    pub fn file(&self) -> FileNumber {
        FileNumber {
            device: self.device.load(Ordering::SeqCst),
            number: self.number.load(Ordering::SeqCst),
        }
    }

    // An append has failed; the first cause stays.
    fn fail(&self, cause: SinkCause) {
        if self.cause.load(Ordering::SeqCst) == 0 {
            self.cause.store(cause.mark(), Ordering::SeqCst);
        }
    }
}

/// Marks that others have, too. What a journal's sink can do to them is here, so that none of them is left to the sink.
#[derive(Drop)]
pub(crate) struct SharedEnd {
    marks: JournalMarks,
}

impl SharedEnd {
    /// The marks of a journal that are in others' hands, too.
    pub fn of(marks: JournalMarks) -> SharedEnd {
        SharedEnd { marks }
    }

    /// Shows another journal, in this file and of this length, all of it on the disk.
    pub fn begin_anew(&self, length: u64, file: FileNumber) {
        self.marks.length.store(length, Ordering::SeqCst);
        self.marks.device.store(file.device, Ordering::SeqCst);
        self.marks.number.store(file.number, Ordering::SeqCst);
    }

    /// Shows why an append failed.
    pub fn fail(&self, cause: SinkCause) {
        self.marks.fail(cause);
    }
}

impl EndMark for SharedEnd {
    // Nothing is known of a number that others have, too.
    ghost shows = { λ end. None };

    fn grow<F: SyncedFile>(&mut self, _file: &F, bytes: u64) {
        self.marks.length.fetch_add(bytes, Ordering::SeqCst);
    }
}
