//! A journal's sink over a file, whose disk may fail.

ghost use Rattle.std.specs.Prelude.{Some, take};

use chpw_journal::{FileSink, SyncedFile};
use chpw_table::JournalSink;
use std::alloc::Global;
use std::fs::{Metadata, OpenFile};
use std::io::{self, Error, ErrorKind, Write};
use support_streams::{Course, Taker, Way};

/// The length of a record.
const RECORD: usize = 66;

/// Adds the result of appending a record to a file that takes bytes in this way, and is then synced (`synced`), can't be
/// for this fault of the system's (`error N`) or needn't be yet (`unsynced`), or of a second one after that, which is
/// synced (`unsynced, synced`); how many bytes are on the disk; and why the first append failed that did.
pub fn show_appended(alloc: Global, text: &mut Vec<u8>, way: &str, end: &str) -> io::Result<()> {
    let mut sink = FileSink::new(Disk {
        taker: Taker {
            taken: Vec::new(alloc),
            course: Course::start(Way::of(way)),
        },
        fault: end.strip_prefix("error ").unwrap_or("").parse().ok(),
        kept: 0,
    });
    let mut appended = if end.starts_with("unsynced") {
        sink.append_unsynced(&[7; RECORD])
    } else {
        sink.append(&[7; RECORD])
    };
    if end == "unsynced, synced" && sink.failures() == 0 {
        appended = sink.append(&[7; RECORD]);
    }
    let told = if appended.is_ok() {
        "appended"
    } else {
        "failed"
    };
    let (failures, kept, cause) = (sink.failures(), sink.file().kept, sink.cause());
    drop(sink);
    write!(text, "{told}, failures {failures}, on the disk {kept}")?;
    match cause {
        Some(cause) => write!(text, ", since {cause}"),
        None => Ok(()),
    }
}

/// A file that can be synced, unless the system has a fault.
#[derive(Drop)]
struct Disk {
    taker: Taker,
    fault: Option<i32>,
    /// How many bytes it had when it was last synced.
    kept: usize,
}

impl Write for Disk {
    ghost contents = { λ disk. Some disk.taker.taken.items };

    fn write(&mut self, bytes: &[u8]) -> io::Result<usize> {
        self.taker.write(bytes)
    }

    fn flush(&mut self) -> io::Result<()> {
        Ok(())
    }
}

impl OpenFile for Disk {
    fn metadata(&self) -> io::Result<Metadata> {
        Err(Error::from(ErrorKind::Unsupported))
    }

    fn set_len(&self, _size: u64) -> io::Result<()> {
        Err(Error::from(ErrorKind::Unsupported))
    }

    fn sync_all(&self) -> io::Result<()> {
        match self.fault {
            Some(code) => Err(Error::from_raw_os_error(code)),
            None => Ok(()),
        }
    }

    fn sync_data(&self) -> io::Result<()> {
        self.sync_all()
    }
}

impl SyncedFile for Disk {
    ghost synced = { λ disk. Some (take disk.kept disk.taker.taken.items) };

    fn sync(&mut self) -> io::Result<()> {
        self.sync_all()?;
        self.kept = self.taker.taken.len();
        Ok(())
    }
}
