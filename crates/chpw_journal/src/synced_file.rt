//! Files that say what of them is on the disk.
ghost use Rattle.std.specs.Prelude.{◌≡◌, ℕ, List, Option, None, OnOk};

use std::fs::{File, OpenFile};
use std::io::{self, Write};

/// A file that can be synced.
pub trait SyncedFile: Write + OpenFile {
    /// The bytes that were in the file when the system last reported a sync, if they are known.
    ghost synced: { Self → Option (List ℕ) };

    /// Has the system put the file on the disk. The file contains the same afterwards, whatever the answer.
    fn sync(&mut self) -> io::Result<()>
        ensures contents { Self.contents self.new ≡ Self.contents self.old }
        ensures synced { OnOk result (synced self.new ≡ Self.contents self.new) };
}

impl SyncedFile for File {
    // Nothing is known of what the system has on the disk, nor of what the file contains.
    ghost synced = { λ file. None };

    fn sync(&mut self) -> io::Result<()> {
        self.sync_all()
    }
}
