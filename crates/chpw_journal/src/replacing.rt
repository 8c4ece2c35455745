//! Replacing a journal by another one.
ghost use Rattle.std.specs.Prelude.{◌≡◌, IfOk, OnOk, string_bytes};
ghost use Rattle.std.specs.Io.KnownBytes.{Appends};
ghost use Rattle.chpw_journal.specs.FileNames.{beside};

use crate::file_limit::room_for;
use crate::journal_file::is_name_kept;
use crate::synced_file::SyncedFile;
use std::alloc::{AllocError, Global};
use std::fs::{self, File, Files, OpenOptions};
use std::io::{self, ErrorKind};
use std::os::unix::fs::OpenOptionsExt;

/// The end of the name of the file that replaces the journal, after the journal's own name.
const BEHIND_NAME: &str = ".new";

/// A journal that has replaced another one, locked and positioned at its end.
#[derive(Drop)]
pub struct Replacement {
    pub file: File,
    /// Whether its name is synced. If it isn't, a loss of power may bring the former one back.
    pub is_kept: bool,
}

/// Removes what a replacement that was ended early left beside the journal at a path, if anything. If it can't be
/// removed no replacement can be made.
pub fn remove_unfinished<R: Files>(rt: &R, alloc: Global, path: &str) -> Result<(), AllocError> {
    let beside = beside(alloc, path)?;
    let _ = fs::remove_file(rt, beside.as_str());
    Ok(())
}

/// The name under which a replacement of the file at a path is made.
pub fn beside(alloc: Global, path: &str) -> Result<String, AllocError>
    ensures value { IfOk result (λ name. string_bytes name ≡ beside path.now) }
{
    let mut name = String::from_str(alloc, path)?;
    name.push_str(BEHIND_NAME)?;
    Ok(name)
}

/// Replaces the journal at a path by one with this text, by one rename: at each moment one of the two is there, whole
/// and on the disk. It is made beside the former one, under its name followed by `.new`, where nothing may be. After an
/// error the former one is still there.
pub fn replace_journal<R: Files<File = File>>(
    rt: &R,
    alloc: Global,
    path: &str,
    text: &[u8],
) -> io::Result<Replacement> {
    let beside = beside(alloc, path)?;
    let beside = beside.as_str();
    let file = write_new(rt, beside, text)?;
    if let Err(error) = fs::rename(rt, beside, path) {
        let _ = fs::remove_file(rt, beside);
        return Err(error);
    }
    let is_kept = is_name_kept(rt, path);
    Ok(Replacement { file, is_kept })
}

/// Makes a file with this text, locked, readable and writable by its owner alone, and syncs text and name. It is an
/// error if something is at the path; after another error nothing is left there.
pub fn write_new<R: Files<File = File>>(rt: &R, path: &str, text: &[u8]) -> io::Result<File> {
    let mut how = OpenOptions::new();
    how.read(true).append(true).create_new(true).mode(0o600);
    let mut file = how.open(rt, path)?;
    let is_locked = file.try_lock().is_ok();
    match put(&mut file, text) {
        Ok(()) if is_locked && is_name_kept(rt, path) => Ok(file),
        kept => {
            let _ = fs::remove_file(rt, path);
            Err(kept.err().unwrap_or(io::Error::from(ErrorKind::Other)))
        }
    }
}

// Writes the text and syncs it.
fn put<F: SyncedFile>(file: &mut F, text: &[u8]) -> io::Result<()>
    ensures written { OnOk result (Appends (F.contents file.old) (F.contents file.new) text.now) }
    ensures synced { OnOk result (Appends (F.contents file.old) (F.synced file.new) text.now) }
{
    if room_for(file, text.len()) < text.len() {
        return Err(io::Error::from(ErrorKind::FileTooLarge));
    }
    file.write_all(text)?;
    file.sync()
}
