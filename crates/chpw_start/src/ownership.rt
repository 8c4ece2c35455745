//! Who else may read, write or replace a file.
ghost use Rattle.std.specs.Prelude.{◌≡◌};
ghost use Rattle.chpw_start.specs.Modes.{exposure_of, is_exempt, is_foreign, is_open, is_shared, lets_others};

use crate::file_ids::folder_of;
use crate::line_output::{Kind, kind_in};
use std::fmt;
use std::fs::{self, Files, Metadata};
use std::os::unix::fs::MetadataExt;

/// The bits of a mode by which group and others write.
const WRITE: u32 = 0o022;

/// The bit by which the group reads.
const GROUP_READ: u32 = 0o040;

/// The bit by which others read.
const OTHERS_READ: u32 = 0o004;

/// The number of the user root.
const ROOT: u32 = 0;

/// The numbers of a user and of a group.
#[derive(Clone, Copy, Drop)]
pub struct Ids {
    pub user: u32,
    pub group: u32,
}

/// What the system reports of a file or a folder.
#[derive(Clone, Copy, Drop)]
pub struct Standing {
    pub kind: Kind,
    pub owner: Ids,
    pub mode: u32,
}

/// What is at a path: nothing where there is nothing, or nothing that can be examined.
#[derive(Clone, Copy, Drop)]
pub(crate) struct Place {
    /// The file that it leads to.
    pub file: Option<Standing>,
    /// The folder with its name.
    pub folder: Option<Standing>,
    /// If it is a symbolic link, the folder of the file that it leads to.
    pub target_folder: Option<Standing>,
}

/// What other users than root and the service's own can do, in the order of the checks; displayed in words.
#[derive(Clone, Copy, Drop)]
pub enum Exposure {
    /// Write the file, or read it without being in the service's own group.
    Shared,
    /// Change its mode: another user owns it.
    Foreign,
    /// Replace it: another user owns the folder of its name, or may write to it.
    Replaceable,
}

impl fmt::Display for Exposure {
    ghost use Rattle.std.specs.Prelude.{Some};
    ghost use Rattle.chpw_start.specs.Modes.{words_of};

    ghost output = { λ why. Some (words_of why) };

    fn fmt<W: fmt::Write>(&self, f: &mut fmt::Formatter<W>) -> fmt::Result {
        match self {
            Exposure::Shared => f.write_str("other users may read or write it"),
            Exposure::Foreign => f.write_str("another user owns it"),
            Exposure::Replaceable => f.write_str("other users may replace it"),
        }
    }
}

/// What others can do to the file at a path, if the service runs under these numbers. A device, such as one of random
/// bytes, is never reported.
pub(crate) fn exposure_of(own: Ids, place: &Place) -> Option<Exposure>
    ensures value { result ≡ exposure_of own place.now }
{
    let Place {
        file,
        folder,
        target_folder,
    } = *place;
    if is_exempt(file) {
        None
    } else if is_shared(own, file) {
        Some(Exposure::Shared)
    } else if is_foreign(own, file) {
        Some(Exposure::Foreign)
    } else if is_open(own, folder) || is_open(own, target_folder) {
        Some(Exposure::Replaceable)
    } else {
        None
    }
}

// Whether it is no regular file.
fn is_exempt(file: Option<Standing>) -> bool
    ensures value { result ≡ is_exempt file }
{
    match file {
        Some(file) => !matches!(file.kind, Kind::File),
        None => false,
    }
}

/// Whether others than its owner may write the regular file, or read it without being in the service's own group.
pub fn is_shared(own: Ids, file: Option<Standing>) -> bool
    ensures value { result ≡ is_shared own file }
{
    match file {
        Some(file) => matches!(file.kind, Kind::File) && lets_others(own, file),
        None => false,
    }
}

// Whether its mode lets others write it, or read it without being in the service's own group.
fn lets_others(own: Ids, file: Standing) -> bool
    ensures value { result ≡ lets_others own file }
{
    file.mode & WRITE != 0
        || file.mode & OTHERS_READ != 0
        || (file.mode & GROUP_READ != 0 && file.owner.group != own.group)
}

// Whether another user than root and the service's own owns it.
fn is_foreign(own: Ids, file: Option<Standing>) -> bool
    ensures value { result ≡ is_foreign own file }
{
    match file {
        Some(file) => file.owner.user != ROOT && file.owner.user != own.user,
        None => false,
    }
}

// Whether other users may change which files are in a folder. A sticky one is no exception, since whoever may write to it
// chooses what a new name leads to.
fn is_open(own: Ids, folder: Option<Standing>) -> bool
    ensures value { result ≡ is_open own folder }
{
    match folder {
        Some(found) => is_foreign(own, folder) || found.mode & WRITE != 0,
        None => false,
    }
}

/// The numbers under which the service runs: they decide what it may do.
pub fn own_ids() -> Ids {
    Ids {
        user: libc::geteuid(),
        group: libc::getegid(),
    }
}

/// What is at a path.
pub(crate) fn place_at<R: Files + AllocGlobal>(rt: &R, path: &str) -> Place {
    Place {
        file: standing_at(rt, path),
        folder: standing_at(rt, folder_of(path)),
        target_folder: target_folder(rt, path),
    }
}

/// What the file at a path is, and whose.
pub fn standing_at<R: Files>(rt: &R, path: &str) -> Option<Standing> {
    match fs::metadata(rt, path) {
        Ok(metadata) => Some(standing_in(&metadata)),
        Err(_) => None,
    }
}

fn standing_in(metadata: &Metadata) -> Standing {
    Standing {
        kind: kind_in(metadata),
        owner: Ids {
            user: metadata.uid(),
            group: metadata.gid(),
        },
        mode: metadata.mode(),
    }
}

// The folder of the file that a symbolic link leads to.
fn target_folder<R: Files + AllocGlobal>(rt: &R, path: &str) -> Option<Standing> {
    let metadata = fs::symlink_metadata(rt, path).ok()?;
    if !metadata.file_type().is_symlink() {
        return None;
    }
    let target = fs::canonicalize(rt, path).ok()?;
    standing_at(rt, folder_of(target.as_str()))
}
