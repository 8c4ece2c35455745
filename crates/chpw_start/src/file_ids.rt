//! Where the files of a start are: none that is written may be another one.
ghost use Rattle.std.specs.Prelude.{◌≡◌, IfErr, OnOk, None};
ghost use Rattle.chpw_start.specs.Faults.{IsOfClash, IsUnmade};
ghost use Rattle.chpw_start.specs.Resuming.{IsAtResume};
ghost use Rattle.chpw_start.specs.FileIds.{are_one, are_one_name, clash_of};

use crate::fault::ServeFault;
use chpw_invocation::ServeOptions;
use chpw_journal::beside;
use std::fs::{self, Files};
use std::os::unix::fs::MetadataExt;

/// Where a file is.
#[derive(Clone, Copy, Drop)]
pub(crate) struct FileId<'a> {
    /// The device, and the number on it: the file's own, or that of its directory if it doesn't exist yet.
    pub device: u64,
    pub number: u64,
    /// Its name in its directory, if it doesn't exist yet.
    pub name: Option<&'a str>,
}

/// Where the files of a start are; none if there is no file, or none that can be found.
#[derive(Clone, Copy, Drop)]
pub(crate) struct FileIds<'a> {
    pub config: Option<FileId<'a>>,
    pub seed: Option<FileId<'a>>,
    pub journal: Option<FileId<'a>>,
    pub log: Option<FileId<'a>>,
}

/// A file that would be written to although it is another one of the start.
#[derive(Clone, Copy, Drop)]
pub(crate) enum Clash {
    /// The log is the configuration, the seed or the journal.
    Log,
    /// The journal is the configuration or the seed.
    Journal,
}

/// Refuses files that are to be written if they are other files of the start, by whatever names: first the log, then the
/// journal.
pub fn keep_apart<'a, R: Files>(rt: &R, options: &ServeOptions<'a>) -> Result<(), ServeFault<'a>>
    ensures fault { IfErr result (IsOfClash options.now) }
{
    let places = FileIds {
        config: place_of(rt, options.config),
        seed: place_of(rt, options.seed),
        journal: place_of(rt, options.journal),
        log: match options.log {
            Some(path) if path != "-" => place_of(rt, path),
            _ => None,
        },
    };
    clash_result(options, first_clash(&places))
}

/// Refuses a resume file that is one of these other files, by whatever name; or that would be one on its way to its name.
pub(crate) fn keep_from<'a, R: Files + AllocGlobal>(
    rt: &R,
    path: &'a str,
    others: &[&str],
) -> Result<(), ServeFault<'a>>
    ensures fault { IfErr result (IsAtResume path.now) }
    ensures unmade { IfErr result (IsUnmade path.now) }
{
    let Ok(beside) = beside(rt.alloc(), path) else {
        return Err(ServeFault::Memory);
    };
    for other in others {
        let place = place_of(rt, other);
        if is_one(place, place_of(rt, path)) || is_one(place, place_of(rt, beside.as_str())) {
            return Err(ServeFault::CannotWrite(path));
        }
    }
    Ok(())
}

// The first clash of these places: the log's before the journal's.
fn first_clash(places: &FileIds<'_>) -> Option<Clash>
    ensures first { result ≡ clash_of places.now }
{
    let FileIds {
        config,
        seed,
        journal,
        log,
    } = *places;
    if is_one(log, config) || is_one(log, seed) || is_one(log, journal) {
        Some(Clash::Log)
    } else if is_one(journal, config) || is_one(journal, seed) {
        Some(Clash::Journal)
    } else {
        None
    }
}

// Whether there are two, and they are one file.
pub(crate) fn is_one(one: Option<FileId<'_>>, other: Option<FileId<'_>>) -> bool
    ensures value { result ≡ are_one one.entry other.entry }
{
    match (one, other) {
        (Some(one), Some(other)) => {
            one.device == other.device
                && one.number == other.number
                && is_one_name(one.name, other.name)
        }
        _ => false,
    }
}

fn is_one_name(one: Option<&str>, other: Option<&str>) -> bool
    ensures value { result ≡ are_one_name one.entry other.entry }
{
    match (one, other) {
        (None, None) => true,
        (Some(one), Some(other)) => one == other,
        _ => false,
    }
}

// The fault for a clash.
fn clash_result<'a>(options: &ServeOptions<'a>, clash: Option<Clash>) -> Result<(), ServeFault<'a>>
    ensures none { OnOk result (clash ≡ None) }
    ensures fault { IfErr result (IsOfClash options.now) }
{
    match (clash, options.log) {
        (None, _) => Ok(()),
        (Some(Clash::Log), Some(path)) => Err(ServeFault::CannotWrite(path)),
        (Some(_), _) => Err(ServeFault::CannotWrite(options.journal)),
    }
}

/// Where the file at a path is.
pub(crate) fn place_of<'a, R: Files>(rt: &R, path: &'a str) -> Option<FileId<'a>> {
    if let Ok(metadata) = fs::metadata(rt, path) {
        return Some(FileId {
            device: metadata.dev(),
            number: metadata.ino(),
            name: None,
        });
    }
    let (folder, name) = folder_and_name(path);
    let metadata = fs::metadata(rt, folder).ok()?;
    Some(FileId {
        device: metadata.dev(),
        number: metadata.ino(),
        name: Some(name),
    })
}

/// The folder in which a path names a file.
pub(crate) fn folder_of(path: &str) -> &str {
    folder_and_name(path).0
}

fn folder_and_name(path: &str) -> (&str, &str) {
    match path.rsplit_once('/') {
        None => (".", path),
        Some(("", name)) => ("/", name),
        Some((folder, name)) => (folder, name),
    }
}
