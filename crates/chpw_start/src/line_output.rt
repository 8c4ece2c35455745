//! What the lines of a log are appended to.
ghost use Rattle.std.specs.Prelude.{◌≡◌, ◌⊎◌, codes, is_some, not, true, false, None, IfSome, IsSomeAnd};
ghost use Rattle.std.specs.Str.{bytes_eq};
ghost use Rattle.std.specs.Io.KnownBytes.{Appends};
ghost use Rattle.chpw_start.specs.Sheets.{ended, is_begun, is_taken, is_told_at_once};

use crate::readiness::Readiness;
use chpw_journal::{FileNumber, room_for};
use std::alloc::Global;
use std::fs::{self, File, Files, Metadata, OpenOptions};
use std::io::{self, ErrorKind, Write};
use std::net::Net;
use std::os::fd::AsRawFd;
use std::os::unix::fs::{FileExt, FileTypeExt, OpenOptionsExt};
use std::str;

/// The name of standard error, which is no path.
const STANDARD_ERROR: &str = "-";

/// Its descriptor.
const STANDARD_ERROR_FD: i32 = 2;

/// The kind of file at a path.
#[derive(Clone, Copy, Drop)]
pub enum Kind {
    /// None, or none that can be examined.
    Missing,
    /// A regular file.
    File,
    /// A character device.
    Device,
    /// A directory, a pipe, a socket or a disk.
    Other,
}

/// An output for lines.
#[derive(Drop)]
pub(crate) enum Output {
    File(File),
    StandardError,
}

/// An output, and whether its last line is incomplete.
#[derive(Drop)]
pub struct LineOutput {
    output: Output,
    torn: bool,
    /// Whether it takes a line without blocking, if that can be asked.
    readiness: Option<Readiness>,
}

/// Whether this is the name of standard error.
pub fn is_standard_error(path: &str) -> bool
    ensures value { result ≡ bytes_eq path.now (codes "-") }
{
    path == STANDARD_ERROR
}

impl LineOutput {
    /// The file at a path, or standard error for `-`. A missing file is made, readable and writable by its owner alone.
    /// A pipe would block its openers, and is refused before it is opened.
    pub fn at<R: Files<File = File> + Net>(
        rt: &R,
        alloc: Global,
        path: &str,
    ) -> io::Result<LineOutput> {
        if is_standard_error(path) {
            return Ok(LineOutput {
                output: Output::StandardError,
                torn: false,
                readiness: Readiness::of(rt, alloc, STANDARD_ERROR_FD)?,
            });
        }
        if !takes_lines(kind_of(rt, path)) {
            return Err(io::Error::from(ErrorKind::InvalidInput));
        }
        let mut how = OpenOptions::new();
        how.append(true).create(true).mode(0o600);
        let file = how.open(rt, path)?;
        let torn = is_torn(rt, path, &file);
        let readiness = Readiness::of(rt, alloc, file.as_raw_fd())?;
        Ok(LineOutput {
            output: Output::File(file),
            torn,
            readiness,
        })
    }

    /// Appends a line, after a newline if the last one is incomplete; whether it is written whole. Nothing is written
    /// if the output takes no line within half a second, or took none for the line before; or if the file would be
    /// longer than the process may make it.
    pub fn append<R: Eprint>(&mut self, rt: &R, line: &[u8]) -> bool
        ensures whole { result ≡ true → self.new.torn ≡ false }
        ensures part { result ≡ false → (self.new.torn ≡ true)
            ⊎ ((self.new.torn ≡ self.old.torn) × IsSomeAnd self.new.readiness (λ r. r.is_stalled ≡ true)) }
        ensures waited { result ≡ true → IfSome self.new.readiness (λ r. r.is_stalled ≡ false) }
    {
        if !self.is_ready() {
            return false;
        }
        let whole = match &mut self.output {
            // A newline may come before it.
            Output::File(file) if room_for(file, line.len() + 1) <= line.len() => false,
            Output::File(file) => write_line(file, self.torn, line),
            Output::StandardError => print_line(rt, self.torn, line),
        };
        self.torn = !whole;
        whole
    }

    fn is_ready(&mut self) -> bool
        ensures value { IfSome self.new.readiness (λ r. r.is_stalled ≡ not result) }
        ensures none { self.old.readiness ≡ None → result ≡ true }
        ensures same { (self.new.torn ≡ self.old.torn) × (self.new.output ≡ self.old.output) }
        ensures kept { is_some self.new.readiness ≡ is_some self.old.readiness }
    {
        match &mut self.readiness {
            None => true,
            Some(readiness) => readiness.is_ready(),
        }
    }

    /// Which file it is, if it is one.
    pub fn number(&self) -> Option<FileNumber> {
        match &self.output {
            Output::File(file) => Some(FileNumber::of(&file.metadata().ok()?)),
            Output::StandardError => None,
        }
    }

    /// Whether a line on standard error can be written without waiting, as far as the output shows.
    pub fn can_tell(&self) -> bool
        ensures value { result ≡ is_told_at_once self.now.output self.now.readiness }
    {
        match (&self.output, &self.readiness) {
            (Output::StandardError, Some(readiness)) => !readiness.is_stalled(),
            _ => true,
        }
    }
}

/// The kind of file at a path.
pub(crate) fn kind_of<R: Files>(rt: &R, path: &str) -> Kind {
    match fs::metadata(rt, path) {
        Ok(metadata) => kind_in(&metadata),
        Err(_) => Kind::Missing,
    }
}

/// The kind of file of which the system reports this.
pub(crate) fn kind_in(metadata: &Metadata) -> Kind {
    let kind = metadata.file_type();
    if kind.is_file() {
        Kind::File
    } else if kind.is_char_device() {
        Kind::Device
    } else {
        Kind::Other
    }
}

// Whether a log can be there.
fn takes_lines(kind: Kind) -> bool
    ensures value { result ≡ is_taken kind }
{
    match kind {
        Kind::Missing | Kind::File | Kind::Device => true,
        Kind::Other => false,
    }
}

// Whether the last line of an open file is incomplete. If its last byte can't be read, it may not be.
fn is_torn<R: Files<File = File>>(rt: &R, path: &str, file: &File) -> bool {
    let length = match file.metadata() {
        Ok(metadata) => metadata.len(),
        Err(_) => 0,
    };
    begins_torn(length, last_byte(rt, path, length))
}

// Whether a file of this many bytes, of which this is the last, ends within a line.
fn begins_torn(length: u64, last: Option<u8>) -> bool
    ensures value { result ≡ is_begun length last }
{
    length != 0 && last != Some(b'\n')
}

// The last byte of a file of this length.
fn last_byte<R: Files<File = File>>(rt: &R, path: &str, length: u64) -> Option<u8> {
    let place = length.checked_sub(1)?;
    let file = File::open(rt, path).ok()?;
    let mut last = [0];
    match file.read_at(&mut last, place) {
        Ok(1) => Some(last[0]),
        _ => None,
    }
}

// Writes a line, after a newline if one is needed; whether it is written whole.
fn write_line<W: Write>(writer: &mut W, torn: bool, line: &[u8]) -> bool
    ensures whole { result ≡ true
        → Appends (W.contents writer.old) (W.contents writer.new) (ended torn line.now) }
{
    if torn && writer.write_all(b"\n").is_err() {
        return false;
    }
    writer.write_all(line).is_ok()
}

// Writes a line on standard error, after a newline if one is needed; whether it is written whole.
fn print_line<R: Eprint>(rt: &R, torn: bool, line: &[u8]) -> bool {
    if torn && rt.eprint("\n").is_err() {
        return false;
    }
    rt.eprint(str::from_utf8(line).unwrap_or("\n")).is_ok()
}
