//! What both commands read and write.
ghost use Rattle.std.specs.Prelude.{◌≡◌, ◌≢◌, false, IfErr, IfOk, OnOk, string_bytes, Some};
ghost use Rattle.std.specs.Io.KnownBytes.{Appends};
ghost use Rattle.std.specs.IoError.{error_kind};
ghost use Rattle.toml.specs.Parse.{parse_document};
ghost use Rattle.toml.specs.Text.{IsDocumentText};
ghost use Rattle.chpw_config_text.specs.Stanzas.{stanzas_of};
ghost use Rattle.chpw_import.specs.Faults.{IsEarly, IsLate, IsOfRows, IsUnread};

use crate::fault::KeysFault;
use chpw_config_text::{WriteFault, write_stanzas};
use chpw_rules::{PrincipalRow, ServiceRow};
use std::alloc::Global;
use std::fs::{self, Files};
use std::io::{self, ErrorKind, Write};
use std::str;

/// The bytes of a file.
pub(crate) fn read_file<'a, R: Files + AllocGlobal>(
    rt: &R,
    path: &'a str,
) -> Result<Vec<u8>, KeysFault<'a>>
    ensures fault { IfErr result (IsUnread path.now) }
{
    match fs::read(rt, path) {
        Ok(bytes) => Ok(bytes),
        Err(error) => Err(unread_fault(path, &error)),
    }
}

// Why the file at this path can't be read.
fn unread_fault<'a>(path: &'a str, error: &io::Error) -> KeysFault<'a>
    ensures memory { error_kind error.now ≡ ErrorKind.OutOfMemory → result ≡ KeysFault.Memory }
    ensures file { error_kind error.now ≢ ErrorKind.OutOfMemory → result ≡ KeysFault.CannotRead path.entry }
    ensures fault { IsUnread path.now result }
{
    if error.kind() == ErrorKind::OutOfMemory {
        KeysFault::Memory
    } else {
        KeysFault::CannotRead(path)
    }
}

/// The stanzas of these rows.
pub(crate) fn stanzas<'a>(
    alloc: Global,
    service: &[ServiceRow],
    principals: &[PrincipalRow],
) -> Result<String, KeysFault<'a>>
    ensures text { IfOk result (λ text.
        IsDocumentText false (stanzas_of service.now principals.now) (string_bytes text)) }
    ensures reads { IfOk result (λ text.
        parse_document (string_bytes text) ≡ Some (stanzas_of service.now principals.now)) }
    ensures fault { IfErr result (IsOfRows principals.now) }
    ensures late { IfErr result IsLate }
{
    match write_stanzas(alloc, service, principals) {
        Ok(text) => Ok(text),
        Err(WriteFault::Memory) => Err(KeysFault::Memory),
        // A name that no file can express was skipped before.
        Err(WriteFault::Unwritable) => Err(KeysFault::CannotPrint),
    }
}

/// Writes a text.
pub(crate) fn write_text<'a, W: Write>(text: &[u8], writer: &mut W) -> Result<(), KeysFault<'a>>
    ensures written { OnOk result (Appends (W.contents writer.old) (W.contents writer.new) text.now) }
    ensures fault { IfErr result IsLate }
    ensures late { IfErr result (λ fault. ¬ (IsEarly fault)) }
{
    match writer.write_all(text) {
        Ok(()) => Ok(()),
        Err(_) => Err(KeysFault::CannotPrint),
    }
}

/// Standard error, as a writer of texts.
#[derive(Drop)]
pub(crate) struct ErrorWriter<'a, R> {
    pub rt: &'a R,
}

impl<R: Eprint> Write for ErrorWriter<'_, R> {
    fn write(&mut self, text: &[u8]) -> io::Result<usize> {
        let Ok(words) = str::from_utf8(text) else {
            return Err(io::Error::from(ErrorKind::InvalidData));
        };
        self.rt.eprint(words)?;
        Ok(text.len())
    }

    fn flush(&mut self) -> io::Result<()> {
        Ok(())
    }
}
