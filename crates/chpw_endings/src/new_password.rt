//! The new password that `client` sends: a text of the command line, or the one line of a file or of
//! standard input.
ghost use Rattle.std.specs.Prelude.{◌≡◌, ◌≢◌, ◌==◌, ℕ, List, IfErr, IfOk, IfSome};
ghost use Rattle.std.specs.IoError.{error_kind};
ghost use Rattle.chpw_endings.specs.Asking.{IsUnasked};
ghost use Rattle.chpw_endings.specs.NewPasswords.{IsNoLine, IsNoPassword, IsNoSource, IsOnlyLine, IsPassword, IsUnread};
ghost use Rattle.chpw_endings.specs.NewPasswords.{IsWithoutEnd, IsWithoutLast};

use crate::ending::Ending;
use chpw_commands::DrillFault;
use chpw_invocation::PasswordSource;
use std::alloc::Global;
use std::fs::{self, Files};
use std::io::{self, ErrorKind, Read};

/// What standard input is called in a line.
pub(crate) const STANDARD_INPUT: &str = "standard input";

/// The password of the options.
pub(crate) fn password_of<'a, R: Files + Input + AllocGlobal>(
    rt: &R,
    source: PasswordSource<'a>,
) -> Result<Vec<u8>, Ending<'a>>
    ensures value { IfOk result (λ password. IsPassword source.entry password.items) }
    ensures fault { IfErr result (IsNoPassword source.entry) }
    ensures early { IfErr result IsUnasked }
{
    match source {
        PasswordSource::Text(text) => copy_of(rt.alloc(), text.as_bytes()),
        PasswordSource::File(file) => match fs::read(rt, file) {
            Ok(bytes) => only_line(rt.alloc(), file, bytes.as_slice()),
            Err(error) => Err(unread_ending(file, &error)),
        },
        PasswordSource::StandardInput => line_from(rt.alloc(), &mut rt.reader()),
    }
}

// The line of a reader, which is standard input.
fn line_from<'a, A: Read>(alloc: Global, reader: &mut A) -> Result<Vec<u8>, Ending<'a>>
    ensures line { IfOk result (λ line. (bytes : List ℕ) × IsOnlyLine bytes line.items
        × IfSome (A.remaining reader.old) (λ known. known ≡ bytes)) }
    ensures fault { IfErr result (IsNoSource STANDARD_INPUT.now) }
    ensures early { IfErr result IsUnasked }
{
    let mut bytes = Vec::new(alloc);
    match reader.read_to_end(&mut bytes) {
        Ok(_) => only_line(alloc, STANDARD_INPUT, bytes.as_slice()),
        Err(error) => Err(unread_ending(STANDARD_INPUT, &error)),
    }
}

/// The source with this name can't be read.
pub(crate) fn unread_ending<'a>(name: &'a str, error: &io::Error) -> Ending<'a>
    ensures early { IsUnasked result }
    ensures unread { IsUnread name.now result }
    ensures memory { error_kind error.now ≡ ErrorKind.OutOfMemory → result ≡ Ending.Early DrillFault.Memory }
    ensures file { error_kind error.now ≢ ErrorKind.OutOfMemory → result ≡ Ending.Unread name.entry }
{
    if error.kind() == ErrorKind::OutOfMemory {
        Ending::Early(DrillFault::Memory)
    } else {
        Ending::Unread(name)
    }
}

// The only line of these bytes, which come from the source with this name.
fn only_line<'a>(alloc: Global, name: &'a str, bytes: &[u8]) -> Result<Vec<u8>, Ending<'a>>
    ensures line { IfOk result (λ line. IsOnlyLine bytes.now line.items) }
    ensures early { IfErr result IsUnasked }
    ensures fault { IfErr result (IsNoLine name.now bytes.now) }
{
    let line = without_end(bytes);
    if line.is_empty() {
        return Err(Ending::EmptyPassword(name));
    }
    if line.contains(&b'\n') {
        return Err(Ending::ManyLines(name));
    }
    copy_of(alloc, line)
}

fn copy_of<'a>(alloc: Global, bytes: &[u8]) -> Result<Vec<u8>, Ending<'a>>
    ensures value { IfOk result (λ copy. copy.items ≡ bytes.now) }
    ensures early { IfErr result IsUnasked }
    ensures fault { IfErr result (λ fault. fault ≡ Ending.Early DrillFault.Memory) }
{
    match Vec::from_slice(alloc, bytes) {
        Ok(copy) => Ok(copy),
        Err(_) => Err(Ending::Early(DrillFault::Memory)),
    }
}

// The bytes without a line ending at their end.
fn without_end(bytes: &[u8]) -> &[u8]
    ensures value { IsWithoutEnd bytes.now result.now }
{
    match bytes {
        [front @ .., b'\n'] => without_return(front),
        _ => bytes,
    }
}

fn without_return(bytes: &[u8]) -> &[u8]
    ensures value { IsWithoutLast 13 bytes.now result.now }
{
    match bytes {
        [front @ .., b'\r'] => front,
        _ => bytes,
    }
}
