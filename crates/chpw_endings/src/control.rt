//! `control`: a command for a running service, and its answer.
ghost use Rattle.std.specs.Prelude.{◌≡◌, ◌≢◌, ◌⊎◌, ◌==◌, true, IfErr, IfOk, IfSome, OnOk, string_bytes};
ghost use Rattle.std.specs.Io.KnownBytes.{Appends};
ghost use Rattle.std.specs.IoError.{error_kind};
ghost use Rattle.chpw_endings.specs.Controlling as controlling;
ghost use Rattle.chpw_endings.specs.Controlling.{IsAnswered, IsUnprinted, ending_by, line_of};
ghost use Rattle.chpw_printing.specs.Lines.{lines_text};

use crate::ending::Ending;
use crate::patience::{Patience, Timed, ending_of};
use chpw_commands::DrillFault;
use chpw_control::{Command, ended_ok};
use chpw_invocation::ControlOptions;
use chpw_printing::put_lines;
use std::alloc::{AllocError, Global};
use std::io::{self, ErrorKind, Read, Write};
use std::net::Net;
use std::os::unix::net::UnixStream;
use std::time::Clock;

/// Sends the command to the service that listens at the socket, prints its answer, and ends accordingly. After 30 seconds
/// it gives up, and the service goes on.
pub fn send_command<'a, R: Net + Clock + Print + AllocGlobal>(
    rt: &R,
    options: ControlOptions<'a>,
) -> Ending<'a>
    ensures broken { controlling.is_broken options.entry.command ≡ true → result ≡ Ending.BadArgument }
{
    if is_broken(&options.command) {
        return Ending::BadArgument;
    }
    let patience = Patience::start(rt);
    match UnixStream::connect(rt, options.socket) {
        Ok(stream) => {
            let mut service = Timed {
                rt,
                connection: &stream,
                patience,
            };
            let mut replies = Timed {
                rt,
                connection: &stream,
                patience,
            };
            let ending = tell_service(
                rt.alloc(),
                &options.command,
                &mut service,
                &mut replies,
                &mut io::writer(rt),
            );
            ending_of(ending, patience.left(rt).is_none())
        }
        Err(_) => Ending::Unconnected,
    }
}

// Whether its file has a newline.
fn is_broken(command: &Command<&str>) -> bool
    ensures value { result ≡ controlling.is_broken command.now }
{
    match command.file() {
        None => false,
        Some(file) => file.as_bytes().contains(&b'\n'),
    }
}

/// Writes the command's line to a service, and the service's answer to `out`, with escapes for what isn't printable
/// ASCII, and ends accordingly.
pub fn tell_service<'a, S: Write, A: Read, W: Write>(
    alloc: Global,
    command: &Command<&str>,
    service: &mut S,
    answers: &mut A,
    out: &mut W,
) -> Ending<'a>
    ensures said { IsAnswered result
        → Appends (S.contents service.old) (S.contents service.new) (line_of command.now) }
    ensures ends { IsAnswered result → IfSome (A.remaining answers.old) (λ answer. result ≡ ending_by answer) }
    ensures printed { IsAnswered result
        → IfSome (A.remaining answers.old) (λ answer. Appends (W.contents out.old) (W.contents out.new) (lines_text answer)) }
{
    let Ok(line) = command_line(alloc, command) else {
        return Ending::Early(DrillFault::Memory);
    };
    if service.write_all(line.as_bytes()).is_err() {
        return Ending::Unanswered;
    }
    let mut answer = Vec::new(alloc);
    match answers.read_to_end(&mut answer) {
        Ok(_) => print_answer(alloc, answer.as_slice(), out),
        Err(error) => broken_off(alloc, answer.as_slice(), &error, out),
    }
}

fn command_line(alloc: Global, command: &Command<&str>) -> Result<String, AllocError>
    ensures value { IfOk result (λ line. string_bytes line ≡ line_of command.now) }
{
    match command.file() {
        None => format!(in alloc; "{}\n", command.word()),
        Some(file) => format!(in alloc; "{} {file}\n", command.word()),
    }
}

// Prints a whole answer, and ends accordingly.
fn print_answer<'a, W: Write>(alloc: Global, answer: &[u8], out: &mut W) -> Ending<'a>
    ensures ends { IsAnswered result → result ≡ ending_by answer.now }
    ensures printed { IsAnswered result → Appends (W.contents out.old) (W.contents out.new) (lines_text answer.now) }
    ensures told { (result ≡ ending_by answer.now) ⊎ IsUnprinted result }
{
    if answer.is_empty() {
        return Ending::Unanswered;
    }
    match print_lines(alloc, answer, out) {
        Err(fault) => Ending::Early(fault),
        Ok(()) if ended_ok(answer) => Ending::Good,
        Ok(()) => Ending::Refused,
    }
}

// Prints lines of a service, with escapes for what isn't printable ASCII.
fn print_lines<W: Write>(alloc: Global, lines: &[u8], out: &mut W) -> Result<(), DrillFault>
    ensures printed { OnOk result (Appends (W.contents out.old) (W.contents out.new) (lines_text lines.now)) }
    ensures fault { IfErr result (λ fault. (fault ≡ DrillFault.Memory) ⊎ (fault ≡ DrillFault.Write)) }
{
    let mut text = Vec::new(alloc);
    if put_lines(&mut text, lines).is_err() {
        return Err(DrillFault::Memory);
    }
    match out.write_all(text.as_slice()) {
        Ok(()) => Ok(()),
        Err(_) => Err(DrillFault::Write),
    }
}

// Prints what came of an answer that broke off.
fn broken_off<'a, W: Write>(
    alloc: Global,
    answer: &[u8],
    error: &io::Error,
    out: &mut W,
) -> Ending<'a>
    ensures unanswered { IsAnswered result → ⊥ }
    ensures printed { (IsUnprinted result → ⊥)
        → Appends (W.contents out.old) (W.contents out.new) (lines_text answer.now) }
    ensures memory { error_kind error.now ≡ ErrorKind.OutOfMemory → IsUnprinted result }
    ensures ended { error_kind error.now ≢ ErrorKind.OutOfMemory
        → (result ≡ Ending.Unanswered) ⊎ IsUnprinted result }
{
    match print_lines(alloc, answer, out) {
        Err(fault) => Ending::Early(fault),
        Ok(()) if error.kind() == ErrorKind::OutOfMemory => Ending::Early(DrillFault::Memory),
        Ok(()) => Ending::Unanswered,
    }
}
