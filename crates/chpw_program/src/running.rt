//! A run of the program, from its words to its status.
ghost use Rattle.std.specs.Prelude.{◌≡◌, ◌≤◌, ℕ, List, OnOk};
ghost use Rattle.std.specs.Io.KnownBytes.{Appends};
ghost use Rattle.chpw_endings.specs.Reasons.{told_of};
ghost use Rattle.chpw_endings.specs.Endings.{status_of};
ghost use Rattle.chpw_program.specs.Running.{IsRunBy};
ghost use Rattle.chpw_endings.specs.declared.ending.Ending.{Ending};

use crate::command_line::words;
use crate::commands::run;
use crate::descriptors::{NOTHING, hold_standard};
use chpw_endings::{Ending, Reason, journal_reason, reason_of, tell};
use std::fs::{File, Files};
use std::io::{self, Write};
use std::net::{Net, TcpListener, TcpStream};
use std::rt::Env;
use std::sync::Wait;
use std::thread::Threads;
use std::time::Clock;

/// Runs the command that the command line asks for; `errors` is standard error. The exit status: 0; 1 after a fault,
/// which has a line there, and a second one with the reason if that can be seen; 2 if the command line asks for no
/// command or for help, whose text is written there, or isn't UTF-8, or `client` for no request.
// The bounds of `Machine` are written out, since a caller of one type has to name what they speak of.
pub fn run_program<R, W: Write>(rt: &R, errors: &mut W) -> u8
where
    R: Files<File = File>
        + Net<Listener = TcpListener, Stream = TcpStream>
        + Threads
        + Wait
        + Clock
        + Env
        + Input
        + Print
        + Eprint
        + AllocGlobal
        + Sync,
    R::Dir: Send + Sync,
    ensures few { result ≤ 2 }
    ensures runs { result ≡ 0 → (words : List (List ℕ)) × ((ending : Ending) × (status_of ending ≡ 0) × IsRunBy R words ending) }
{
    if hold_standard(rt).is_err() {
        return end(errors, &Ending::Unread(NOTHING));
    }
    match words(rt) {
        Ok(words) => {
            let ending = run(rt, errors, words.as_slice());
            let status = end(errors, &ending);
            let reason = match journal_reason(rt, words.as_slice(), &ending) {
                Some(reason) => Some(reason),
                None => reason_of(rt, words.as_slice(), &ending),
            };
            explain(errors, &reason, status)
        }
        Err(ending) => end(errors, &ending),
    }
}

// Reports the reason of a run's ending, if there is one; the run's status, also where the line can't be written.
fn explain<W: Write>(errors: &mut W, reason: &Option<Reason<'_>>, status: u8) -> u8
    ensures value { result ≡ status }
{
    let _ = tell_reason(errors, reason);
    status
}

// Writes the line of a reason, if there is one.
fn tell_reason<W: Write>(errors: &mut W, reason: &Option<Reason<'_>>) -> io::Result<()>
    ensures told { OnOk result (Appends (W.contents errors.old) (W.contents errors.new) (told_of reason.now)) }
{
    match reason {
        Some(reason) => writeln!(errors, "{reason}"),
        None => Ok(()),
    }
}

// Reports how the run ended; its status.
fn end<W: Write>(errors: &mut W, ending: &Ending<'_>) -> u8
    ensures status { result ≡ status_of ending.now }
    ensures few { result ≤ 2 }
{
    let _ = tell(errors, ending);
    ending.status()
}
