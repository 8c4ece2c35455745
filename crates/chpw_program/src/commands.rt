//! The commands, each with its ending.
ghost use Rattle.std.specs.Prelude.{◌≡◌, ◌≢◌, map, string_bytes};
ghost use Rattle.clap.specs.Values.{kind_of};
ghost use Rattle.chpw_endings.specs.Endings.{ending_brought, ending_drilled, ending_served};
ghost use Rattle.chpw_program.specs.Running.{IsRunBy};

use chpw_commands::{DrillFault, run_drill};
use chpw_endings::{Ending, ask, check_file, send_command};
use chpw_import::{KeysFault, tell_kdc, tell_keytab, tell_password};
use chpw_invocation::{Invocation, command_of};
use chpw_service::{Machine, serve};
use chpw_start::{ServeFault, make_journal, tell_table};
use clap::Error;
use clap::error::ErrorKind;
use std::io::{self, Write};

/// Runs the command of these words; if they ask for none, clap's text is an error.
#[tactic(auto, using(crate::proofs::RunningLemmas::run_by, crate::proofs::RunningLemmas::run_by_none, crate::proofs::RunningLemmas::has_served))]
pub fn run<'a, R, W: Write>(rt: &R, errors: &mut W, words: &'a [String]) -> Ending<'a>
where
    R: Machine + Input,
    R::Dir: Send + Sync,
    ensures runs { IsRunBy R (map string_bytes words.entry.now) result }
{
    match command_of(rt.alloc(), words) {
        Err(error) => explain_misuse(errors, error),
        Ok(Invocation::Drill) => drill(rt),
        Ok(Invocation::Check { config }) => check_file(rt, errors, config),
        Ok(Invocation::Table(options)) => ending_of_service(tell_table(rt, options)),
        Ok(Invocation::Import(options)) => ending_of_keys(tell_keytab(rt, options)),
        Ok(Invocation::ImportKdc(options)) => ending_of_keys(tell_kdc(rt, options)),
        Ok(Invocation::Key(options)) => ending_of_keys(tell_password(rt, options)),
        Ok(Invocation::NewJournal(options)) => ending_of_service(make_journal(rt, options)),
        Ok(Invocation::Serve(options)) => ending_of_service(serve(rt, options)),
        Ok(Invocation::Control(options)) => send_command(rt, options),
        Ok(Invocation::Client(options)) => ask(rt, errors, options),
    }
}

/// The command line asks for no command: clap's text says why, on standard error.
pub fn explain_misuse<'a, W: Write>(errors: &mut W, error: Error) -> Ending<'a>
    ensures memory { kind_of error ≡ ErrorKind.OutOfMemory → result ≡ Ending.Early DrillFault.Memory }
    ensures text { kind_of error ≢ ErrorKind.OutOfMemory → result ≡ Ending.Misused }
{
    if error.kind() == ErrorKind::OutOfMemory {
        return Ending::Early(DrillFault::Memory);
    }
    let _ = write!(errors, "{error}");
    Ending::Misused
}

// The ending of the service, of the table, or of a new journal.
fn ending_of_service(ended: Result<(), ServeFault<'_>>) -> Ending<'_>
    ensures value { result ≡ ending_served ended.entry }
{
    match ended {
        Ok(()) => Ending::Good,
        Err(fault) => Ending::Unserved(fault),
    }
}

// The ending of a keytab's or a password's keys.
fn ending_of_keys(told: Result<(), KeysFault<'_>>) -> Ending<'_>
    ensures value { result ≡ ending_brought told.entry }
{
    match told {
        Ok(()) => Ending::Good,
        Err(KeysFault::BadName) => Ending::BadArgument,
        Err(fault) => Ending::Unbrought(fault),
    }
}

// The script on standard input.
fn drill<'a>(rt: &(impl Input + Print + AllocGlobal)) -> Ending<'a> {
    ending_of_drill(run_drill(rt.alloc(), &mut rt.reader(), &mut io::writer(rt)))
}

fn ending_of_drill<'a>(ended: Result<(), DrillFault>) -> Ending<'a>
    ensures value { result ≡ ending_drilled ended }
{
    match ended {
        Ok(()) => Ending::Good,
        Err(fault) => Ending::Early(fault),
    }
}
