//! Layer: commands. Touches: standard input and output. Called by: nobody, it is run.
//!
//! Runs a script of decisions on standard input, and prints their results on standard output, as
//! `chpw_server drill` does.
#![tactic(auto)]

ghost use Rattle.std.specs.Prelude.{◌≡◌, IfSome};
ghost use Rattle.chpw_commands.specs.Drilled.{drilled};
ghost use Rattle.chpw_drill.specs.Ending.{IsEnding, Tells, status_of};

use chpw_commands::{DrillFault, run_drill};
use std::alloc::Global;
use std::io::{self, Read, Write};
use std::process::ExitCode;

/// Ends with 0; with 1 after a fault, which has a line on standard error.
fn main(rt: HostRuntime) -> ExitCode {
    let stderr = rt.stderr();
    let mut errors = io::writer(&stderr);
    let mut output = io::writer(&rt);
    ExitCode::from(drill(rt.alloc(), &mut rt.reader(), &mut output, &mut errors))
}

/// Runs the script that the reader gives, and reports a fault; the exit status.
fn drill<R: Read, W: Write, E: Write>(
    alloc: Global,
    reader: &mut R,
    writer: &mut W,
    errors: &mut E,
) -> u8
    ensures status { IfSome (R.remaining reader.old) (λ script.
        IsEnding (drilled script) result (W.contents writer.old) (W.contents writer.new)) }
{
    let ended = run_drill(alloc, reader, writer);
    let _ = tell(errors, ended);
    status(ended)
}

/// The exit status: 0, or 1 after a fault.
fn status(ended: Result<(), DrillFault>) -> u8
    ensures value { result ≡ status_of ended }
{
    match ended {
        Ok(()) => 0,
        Err(_) => 1,
    }
}

/// Writes the line of a fault.
fn tell<E: Write>(errors: &mut E, ended: Result<(), DrillFault>) -> io::Result<()>
    ensures told { Tells ended result (E.contents errors.old) (E.contents errors.new) }
{
    match ended {
        Ok(()) => Ok(()),
        Err(fault) => writeln!(errors, "{fault}"),
    }
}
