//! The drill: a script of decisions, and what it prints.
ghost use Rattle.std.specs.Prelude.{◌≡◌, map, Err, IfOk, IfSome};
ghost use Rattle.chpw_commands.specs.Drilled.{drilled, lines_of};
ghost use Rattle.chpw_commands.specs.Answering.{IsAnswer, IsWritten};
ghost use Rattle.chpw_commands.specs.declared.drill.DrillFault.TheVariants.{Memory, Read as ReadFault, TooMany};

mod asking;
mod line;
mod printed;
mod reading;
mod running;
mod setup;
mod sink;
mod stage;
mod words;

use crate::drill::reading::{MAX_READS, read_script};
use crate::drill::running::TurnFault;
use crate::drill::stage::{Stage, take_turn};
use chpw_rules::Items;
use std::alloc::{AllocError, Global};
use std::fmt;
use std::io::{Read, Write};

/// Why a drill ends early.
#[derive(Clone, Copy, Drop)]
pub enum DrillFault {
    /// The line of this number, from 1, is bad.
    Line(u64),
    /// An update would add a principal to the 10,000 that there are.
    TooMany,
    /// A growth was refused.
    Memory,
    /// A read failed, or there were too many.
    Read,
    /// A write failed.
    Write,
}

impl fmt::Display for DrillFault {
    ghost use Rattle.std.specs.Prelude.{Some};
    ghost use Rattle.chpw_commands.specs.Drilled.{fault_text};

    ghost output = { λ fault. Some (fault_text fault) };

    fn fmt<W: fmt::Write>(&self, f: &mut fmt::Formatter<W>) -> fmt::Result {
        match self {
            DrillFault::Line(number) => write!(f, "line {number}: bad"),
            DrillFault::TooMany => f.write_str("too many principals"),
            DrillFault::Memory => f.write_str("memory"),
            DrillFault::Read => f.write_str("cannot read"),
            DrillFault::Write => f.write_str("cannot write"),
        }
    }
}

/// Runs the script that the reader gives, and writes what it prints. The script is read to its end before its first
/// line runs, in at most 16,777,216 reads, and what it prints is written once it has ended.
///
/// `Line` for the first bad line; what the lines before it print is written then. `Read` if a read failed or there were
/// too many, `TooMany` if an update would add a principal to the 10,000 that a table may hold, and `Memory` if a growth was
/// refused, and nothing is written then; `Write` if the write failed.
pub fn run_drill<R: Read, W: Write>(
    alloc: Global,
    reader: &mut R,
    writer: &mut W,
) -> Result<(), DrillFault>
    ensures answer { IfSome (R.remaining reader.old) (λ script. IsAnswer (drilled script) result) }
    ensures written { IfSome (R.remaining reader.old) (λ script.
        IsWritten (drilled script) result (W.contents writer.old) (W.contents writer.new)) }
    ensures unread { result ≡ Err ReadFault → writer.new ≡ writer.old }
    ensures crowded { result ≡ Err TooMany → writer.new ≡ writer.old }
    ensures unchanged { result ≡ Err Memory → writer.new ≡ writer.old }
{
    let mut reads = MAX_READS;
    let script = match read_script(alloc, reader, &mut reads) {
        Ok(script) => script,
        Err(fault) => return Err(fault),
    };
    let drilled = match run_script(alloc, script.as_slice()) {
        Ok(drilled) => drilled,
        Err(TurnFault::TooMany) => return Err(DrillFault::TooMany),
        Err(TurnFault::Memory) => return Err(DrillFault::Memory),
    };
    match (writer.write_all(drilled.output.as_slice()), drilled.bad) {
        (Err(_), _) => Err(DrillFault::Write),
        (Ok(()), Some(number)) => Err(DrillFault::Line(number)),
        (Ok(()), None) => Ok(()),
    }
}

/// What a script prints up to its first bad line, and that line's number, if there is one.
#[derive(Drop)]
pub struct Drilled {
    pub output: Items<u8>,
    pub bad: Option<u64>,
}

// Runs a script, line by line.
#[tactic(auto, using(crate::proofs::RunLemmas::begins, crate::proofs::RunLemmas::ends))]
fn run_script(alloc: Global, script: &[u8]) -> Result<Drilled, TurnFault>
    ensures value { IfOk result (λ found. found ≡ drilled script.now) }
{
    let parts = lines_of(alloc, script)?;
    let lines = parts.as_slice();
    let mut stage = Stage::Start;
    let mut number = 0u64;
    let mut output = Vec::new(alloc);
    for line in lines {
        number += 1;
        let Some(turn) = take_turn(alloc, stage, line)? else {
            return Ok(Drilled {
                output: Items::of(output),
                bad: Some(number),
            });
        };
        output.extend_from_slice(turn.output.as_slice())?;
        stage = turn.stage;
    }
    Ok(Drilled {
        output: Items::of(output),
        bad: None,
    })
}

// The lines between newlines.
fn lines_of(alloc: Global, script: &[u8]) -> Result<Vec<&[u8]>, AllocError>
    ensures value { IfOk result (λ lines. map (λ l. l.now) lines.items ≡ lines_of script.now) }
{
    script.split(|byte| *byte == b'\n').collect(alloc)
}
