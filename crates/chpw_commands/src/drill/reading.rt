//! Reading a whole script.
ghost use Rattle.std.specs.Prelude.{◌<◌, ◌≤◌, IfErr, IfOk, OnOk, ◌≡◌, ◌⊎◌};
ghost use Rattle.std.specs.Io.KnownBytes.{Consumes, IsAtEnd};
ghost use Rattle.chpw_commands.specs.declared.drill.DrillFault.TheVariants.{Memory, Read as ReadFault};

use crate::drill::DrillFault;
use chpw_read_fully::{FillOutcome, fill};
use std::alloc::Global;
use std::io::Read;

/// The most reads of a script, interrupted ones counted.
pub const MAX_READS: u64 = 16_777_216;

/// The most bytes that a read asks for.
const CHUNK: usize = 8_192;

/// Reads to the end, in at most `reads` reads, which are counted down. An interrupted read is tried again.
///
/// `Read` if a read failed or there were too many, and `Memory` if a growth was refused.
pub fn read_script<R: Read>(
    alloc: Global,
    reader: &mut R,
    reads: &mut u64,
) -> Result<Vec<u8>, DrillFault>
    requires few { reads.old ≤ 16777216 }
    ensures whole { IfOk result (λ script. Consumes (R.remaining reader.old) (R.remaining reader.new) script.items
        × IsAtEnd (R.remaining reader.new)) }
    ensures fault { IfErr result (λ fault. (fault ≡ ReadFault) ⊎ (fault ≡ Memory)) }
    ensures count { OnOk result (reads.new < reads.old) }
    ensures bound { reads.new ≤ reads.old }
{
    let mut script = Vec::new(alloc);
    let mut chunk = [0; CHUNK];
    loop {
        let (count, ended) = match fill(reader, &mut chunk, reads) {
            FillOutcome::Whole => (CHUNK, false),
            FillOutcome::Short(count) => (count, true),
            FillOutcome::Fault(_) => return Err(DrillFault::Read),
        };
        if script.extend_from_slice(&chunk[..count]).is_err() {
            return Err(DrillFault::Memory);
        }
        if ended {
            return Ok(script);
        }
    }
}
