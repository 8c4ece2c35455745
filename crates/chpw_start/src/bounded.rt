//! A file that is read up to a limit.
ghost use Rattle.std.specs.Prelude.{◌<◌, ◌^◌, IfOk, IfSome, IfNone, length};
ghost use Rattle.chpw_start.specs.Bounded.{IsLonger, IsPiece, IsWhole};

use chpw_read_fully::{FillOutcome, fill};
use std::alloc::Global;
use std::io::{self, ErrorKind, Read};

/// How many bytes are read at once.
const PIECE: usize = 65_536;

/// All bytes of a reader, if there are at most `most`; none if there are more, of which one more than `most` are read.
pub(crate) fn read_at_most<F: Read>(
    alloc: Global,
    reader: &mut F,
    most: usize,
) -> io::Result<Option<Vec<u8>>>
    requires most { most < 2 ^ 63 }
    ensures whole { IfOk result (λ found. IfSome found (λ bytes.
        IsWhole most (F.remaining reader.old) (F.remaining reader.new) bytes.items)) }
    ensures longer { IfOk result (λ found. IfNone found
        (IsLonger most (F.remaining reader.old) (F.remaining reader.new))) }
{
    let mut piece = [0; PIECE];
    let mut bytes = Vec::new(alloc);
    let mut reads = u64::MAX;
    while bytes.len() <= most {
        let count = (most + 1 - bytes.len()).min(PIECE);
        if read_piece(reader, &mut piece[..count], &mut bytes, &mut reads)? {
            return Ok(Some(bytes));
        }
    }
    Ok(None)
}

// Appends as many bytes of a reader as the piece has; whether the reader ended before.
fn read_piece<F: Read>(
    reader: &mut F,
    piece: &mut [u8],
    bytes: &mut Vec<u8>,
    reads: &mut u64,
) -> io::Result<bool>
    ensures read { IfOk result (λ ended. IsPiece ended (length piece.old)
        (F.remaining reader.old) (F.remaining reader.new) bytes.old.items bytes.new.items) }
{
    match fill(reader, piece, reads) {
        FillOutcome::Whole => {
            bytes.extend_from_slice(piece)?;
            Ok(false)
        }
        FillOutcome::Short(count) => {
            bytes.extend_from_slice(&piece[..count])?;
            Ok(true)
        }
        FillOutcome::Fault(_) => Err(io::Error::from(ErrorKind::Other)),
    }
}
