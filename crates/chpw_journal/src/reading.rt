//! A journal's records, read one after the other.
ghost use Rattle.std.specs.Prelude.{◌≡◌, ◌≤◌, IfOk, length};
ghost use Rattle.std.specs.Int.{from_be_bytes, to_be_bytes, w16};
ghost use Rattle.chpw_journal.specs.NextRecord.{IsNext, IsBody, CountsDown};

use chpw_read_fully::{FillOutcome, fill, fill_vec};
use chpw_record::is_record_length;
use std::alloc::{AllocError, Global};
use std::io::Read;

/// The most reads of a journal, interrupted ones counted.
pub const MAX_READS: u64 = 4_294_967_296;

/// What comes next in a journal.
#[derive(Drop)]
pub enum Next {
    /// A complete record, without its length.
    Record(Vec<u8>),
    /// A record whose length no record can have; nothing more of it was read.
    BadLength,
    /// The journal's end.
    Ended,
    /// The journal's end within a record.
    Torn,
    /// A read failed, or there were too many.
    CannotRead,
}

/// Reads the next record of a journal. An interrupted read is tried again; the reads are counted down. After
/// `AllocError` the record's length was read, and no byte after it.
pub fn next_record<R: Read>(
    alloc: Global,
    reader: &mut R,
    reads: &mut u64,
) -> Result<Next, AllocError>
    ensures next { IfOk result (λ next. IsNext next (R.remaining reader.old) (R.remaining reader.new)) }
    ensures count { IfOk result (λ next. CountsDown next reads.old reads.new) }
{
    let mut header = [0; 2];
    match fill(reader, &mut header, reads) {
        FillOutcome::Whole => {}
        FillOutcome::Short(0) => return Ok(Next::Ended),
        FillOutcome::Short(_) => return Ok(Next::Torn),
        FillOutcome::Fault(_) => return Ok(Next::CannotRead),
    }
    let length = length_in(&header);
    if !is_record_length(length) {
        return Ok(Next::BadLength);
    }
    read_body(alloc, reader, length, reads)
}

/// The length in two bytes, high byte first.
pub(crate) fn length_in(header: &[u8]) -> usize
    requires two { length header.now ≡ 2 }
    ensures value { result ≡ from_be_bytes w16 header.now }
    ensures header { header.now ≡ to_be_bytes w16 result }
{
    let mut bytes = [0; 2];
    bytes.copy_from_slice(header);
    usize::from(u16::from_be_bytes(bytes))
}

// Reads a record after its length.
fn read_body<R: Read>(
    alloc: Global,
    reader: &mut R,
    length: usize,
    reads: &mut u64,
) -> Result<Next, AllocError>
    ensures body { IfOk result (λ next. IsBody length next (R.remaining reader.old) (R.remaining reader.new)) }
    ensures count { reads.new ≤ reads.old }
{
    let mut body = vec![in alloc; 0; length]?;
    match fill_vec(reader, &mut body, reads) {
        FillOutcome::Whole => Ok(Next::Record(body)),
        FillOutcome::Short(_) => Ok(Next::Torn),
        FillOutcome::Fault(_) => Ok(Next::CannotRead),
    }
}
