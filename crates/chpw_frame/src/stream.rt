//! Messages over TCP.
ghost use Rattle.std.specs.Prelude.{◌≡◌, ◌==◌, ℕ, ◌≤◌, ◌<◌, List, ◌++◌, length, drop, if◌then◌else◌, Option, IfOk, OnOk, OnErr};
ghost use Rattle.std.specs.Int.{to_be_bytes, w32};
ghost use Rattle.std.specs.Io.KnownBytes.{Appends, Consumes, Keeps};
ghost use Rattle.chpw_frame.specs.Stream.{sent, longest};
ghost use Rattle.chpw_frame.specs.declared.stream.TcpOutcome.TheVariants.{Ended, CutOff};
ghost use Rattle.chpw_frame.specs.Receiving.{IsReceived, TakesLength, IsLength, IsPut, AppendsFront};

use chpw_read_fully::{FillOutcome, fill, fill_vec};
use std::alloc::{AllocError, Global};
use std::io::{Read, Write};

/// Bytes of a message, at the most.
pub const LONGEST_MESSAGE: usize = 65_535;

/// Reads for one message, at the most, interrupted ones counted.
pub const MAX_READS: u64 = 131_072;

#[derive(Drop)]
pub enum TcpOutcome {
    Message(Vec<u8>),
    /// The stream ended between messages.
    Ended,
    /// It ended within a message or its length.
    CutOff,
    /// The length of a message is above 65,535; no byte of its body was read.
    TooLong,
    /// A read failed, or the message took too many; not all of the message was read.
    ReadFault,
}

/// The bytes of a message that are written together with its length, at most. Some clients take the first read for the
/// whole reply, and a reply is shorter than this.
const FRONT_LEN: usize = 1_020;

/// A write failed, was interrupted or took nothing.
#[derive(Clone, Copy, Drop)]
pub struct WriteFault;

/// Reads the next message, of at most 65,535 bytes after a length of four bytes (RFC 4120 section 7.2.2). An
/// interrupted read is tried again. After `AllocError` the message's length was read, and no byte of its body.
pub fn read_tcp<R: Read>(alloc: Global, reader: &mut R) -> Result<TcpOutcome, AllocError>
    ensures piece { IfOk result (λ r. IsReceived r (R.remaining reader.old) (R.remaining reader.new)) }
    ensures refused { OnErr result (TakesLength (R.remaining reader.old) (R.remaining reader.new)) }
{
    let mut reads = MAX_READS;
    let mut header = [0; 4];
    match fill(reader, &mut header, &mut reads) {
        FillOutcome::Whole => {}
        FillOutcome::Short(count) => return Ok(ended_after(count)),
        FillOutcome::Fault(_) => return Ok(TcpOutcome::ReadFault),
    }
    let length = u32::from_be_bytes(header) as usize;
    if length > LONGEST_MESSAGE {
        return Ok(TcpOutcome::TooLong);
    }
    read_body(alloc, reader, length, &mut reads)
}

/// How a stream ends that ends after this many bytes of a length.
fn ended_after(count: usize) -> TcpOutcome
    ensures value { result ≡ (if count == 0 then Ended else CutOff) }
{
    if count == 0 {
        TcpOutcome::Ended
    } else {
        TcpOutcome::CutOff
    }
}

/// Reads a message after its length.
fn read_body<R: Read>(
    alloc: Global,
    reader: &mut R,
    length: usize,
    reads: &mut u64,
) -> Result<TcpOutcome, AllocError>
    requires fits { length ≤ longest }
    ensures piece { IfOk result (λ r. (before : Option (List ℕ)) (header : List ℕ) → IsLength header length
        → Consumes before (R.remaining reader.old) header → IsReceived r before (R.remaining reader.new)) }
    ensures unchanged { OnErr result (reader.new ≡ reader.old) }
{
    let mut body = vec![in alloc; 0; length]?;
    match fill_vec(reader, &mut body, reads) {
        FillOutcome::Whole => Ok(TcpOutcome::Message(body)),
        FillOutcome::Short(_) => Ok(TcpOutcome::CutOff),
        FillOutcome::Fault(_) => Ok(TcpOutcome::ReadFault),
    }
}

/// Writes a message after its length. After a fault a proper beginning of both is written.
pub fn write_tcp<W: Write>(writer: &mut W, bytes: &[u8]) -> Result<(), WriteFault>
    requires fits { length bytes.now ≤ longest }
    ensures whole { OnOk result (Appends (W.contents writer.old) (W.contents writer.new) (sent bytes.now)) }
    ensures front { OnErr result (AppendsFront (W.contents writer.old) (W.contents writer.new) (sent bytes.now)) }
{
    let (front, rest) = bytes.split_at(FRONT_LEN.min(bytes.len()));
    put_front(writer, bytes.len() as u32, front)?;
    put(writer, rest)
}

/// Writes a length and the first bytes of its message, in one write where the writer takes all.
fn put_front<W: Write>(writer: &mut W, size: u32, front: &[u8]) -> Result<(), WriteFault>
    requires few { length front.now ≤ FRONT_LEN }
    ensures whole { OnOk result (Appends (W.contents writer.old) (W.contents writer.new)
        (to_be_bytes w32 size ++ front.now)) }
    ensures front { OnErr result (AppendsFront (W.contents writer.old) (W.contents writer.new)
        (to_be_bytes w32 size ++ front.now)) }
{
    let mut buffer = [0; 4 + FRONT_LEN];
    let end = 4 + front.len();
    buffer[..4].copy_from_slice(&size.to_be_bytes());
    buffer[4..end].copy_from_slice(front);
    put(writer, &buffer[..end])
}

/// Writes all bytes; a write that fails, is interrupted or takes nothing ends it.
#[tactic(auto, using(crate::proofs::StreamLemmas::put_first, crate::proofs::StreamLemmas::put_more, crate::proofs::StreamLemmas::put_all))]
fn put<W: Write>(writer: &mut W, bytes: &[u8]) -> Result<(), WriteFault>
    ensures whole { OnOk result (Appends (W.contents writer.old) (W.contents writer.new) bytes.now) }
    ensures front { OnErr result (AppendsFront (W.contents writer.old) (W.contents writer.new) bytes.now) }
{
    let mut rest = bytes;
    while !rest.is_empty() {
        rest = put_some(writer, rest)?;
    }
    Ok(())
}

/// One write; what it left.
#[tactic(auto, using(crate::proofs::StreamLemmas::put_one))]
fn put_some<'a, W: Write>(writer: &mut W, bytes: &'a [u8]) -> Result<&'a [u8], WriteFault>
    requires some { 0 < length bytes.now }
    ensures put { IfOk result (λ rest. IsPut (W.contents writer.old) (W.contents writer.new) bytes.now rest.now) }
    ensures shorter { IfOk result (λ rest. length rest.now < length bytes.now) }
    ensures unchanged { OnErr result (Keeps (W.contents writer.old) (W.contents writer.new)) }
{
    match writer.write(bytes) {
        Err(_) => Err(WriteFault),
        Ok(0) => Err(WriteFault),
        Ok(count) => Ok(without_first(bytes, count)),
    }
}

/// The bytes without the first `count`.
fn without_first(bytes: &[u8], count: usize) -> &[u8]
    requires bound { count ≤ length bytes.now }
    ensures value { result.now ≡ drop count bytes.now }
{
    &bytes[count..]
}
