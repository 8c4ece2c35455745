//! A buffer filled from a reader, read by read.
ghost use Rattle.std.specs.Prelude.{◌≡◌, ◌≢◌, ◌<◌, ◌≤◌, length};
ghost use Rattle.chpw_read_fully.specs.Filling.{IsFill, IsRead, FillCounts};
ghost use Rattle.chpw_read_fully.specs.declared.filling.Step.TheVariants as step;

use std::io::{ErrorKind, Read};

/// How far a buffer was filled.
#[derive(Clone, Copy, Drop)]
pub enum FillOutcome {
    Whole,
    /// Up to here; the stream ended.
    Short(usize),
    /// Up to here; a read failed, or there were too many.
    Fault(usize),
}

/// Fills the buffer, in at most `reads` reads, which it counts down. An interrupted read is tried again, and counted.
pub fn fill<R: Read>(reader: &mut R, buffer: &mut [u8], reads: &mut u64) -> FillOutcome
    ensures bytes { IsFill result buffer.new (R.remaining reader.old) (R.remaining reader.new) }
    ensures count { FillCounts result (length buffer.old) reads.old reads.new }
{
    let mut filled = 0;
    while filled < buffer.len() {
        if *reads == 0 {
            return FillOutcome::Fault(filled);
        }
        *reads -= 1;
        match read_once(reader, &mut buffer[filled..]) {
            Step::Read(count) => filled += count,
            Step::Ended => return FillOutcome::Short(filled),
            Step::Fault => return FillOutcome::Fault(filled),
        }
    }
    FillOutcome::Whole
}

/// Fills the bytes of a `Vec` as [`fill`] does a buffer.
pub fn fill_vec<R: Read>(reader: &mut R, buffer: &mut Vec<u8>, reads: &mut u64) -> FillOutcome
    ensures bytes { IsFill result buffer.new.items (R.remaining reader.old) (R.remaining reader.new) }
    ensures length { length buffer.new.items ≡ length buffer.old.items }
    ensures count { FillCounts result (length buffer.old.items) reads.old reads.new }
{
    fill(reader, buffer.as_mut_slice(), reads)
}

#[derive(Clone, Copy, Drop)]
enum Step {
    /// This many bytes; none if it was interrupted.
    Read(usize),
    Ended,
    Fault,
}

/// One read into a buffer.
fn read_once<R: Read>(reader: &mut R, buffer: &mut [u8]) -> Step
    requires room { 0 < length buffer.old }
    ensures bytes { IsRead result buffer.new (R.remaining reader.old) (R.remaining reader.new) }
{
    match reader.read(buffer) {
        Ok(0) => Step::Ended,
        Ok(count) => Step::Read(count),
        Err(error) => step_after(error.kind()),
    }
}

// What a failed read comes to: one that was interrupted read nothing.
fn step_after(kind: ErrorKind) -> Step
    ensures interrupted { kind ≡ ErrorKind.Interrupted → result ≡ step.Read 0 }
    ensures fault { kind ≢ ErrorKind.Interrupted → result ≡ step.Fault }
{
    if kind == ErrorKind::Interrupted {
        Step::Read(0)
    } else {
        Step::Fault
    }
}
