//! What is said to an agent, and what it answers.
ghost use Rattle.std.specs.Prelude.{◌≡◌, ◌+◌, OnOk, IfOk, IfErr, IfSome, codes, take};
ghost use Rattle.std.specs.Io.KnownBytes.{Appends};
ghost use Rattle.chpw_import.specs.KdcFaults.{IsUnheard};

use crate::fault::KeysFault;
use chpw_kdc::Request;
use std::alloc::Global;
use std::io::{self, ErrorKind, Read, Write};

/// The most bytes of an answer: 64 MiB, those of some 400,000 principals.
pub(crate) const ANSWER: u64 = 67_108_864;

/// Asks for the list. Nothing more is said: the writer is flushed.
pub(crate) fn ask<'a, S: Write>(
    alloc: Global,
    socket: &'a str,
    agent: &mut S,
) -> Result<(), KeysFault<'a>>
    ensures asked { OnOk result (Appends (S.contents agent.old) (S.contents agent.new) (codes "list keys\n")) }
    ensures fault { IfErr result (IsUnheard socket.entry.now) }
{
    let Ok(line) = Request::ListKeys.line(alloc) else {
        return Err(KeysFault::Memory);
    };
    if agent.write_all(line.as_slice()).is_err() || agent.flush().is_err() {
        return Err(KeysFault::Unanswered(socket));
    }
    Ok(())
}

/// The bytes of an answer to its end, or one more than there may be.
pub(crate) fn read_answer<'a, A: Read + Drop>(
    alloc: Global,
    socket: &'a str,
    answers: A,
) -> Result<Vec<u8>, KeysFault<'a>>
    ensures value { IfOk result (λ bytes. IfSome (A.remaining answers) (λ all.
        bytes.items ≡ take (67108864 + 1) all)) }
    ensures fault { IfErr result (IsUnheard socket.entry.now) }
{
    let mut bytes = Vec::new(alloc);
    match answers.take(ANSWER + 1).read_to_end(&mut bytes) {
        Ok(_) => Ok(bytes),
        Err(error) => Err(unheard(socket, &error)),
    }
}

// Why an answer can't be read.
fn unheard<'a>(socket: &'a str, error: &io::Error) -> KeysFault<'a>
    ensures fault { IsUnheard socket.entry.now result }
{
    if error.kind() == ErrorKind::OutOfMemory {
        KeysFault::Memory
    } else {
        KeysFault::Unanswered(socket)
    }
}
