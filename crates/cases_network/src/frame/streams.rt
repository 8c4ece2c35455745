//! Messages over TCP.

use chpw_frame::{LONGEST_MESSAGE, TcpOutcome, read_tcp, write_tcp};
use std::alloc::{AllocError, Global};
use support_cases::{Fault, bytes_with_zeros, hex_text};
use support_streams::{Course, Giver, Taker, Way};

/// The answer to a case of a stream.
pub fn answer(alloc: Global, kind: &str, text: &str) -> Result<String, Fault> {
    let (how, hex) = text.split_once(": ").unwrap_or((text, ""));
    let (way, bytes) = (Way::of(how), bytes_with_zeros(alloc, hex)?);
    let answer = match kind {
        "read" | "reads" => read(alloc, way, &bytes, kind == "reads"),
        "write" | "writes" => written(alloc, way, &bytes, kind == "writes"),
        "fail" => failing(alloc, way, &bytes),
        _ => return Err(Fault::NoSuchCase),
    };
    Ok(answer?)
}

/// What is read of a stream, what is left of it, and in how many reads if that is asked.
fn read(alloc: Global, way: Way, stream: &[u8], counts: bool) -> Result<String, AllocError> {
    let mut reader = Giver {
        left: stream,
        course: Course::start(way),
    };
    let piece = shown_piece(alloc, &read_tcp(alloc, &mut reader)?)?;
    let left = shown_short(alloc, reader.left)?;
    if counts {
        let calls = reader.course.calls;
        return format!(in alloc; "{piece}, left {left} in {calls} reads");
    }
    format!(in alloc; "{piece}, left {left}")
}

fn shown_piece(alloc: Global, received: &TcpOutcome) -> Result<String, AllocError> {
    let text = match received {
        TcpOutcome::Message(message) => {
            let message = shown_short(alloc, message)?;
            return format!(in alloc; "message {message}");
        }
        TcpOutcome::Ended => "ended",
        TcpOutcome::CutOff => "cut off",
        TcpOutcome::TooLong => "too long",
        TcpOutcome::ReadFault => "read fault",
    };
    String::from_str(alloc, text)
}

/// Bytes in hexadecimal, or their number if there are many.
fn shown_short(alloc: Global, bytes: &[u8]) -> Result<String, AllocError> {
    if bytes.len() > 100 {
        return format!(in alloc; "of {} bytes", bytes.len());
    }
    hex_text(alloc, bytes)
}

/// Writes a message: whether that succeeded, and the writer that took it.
fn write(alloc: Global, way: Way, message: &[u8]) -> (bool, Taker) {
    let mut writer = Taker {
        taken: Vec::new(alloc),
        course: Course::start(way),
    };
    if message.len() > LONGEST_MESSAGE {
        return (false, writer);
    }
    let done = write_tcp(&mut writer, message).is_ok();
    (done, writer)
}

/// What is written of a message, and in how many writes if that is asked.
fn written(alloc: Global, way: Way, message: &[u8], counts: bool) -> Result<String, AllocError> {
    let (done, Taker { taken, course }) = write(alloc, way, message);
    let taken = shown_short(alloc, &taken)?;
    let word = if done { "written" } else { "write fault after" };
    if counts {
        return format!(in alloc; "{word} {taken} in {} writes", course.calls);
    }
    format!(in alloc; "{word} {taken}")
}

/// Writes a message with a fault after each byte in turn; how often exactly the bytes before the fault were taken.
fn failing(alloc: Global, way: Way, message: &[u8]) -> Result<String, AllocError> {
    let whole = write(alloc, way, message).1.taken;
    let mut fronts = 0u32;
    for count in 0..whole.len() {
        let (done, writer) = write(alloc, way.failing_after(count), message);
        if !done && writer.taken.as_slice() == &whole[..count] {
            fronts = fronts.saturating_add(1);
        }
    }
    format!(in alloc;
        "{fronts} faults, each behind a front of {} bytes",
        whole.len()
    )
}
