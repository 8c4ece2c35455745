//! Cases of chpw_frame, a line each.
//!
//! - `request HEX` and `reply HEX`: the parts of that message, or its fault and what its reply says.
//! - `join-request AP TAIL`, `join-old-request AP TAIL` and `join-reply AP TAIL`: the message with these parts, `-` for
//!   no bytes.
//! - `change HEX`: what that user-data asks for.
//! - `read HOW: HEX`: what is read of a stream with these bytes, and the bytes that are left of it.
//! - `reads HOW: HEX`: likewise, and in how many reads.
//! - `write HOW: HEX`: what of that message is written.
//! - `writes HOW: HEX`: likewise, and in how many writes.
//! - `fail HOW: HEX`: that message is written with a fault after each byte in turn.
//! - A line that begins with `#`, or is empty, is copied.
//!
//! HOW is how the reader or writer behaves, with commas between: see support_streams.

mod change;
mod framing;
mod streams;

use std::alloc::Global;
use support_cases::Fault;

/// The answer to a case.
pub fn answer(alloc: Global, case: &str) -> Result<String, Fault> {
    let (kind, text) = case.split_once(' ').unwrap_or((case, ""));
    match kind {
        "request" | "reply" => framing::split(alloc, kind, text),
        "join-request" | "join-old-request" | "join-reply" => framing::joined(alloc, kind, text),
        "change" => change::answer(alloc, text),
        _ => streams::answer(alloc, kind, text),
    }
}
