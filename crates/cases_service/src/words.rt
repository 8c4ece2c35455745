//! Words of a case, in whichever topic.

use chpw_frame::{LONGEST_MESSAGE, write_tcp};
use std::alloc::Global;
use std::io;
use support_cases::no_case;

/// A text with the edits of a line, `OLD -> NEW | OLD -> NEW`, made.
pub fn apply_edits(alloc: Global, base: &str, edits: &str) -> io::Result<String> {
    let mut text = String::from_str(alloc, base)?;
    for edit in edits.split(" | ") {
        if let Some((old, new)) = edit.split_once(" -> ") {
            text = text.as_str().replace(alloc, old, new)?;
        }
    }
    Ok(text)
}

/// Adds a message after its length.
pub fn put_framed(stream: &mut Vec<u8>, message: &[u8]) -> io::Result<()> {
    if message.len() > LONGEST_MESSAGE || write_tcp(stream, message).is_err() {
        return Err(no_case());
    }
    Ok(())
}
