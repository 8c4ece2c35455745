//! Words of a case, and answers as they are printed.

use crate::words::parsed;
use std::alloc::{AllocError, Global};
use support_cases::{Fault, bytes, text_of};

/// The bytes of a word in hexadecimal, `-` for none; after a `*` how many times they are repeated.
pub fn repeated_bytes(alloc: Global, word: &str) -> Result<Vec<u8>, Fault> {
    let (digits, times) = word.split_once('*').unwrap_or((word, "1"));
    let times: u16 = parsed(times)?;
    let once = bytes(alloc, digits)?;
    let mut all = Vec::new(alloc);
    for _ in 0..times {
        all.extend_from_slice(&once)?;
    }
    Ok(all)
}

/// The text of an answer, with `\n` for each newline.
pub fn escaped_text(alloc: Global, text: &[u8]) -> Result<String, AllocError> {
    let mut shown = String::new(alloc);
    for piece in text_of(text).split_inclusive('\n') {
        match piece.strip_suffix('\n') {
            Some(line) => write!(shown, "{line}\\n")?,
            None => shown.push_str(piece)?,
        }
    }
    Ok(shown)
}
