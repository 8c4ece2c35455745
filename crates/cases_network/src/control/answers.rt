//! Lines of answers, and their ends.

use crate::control::words::{escaped_text, repeated_bytes};
use chpw_control::{ended_ok, put_error, put_line, put_ok};
use std::alloc::{AllocError, Global};
use support_cases::Fault;

/// The answer to `line HEX`, which `ok` follows, `error HEX`, `ended HEX` or `beginnings HEX`.
pub fn answer(alloc: Global, kind: &str, word: &str) -> Result<String, Fault> {
    let words = repeated_bytes(alloc, word)?;
    let mut text = Vec::new(alloc);
    match kind {
        "line" => {
            put_line(&mut text, &words)?;
            put_ok(&mut text)?;
        }
        "error" => put_error(&mut text, &words)?,
        "ended" => {
            let word = if ended_ok(&words) { "yes" } else { "no" };
            return Ok(String::from_str(alloc, word)?);
        }
        "beginnings" => return Ok(beginnings(alloc, &words)?),
        _ => return Err(Fault::NoSuchCase),
    }
    Ok(escaped_text(alloc, &text)?)
}

/// The lengths of an answer's beginnings that end with `ok`.
fn beginnings(alloc: Global, text: &[u8]) -> Result<String, AllocError> {
    let mut lengths = String::from_str(alloc, "at")?;
    for length in 0..=text.len() {
        if ended_ok(&text[..length]) {
            write!(lengths, " {length}")?;
        }
    }
    Ok(lengths)
}
