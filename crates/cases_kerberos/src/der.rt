//! Cases of krb_der, a line each.
//!
//! - `RECORD HEX`, as in `host_address 300da003020102a10604047f000001`: the text of that record. The answer is the text
//!   that is written of what was read, or the fault and its place.
//! - `length RECORD HEX`: the length of that text, which has to be the text that was read.
//! - `words RECORD HEX`: the fault in words.
//! - `VALUE HEX`, as in `addr_type 300d..`: one value of a record's text, as [`values`] has them.
//! - `part CTIME CUSEC`: the length of an EncAPRepPart with this time and these microseconds.
//! - `time YYYYMMDDHHMMSSZ` and `seconds N`: each converted to the other, or `none`.
//!
//! HEX may have a tail ` BYTES*COUNT`: bytes that follow this many times.

mod records;
mod times;
mod values;
mod writers;

use crate::refusal::{Answer, Refusal};
use crate::words::bytes;
use hex::encode;
use krb_der::ReadError;
use std::alloc::Global;

/// The answer to a case.
pub fn answer(alloc: Global, case: &str) -> Answer {
    let (kind, rest) = case.split_once(' ').unwrap_or((case, ""));
    match kind {
        "time" => Ok(times::seconds_of(alloc, rest)?),
        "seconds" => Ok(times::text_of(alloc, rest)?),
        "part" => Ok(values::part_length(alloc, rest)?),
        "length" | "words" => {
            let (record, text) = rest.split_once(' ').unwrap_or((rest, ""));
            record_answer(alloc, kind, record, text)
        }
        _ => record_answer(alloc, kind, kind, rest),
    }
}

/// The answer to a case of a record's text.
fn record_answer(alloc: Global, kind: &str, record: &str, text: &str) -> Answer {
    let text = bytes_of(alloc, text)?;
    match found(alloc, kind, record, &text) {
        Ok(Some(answer)) => Ok(answer),
        Ok(None) => Err(Refusal::NoSuchCase),
        Err(ReadError::Memory) => Err(Refusal::Memory),
        Err(ReadError::Fault(fault)) if kind == "words" => Ok(format!(in alloc; "{fault}")?),
        Err(ReadError::Fault(fault)) => {
            Ok(format!(in alloc; "{:?} at {}", fault.kind, fault.place)?)
        }
    }
}

/// The bytes of `HEX` or `HEX BYTES*COUNT`.
fn bytes_of(alloc: Global, text: &str) -> Result<Vec<u8>, Refusal> {
    let (front, tail) = text.split_once(' ').unwrap_or((text, ""));
    let (tail, count) = tail.split_once('*').unwrap_or((tail, "0"));
    let mut all = bytes(alloc, front)?;
    let tail = bytes(alloc, tail)?;
    let count: u32 = count.parse()?;
    for _ in 0..count {
        all.extend_from_slice(&tail)?;
    }
    Ok(all)
}

/// What the text of a record gives, or a value in it; `None` if there is neither of this name.
fn found(
    alloc: Global,
    kind: &str,
    record: &str,
    text: &[u8],
) -> Result<Option<String>, ReadError> {
    let Some(again) = records::again(alloc, record, text)? else {
        return values::value_text(alloc, record, text);
    };
    let answer = match again.length {
        None => String::from_str(alloc, "does not fit"),
        Some(_) if kind == record => encode(alloc, again.bytes),
        Some(length) if again.bytes.as_slice() == text => format!(in alloc; "{length}"),
        Some(_) => String::from_str(alloc, "another text"),
    };
    Ok(Some(answer?))
}
