//! Cases of krb_keytab, a line each.
//!
//! - `read HEX`: the entries of the keytab with these bytes, or its fault.
//! - `cut HEX`: what is read of each of its proper prefixes, after the count of those prefixes and their lengths.

mod showing;

use crate::keytab::showing::{entries_text, fault_text};
use crate::refusal::{Answer, Refusal};
use crate::words::bytes;
use krb_keytab::read_keytab;
use std::alloc::Global;
use support_cases::Census;

/// The answer to a case.
pub fn answer(alloc: Global, case: &str) -> Answer {
    let (kind, hex) = case.split_once(' ').unwrap_or((case, ""));
    let file = bytes(alloc, hex)?;
    match kind {
        "read" => match read_keytab(alloc, &file) {
            Ok(entries) => Ok(entries_text(alloc, &entries)?),
            Err(error) => fault_text(alloc, error),
        },
        "cut" => cut(alloc, &file),
        _ => Err(Refusal::NoSuchCase),
    }
}

/// What is read of each proper prefix: how many entries, or which fault.
fn cut(alloc: Global, file: &[u8]) -> Answer {
    let mut census = Census::new(alloc);
    for length in 0..file.len() {
        let answer = match read_keytab(alloc, &file[..length]) {
            Ok(entries) => format!(in alloc; "{} entries", entries.len())?,
            Err(error) => fault_text(alloc, error)?,
        };
        census.add(alloc, length, answer.as_str())?;
    }
    Ok(census.text(alloc)?)
}
