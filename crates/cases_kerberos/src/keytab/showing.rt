//! Entries and faults as they are printed.

use crate::refusal::{Answer, Refusal};
use krb_keytab::{KeytabEntry, KeytabError, KeytabFault};
use std::alloc::{AllocError, Global};
use support_cases::hex_text;

/// A fault, and the place of its record.
pub fn fault_text(alloc: Global, error: KeytabError) -> Answer {
    let KeytabError::Fault(fault) = error else {
        return Err(Refusal::Memory);
    };
    let text = match fault {
        KeytabFault::NotKeytab => String::from_str(alloc, "NotKeytab"),
        KeytabFault::CutOff { place } => format!(in alloc; "CutOff at {place}"),
        KeytabFault::BadLength { place } => format!(in alloc; "BadLength at {place}"),
        KeytabFault::BadEntry { place } => format!(in alloc; "BadEntry at {place}"),
    };
    Ok(text?)
}

/// The entries, each after its record's place.
pub fn entries_text(alloc: Global, entries: &[KeytabEntry]) -> Result<String, AllocError> {
    if entries.is_empty() {
        return String::from_str(alloc, "no entries");
    }
    let mut text = String::new(alloc);
    for entry in entries {
        if !text.is_empty() {
            text.push_str(" | ")?;
        }
        text.push_str(entry_text(alloc, entry)?.as_str())?;
    }
    Ok(text)
}

/// Realm, components between slashes, kvno, encryption type and key, then name type and time.
fn entry_text(alloc: Global, entry: &KeytabEntry) -> Result<String, AllocError> {
    let mut name = String::new(alloc);
    for component in &entry.components {
        if !name.is_empty() {
            name.push_str("/")?;
        }
        name.push_str(words(component.as_slice()))?;
    }
    if name.is_empty() {
        name.push_str("(no name)")?;
    }
    let place = entry.place;
    let realm = words(entry.realm.as_slice());
    let KeytabEntry { kvno, etype, .. } = entry;
    let key = hex_text(alloc, entry.key.as_slice())?;
    let (name_type, timestamp) = (entry.name_type, entry.timestamp);
    format!(in alloc;
        "at {place}: {realm} {name} {kvno} {etype} {key}, name-type {name_type}, time {timestamp}"
    )
}

/// Bytes as text, `-` for none.
fn words(bytes: &[u8]) -> &str {
    if bytes.is_empty() {
        return "-";
    }
    str::from_utf8(bytes).unwrap_or("(no UTF-8)")
}
