//! A journal's bytes, put together from pieces.

use chpw_journal::heading_bytes;
use chpw_record::{KeyKind, KeyRow, key_bytes, raise_bytes};
use chpw_rules::REALM_LENGTHS;
use std::alloc::Global;
use std::io;
use support_cases::{bytes, no_case};
use support_realm::name;

/// The number that a word spells.
pub fn number(word: &str) -> io::Result<u32> {
    let Ok(number) = word.parse() else {
        return Err(no_case());
    };
    Ok(number)
}

/// The journal with these pieces: `nothing`; `NAME KVNO`, the record of a change, its keys' bytes of that number;
/// `base NAME KVNO`, `adopt NAME KVNO`, `lift NAME KVNO` and `remove NAME KVNO`, of another kind; `raise COUNT`;
/// `realm NAME`; `bytes DIGITS`; `first N of` before another piece, of which only N bytes are there.
pub fn journal_of(alloc: Global, pieces: &str) -> io::Result<Vec<u8>> {
    let mut journal = Vec::new(alloc);
    for piece in pieces.split(", ") {
        journal.extend_from_slice(&piece_of(alloc, piece)?)?;
    }
    Ok(journal)
}

fn piece_of(alloc: Global, piece: &str) -> io::Result<Vec<u8>> {
    let Some(words) = piece.strip_prefix("first ") else {
        return whole_of(alloc, piece);
    };
    let (count, piece) = words.split_once(" of ").unwrap_or((words, ""));
    let mut front = whole_of(alloc, piece)?;
    front.truncate(number(count)? as usize);
    Ok(front)
}

fn whole_of(alloc: Global, piece: &str) -> io::Result<Vec<u8>> {
    let (what, word) = piece.rsplit_once(' ').unwrap_or((piece, ""));
    match what {
        "nothing" => Ok(Vec::new(alloc)),
        "bytes" => Ok(bytes(alloc, word)?),
        "raise" => Ok(Vec::from_slice(alloc, &raise_bytes(number(word)?))?),
        "realm" if REALM_LENGTHS.allow(word.len()) => Ok(heading_bytes(alloc, word.as_bytes())?),
        _ => key_record(alloc, what, number(word)?),
    }
}

/// The record of a key: that of a change, where the name has no word for another kind before it.
fn key_record(alloc: Global, what: &str, kvno: u32) -> io::Result<Vec<u8>> {
    let (kind, client) = match what.split_once(' ') {
        None => (KeyKind::Change, what),
        Some(("base", client)) => (KeyKind::Base, client),
        Some(("adopt", client)) => (KeyKind::Adopt, client),
        Some(("lift", client)) => (KeyKind::Lift, client),
        Some(("remove", client)) => (KeyKind::Remove, client),
        Some(_) => return Err(no_case()),
    };
    let byte = (kvno % 256) as u8;
    let key = KeyRow {
        kvno,
        count: 4096,
        aes128: [byte; 16],
        aes256: [byte; 32],
    };
    Ok(key_bytes(alloc, kind, &name(alloc, client)?, &key)?)
}
