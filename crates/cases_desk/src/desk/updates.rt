//! What the KDC says of principals.

use crate::desk::words::{first_word, number};
use chpw_book::DeskUpdateFault;
use chpw_table::{KdcUpdate, KeyRow, UpdateVerdict};
use std::alloc::Global;
use std::io;
use support_cases::{bytes, no_case};
use support_realm::name;

/// `adopt NAME KVNO` has a key of no password, under 8 iterations; `adopt NAME KVNO KEYS` the keys with these 48 bytes, under
/// 4. `lift NAME KVNO`, `remove NAME`.
pub fn update_of(alloc: Global, word: &str, text: &str) -> io::Result<KdcUpdate> {
    let (client, text) = first_word(text);
    let (version, keys) = first_word(text);
    let name = name(alloc, client)?;
    let kvno = number(Some(version));
    match word {
        "adopt" => Ok(KdcUpdate::Adopt {
            name,
            key: key_of(alloc, kvno, keys)?,
        }),
        "lift" => Ok(KdcUpdate::Lift { name, kvno }),
        "remove" => Ok(KdcUpdate::Remove { name }),
        _ => Err(no_case()),
    }
}

fn key_of(alloc: Global, kvno: u32, digits: &str) -> io::Result<KeyRow> {
    let mut key = KeyRow {
        kvno,
        count: 8,
        aes128: [0xb2; 16],
        aes256: [0xb3; 32],
    };
    if digits.is_empty() {
        return Ok(key);
    }
    let keys = bytes(alloc, digits)?;
    if keys.len() != 48 {
        return Err(no_case());
    }
    let (aes128, aes256) = keys.as_slice().split_at(16);
    key.count = 4;
    key.aes128.copy_from_slice(aes128);
    key.aes256.copy_from_slice(aes256);
    Ok(key)
}

/// A verdict's text, whatever the update was.
pub fn verdict_text(verdict: UpdateVerdict) -> &'static str {
    match verdict {
        UpdateVerdict::NoSuchPrincipal => "no such principal",
        UpdateVerdict::NotNewer => "not newer",
        UpdateVerdict::Broken => "journal failed",
        UpdateVerdict::Taken => "taken",
    }
}

/// A refusal's text.
pub fn fault_text(fault: DeskUpdateFault) -> &'static str {
    match fault {
        DeskUpdateFault::Full => "history full",
        DeskUpdateFault::TooMany => "too many principals",
        DeskUpdateFault::Composite => "more than one component",
        DeskUpdateFault::NoRoom => "no room for a name",
        DeskUpdateFault::Memory => "no memory",
    }
}
