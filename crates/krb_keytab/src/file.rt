//! A keytab.
ghost use Rattle.std.specs.Prelude.{◌≡◌, ◌≤◌, ◌-◌, length};
ghost use Rattle.krb_keytab.specs.Keytabs.{keytab, from_place};
ghost use Rattle.krb_keytab.specs.Answers.{Gives, view, views, placed};

use crate::entry::{KeytabEntry, read_entry};
use crate::fault::{FieldError, KeytabError, KeytabFault};
use crate::records::next_record;
use std::alloc::Global;

/// The two bytes that a file begins with.
pub const KEYTAB_FORMAT: u16 = 0x0502;

/// The entries of a keytab in the order of the file, or its first fault (MIT Kerberos, keytab file format 0x0502).
/// Holes are skipped. A length of zero ends the file; what follows it may be anything.
///
/// Realms, names, components and keys may be empty. `KeytabError::Memory` says nothing of the file.
pub fn read_keytab(alloc: Global, bytes: &[u8]) -> Result<Vec<KeytabEntry>, KeytabError>
    ensures value { Gives (λ entries. views entries.items) result (keytab bytes.now) }
{
    let [high, low, rest @ ..] = bytes else {
        return Err(KeytabError::Fault(KeytabFault::NotKeytab));
    };
    if u16::from_be_bytes([*high, *low]) != KEYTAB_FORMAT {
        return Err(KeytabError::Fault(KeytabFault::NotKeytab));
    }
    read_records(alloc, bytes, rest)
}

/// The entries in the rest of a file.
fn read_records(alloc: Global, file: &[u8], records: &[u8]) -> Result<Vec<KeytabEntry>, KeytabError>
    requires within { length records.now ≤ length file.now }
    ensures value { Gives (λ entries. views entries.items) result
        (from_place (length file.now) (length file.now - length records.now) records.now) }
{
    let mut entries = Vec::new(alloc);
    let mut rest = records;
    while let Some(record) = next_record(file.len() - rest.len(), rest)? {
        if record.is_entry {
            let place = file.len() - rest.len();
            entries.push(entry_in(alloc, place, record.bytes)?)?;
        }
        rest = record.rest;
    }
    Ok(entries)
}

/// The entry of the record at this place.
fn entry_in(alloc: Global, place: usize, bytes: &[u8]) -> Result<KeytabEntry, KeytabError>
    ensures value { Gives view result (placed place bytes.now) }
{
    match read_entry(alloc, place, bytes) {
        Ok(entry) => Ok(entry),
        Err(FieldError::PastEnd) => Err(KeytabError::Fault(KeytabFault::BadEntry { place })),
        Err(FieldError::Memory) => Err(KeytabError::Memory),
    }
}
