//! An entry of a keytab.
ghost use Rattle.std.specs.Prelude.{◌≡◌};
ghost use Rattle.std.specs.Int.{w32};
ghost use Rattle.krb_keytab.specs.Entries.{number_at, kvno_of, entry_at};
ghost use Rattle.krb_keytab.specs.Answers.{FieldGives, view};

use crate::fault::FieldError;
use crate::fields::{components, read_counted, u8_at, u16_at, u32_at};
use std::alloc::Global;

/// A key of a principal (MIT Kerberos, keytab file format 0x0502).
#[derive(Drop)]
pub struct KeytabEntry {
    /// The offset in the file, in bytes from 0, of the four bytes of its record's length.
    pub place: usize,
    pub realm: Vec<u8>,
    /// The principal's components, without the realm.
    pub components: Vec<Vec<u8>>,
    pub name_type: u32,
    /// When the key was added, in seconds since 1970-01-01T00:00:00Z.
    pub timestamp: u32,
    pub kvno: u32,
    /// The encryption type, a signed number: private ones are below 0 (RFC 3961 section 8).
    pub etype: i16,
    pub key: Vec<u8>,
}

/// The entry of a record with these bytes after its length, at this place of the file.
#[tactic(auto, unfolding(crate::specs::Entries::entry_at))]
pub(crate) fn read_entry(
    alloc: Global,
    place: usize,
    bytes: &[u8],
) -> Result<KeytabEntry, FieldError>
    ensures value { FieldGives view result (entry_at place bytes.now) }
{
    let (count, rest) = u16_at(bytes)?;
    let (realm, rest) = read_counted(alloc, rest)?;
    let (components, rest) = components(alloc, count, rest)?;
    let (name_type, rest) = u32_at(rest)?;
    let (timestamp, rest) = u32_at(rest)?;
    let (short_kvno, rest) = u8_at(rest)?;
    let (etype, rest) = u16_at(rest)?;
    let (key, rest) = read_counted(alloc, rest)?;
    Ok(KeytabEntry {
        place,
        realm,
        components,
        name_type,
        timestamp,
        kvno: full_kvno(short_kvno, rest),
        etype: etype.cast_signed(),
        key,
    })
}

/// The kvno in 32 bits after the key, if it is present and not zero; otherwise the one in 8 bits.
#[tactic(auto, unfolding(crate::specs::Entries::number_at))]
fn full_kvno(short_kvno: u8, after_key: &[u8]) -> u32
    ensures value { result ≡ kvno_of short_kvno (number_at w32 after_key.now) }
{
    let [a, b, c, d, ..] = after_key else {
        return u32::from(short_kvno);
    };
    let kvno = u32::from_be_bytes([*a, *b, *c, *d]);
    if kvno == 0 {
        u32::from(short_kvno)
    } else {
        kvno
    }
}
