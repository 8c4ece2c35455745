//! The records of a keytab.
ghost use Rattle.std.specs.Prelude.{◌≡◌, ◌≤◌, length};
ghost use Rattle.krb_keytab.specs.Keytabs.{record_at};
ghost use Rattle.krb_keytab.specs.Answers.{piece_of};

use crate::fault::KeytabFault;

/// A record: an entry, or a hole.
#[derive(Clone, Copy, Drop)]
pub(crate) struct KeytabRecord<'a> {
    pub is_entry: bool,
    /// The bytes after its length.
    pub bytes: &'a [u8],
    /// What follows it in the file.
    pub rest: &'a [u8],
}

/// The four bytes of the least length, -2^31, as a number. A number below it is the length of an entry,
/// one above it that of a hole.
const LEAST_LENGTH: usize = 1 << 31;

/// A hole's length is the number in its four bytes minus this (two's complement).
const LENGTH_RANGE: usize = 1 << 32;

/// The record at the front of the bytes, which begin at this place of the file. `None` where the file ends: there are
/// no more bytes, or the length is zero.
#[tactic(auto, unfolding(crate::specs::Keytabs::record_at))]
pub(crate) fn next_record(
    place: usize,
    bytes: &[u8],
) -> Result<Option<KeytabRecord<'_>>, KeytabFault>
    ensures value { piece_of result ≡ record_at place bytes.now }
{
    let [a, b, c, d, behind @ ..] = bytes else {
        return if bytes.is_empty() {
            Ok(None)
        } else {
            Err(KeytabFault::CutOff { place })
        };
    };
    let length = u32::from_be_bytes([*a, *b, *c, *d]) as usize;
    if length == 0 {
        return Ok(None);
    }
    if length == LEAST_LENGTH {
        return Err(KeytabFault::BadLength { place });
    }
    let is_entry = length < LEAST_LENGTH;
    let size = if is_entry {
        length
    } else {
        LENGTH_RANGE - length
    };
    if behind.len() < size {
        return Err(KeytabFault::CutOff { place });
    }
    let (bytes, rest) = behind.split_at(size);
    Ok(Some(KeytabRecord {
        is_entry,
        bytes,
        rest,
    }))
}
