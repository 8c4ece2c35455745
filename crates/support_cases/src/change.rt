//! Bytes, cut short or changed at one place.

use std::alloc::{AllocError, Global};

/// What is done to bytes at a place.
#[derive(Clone, Copy, Drop)]
pub enum Change {
    /// They end there.
    Cut,
    /// They end there, and their first two say how many they are, high byte first.
    CutWithLength,
    /// The bits of the byte there that are set in this one are flipped.
    Turn(u8),
    /// The byte there becomes this one.
    Set(u8),
}

impl Change {
    /// The change that a case names: `prefixes`, `prefixes with their length`, `changed by 01`, `changed to 00`, the
    /// byte in hexadecimal.
    pub fn of(text: &str) -> Option<Change> {
        match text {
            "prefixes" => return Some(Change::Cut),
            "prefixes with their length" => return Some(Change::CutWithLength),
            _ => {}
        }
        let (word, byte) = text.rsplit_once(' ')?;
        let byte = u8::from_str_radix(byte, 16).ok()?;
        match word {
            "changed by" => Some(Change::Turn(byte)),
            "changed to" => Some(Change::Set(byte)),
            _ => None,
        }
    }

    /// The bytes with the change at this place. `None` where there is no such place, where the byte there stays as it
    /// is, and where fewer than two are left for their length.
    pub fn apply(
        self,
        alloc: Global,
        bytes: &[u8],
        place: usize,
    ) -> Result<Option<Vec<u8>>, AllocError> {
        let Some(byte) = bytes.get(place).copied() else {
            return Ok(None);
        };
        match self {
            Change::Cut => Ok(Some(cut(alloc, bytes, place)?)),
            Change::CutWithLength => Ok(with_length(cut(alloc, bytes, place)?)),
            Change::Turn(bits) => with_byte(alloc, bytes, place, byte ^ bits),
            Change::Set(value) => with_byte(alloc, bytes, place, value),
        }
    }
}

fn cut(alloc: Global, bytes: &[u8], place: usize) -> Result<Vec<u8>, AllocError> {
    let mut front = Vec::from_slice(alloc, bytes)?;
    front.truncate(place);
    Ok(front)
}

/// The bytes with their number in the first two; `None` where there are no two, or too many for that.
fn with_length(mut bytes: Vec<u8>) -> Option<Vec<u8>> {
    let size = u16::try_from(bytes.len()).ok()?;
    let [high, low, ..] = bytes.as_mut_slice() else {
        return None;
    };
    [*high, *low] = size.to_be_bytes();
    Some(bytes)
}

/// The bytes with another one at a place; `None` where it is already there.
fn with_byte(
    alloc: Global,
    bytes: &[u8],
    place: usize,
    byte: u8,
) -> Result<Option<Vec<u8>>, AllocError> {
    let mut changed = Vec::from_slice(alloc, bytes)?;
    match changed.get_mut(place) {
        Some(there) if *there != byte => *there = byte,
        _ => return Ok(None),
    }
    Ok(Some(changed))
}
