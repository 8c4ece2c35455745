//! The fields of an entry: each reader takes its field from the front of the bytes, and returns it with the rest.
ghost use Rattle.std.specs.Prelude.{◌≢◌, map, IfErr};
ghost use Rattle.std.specs.Int.{w8, w16, w32};
ghost use Rattle.krb_keytab.specs.Entries.{number_at, counted_at, components_at};
ghost use Rattle.krb_keytab.specs.Answers.{FieldGives};

use crate::fault::FieldError;
use std::alloc::Global;

/// A number in one byte.
#[tactic(auto, unfolding(crate::specs::Entries::number_at))]
pub(crate) fn u8_at(bytes: &[u8]) -> Result<(u8, &[u8]), FieldError>
    ensures value { FieldGives (λ x. (x.0, x.1.now)) result (number_at w8 bytes.now) }
    ensures no_memory { IfErr result (λ e. e ≢ FieldError.Memory) }
{
    match bytes {
        [number, rest @ ..] => Ok((*number, rest)),
        _ => Err(FieldError::PastEnd),
    }
}

/// A number in two bytes, high byte first.
#[tactic(auto, unfolding(crate::specs::Entries::number_at))]
pub(crate) fn u16_at(bytes: &[u8]) -> Result<(u16, &[u8]), FieldError>
    ensures value { FieldGives (λ x. (x.0, x.1.now)) result (number_at w16 bytes.now) }
    ensures no_memory { IfErr result (λ e. e ≢ FieldError.Memory) }
{
    if bytes.len() < 2 {
        return Err(FieldError::PastEnd);
    }
    let (front, rest) = bytes.split_at(2);
    Ok((u16::from_be_bytes([front[0], front[1]]), rest))
}

/// A number in four bytes, high byte first.
#[tactic(auto, unfolding(crate::specs::Entries::number_at))]
pub(crate) fn u32_at(bytes: &[u8]) -> Result<(u32, &[u8]), FieldError>
    ensures value { FieldGives (λ x. (x.0, x.1.now)) result (number_at w32 bytes.now) }
    ensures no_memory { IfErr result (λ e. e ≢ FieldError.Memory) }
{
    if bytes.len() < 4 {
        return Err(FieldError::PastEnd);
    }
    let (front, rest) = bytes.split_at(4);
    let number = u32::from_be_bytes([front[0], front[1], front[2], front[3]]);
    Ok((number, rest))
}

/// Bytes after their count, which takes two bytes.
#[tactic(auto, unfolding(crate::specs::Entries::counted_at))]
pub(crate) fn read_counted(alloc: Global, bytes: &[u8]) -> Result<(Vec<u8>, &[u8]), FieldError>
    ensures value { FieldGives (λ x. (x.0.items, x.1.now)) result (counted_at bytes.now) }
{
    let (count, rest) = u16_at(bytes)?;
    let count = usize::from(count);
    if rest.len() < count {
        return Err(FieldError::PastEnd);
    }
    let (octets, rest) = rest.split_at(count);
    Ok((Vec::from_slice(alloc, octets)?, rest))
}

/// This many components, each of them bytes after their count.
pub(crate) fn components(
    alloc: Global,
    count: u16,
    bytes: &[u8],
) -> Result<(Vec<Vec<u8>>, &[u8]), FieldError>
    ensures value { FieldGives (λ x. (map (λ c. c.items) x.0.items, x.1.now)) result
        (components_at count bytes.now) }
{
    let mut components = Vec::new(alloc);
    let mut rest = bytes;
    for _ in 0..count {
        let (component, after) = read_counted(alloc, rest)?;
        components.push(component)?;
        rest = after;
    }
    Ok((components, rest))
}
