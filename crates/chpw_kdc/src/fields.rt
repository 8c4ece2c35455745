//! The words of a line: names, versions and keys.
ghost use Rattle.std.specs.Prelude.{◌≡◌, ◌++◌, ◌==◌, length, map, IfOk, OnOk, IfErr, Ok, Err};
ghost use Rattle.std.specs.Fmt.{decimal};
ghost use Rattle.std.specs.List.{slice_split};
ghost use Rattle.hex.specs.Hex.{encode_lower};
ghost use Rattle.chpw_kdc.specs.Faults.{IsReadFault, ReadUnlessMemory};
ghost use Rattle.chpw_kdc.specs.Lines.{is_sayable, name_text, name_in, part_of, parts_from, is_lower_hex, keys_in, key_in};
ghost use Rattle.chpw_kdc.specs.Lines.{version_in, number_in, digits_value};

use crate::fault::LineFault;
use chpw_rules::{Items, Name};
use hex::FromHexError;
use std::alloc::{AllocError, Global};

/// The most characters of a name in a line.
pub const NAME_TEXT: usize = 900;

/// Both keys of a principal under the default salt.
#[derive(Clone, Copy, Drop)]
pub struct KeyPair {
    /// The key of etype 18.
    pub aes256: [u8; 32],
    /// The key of etype 17.
    pub aes128: [u8; 16],
}

/// Whether a line can have the name: it has components, none of them empty, and at most 900 characters.
pub fn is_sayable(name: &Name) -> bool
    ensures value { result ≡ is_sayable name.now }
{
    let parts = name.parts.as_slice();
    let mut length: usize = 0;
    let mut others = parts;
    while let [part, rest @ ..] = others {
        let part = part.as_slice();
        if part.is_empty() {
            return false;
        }
        length = length
            .saturating_add(part.len().saturating_mul(2))
            .saturating_add(1);
        others = rest;
    }
    !parts.is_empty() && length <= NAME_TEXT + 1
}

/// Adds a name: the components in lower-case hexadecimal digits, with `/` between them.
pub(crate) fn put_name(line: &mut Vec<u8>, name: &Name) -> Result<(), AllocError>
    ensures value { OnOk result (line.new.items ≡ line.old.items ++ name_text name.now.parts) }
{
    let mut parts = name.parts.as_slice();
    while let [part, rest @ ..] = parts {
        put_hex(line, part.as_slice())?;
        if !rest.is_empty() {
            line.push(b'/')?;
        }
        parts = rest;
    }
    Ok(())
}

/// Adds bytes in lower-case hexadecimal digits.
pub(crate) fn put_hex(line: &mut Vec<u8>, bytes: &[u8]) -> Result<(), AllocError>
    ensures value { OnOk result (line.new.items ≡ line.old.items ++ encode_lower bytes.now) }
{
    let digits = hex::encode(*line.allocator(), bytes)?;
    line.extend_from_slice(digits.as_bytes())
}

/// Adds a number in decimal digits.
pub(crate) fn put_number(line: &mut Vec<u8>, number: u32) -> Result<(), AllocError>
    ensures value { OnOk result (line.new.items ≡ line.old.items ++ decimal number) }
{
    let digits = number.to_string(*line.allocator())?;
    line.extend_from_slice(digits.as_bytes())
}

/// The name that a word spells.
#[tactic(auto, unfolding(crate::specs::Lines::name_in))]
pub(crate) fn read_name(alloc: Global, word: &str) -> Result<Name, LineFault>
    ensures value { ReadUnlessMemory result (name_in word.now) }
{
    let pieces = pieces(alloc, word)?;
    let parts = read_parts(alloc, pieces.as_slice())?;
    Ok(Name {
        parts: Items::of(parts),
    })
}

// The components that words spell.
fn read_parts(alloc: Global, words: &[&str]) -> Result<Vec<Items<u8>>, LineFault>
    ensures value { IfOk result (λ parts. parts_from (map (λ w. w.now) words.now) ≡ Ok parts.items) }
    ensures fault { IfErr result (IsReadFault (parts_from (map (λ w. w.now) words.now))) }
{
    let mut parts = Vec::with_capacity(alloc, words.len())?;
    let mut rest = words;
    while let [word, others @ ..] = rest {
        parts.push(read_part(alloc, word)?)?;
        rest = others;
    }
    Ok(parts)
}

// The parts of a word between its `/`.
fn pieces<'a>(alloc: Global, word: &'a str) -> Result<Vec<&'a str>, AllocError>
    ensures value { IfOk result (λ pieces. map (λ piece. piece.now) pieces.items
        ≡ slice_split (λ b. b == 47) word.now) }
{
    word.split('/').collect(alloc)
}

// The component that lower-case hexadecimal digits spell, of one byte at least.
fn read_part(alloc: Global, digits: &str) -> Result<Items<u8>, LineFault>
    ensures value { ReadUnlessMemory result (part_of digits.now) }
{
    if digits.is_empty() || !is_lower_hex(digits) {
        return Err(LineFault::Name);
    }
    match hex::decode(alloc, digits) {
        Ok(bytes) => Ok(Items::of(bytes)),
        Err(FromHexError::OutOfMemory) => Err(LineFault::Memory),
        Err(_) => Err(LineFault::Name),
    }
}

// Whether all are digits or the letters `a` to `f`.
fn is_lower_hex(digits: &str) -> bool
    ensures value { result ≡ is_lower_hex digits.now }
{
    digits
        .as_bytes()
        .iter()
        .all(|byte| matches!(*byte, b'0'..=b'9' | b'a'..=b'f'))
}

/// Both keys that two words spell.
#[tactic(auto, unfolding(crate::specs::Lines::keys_in))]
pub(crate) fn read_keys(aes256: &str, aes128: &str) -> Result<KeyPair, LineFault>
    ensures value { result ≡ keys_in aes256.now aes128.now }
{
    let mut keys = KeyPair {
        aes256: [0; 32],
        aes128: [0; 16],
    };
    read_key(aes256, &mut keys.aes256)?;
    read_key(aes128, &mut keys.aes128)?;
    Ok(keys)
}

// The bytes that a word spells, as many as the key has.
fn read_key(digits: &str, key: &mut [u8]) -> Result<(), LineFault>
    ensures value { OnOk result (key_in (length key.old) digits.now ≡ Ok key.new) }
    ensures fault { IfErr result (λ fault. key_in (length key.old) digits.now ≡ Err fault) }
{
    if !is_lower_hex(digits) {
        return Err(LineFault::Key);
    }
    match hex::decode_to_slice(digits, key) {
        Ok(()) => Ok(()),
        Err(_) => Err(LineFault::Key),
    }
}

/// The version that a word spells, 1 to 4294967295.
#[tactic(auto, unfolding(crate::specs::Lines::version_in))]
pub(crate) fn read_version(word: &str) -> Result<u32, LineFault>
    ensures value { result ≡ version_in word.now }
{
    match read_number(word) {
        None | Some(0) => Err(LineFault::Version),
        Some(version) => Ok(version),
    }
}

/// The number that a word spells: decimal digits without leading zeros, up to 4294967295.
pub(crate) fn read_number(word: &str) -> Option<u32>
    ensures value { result ≡ number_in word.now }
{
    match word.as_bytes() {
        [] | [b'0', _, ..] => None,
        digits => digits_value(digits),
    }
}

// The number that digits spell, up to 4294967295.
fn digits_value(digits: &[u8]) -> Option<u32>
    ensures value { result ≡ digits_value digits.now }
{
    let mut value: u64 = 0;
    let mut rest = digits;
    while let [digit, after @ ..] = rest {
        if !digit.is_ascii_digit() {
            return None;
        }
        value = 10 * value + u64::from(*digit - b'0');
        if value > 0xffff_ffff {
            return None;
        }
        rest = after;
    }
    Some(value as u32)
}
