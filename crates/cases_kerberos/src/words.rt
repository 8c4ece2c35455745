//! The words of a case: byte strings in hexadecimal, where `-` is the empty one, and keys.

use crate::refusal::Refusal;
use krb_aes::Aes;
use krb_keys::{Key, key_of};
use std::alloc::Global;

/// The bytes of a word.
pub fn bytes(alloc: Global, word: &str) -> Result<Vec<u8>, Refusal> {
    if word == "-" {
        return Ok(Vec::new(alloc));
    }
    Ok(hex::decode(alloc, word)?)
}

/// The key of an encryption type's number and bytes.
pub fn key(alloc: Global, etype: &str, word: &str) -> Result<Key, Refusal> {
    let etype = etype.parse()?;
    Ok(key_of(etype, &bytes(alloc, word)?)?)
}

/// The cipher under a key of 16 or 32 bytes.
pub fn cipher(alloc: Global, word: &str) -> Result<Aes, Refusal> {
    Aes::new(&bytes(alloc, word)?).ok_or(Refusal::BadLength)
}
