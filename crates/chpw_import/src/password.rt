//! A principal's keys from a password.
ghost use Rattle.std.specs.Prelude.{◌≡◌, ◌≤◌, ◌++◌, ◌&&◌, true, IfOk, IfSome, None};
ghost use Rattle.std.specs.List.{flat_map};
ghost use Rattle.krb_keys.specs.Keys.{bytes_of, etype_of};
ghost use Rattle.chpw_rules.specs.Fitting.{principal_fits};
ghost use Rattle.chpw_rules.specs.Limits.{is_in, iteration_counts, kvnos};
ghost use Rattle.chpw_rules.specs.Names.{is_name};
ghost use Rattle.chpw_import.specs.Passwords.{IsPasswordOf, HoldsNoPassword, has_carriage_return, row_of, salt_of};

use crate::numbers::KeyNumbers;
use chpw_rules::{AES128_LENGTH, AES256_LENGTH, Items, KeyBytes, Name, PrincipalRow};
use krb_keys::{Etype, Key, string_to_keys};
use std::alloc::{AllocError, Global};

/// The password in a file: its bytes without one newline at its end, alone or after a carriage return; none if nothing
/// is left.
pub fn password_in(bytes: &[u8]) -> Option<&[u8]>
    ensures value { IfSome result (λ password. IsPasswordOf bytes.now password.now) }
    ensures none { result ≡ None → HoldsNoPassword bytes.now }
{
    let password = match bytes {
        [front @ .., b'\r', b'\n'] => front,
        [front @ .., b'\n'] => front,
        _ => bytes,
    };
    if password.is_empty() {
        None
    } else {
        Some(password)
    }
}

/// Whether the newline at the end of these bytes follows a carriage return.
pub fn has_carriage_return(bytes: &[u8]) -> bool
    ensures value { result ≡ has_carriage_return bytes.now }
{
    bytes.ends_with(b"\r\n")
}

/// The default salt of a principal's keys (RFC 4120 section 4): the realm, then the name's components, with
/// nothing between them.
pub fn default_salt(alloc: Global, realm: &[u8], name: &Name) -> Result<Vec<u8>, AllocError>
    ensures value { IfOk result (λ salt. salt.items ≡ salt_of realm.now name.now) }
{
    let mut salt = Vec::from_slice(alloc, realm)?;
    let mut parts = name.parts.as_slice();
    while let [part, rest @ ..] = parts {
        salt.extend_from_slice(part.as_slice())?;
        parts = rest;
    }
    Ok(salt)
}

/// A principal with one key: the one that string-to-key makes from the password with the default salt, for each
/// encryption type (RFC 3962 section 4). It fits a configuration if the name and both numbers do.
#[tactic(auto, using(crate::proofs::PasswordLemmas::aes128_made, crate::proofs::PasswordLemmas::aes256_made, crate::proofs::PasswordLemmas::row_fits))]
pub fn password_row(
    alloc: Global,
    realm: &[u8],
    name: Name,
    password: &[u8],
    numbers: KeyNumbers,
) -> Result<PrincipalRow, AllocError>
    ensures value { IfOk result (λ row. row ≡ row_of realm.now name password.now numbers) }
    ensures fits { is_name name && is_in kvnos numbers.kvno && is_in iteration_counts numbers.iterations ≡ true
        → IfOk result (λ row. principal_fits row ≡ true) }
{
    let salt = default_salt(alloc, realm, &name)?;
    let made = string_to_keys(password, salt.as_slice(), numbers.iterations);
    let aes128 = aes128_bytes(&made.aes128);
    let aes256 = aes256_bytes(&made.aes256);
    let mut keys = Vec::new(alloc);
    keys.push(KeyBytes {
        kvno: numbers.kvno,
        iterations: numbers.iterations,
        aes128,
        aes256,
    })?;
    Ok(PrincipalRow {
        name,
        keys: Items::of(keys),
    })
}

// The bytes of a key of etype 17.
fn aes128_bytes(key: &Key) -> [u8; AES128_LENGTH]
    ensures value { etype_of key.now ≡ Etype.Aes128 → result ≡ bytes_of key.now }
{
    match key {
        Key::Aes128(bytes) => *bytes,
        Key::Aes256(_) => [0; AES128_LENGTH],
    }
}

// The bytes of a key of etype 18.
fn aes256_bytes(key: &Key) -> [u8; AES256_LENGTH]
    ensures value { etype_of key.now ≡ Etype.Aes256 → result ≡ bytes_of key.now }
{
    match key {
        Key::Aes128(_) => [0; AES256_LENGTH],
        Key::Aes256(bytes) => *bytes,
    }
}
