//! Sealed texts (RFC 3961 section 5.3, RFC 3962 section 6).
ghost use Rattle.std.specs.Prelude.{◌≡◌, ◌+◌, ◌<◌, ◌≤◌, ◌↔◌, ℕ, List, ◌∷◌, ◌++◌, [], false, IsTrue, IfOk, IsErrOf, length};
ghost use Rattle.std.specs.Int.{w32, to_be_bytes};
ghost use Rattle.std.specs.Str.{bytes_eq};
ghost use Rattle.krb_aes.specs.Bytes.{AreBytes};
ghost use Rattle.krb_keys.specs.Keys.{dk, bytes_of};
ghost use Rattle.krb_keys.specs.Sealing.{encryption_key, integrity_key, checksum_of, sealed, IsSealed, SealsNothing};
ghost use Rattle.krb_keys.specs.Deciphering.{plain_part};

use crate::comparing::are_equal;
use crate::derivation::{cipher_of, derive_key};
use crate::hmac::hmac_sha1;
use crate::key::Key;
use krb_aes::{Aes, cts_decrypt, cts_encrypt};
use std::alloc::{AllocError, Global};
use thiserror::Error;

/// Key usage of a ticket's encrypted part (RFC 4120 section 7.5.1).
pub const USAGE_TICKET: u32 = 2;

/// Key usage of an AP-REQ's authenticator (RFC 4120 section 7.5.1).
pub const USAGE_AP_REQ_AUTHENTICATOR: u32 = 11;

/// Key usage of an AP-REP's encrypted part (RFC 4120 section 7.5.1).
pub const USAGE_AP_REP_ENC_PART: u32 = 12;

/// Key usage of a KRB-PRIV's encrypted part (RFC 4120 section 7.5.1).
pub const USAGE_KRB_PRIV: u32 = 13;

/// The bytes of a confounder, with which each text begins before it is enciphered.
pub const CONFOUNDER_LEN: usize = 16;

/// The bytes of the checksum, with which each sealed text ends: a truncated HMAC.
pub const CHECKSUM_LEN: usize = 12;

// The last byte of the constants that make Ke and Ki (RFC 3961 section 5.3).
const ENCRYPTION: u8 = 0xaa;

const INTEGRITY: u8 = 0x55;

/// Why a text does not unseal, in the order of the checks.
#[derive(Clone, Copy, Debug, Drop, Error)]
pub enum UnsealFault {
    /// It has 28 bytes or fewer: a confounder and a checksum, with nothing between them.
    #[error("too short for a sealed text")]
    TooShort,
    /// Its checksum is wrong: it is not sealed under this key and usage.
    #[error("not sealed under this key and usage")]
    BadMac,
    /// Memory ran out before the checksum was compared. Never where the text is too short.
    #[error("out of memory")]
    Memory,
}

// Ke or Ki, by the last byte of its constant.
fn derived_key(key: &Key, usage: u32, purpose: u8) -> Key
    ensures { result ≡ dk key.now (to_be_bytes w32 usage ++ purpose ∷ []) }
{
    let [a, b, c, d] = usage.to_be_bytes();
    derive_key(key, &[a, b, c, d, purpose])
}

// The cipher under Ke.
#[tactic(auto, unfolding(crate::specs::Sealing::encryption_key))]
fn encryption_cipher(key: &Key, usage: u32) -> Aes
    ensures { result ≡ bytes_of (encryption_key key.now usage) }
{
    cipher_of(&derived_key(key, usage, ENCRYPTION))
}

// The checksum of a text, under Ki.
#[tactic(auto, unfolding(crate::specs::Sealing::checksum_of, crate::specs::Sealing::integrity_key))]
fn checksum_of(key: &Key, usage: u32, text: &[u8]) -> [u8; CHECKSUM_LEN]
    ensures { result ≡ checksum_of key.now usage text.now }
{
    let whole = hmac_sha1(derived_key(key, usage, INTEGRITY).bytes(), text);
    let mut checksum = [0; CHECKSUM_LEN];
    checksum.copy_from_slice(&whole[..CHECKSUM_LEN]);
    checksum
}

/// Seals a text, of at least one byte, under a key for a key usage (RFC 3961 section 5.3, RFC 3962 section 6): the
/// confounder of 16 bytes and the text, enciphered, and then their checksum, 28 bytes more than the text. It fails only
/// where memory does.
#[tactic(auto, unfolding(crate::specs::Sealing::sealed, crate::specs::Sealing::enciphered))]
pub fn seal(
    alloc: Global,
    key: &Key,
    usage: u32,
    confounder: [u8; CONFOUNDER_LEN],
    plain: &[u8],
) -> Result<Vec<u8>, AllocError>
    requires some { 0 < length plain.now }
    ensures value { IfOk result (λ text. text.items ≡ sealed key.now usage confounder plain.now) }
    ensures len { IfOk result (λ text. length text.items ≡ length plain.now + 28) }
{
    let mut text = Vec::with_capacity(alloc, CONFOUNDER_LEN + plain.len() + CHECKSUM_LEN)?;
    text.extend_from_slice(&confounder)?;
    text.extend_from_slice(plain)?;
    let checksum = checksum_of(key, usage, &text);
    cts_encrypt(&encryption_cipher(key, usage), &mut text);
    text.extend_from_slice(&checksum)?;
    Ok(text)
}

fn is_checksum(key: &Key, usage: u32, text: &[u8], checksum: &[u8]) -> bool
    ensures value { result ≡ bytes_eq (checksum_of key.now usage text.now) checksum.now }
    ensures bytes { AreBytes text.now }
{
    are_equal(&checksum_of(key, usage, text), checksum)
}

// Deciphers a text in place, all but its checksum, and answers whether that checksum is right. Then the plain text
// is between confounder and checksum.
fn opens_in_place(key: &Key, usage: u32, cipher: &mut [u8]) -> bool
    requires { 28 < length cipher.old }
    ensures len { length cipher.new ≡ length cipher.old }
    ensures found { IsTrue result → IsSealed key.now usage cipher.old (plain_part cipher.new) }
    ensures nothing { result ≡ false → SealsNothing key.now usage cipher.old }
    ensures only { (plain : List ℕ) → IsSealed key.now usage cipher.old plain
        → plain_part cipher.new ≡ plain }
{
    let (body, checksum) = cipher.split_at_mut(cipher.len() - CHECKSUM_LEN);
    cts_decrypt(&encryption_cipher(key, usage), body);
    is_checksum(key, usage, body, checksum)
}

// What is between confounder and checksum.
fn plain_part(mut text: Vec<u8>) -> Vec<u8>
    requires { 28 < length text.items }
    ensures { result.items ≡ plain_part text.items }
{
    // The confounder is moved to the end and cut off there, which takes no memory.
    text.truncate(text.len() - CHECKSUM_LEN);
    text.rotate_left(CONFOUNDER_LEN);
    text.truncate(text.len() - CONFOUNDER_LEN);
    text
}

/// Opens, in place, a text that was sealed under a key for a key usage: the plain text, 28 bytes shorter, is a part of
/// the text, and no memory is taken. A text seals at most one plain text under a key and a usage
/// (`laws::one_plain_text`).
///
/// A text of 28 bytes or fewer is refused as `TooShort`, any other that seals nothing as `BadMac`. The content of a
/// refused text must not be used: it is deciphered and not authentic.
pub fn unseal_in_place<'a>(
    key: &Key,
    usage: u32,
    cipher: &'a mut [u8],
) -> Result<&'a [u8], UnsealFault>
    ensures first { IsErrOf result UnsealFault.TooShort ↔ length cipher.old ≤ 28 }
    ensures too_short { IsErrOf result UnsealFault.TooShort
        → SealsNothing key.now usage cipher.old }
    ensures bad_mac { IsErrOf result UnsealFault.BadMac
        → SealsNothing key.now usage cipher.old }
    ensures no_memory { IsErrOf result UnsealFault.Memory → ⊥ }
    ensures found { IfOk result (λ plain. IsSealed key.now usage cipher.old plain.now) }
    ensures only { (plain : List ℕ) → IsSealed key.now usage cipher.old plain
        → IfOk result (λ found. found.now ≡ plain) }
    ensures len { IfOk result (λ plain. length plain.now + 28 ≡ length cipher.old) }
{
    if cipher.len() <= CONFOUNDER_LEN + CHECKSUM_LEN {
        return Err(UnsealFault::TooShort);
    }
    if !opens_in_place(key, usage, cipher) {
        return Err(UnsealFault::BadMac);
    }
    let text = &cipher[..cipher.len() - CHECKSUM_LEN];
    Ok(&text[CONFOUNDER_LEN..])
}

/// Opens a text that was sealed under a key for a key usage, and leaves it unchanged: the plain text, 28 bytes shorter,
/// is in new memory. It answers as [`unseal_in_place`] does, or `Memory`.
pub fn unseal(alloc: Global, key: &Key, usage: u32, cipher: &[u8]) -> Result<Vec<u8>, UnsealFault>
    ensures first { IsErrOf result UnsealFault.TooShort ↔ length cipher.now ≤ 28 }
    ensures too_short { IsErrOf result UnsealFault.TooShort
        → SealsNothing key.now usage cipher.now }
    ensures bad_mac { IsErrOf result UnsealFault.BadMac
        → SealsNothing key.now usage cipher.now }
    ensures found { IfOk result (λ plain. IsSealed key.now usage cipher.now plain.items) }
    ensures only { (plain : List ℕ) → IsSealed key.now usage cipher.now plain
        → IfOk result (λ found. found.items ≡ plain) }
    ensures len { IfOk result (λ plain. length plain.items + 28 ≡ length cipher.now) }
{
    if cipher.len() <= CONFOUNDER_LEN + CHECKSUM_LEN {
        return Err(UnsealFault::TooShort);
    }
    let mut text = Vec::from_slice(alloc, cipher).map_err(|_| UnsealFault::Memory)?;
    if !opens_in_place(key, usage, &mut text) {
        return Err(UnsealFault::BadMac);
    }
    Ok(plain_part(text))
}
