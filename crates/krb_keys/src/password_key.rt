//! Keys from passwords.
ghost use Rattle.std.specs.Prelude.{◌≡◌, ℕ, ◌≤◌, List, length};
ghost use Rattle.krb_keys.specs.HashStates.{IsKeyed};
ghost use Rattle.krb_keys.specs.Keys.{s2k};
ghost use Rattle.krb_keys.specs.Pbkdf2.{pbkdf2_block, pbkdf2};

use crate::derivation::derive_key;
use crate::etype::Etype;
use crate::hmac::{HMAC_LEN, KeyedHmac};
use crate::key::Key;
use krb_aes::xor_into;

/// The most bytes that `pbkdf2` returns.
pub const PBKDF2_MAX_LEN: usize = 1024;

// The constant of keys from passwords (RFC 3962 section 4).
const KERBEROS: &[u8; 8] = b"kerberos";

/// A key of each encryption type, from one password and salt under one iteration count.
#[derive(Clone, Copy)]
pub struct BothKeys {
    /// The key of encryption type 17.
    pub aes128: Key,
    /// The key of encryption type 18.
    pub aes256: Key,
}

// Block `index` of PBKDF2, counted from 1: F of RFC 2898 section 5.2.
fn pbkdf2_block(keyed: &KeyedHmac, salt: &[u8], index: u32, n: u32) -> [u8; HMAC_LEN]
    requires { 1 ≤ n }
    ensures { (password : List ℕ) → IsKeyed keyed.now password
        → result ≡ pbkdf2_block password salt.now n index }
{
    let mut hash = keyed.of_joined(salt, &index.to_be_bytes());
    let mut sum = hash;
    for _ in 1..n {
        hash = keyed.of(&hash);
        xor_into(&mut sum, &hash);
    }
    sum
}

/// Fills `out`, of at most 1024 bytes, with PBKDF2 of `password` and `salt` under `n` iterations,
/// at least 1 (RFC 2898 section 5.2), over HMAC-SHA1.
pub fn pbkdf2(password: &[u8], salt: &[u8], n: u32, out: &mut [u8])
    requires positive { 1 ≤ n }
    requires short { length out.old ≤ PBKDF2_MAX_LEN }
    ensures value { out.new ≡ pbkdf2 password.now salt.now n (length out.old) }
{
    let keyed = KeyedHmac::new(password);
    let count = out.len();
    for i in 0..count.div_ceil(HMAC_LEN) {
        let block = pbkdf2_block(&keyed, salt, i as u32 + 1, n);
        let start = HMAC_LEN * i;
        let end = count.min(start + HMAC_LEN);
        out[start..end].copy_from_slice(&block[..end - start]);
    }
}

/// The key of a password and a salt under `n` iterations, at least 1: string-to-key of RFC 3962
/// section 4.
pub fn string_to_key(etype: Etype, password: &[u8], salt: &[u8], n: u32) -> Key
    requires positive { 1 ≤ n }
    ensures value { result ≡ s2k etype password.now salt.now n }
{
    let random = match etype {
        Etype::Aes128 => {
            let mut bytes = [0; 16];
            pbkdf2(password, salt, n, &mut bytes);
            Key::Aes128(bytes)
        }
        Etype::Aes256 => {
            let mut bytes = [0; 32];
            pbkdf2(password, salt, n, &mut bytes);
            Key::Aes256(bytes)
        }
    };
    derive_key(&random, KERBEROS)
}

/// Both keys of a password and a salt under `n` iterations, at least 1, as `string_to_key` gives
/// each, at two thirds of the cost: the 16 bytes of PBKDF2 are the first of its 32.
pub fn string_to_keys(password: &[u8], salt: &[u8], n: u32) -> BothKeys
    requires positive { 1 ≤ n }
    ensures aes128 { result.aes128 ≡ s2k Etype.Aes128 password.now salt.now n }
    ensures aes256 { result.aes256 ≡ s2k Etype.Aes256 password.now salt.now n }
{
    let mut bytes = [0; 32];
    pbkdf2(password, salt, n, &mut bytes);
    let mut front = [0; 16];
    front.copy_from_slice(&bytes[..16]);
    BothKeys {
        aes128: derive_key(&Key::Aes128(front), KERBEROS),
        aes256: derive_key(&Key::Aes256(bytes), KERBEROS),
    }
}
