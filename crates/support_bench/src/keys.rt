//! `keys WORD N`: keys and the cipher.
//!
//! - `pbkdf2`: one block of PBKDF2 under N iterations
//! - `sha1`: the digest of N blocks of 64 bytes
//! - `both`: N times both keys, the key of etype 18 being the next password
//! - `each`: likewise, by a call for each key
//! - `encrypt128`, `encrypt256`: a block enciphered N times
//! - `decrypt128`, `decrypt256`: a block deciphered N times
//! - `unseal`: N sealed texts of 1000 bytes, each changed in one byte, tried

ghost use Rattle.std.specs.Prelude.{◌≤◌};

use crate::no_such;
use krb_aes::{Aes, BLOCK_LEN};
use krb_keys::{
    BothKeys, Etype, HMAC_LEN, Key, USAGE_KRB_PRIV, pbkdf2, seal, string_to_key, string_to_keys,
    unseal,
};
use sha1::Sha1;
use std::alloc::{AllocError, Global};
use std::io;

const ITERATIONS: u32 = 4096;

const PASSWORD: &[u8; 9] = b"Old-pass1";

const SALT: &[u8; 16] = b"EXAMPLE.COMalice";

// A sealed text of 1000 bytes has 28 bytes fewer to open.
const PLAIN_LEN: usize = 972;

/// Does it `count` times.
pub fn measure(rt: &(impl Print + AllocGlobal), what: &str, count: u32) -> io::Result<()>
    requires { 1 ≤ count }
{
    match what {
        "pbkdf2" => print_hex(rt, &stretch_block(count)),
        "sha1" => print_hex(rt, &digest(count)),
        "both" => print_keys(rt, &last_keys(count)),
        "each" => print_keys(rt, &last_keys_each(count)),
        "unseal" => rt.println(unsealed_count(rt.alloc(), count)?),
        _ => measure_cipher(rt, what, count),
    }
}

fn measure_cipher(rt: &impl Print, what: &str, count: u32) -> io::Result<()> {
    let block = match what {
        "encrypt128" => times_enciphered(&Aes::of(&[1; 16]), count),
        "encrypt256" => times_enciphered(&Aes::of(&[1; 32]), count),
        "decrypt128" => times_deciphered(&Aes::of(&[1; 16]), count),
        "decrypt256" => times_deciphered(&Aes::of(&[1; 32]), count),
        _ => return Err(no_such()),
    };
    print_hex(rt, &block)
}

fn print_hex(rt: &impl Print, bytes: &[u8]) -> io::Result<()> {
    for byte in bytes {
        print!(rt; "{byte:02x}")?;
    }
    println!(rt; "")
}

fn print_keys(rt: &impl Print, keys: &BothKeys) -> io::Result<()> {
    print_hex(rt, keys.aes128.bytes())?;
    print_hex(rt, keys.aes256.bytes())
}

/// One block of PBKDF2.
fn stretch_block(iterations: u32) -> [u8; HMAC_LEN]
    requires { 1 ≤ iterations }
{
    let mut block = [0; HMAC_LEN];
    pbkdf2(PASSWORD, SALT, iterations, &mut block);
    block
}

/// The digest of `count` blocks of 64 bytes.
fn digest(count: u32) -> [u8; HMAC_LEN] {
    let mut hasher = Sha1::new();
    for _ in 0..count {
        hasher.update(&[3; 64]);
    }
    hasher.finalize()
}

/// Both keys, `count` times, each time with the key of etype 18 before it for a password.
fn last_keys(count: u32) -> BothKeys {
    let mut keys = string_to_keys(PASSWORD, SALT, ITERATIONS);
    for _ in 1..count {
        keys = string_to_keys(keys.aes256.bytes(), SALT, ITERATIONS);
    }
    keys
}

/// Both keys likewise, by a call for each.
fn last_keys_each(count: u32) -> BothKeys {
    let mut keys = each_key(PASSWORD);
    for _ in 1..count {
        keys = each_key(keys.aes256.bytes());
    }
    keys
}

fn each_key(password: &[u8]) -> BothKeys {
    BothKeys {
        aes128: string_to_key(Etype::Aes128, password, SALT, ITERATIONS),
        aes256: string_to_key(Etype::Aes256, password, SALT, ITERATIONS),
    }
}

/// A block enciphered `count` times.
fn times_enciphered(cipher: &Aes, count: u32) -> [u8; BLOCK_LEN] {
    let mut block = [0; BLOCK_LEN];
    for _ in 0..count {
        cipher.encrypt_block(&mut block);
    }
    block
}

/// A block deciphered `count` times.
fn times_deciphered(cipher: &Aes, count: u32) -> [u8; BLOCK_LEN] {
    let mut block = [0; BLOCK_LEN];
    for _ in 0..count {
        cipher.decrypt_block(&mut block);
    }
    block
}

/// How many of `count` texts of 1000 bytes open, each with another first byte.
fn unsealed_count(alloc: Global, count: u32) -> Result<u32, AllocError> {
    let key = Key::Aes256([1; 32]);
    let mut text = seal(alloc, &key, USAGE_KRB_PRIV, [0; 16], &[7; PLAIN_LEN])?;
    let mut opened = 0u32;
    for round in 0..count {
        text[0] = (round % 256) as u8;
        if unseal(alloc, &key, USAGE_KRB_PRIV, &text).is_ok() {
            opened = opened.wrapping_add(1);
        }
    }
    Ok(opened)
}
