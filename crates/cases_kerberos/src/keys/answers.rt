//! The answers, a function for each kind of case or for two that are opposites. Byte strings are written in hexadecimal.

use crate::refusal::{Answer, Refusal};
use crate::words::{bytes, cipher, key};
use hex::FromHex;
use krb_aes::{BLOCK_LEN, cts_decrypt, cts_encrypt};
use krb_keys::{
    AES128_CTS_HMAC_SHA1_96, AES256_CTS_HMAC_SHA1_96, Etype, FOLD_MAX_LEN, PBKDF2_MAX_LEN,
    derive_key, hmac_sha1, nfold, pbkdf2, seal, string_to_key, string_to_keys, unseal,
};
use std::alloc::Global;
use std::num::NonZeroU32;

/// The answer to a line of words.
pub fn answer(alloc: Global, line: &str) -> Answer {
    let words: Vec<&str> = line.split_whitespace().collect(alloc)?;
    let Some((name, words)) = words.split_first() else {
        return Err(Refusal::NoSuchCase);
    };
    match *name {
        "aes" | "unaes" => block(alloc, *name, words),
        "cts" | "uncts" => text(alloc, *name, words),
        "hmac" => keyed_hash(alloc, words),
        "pbkdf2" => stretched_bytes(alloc, words),
        "nfold" => folded_bytes(alloc, words),
        "key" | "show" => shown_key(alloc, *name, words),
        "derive" => derived_key(alloc, words),
        "string-to-key" => password_key(alloc, words),
        "string-to-keys" => password_keys(alloc, words),
        "seal" => sealed_text(alloc, words),
        "unseal" => unsealed_text(alloc, words),
        _ => Err(Refusal::NoSuchCase),
    }
}

// aes KEY BLOCK, unaes KEY BLOCK
fn block(alloc: Global, name: &str, words: &[&str]) -> Answer {
    let [key, block] = words else {
        return Err(Refusal::WordCount);
    };
    let mut block = <[u8; 16]>::from_hex(block)?;
    let cipher = cipher(alloc, key)?;
    if name == "aes" {
        cipher.encrypt_block(&mut block);
    } else {
        cipher.decrypt_block(&mut block);
    }
    hexadecimal(alloc, &block)
}

// cts KEY TEXT, uncts KEY TEXT
fn text(alloc: Global, name: &str, words: &[&str]) -> Answer {
    let [key, text] = words else {
        return Err(Refusal::WordCount);
    };
    let cipher = cipher(alloc, key)?;
    let mut text = bytes(alloc, text)?;
    if text.len() <= BLOCK_LEN {
        return Err(Refusal::BadLength);
    }
    if name == "cts" {
        cts_encrypt(&cipher, &mut text);
    } else {
        cts_decrypt(&cipher, &mut text);
    }
    hexadecimal(alloc, &text)
}

// hmac KEY TEXT
fn keyed_hash(alloc: Global, words: &[&str]) -> Answer {
    let [key, text] = words else {
        return Err(Refusal::WordCount);
    };
    let (key, text) = (bytes(alloc, key)?, bytes(alloc, text)?);
    hexadecimal(alloc, &hmac_sha1(&key, &text))
}

// pbkdf2 PASSWORD SALT COUNT LENGTH
fn stretched_bytes(alloc: Global, words: &[&str]) -> Answer {
    let [password, salt, count, length] = words else {
        return Err(Refusal::WordCount);
    };
    let count: NonZeroU32 = count.parse()?;
    let length: usize = length.parse()?;
    if length > PBKDF2_MAX_LEN {
        return Err(Refusal::BadLength);
    }
    let (password, salt) = (bytes(alloc, password)?, bytes(alloc, salt)?);
    let mut buffer = [0; PBKDF2_MAX_LEN];
    let out = &mut buffer[..length];
    pbkdf2(&password, &salt, count.get(), out);
    hexadecimal(alloc, out)
}

// nfold TEXT BITS
fn folded_bytes(alloc: Global, words: &[&str]) -> Answer {
    let [text, bits] = words else {
        return Err(Refusal::WordCount);
    };
    let bits: usize = bits.parse()?;
    let text = bytes(alloc, text)?;
    let length = bits / 8;
    let (0, 1..=FOLD_MAX_LEN, 1..=FOLD_MAX_LEN) = (bits % 8, length, text.len()) else {
        return Err(Refusal::BadLength);
    };
    let mut buffer = [0; FOLD_MAX_LEN];
    let out = &mut buffer[..length];
    nfold(&text, out);
    hexadecimal(alloc, out)
}

// key ETYPE BYTES; show ETYPE BYTES, as it is printed for debugging
fn shown_key(alloc: Global, name: &str, words: &[&str]) -> Answer {
    let [etype, bytes] = words else {
        return Err(Refusal::WordCount);
    };
    let key = key(alloc, etype, bytes)?;
    if name == "show" {
        return Ok(format!(in alloc; "{key:?}")?);
    }
    let bytes = hexadecimal(alloc, key.bytes())?;
    Ok(format!(in alloc; "{} {bytes}", key.etype().number())?)
}

// derive ETYPE KEY CONSTANT
fn derived_key(alloc: Global, words: &[&str]) -> Answer {
    let [etype, bytes_of_key, constant] = words else {
        return Err(Refusal::WordCount);
    };
    let key = key(alloc, etype, bytes_of_key)?;
    let constant = bytes(alloc, constant)?;
    if constant.is_empty() || constant.len() > BLOCK_LEN {
        return Err(Refusal::BadLength);
    }
    hexadecimal(alloc, derive_key(&key, &constant).bytes())
}

// string-to-key ETYPE PASSWORD SALT COUNT
fn password_key(alloc: Global, words: &[&str]) -> Answer {
    let [etype, password, salt, count] = words else {
        return Err(Refusal::WordCount);
    };
    let etype = match etype.parse()? {
        AES128_CTS_HMAC_SHA1_96 => Etype::Aes128,
        AES256_CTS_HMAC_SHA1_96 => Etype::Aes256,
        _ => return Err(Refusal::BadNumber),
    };
    let count: NonZeroU32 = count.parse()?;
    let (password, salt) = (bytes(alloc, password)?, bytes(alloc, salt)?);
    hexadecimal(
        alloc,
        string_to_key(etype, &password, &salt, count.get()).bytes(),
    )
}

// string-to-keys PASSWORD SALT COUNT
fn password_keys(alloc: Global, words: &[&str]) -> Answer {
    let [password, salt, count] = words else {
        return Err(Refusal::WordCount);
    };
    let count: NonZeroU32 = count.parse()?;
    let (password, salt) = (bytes(alloc, password)?, bytes(alloc, salt)?);
    let keys = string_to_keys(&password, &salt, count.get());
    let aes128 = hexadecimal(alloc, keys.aes128.bytes())?;
    let aes256 = hexadecimal(alloc, keys.aes256.bytes())?;
    Ok(format!(in alloc; "{aes128} {aes256}")?)
}

// seal ETYPE KEY USAGE CONFOUNDER PLAIN
fn sealed_text(alloc: Global, words: &[&str]) -> Answer {
    let [etype, bytes_of_key, usage, confounder, plain] = words else {
        return Err(Refusal::WordCount);
    };
    let key = key(alloc, etype, bytes_of_key)?;
    let usage = usage.parse()?;
    let confounder = <[u8; 16]>::from_hex(confounder)?;
    let plain = bytes(alloc, plain)?;
    if plain.is_empty() {
        return Err(Refusal::BadLength);
    }
    hexadecimal(alloc, &seal(alloc, &key, usage, confounder, &plain)?)
}

// unseal ETYPE KEY USAGE TEXT
fn unsealed_text(alloc: Global, words: &[&str]) -> Answer {
    let [etype, bytes_of_key, usage, text] = words else {
        return Err(Refusal::WordCount);
    };
    let key = key(alloc, etype, bytes_of_key)?;
    let usage = usage.parse()?;
    let text = bytes(alloc, text)?;
    hexadecimal(alloc, &unseal(alloc, &key, usage, &text)?)
}

fn hexadecimal(alloc: Global, bytes: &[u8]) -> Answer {
    Ok(hex::encode(alloc, bytes)?)
}
