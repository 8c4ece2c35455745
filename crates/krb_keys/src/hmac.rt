//! HMAC-SHA1 (RFC 2104).
ghost use Rattle.std.specs.Prelude.{◌≡◌, ℕ, ◌-◌, ◌≤◌, List, ◌++◌, length, map, replicate, bit_xor};
ghost use Rattle.sha1.specs.Sha1.{Holds};
ghost use Rattle.krb_keys.specs.Hmac.{key_block, padded_key, hmac};
ghost use Rattle.krb_keys.specs.HashStates.{IsKeyed};

use sha1::Sha1;

/// The bytes of an HMAC-SHA1.
pub const HMAC_LEN: usize = 20;

// The bytes of a block of SHA-1, B in RFC 2104.
const HASH_BLOCK_LEN: usize = 64;

const IPAD: u8 = 0x36;

const OPAD: u8 = 0x5c;

// `bytes`, with zeros after them.
fn zero_padded(bytes: &[u8]) -> [u8; HASH_BLOCK_LEN]
    requires { length bytes.now ≤ 64 }
    ensures { result ≡ bytes.now ++ replicate (64 - length bytes.now) 0 }
{
    let mut block = [0u8; HASH_BLOCK_LEN];
    block[..bytes.len()].copy_from_slice(bytes);
    block
}

// The key as a block: a longer one is hashed first.
fn key_block(key: &[u8]) -> [u8; HASH_BLOCK_LEN]
    ensures { result ≡ key_block key.now }
{
    if key.len() > HASH_BLOCK_LEN {
        zero_padded(&Sha1::digest(key))
    } else {
        zero_padded(key)
    }
}

// The hash state after `block`, each byte XORed with `pad`.
fn hash_of_pad(block: &[u8; HASH_BLOCK_LEN], pad: u8) -> Sha1
    ensures { Holds result (map (λ b. bit_xor b pad) block.now) }
{
    let mut bytes = *block;
    for byte in bytes.iter_mut() {
        *byte ^= pad;
    }
    let mut hasher = Sha1::new();
    hasher.update(&bytes);
    hasher
}

// A hash can be copied without memory.
fn copy_of(hasher: &Sha1) -> Sha1
    ensures { result ≡ hasher.now }
{
    hasher.clone().unwrap()
}

/// HMAC-SHA1 under one key, whose two pads are hashed once.
#[derive(Drop)]
pub(crate) struct KeyedHmac {
    inner: Sha1,
    outer: Sha1,
}

impl KeyedHmac {
    pub(crate) fn new(key: &[u8]) -> KeyedHmac
        ensures { IsKeyed result key.now }
    {
        let block = key_block(key);
        KeyedHmac {
            inner: hash_of_pad(&block, IPAD),
            outer: hash_of_pad(&block, OPAD),
        }
    }

    pub(crate) fn of(&self, text: &[u8]) -> [u8; HMAC_LEN]
        ensures { (key : List ℕ) → IsKeyed self.now key → result ≡ hmac key text.now }
    {
        let mut first = copy_of(&self.inner);
        first.update(text);
        self.outer_hash(first)
    }

    /// The HMAC of `text` followed by `more`.
    pub(crate) fn of_joined(&self, text: &[u8], more: &[u8]) -> [u8; HMAC_LEN]
        ensures { (key : List ℕ) → IsKeyed self.now key → result ≡ hmac key (text.now ++ more.now) }
    {
        let mut first = copy_of(&self.inner);
        first.update(text);
        first.update(more);
        self.outer_hash(first)
    }

    // The outer hash over the digest of `inner`.
    fn outer_hash(&self, inner: Sha1) -> [u8; HMAC_LEN]
        ensures { (key text : List ℕ) → IsKeyed self.now key
            → Holds inner (padded_key 0x36 key ++ text) → result ≡ hmac key text }
    {
        let middle = inner.finalize();
        let mut outer = copy_of(&self.outer);
        outer.update(&middle);
        outer.finalize()
    }
}

/// HMAC-SHA1 of `text` under `key`, each of any length (RFC 2104 section 2).
pub fn hmac_sha1(key: &[u8], text: &[u8]) -> [u8; HMAC_LEN]
    ensures value { result ≡ hmac key.now text.now }
{
    KeyedHmac::new(key).of(text)
}
