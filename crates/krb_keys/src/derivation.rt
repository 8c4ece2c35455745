//! Keys derived from keys: DK (RFC 3961 section 5.1).
ghost use Rattle.std.specs.Prelude.{◌≡◌, ◌≤◌, ◌++◌, length};
ghost use Rattle.krb_keys.specs.Keys.{bytes_of, constant_block, dk};

use crate::folding::nfold;
use crate::key::Key;
use krb_aes::{Aes, BLOCK_LEN};

pub(crate) fn cipher_of(key: &Key) -> Aes
    ensures value { result ≡ bytes_of key.now }
{
    Aes::of(key.bytes())
}

#[tactic(auto, unfolding(crate::specs::Keys::constant_block))]
fn constant_block(constant: &[u8]) -> [u8; BLOCK_LEN]
    requires some { 1 ≤ length constant.now }
    requires short { length constant.now ≤ 16 }
    ensures { result ≡ constant_block constant.now }
{
    let mut block = [0; BLOCK_LEN];
    if constant.len() == BLOCK_LEN {
        block.copy_from_slice(constant);
    } else {
        nfold(constant, &mut block);
    }
    block
}

fn two_blocks(first: &[u8; BLOCK_LEN], second: &[u8; BLOCK_LEN]) -> [u8; 32]
    ensures { result ≡ first.now ++ second.now }
{
    let mut bytes = [0; 32];
    bytes[..BLOCK_LEN].copy_from_slice(first);
    bytes[BLOCK_LEN..].copy_from_slice(second);
    bytes
}

/// The key derived from a key and a constant of 1 to 16 bytes: DK of RFC 3961 section 5.1, with random-to-key of RFC
/// 3962 section 6, which takes the bytes as they are.
pub fn derive_key(key: &Key, constant: &[u8]) -> Key
    requires some { 1 ≤ length constant.now }
    requires short { length constant.now ≤ 16 }
    ensures value { result ≡ dk key.now constant.now }
{
    let cipher = cipher_of(key);
    let mut first = constant_block(constant);
    cipher.encrypt_block(&mut first);
    match key {
        Key::Aes128(_) => Key::Aes128(first),
        Key::Aes256(_) => {
            let mut second = first;
            cipher.encrypt_block(&mut second);
            Key::Aes256(two_blocks(&first, &second))
        }
    }
}
