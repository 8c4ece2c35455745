//! Reading blocks.
ghost use Rattle.std.specs.Prelude.{◌≡◌, ◌≢◌, ◌++◌, ℕ, List, IfOk, MatchOption};
ghost use Rattle.chpw_blocks.specs.Blocks.{block, joined, AreShort, IsShort};

use chpw_rules::Items;
use std::alloc::{AllocError, Global};

const LENGTH_BYTES: usize = 4;

/// Copies of the byte strings in this text, each after its length: four bytes, high byte first. None if the last one
/// is cut off.
pub fn read_blocks(alloc: Global, text: &[u8]) -> Result<Option<Vec<Items<u8>>>, AllocError>
    ensures value { IfOk result (λ found. MatchOption found
        ((blocks : List (List ℕ)) → AreShort blocks → text.now ≢ joined blocks)
        (λ blocks. AreShort blocks.items × (text.now ≡ joined blocks.items))) }
{
    let mut blocks = Vec::new(alloc);
    let mut rest = text;
    while !rest.is_empty() {
        let Some((block, behind)) = split_block(rest) else {
            return Ok(None);
        };
        blocks.push(Items::of(Vec::from_slice(alloc, block)?))?;
        rest = behind;
    }
    Ok(Some(blocks))
}

// The first block's bytes, and what follows them.
fn split_block(text: &[u8]) -> Option<(&[u8], &[u8])>
    ensures value { MatchOption result
        ((bytes : List ℕ) → (rest : List ℕ) → IsShort bytes → text.now ≢ block bytes ++ rest)
        (λ found. IsShort found.0.now × (text.now ≡ block found.0.now ++ found.1.now)) }
{
    if text.len() < LENGTH_BYTES {
        return None;
    }
    let (head, rest) = text.split_at(LENGTH_BYTES);
    let mut number = [0; LENGTH_BYTES];
    number.copy_from_slice(head);
    let length = u32::from_be_bytes(number) as usize;
    if rest.len() < length {
        return None;
    }
    Some(rest.split_at(length))
}
