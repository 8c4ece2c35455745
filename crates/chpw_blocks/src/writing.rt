//! Writing a block.
ghost use Rattle.std.specs.Prelude.{◌≡◌, ◌++◌, OnOk};
ghost use Rattle.chpw_blocks.specs.Blocks.{block, IsShort};

use std::alloc::AllocError;

/// Adds these bytes, fewer than 2^32, after their length: four bytes, high byte first.
pub fn put_block(text: &mut Vec<u8>, bytes: &[u8]) -> Result<(), AllocError>
    requires short { IsShort bytes.now }
    ensures value { OnOk result (text.new.items ≡ text.old.items ++ block bytes.now) }
{
    let length = bytes.len() as u32;
    text.extend_from_slice(&length.to_be_bytes())?;
    text.extend_from_slice(bytes)?;
    Ok(())
}
