//! The block of AES (FIPS 197 section 3.3).

/// The bytes of a block.
pub const BLOCK_LEN: usize = 16;
