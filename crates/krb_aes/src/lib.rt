//! Layer: standards and codecs. Touches: the buffers handed in. Called by: krb_keys and krb_msgs.
//!
//! The block cipher AES (FIPS 197) under keys of 16 and 32 bytes, and CBC with ciphertext stealing
//! over it (RFC 3962 section 5).
#![tactic(auto)]

mod block;
mod block_cipher;
mod column;
mod cts;
mod field;
mod key_schedule;
pub mod laws;
mod xor;

pub use block::BLOCK_LEN;
pub use block_cipher::Aes;
pub use cts::{cts_decrypt, cts_encrypt};
pub use xor::xor_into;
