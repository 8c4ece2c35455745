//! A worker's words.

use chpw_serve::{Words, WorkerWords};
use hex::encode;
use std::alloc::Global;
use std::io;

/// The words of a block, as bytes.
const BLOCK: usize = 64;

/// `N STREAM PLACE`: the bytes of the sixteen words from that place on; the seed is of zeros but for its last byte, N.
pub fn answer(alloc: Global, text: &str) -> io::Result<String> {
    let mut parts = text.split(' ');
    let mut seed = [0; 32];
    seed[31] = parts.next().unwrap_or("").parse().unwrap_or(0);
    let mut words = WorkerWords::new(seed, number(parts.next()));
    for _ in 0..number(parts.next()) {
        words.next();
    }
    Ok(encode(alloc, &block(&mut words))?)
}

fn number(text: Option<&str>) -> u64 {
    text.unwrap_or("").parse().unwrap_or(0)
}

fn block(words: &mut WorkerWords) -> [u8; BLOCK] {
    let mut bytes = [0; BLOCK];
    for place in bytes.chunks_exact_mut(4) {
        place.copy_from_slice(&words.next().to_le_bytes());
    }
    bytes
}
