//! Words of a case, and bytes as they are printed.

use crate::fault::Fault;
use hex::{FromHexError, decode, encode};
use std::alloc::{AllocError, Global};
use std::io::{self, ErrorKind};

/// The error that ends the program where a line is no case.
pub fn no_case() -> io::Error {
    io::Error::from(ErrorKind::InvalidInput)
}

/// The bytes of a word in hexadecimal, `-` for none.
pub fn bytes(alloc: Global, word: &str) -> Result<Vec<u8>, Fault> {
    let digits = if word == "-" { "" } else { word };
    match decode(alloc, digits) {
        Ok(bytes) => Ok(bytes),
        Err(FromHexError::OutOfMemory) => Err(Fault::Memory),
        Err(_) => Err(Fault::NoSuchCase),
    }
}

/// The bytes of a word in hexadecimal, `-` for none, or of one with this many zeros after it, as in `00 zeros 4`.
pub fn bytes_with_zeros(alloc: Global, text: &str) -> Result<Vec<u8>, Fault> {
    let (front, zeros) = text.split_once(" zeros ").unwrap_or((text, "0"));
    let Ok(zeros) = zeros.parse::<u32>() else {
        return Err(Fault::NoSuchCase);
    };
    let mut all = bytes(alloc, front)?;
    for _ in 0..zeros {
        all.push(0)?;
    }
    Ok(all)
}

/// Bytes in hexadecimal, `-` for none.
pub fn hex_text(alloc: Global, bytes: &[u8]) -> Result<String, AllocError> {
    if bytes.is_empty() {
        return String::from_str(alloc, "-");
    }
    encode(alloc, bytes)
}

/// Bytes as text.
pub fn text_of(bytes: &[u8]) -> &str {
    str::from_utf8(bytes).unwrap_or("no UTF-8")
}
