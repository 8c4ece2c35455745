//! KerberosTime: the text and the seconds since 1970-01-01T00:00:00Z.

use krb_der::{seconds_to_time, time_to_seconds};
use std::alloc::{AllocError, Global};

/// The seconds of a time's text, or `none`.
pub fn seconds_of(alloc: Global, text: &str) -> Result<String, AllocError> {
    match <[u8; 15]>::try_from(text.as_bytes()) {
        Ok(time) => match time_to_seconds(&time) {
            Some(seconds) => format!(in alloc; "{seconds}"),
            None => String::from_str(alloc, "none"),
        },
        Err(_) => String::from_str(alloc, "not fifteen bytes"),
    }
}

/// The text of the time at some seconds, or `none`.
pub fn text_of(alloc: Global, seconds: &str) -> Result<String, AllocError> {
    let time = match seconds.parse() {
        Ok(seconds) => seconds_to_time(seconds),
        Err(_) => None,
    };
    match time {
        Some(text) => String::from_utf8_lossy(alloc, &text),
        None => String::from_str(alloc, "none"),
    }
}
