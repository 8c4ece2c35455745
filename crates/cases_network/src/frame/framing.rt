//! Requests and replies, split into their parts and joined from them.

use chpw_frame::{Parts, join_old_request, join_reply, join_request, split_reply, split_request};
use krb_protocol::Refusal;
use std::alloc::Global;
use support_cases::{Fault, bytes, hex_text};

/// The parts of a `request`, or of a reply.
pub fn split(alloc: Global, kind: &str, text: &str) -> Result<String, Fault> {
    let message = bytes(alloc, text)?;
    let parts = match kind {
        "request" => split_request(&message),
        _ => split_reply(&message),
    };
    let shown = match parts {
        Ok(Parts { version, ap, tail }) => {
            let ap = hex_text(alloc, ap)?;
            let tail = hex_text(alloc, tail)?;
            format!(in alloc; "version {version:04x} ap {ap} tail {tail}")
        }
        Err(fault) => {
            let Refusal { code, error, text } = fault.refusal();
            format!(in alloc; "{fault:?} {code}/{error} {text}")
        }
    };
    Ok(shown?)
}

/// A reply, or a request of either protocol, with the two parts of a line.
pub fn joined(alloc: Global, kind: &str, text: &str) -> Result<String, Fault> {
    let (ap, tail) = text.split_once(' ').unwrap_or((text, "-"));
    let (ap, tail) = (bytes(alloc, ap)?, bytes(alloc, tail)?);
    if ap.len() > 1_000 || tail.len() > 1_000 {
        return Err(Fault::NoSuchCase);
    }
    let joined = match kind {
        "join-reply" => join_reply(alloc, &ap, &tail)?,
        _ if ap.is_empty() => return Err(Fault::NoSuchCase),
        "join-request" => join_request(alloc, &ap, &tail)?,
        _ => join_old_request(alloc, &ap, &tail)?,
    };
    Ok(hex_text(alloc, &joined)?)
}
