//! The parts of a message, request or reply.
ghost use Rattle.std.specs.Prelude.{◌≡◌, ◌+◌, ◌≤◌, length, IfOk, IfErr, OnOk, Some, None};
ghost use Rattle.chpw_frame.specs.Framing.{first_fault, version_of, ap_of, tail_of, framed, header_length};
ghost use Rattle.chpw_frame.specs.Stream.{longest};

use crate::fault::FrameFault;
use std::alloc::{AllocError, Global};

/// Bytes of message length, version and AP length.
const HEADER_LENGTH: usize = 6;

/// The parts of a message (RFC 3244 section 2).
#[derive(Clone, Copy, Drop)]
pub struct Parts<'a> {
    pub version: u16,
    /// The AP-REQ or AP-REP.
    pub ap: &'a [u8],
    /// The KRB-PRIV; in a reply whose AP part is empty the KRB-ERROR.
    pub tail: &'a [u8],
}

/// The parts of a message of one of these versions, whose AP part may or may not be empty.
pub(crate) fn split<'a>(
    bytes: &'a [u8],
    versions: &[u16],
    may_be_empty: bool,
) -> Result<Parts<'a>, FrameFault>
    ensures first { IfErr result (λ fault. first_fault versions.now may_be_empty bytes.now ≡ Some fault) }
    ensures none { OnOk result (first_fault versions.now may_be_empty bytes.now ≡ None) }
    ensures version { IfOk result (λ p. p.version ≡ version_of bytes.now) }
    ensures ap { IfOk result (λ p. p.ap.now ≡ ap_of bytes.now) }
    ensures tail { IfOk result (λ p. p.tail.now ≡ tail_of bytes.now) }
{
    let [l0, l1, v0, v1, a0, a1, rest @ ..] = bytes else {
        return Err(FrameFault::BadLength);
    };
    if usize::from(u16::from_be_bytes([*l0, *l1])) != bytes.len() {
        return Err(FrameFault::BadLength);
    }
    let version = u16::from_be_bytes([*v0, *v1]);
    if !versions.contains(&version) {
        return Err(FrameFault::BadVersion);
    }
    let ap_length = usize::from(u16::from_be_bytes([*a0, *a1]));
    if ap_length == 0 && !may_be_empty {
        return Err(FrameFault::BadParts);
    }
    if ap_length > rest.len() {
        return Err(FrameFault::BadParts);
    }
    let (ap, tail) = rest.split_at(ap_length);
    Ok(Parts { version, ap, tail })
}

/// The message of this version with these parts.
pub(crate) fn join(
    alloc: Global,
    version: u16,
    ap: &[u8],
    tail: &[u8],
) -> Result<Vec<u8>, AllocError>
    requires fits { header_length + length ap.now + length tail.now ≤ longest }
    ensures text { IfOk result (λ bytes. bytes.items ≡ framed version ap.now tail.now) }
{
    let ap_length = ap.len() as u16;
    let whole_length = (HEADER_LENGTH + ap.len() + tail.len()) as u16;
    let mut bytes = Vec::with_capacity(alloc, usize::from(whole_length))?;
    bytes.extend_from_slice(&whole_length.to_be_bytes())?;
    bytes.extend_from_slice(&version.to_be_bytes())?;
    bytes.extend_from_slice(&ap_length.to_be_bytes())?;
    bytes.extend_from_slice(ap)?;
    bytes.extend_from_slice(tail)?;
    Ok(bytes)
}
