//! A request: an AP-REQ and a KRB-PRIV.
ghost use Rattle.std.specs.Prelude.{◌≡◌, ◌+◌, ◌≤◌, ◌<◌, length, IfOk, IfErr, OnOk, Some, None, false};
ghost use Rattle.chpw_frame.specs.Framing.{request_versions, request_version, old_request_version};
ghost use Rattle.chpw_frame.specs.Framing.{first_fault, version_of, ap_of, tail_of, framed, header_length};
ghost use Rattle.chpw_frame.specs.Stream.{longest};

use crate::fault::FrameFault;
use crate::parts::{Parts, join, split};
use std::alloc::{AllocError, Global};

/// The version of a request that changes or sets a password (RFC 3244 section 2).
pub const REQUEST_VERSION: u16 = 0xff80;

/// The version of a request of the earlier protocol, whose user-data is the new password itself
/// (draft-ietf-cat-kerb-chg-password-02 section 3).
pub const OLD_REQUEST_VERSION: u16 = 0x0001;

/// The versions of the requests that are accepted.
pub const REQUEST_VERSIONS: [u16; 2] = [REQUEST_VERSION, OLD_REQUEST_VERSION];

/// The parts of a request of either version (RFC 3244 section 2), or its first fault.
pub fn split_request(bytes: &[u8]) -> Result<Parts<'_>, FrameFault>
    ensures first { IfErr result (λ fault. first_fault request_versions false bytes.now ≡ Some fault) }
    ensures none { OnOk result (first_fault request_versions false bytes.now ≡ None) }
    ensures version { IfOk result (λ p. p.version ≡ version_of bytes.now) }
    ensures ap { IfOk result (λ p. p.ap.now ≡ ap_of bytes.now) }
    ensures tail { IfOk result (λ p. p.tail.now ≡ tail_of bytes.now) }
{
    split(bytes, &REQUEST_VERSIONS, false)
}

/// The request with these parts, of 65,535 bytes at most.
pub fn join_request(alloc: Global, ap: &[u8], tail: &[u8]) -> Result<Vec<u8>, AllocError>
    requires some { 0 < length ap.now }
    requires fits { header_length + length ap.now + length tail.now ≤ longest }
    ensures text { IfOk result (λ bytes. bytes.items ≡ framed request_version ap.now tail.now) }
{
    join(alloc, REQUEST_VERSION, ap, tail)
}

/// The request of the earlier protocol with these parts, of 65,535 bytes at most.
pub fn join_old_request(alloc: Global, ap: &[u8], tail: &[u8]) -> Result<Vec<u8>, AllocError>
    requires some { 0 < length ap.now }
    requires fits { header_length + length ap.now + length tail.now ≤ longest }
    ensures text { IfOk result (λ bytes. bytes.items ≡ framed old_request_version ap.now tail.now) }
{
    join(alloc, OLD_REQUEST_VERSION, ap, tail)
}
