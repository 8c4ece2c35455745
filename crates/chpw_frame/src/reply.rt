//! A reply: an AP-REP and a KRB-PRIV, or a KRB-ERROR alone.
ghost use Rattle.std.specs.Prelude.{◌≡◌, ◌+◌, ◌≤◌, length, IfOk, IfErr, OnOk, Some, None, true};
ghost use Rattle.chpw_frame.specs.Framing.{reply_versions, reply_version, first_fault, version_of, ap_of, tail_of, framed, header_length};
ghost use Rattle.chpw_frame.specs.Stream.{longest};

use crate::fault::FrameFault;
use crate::parts::{Parts, join, split};
use std::alloc::{AllocError, Global};

/// The version of a reply (RFC 3244 section 2).
pub const REPLY_VERSION: u16 = 0x0001;

/// The parts of a reply (RFC 3244 section 2), or its first fault. An empty AP part means that the
/// tail is a KRB-ERROR.
pub fn split_reply(bytes: &[u8]) -> Result<Parts<'_>, FrameFault>
    ensures first { IfErr result (λ fault. first_fault reply_versions true bytes.now ≡ Some fault) }
    ensures none { OnOk result (first_fault reply_versions true bytes.now ≡ None) }
    ensures version { IfOk result (λ p. p.version ≡ version_of bytes.now) }
    ensures ap { IfOk result (λ p. p.ap.now ≡ ap_of bytes.now) }
    ensures tail { IfOk result (λ p. p.tail.now ≡ tail_of bytes.now) }
{
    split(bytes, &[REPLY_VERSION], true)
}

/// The reply with these parts, of 65,535 bytes at most.
pub fn join_reply(alloc: Global, ap: &[u8], tail: &[u8]) -> Result<Vec<u8>, AllocError>
    requires fits { header_length + length ap.now + length tail.now ≤ longest }
    ensures text { IfOk result (λ bytes. bytes.items ≡ framed reply_version ap.now tail.now) }
{
    join(alloc, REPLY_VERSION, ap, tail)
}
