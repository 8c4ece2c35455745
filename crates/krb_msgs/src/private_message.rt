//! KRB-PRIV (RFC 4120 section 3.5).

ghost use Rattle.std.specs.Prelude.{◌≡◌, ◌↔◌, IsTrue};
ghost use Rattle.krb_msgs.specs.Answers.{Answers};
ghost use Rattle.krb_msgs.specs.PrivateMessages as specs_of;
ghost use Rattle.krb_msgs.specs.PrivateMessages.{IsPrivate, MayFollow, OpensPriv, private_of};

use crate::addresses::is_host;
use crate::ap_exchange::ApOpened;
use crate::fault::{OpenError, PrivFault};
use crate::opening::{open_part, read_record};
use krb_der::{EncKrbPrivPart, HostAddress, KrbPriv, OctetString, SeqNumber};
use krb_keys::USAGE_KRB_PRIV;
use krb_protocol::{KRB_PRIV, PVNO};
use std::alloc::Global;
use std::net::IpAddr;

/// Which KRB-PRIVs are taken.
#[derive(Clone, Copy, Drop)]
pub enum Strictness {
    /// Those whose sequence number is the authenticator's, where both have one.
    Lenient,
    /// Of these, those with a sequence number if the authenticator has one, with microseconds beside a timestamp, and
    /// with no recipient's address but that of the service, as RFC 4120 section 3.5.2 asks.
    Strict,
}

/// What a KRB-PRIV says, once it is opened.
#[derive(Drop)]
pub struct Private {
    pub user_bytes: OctetString,
    /// Its timestamp, in seconds since 1970-01-01T00:00:00Z.
    pub stamp: Option<i64>,
}

/// Whether version and message type are those of a KRB-PRIV.
pub fn is_private(message: &KrbPriv) -> bool
    ensures { IsTrue result ↔ IsPrivate message.now }
{
    message.pvno == PVNO && message.msg_type == KRB_PRIV
}

// Whether a sequence number may follow the authenticator's.
fn may_follow(first: Option<SeqNumber>, second: Option<SeqNumber>) -> bool
    ensures { IsTrue result ↔ MayFollow first second }
{
    match (first, second) {
        (Some(first), Some(second)) => first == second,
        _ => true,
    }
}

// Whether messages aren't strict, or this one, which came to this address, is.
fn meets(
    strictness: Strictness,
    local: IpAddr,
    first: Option<SeqNumber>,
    part: &EncKrbPrivPart,
) -> bool
    ensures { result ≡ specs_of.meets strictness local first part.now }
{
    match strictness {
        Strictness::Lenient => true,
        Strictness::Strict => {
            has_expected_number(first, part.seq_number)
                && has_whole_time(part)
                && is_recipient(local, &part.r_address)
        }
    }
}

// Whether the sequence number that is expected is there.
fn has_expected_number(first: Option<SeqNumber>, second: Option<SeqNumber>) -> bool
    ensures { result ≡ specs_of.has_expected_number first second }
{
    first.is_none() || second.is_some()
}

// Whether microseconds come with a timestamp.
fn has_whole_time(part: &EncKrbPrivPart) -> bool
    ensures { result ≡ specs_of.has_whole_time part.now }
{
    part.timestamp.is_none() || part.usec.is_some()
}

// Whether no recipient is named, or this host.
fn is_recipient(local: IpAddr, address: &Option<HostAddress>) -> bool
    ensures { result ≡ specs_of.is_recipient local address.now }
{
    match address {
        None => true,
        Some(address) => is_host(address, local),
    }
}

// The contents of its sealed part.
fn private_of(part: EncKrbPrivPart) -> Private
    ensures { result ≡ private_of part }
{
    Private {
        user_bytes: part.user_data,
        stamp: part.timestamp.map(|t| t.0),
    }
}

/// Opens a KRB-PRIV that follows an AP-REQ (RFC 4120 section 3.5.2) and came to this address of the service. The
/// sender's address isn't compared, and the recipient's only of strict messages.
///
/// Of several faults the first is returned, in the order of [`PrivFault`], except that a sealed part that isn't DER
/// comes after [`PrivFault::NotSealed`].
pub fn open_priv(
    alloc: Global,
    strictness: Strictness,
    local: IpAddr,
    opened: &ApOpened,
    bytes: &[u8],
) -> Result<Private, OpenError<PrivFault>>
    ensures opens { Answers (OpensPriv strictness local opened.now.subkey opened.now.seq_number bytes.now) result }
{
    let message: KrbPriv = read_record(alloc, bytes, PrivFault::Malformed)?;
    if !is_private(&message) {
        return Err(OpenError::Fault(PrivFault::WrongMessage));
    }
    let part: EncKrbPrivPart = open_part(
        alloc,
        &opened.subkey,
        USAGE_KRB_PRIV,
        message.enc_part,
        PrivFault::NotSealed,
        PrivFault::Malformed,
    )?;
    if !may_follow(opened.seq_number, part.seq_number) {
        return Err(OpenError::Fault(PrivFault::WrongSeqNumber));
    }
    if !meets(strictness, local, opened.seq_number, &part) {
        return Err(OpenError::Fault(PrivFault::Loose));
    }
    Ok(private_of(part))
}
