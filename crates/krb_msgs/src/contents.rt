//! The contents of messages.

ghost use Rattle.std.specs.Prelude.{◌≡◌, ◌≤◌, length, IfOk};
ghost use Rattle.krb_msgs.specs.Addresses.{octets_of};
ghost use Rattle.krb_msgs.specs.Making.{priv_part_of, service_name, word_bytes};

use crate::addresses::address_of;
use krb_der::{Bytes, EncKrbPrivPart, OctetString, PrincipalName, SeqNumber, SequenceOf};
use krb_keys::CONFOUNDER_LEN;
use krb_protocol::NT_SRV_INST;
use std::alloc::{AllocError, Global};
use std::net::IpAddr;

/// A copy of these bytes, under any tag.
pub fn copy_bytes<const TAG: u8>(alloc: Global, bytes: &[u8]) -> Result<Bytes<TAG>, AllocError>
    ensures value { IfOk result (λ copy. copy ≡ bytes.now) }
{
    Ok(Bytes::of(Vec::from_slice(alloc, bytes)?))
}

/// The name kadmin/changepw (RFC 3244 section 2).
pub fn service_name(alloc: Global) -> Result<PrincipalName, AllocError>
    ensures value { IfOk result (λ n. n ≡ service_name) }
{
    let mut components = Vec::with_capacity(alloc, 2)?;
    components.push(copy_bytes(alloc, b"kadmin")?)?;
    components.push(copy_bytes(alloc, b"changepw")?)?;
    Ok(PrincipalName {
        name_type: NT_SRV_INST,
        name_string: SequenceOf::of(components),
    })
}

/// Four words as the bytes of a confounder, each low byte first.
pub fn word_bytes(words: [u32; 4]) -> [u8; CONFOUNDER_LEN]
    ensures value { result ≡ word_bytes words }
{
    let [first, second, third, fourth] = words;
    let [a0, a1, a2, a3] = first.to_le_bytes();
    let [b0, b1, b2, b3] = second.to_le_bytes();
    let [c0, c1, c2, c3] = third.to_le_bytes();
    let [d0, d1, d2, d3] = fourth.to_le_bytes();
    [
        a0, a1, a2, a3, b0, b1, b2, b3, c0, c1, c2, c3, d0, d1, d2, d3,
    ]
}

/// The part of a KRB-PRIV with no timestamp, from this address (RFC 4120 section 5.7.1).
pub fn priv_part(
    alloc: Global,
    from: IpAddr,
    user_data: OctetString,
    number: u32,
) -> Result<EncKrbPrivPart, AllocError>
    ensures value { IfOk result (λ part. part ≡ priv_part_of from user_data number) }
    ensures address { IfOk result (λ part. length (octets_of from) ≤ 16) }
{
    Ok(EncKrbPrivPart {
        user_data,
        timestamp: None,
        usec: None,
        seq_number: Some(SeqNumber(number)),
        s_address: address_of(alloc, from)?,
        r_address: None,
    })
}
