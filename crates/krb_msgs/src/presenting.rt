//! The part of an AP-REQ that is in the clear (RFC 4120 section 3.2.3).

ghost use Rattle.std.specs.Prelude.{◌≡◌, ◌↔◌, IsTrue};
ghost use Rattle.krb_msgs.specs.Answers.{Answers};
ghost use Rattle.krb_msgs.specs.ServiceKeys.{service_key};
ghost use Rattle.krb_msgs.specs.Presented.{HasVersion, IsForUs, IsKnownEtype, Presents, change_service};

use crate::fault::{ApFault, OpenError};
use crate::opening::read_record;
use crate::service_keys::{ServiceKey, service_key};
use krb_der::{ApReq, EncryptedData, GeneralString, Ticket};
use krb_keys::{AES128_CTS_HMAC_SHA1_96, AES256_CTS_HMAC_SHA1_96, Key};
use krb_protocol::{KRB_AP_REQ, PVNO, USE_SESSION_KEY};
use std::alloc::Global;

fn has_version(request: &ApReq) -> bool
    ensures { IsTrue result ↔ HasVersion request.now }
{
    request.pvno == PVNO && request.ticket.tkt_vno == PVNO
}

fn is_change_service(name: &[GeneralString]) -> bool
    ensures { IsTrue result ↔ (name.now ≡ change_service) }
{
    match name {
        [first, second] => {
            first.as_slice() == b"kadmin".as_slice() && second.as_slice() == b"changepw".as_slice()
        }
        _ => false,
    }
}

/// Whether a ticket is for kadmin/changepw of this realm (RFC 3244 section 2).
pub fn is_for_us(realm: &[u8], ticket: &Ticket) -> bool
    ensures { IsTrue result ↔ IsForUs realm.now ticket.now }
{
    ticket.realm.as_slice() == realm && is_change_service(ticket.sname.name_string.as_slice())
}

fn has_known_etype(part: &EncryptedData) -> bool
    ensures { IsTrue result ↔ IsKnownEtype part.now.etype }
{
    part.etype == AES128_CTS_HMAC_SHA1_96 || part.etype == AES256_CTS_HMAC_SHA1_96
}

// The service key that a part was sealed under.
fn key_for(keys: &[ServiceKey], part: &EncryptedData) -> Option<Key>
    ensures { result ≡ service_key keys.now part.now.etype part.now.kvno }
{
    service_key(keys, part.etype, part.kvno)
}

/// The request, and the service key of its ticket; refused as `Malformed`, `Version`, `MessageType`, `UserToUser`,
/// `NotForUs`, `TicketEtype`, `NoServiceKey`, in this order.
pub fn read_request(
    alloc: Global,
    realm: &[u8],
    keys: &[ServiceKey],
    bytes: &[u8],
) -> Result<(ApReq, Key), OpenError<ApFault>>
    ensures { Answers (Presents realm.now keys.now bytes.now) result }
{
    let request: ApReq = read_record(alloc, bytes, ApFault::Malformed)?;
    if !has_version(&request) {
        return Err(OpenError::Fault(ApFault::Version));
    }
    if request.msg_type != KRB_AP_REQ {
        return Err(OpenError::Fault(ApFault::MessageType));
    }
    if request.ap_options.is_set(USE_SESSION_KEY) {
        return Err(OpenError::Fault(ApFault::UserToUser));
    }
    if !is_for_us(realm, &request.ticket) {
        return Err(OpenError::Fault(ApFault::NotForUs));
    }
    if !has_known_etype(&request.ticket.enc_part) {
        return Err(OpenError::Fault(ApFault::TicketEtype));
    }
    match key_for(keys, &request.ticket.enc_part) {
        Some(key) => Ok((request, key)),
        None => Err(OpenError::Fault(ApFault::NoServiceKey)),
    }
}
