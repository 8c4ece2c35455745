//! The AP exchange (RFC 4120 section 3.2).

ghost use Rattle.krb_msgs.specs.Answers.{Answers};
ghost use Rattle.krb_msgs.specs.ApExchange.{OpensAp};

use crate::accepting::accept_authenticator;
use crate::authenticators::open_authenticator;
use crate::fault::{ApFault, OpenError};
use crate::presenting::read_request;
use crate::service_keys::ServiceKey;
use crate::tickets::open_ticket;
use krb_der::{GeneralString, KerberosFlags, KerberosTime, Microseconds, PrincipalName, SeqNumber};
use krb_keys::Key;
use std::alloc::Global;
use std::net::IpAddr;

/// What an AP-REQ says, once it is opened.
#[derive(Drop)]
pub struct ApOpened {
    /// The client's realm.
    pub crealm: GeneralString,
    /// The client.
    pub cname: PrincipalName,
    /// The ticket's flags.
    pub flags: KerberosFlags,
    /// When the ticket becomes valid: its starttime, or if that is absent its authtime.
    pub starts: KerberosTime,
    /// When the ticket expires.
    pub ends: KerberosTime,
    /// The client's time.
    pub ctime: KerberosTime,
    /// The microseconds of `ctime`.
    pub cusec: Microseconds,
    /// The ticket's key.
    pub session: Key,
    /// The authenticator's key.
    pub subkey: Key,
    /// The authenticator's sequence number.
    pub seq_number: Option<SeqNumber>,
}

/// Opens an AP-REQ for kadmin/changepw (RFC 4120 section 3.2.3).
///
/// `peer` is the address that it came from. Of several faults the first in the order of [`ApFault`] is returned.
pub fn open_ap(
    alloc: Global,
    realm: &[u8],
    keys: &[ServiceKey],
    ap_req: &[u8],
    peer: IpAddr,
) -> Result<ApOpened, OpenError<ApFault>>
    ensures opens { Answers (OpensAp realm.now keys.now ap_req.now peer) result }
{
    let (request, key) = read_request(alloc, realm, keys, ap_req)?;
    let (part, session) = open_ticket(alloc, &key, request.ticket)?;
    let authenticator = open_authenticator(alloc, &session, request.authenticator)?;
    accept_authenticator(peer, part, session, authenticator)
}
