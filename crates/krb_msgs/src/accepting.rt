//! Whether ticket and authenticator belong together, and come from the client's address (RFC 4120 section 3.2.3).

ghost use Rattle.std.specs.Prelude.{◌≡◌, ◌≢◌, ◌↔◌, IfErr, IsTrue, Some};
ghost use Rattle.std.specs.List.{list_any};
ghost use Rattle.krb_msgs.specs.Addresses.{is_host};
ghost use Rattle.krb_msgs.specs.Answers.{Answers};
ghost use Rattle.krb_msgs.specs.Accepted.{Accepts, IsSameClient, IsSubkey, may_come_from, opened_of, starts_at};

use crate::addresses::is_host;
use crate::ap_exchange::ApOpened;
use crate::fault::{ApFault, OpenError};
use crate::tickets::key_in;
use krb_der::{Authenticator, EncTicketPart, EncryptionKey, HostAddress, KerberosTime, SequenceOf};
use krb_keys::Key;
use std::net::IpAddr;

fn is_same_client(part: &EncTicketPart, authenticator: &Authenticator) -> bool
    ensures { IsTrue result ↔ IsSameClient part.now authenticator.now }
{
    part.crealm == authenticator.crealm && part.cname.name_string == authenticator.cname.name_string
}

fn is_among(addresses: &[HostAddress], peer: IpAddr) -> bool
    ensures { result ≡ list_any (is_host peer) addresses.now }
{
    addresses.iter().any(|a| is_host(a, peer))
}

fn may_come_from(peer: IpAddr, addresses: &Option<SequenceOf<HostAddress>>) -> bool
    ensures { result ≡ may_come_from peer addresses.now }
{
    match addresses {
        None => true,
        Some(addresses) => {
            let addresses = addresses.as_slice();
            addresses.is_empty() || is_among(addresses, peer)
        }
    }
}

fn subkey_in(field: &Option<EncryptionKey>) -> Option<Key>
    ensures { (key : Key) → (result ≡ Some key) ↔ IsSubkey field.now key }
{
    match field {
        None => None,
        Some(field) => key_in(field),
    }
}

fn starts_at(part: &EncTicketPart) -> KerberosTime
    ensures { result ≡ starts_at part.now }
{
    match part.starttime {
        None => part.authtime,
        Some(t) => t,
    }
}

fn opened_of(part: EncTicketPart, session: Key, a: Authenticator, subkey: Key) -> ApOpened
    ensures { result ≡ opened_of part session a subkey }
{
    ApOpened {
        starts: starts_at(&part),
        crealm: part.crealm,
        cname: part.cname,
        flags: part.flags,
        ends: part.endtime,
        ctime: a.ctime,
        cusec: a.cusec,
        session,
        subkey,
        seq_number: a.seq_number,
    }
}

/// What ticket and authenticator together say to a service whose peer has this address. Refused
/// as `ClientMismatch`, `WrongAddress`, `NoSubkey`, in this order.
pub fn accept_authenticator(
    peer: IpAddr,
    part: EncTicketPart,
    session: Key,
    authenticator: Authenticator,
) -> Result<ApOpened, OpenError<ApFault>>
    ensures value { Answers (Accepts peer part session authenticator) result }
    ensures no_memory { IfErr result (λ e. e ≢ OpenError.Memory) }
{
    if !is_same_client(&part, &authenticator) {
        return Err(OpenError::Fault(ApFault::ClientMismatch));
    }
    if !may_come_from(peer, &part.caddr) {
        return Err(OpenError::Fault(ApFault::WrongAddress));
    }
    match subkey_in(&authenticator.subkey) {
        None => Err(OpenError::Fault(ApFault::NoSubkey)),
        Some(subkey) => Ok(opened_of(part, session, authenticator, subkey)),
    }
}
