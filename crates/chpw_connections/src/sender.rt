//! Who sent a datagram, and whether it is answered.
ghost use Rattle.std.specs.Prelude.{IfOk, IsTrue, ◌≡◌, ◌↔◌};
ghost use Rattle.chpw_connections.specs.Senders.{IsAnswered, is_from_service, is_same_address, is_same_sender};

use crate::presented::presents_ticket;
use chpw_endpoints::Endpoints;
use chpw_frame::split_request;
use std::alloc::{AllocError, Global};
use std::net::IpAddr;

/// The port of the service that changes passwords.
pub const KPASSWD_PORT: u16 = 464;

/// Where a datagram came from, an address and a UDP port, and the service's own address that it was sent to.
#[derive(Clone, Copy, Drop)]
pub struct Sender {
    pub ends: Endpoints,
    /// The peer's.
    pub port: u16,
}

impl Sender {
    // Whether it is the same peer and port, and the same own address.
    pub fn is_same(&self, other: &Sender) -> bool
        ensures value { result ≡ is_same_sender self.now other.now }
    {
        is_same_address(self.ends.peer, other.ends.peer)
            && (is_same_address(self.ends.local, other.ends.local) && self.port == other.port)
    }

    // Whether a service has this port, this one or another.
    fn is_service(&self, own_port: u16) -> bool
        ensures value { result ≡ is_from_service own_port self.now }
    {
        self.port == KPASSWD_PORT || self.port == own_port
    }
}

// Whether it is the same address.
fn is_same_address(one: IpAddr, other: IpAddr) -> bool
    ensures value { result ≡ is_same_address one other }
{
    match (one, other) {
        (IpAddr::V4(one), IpAddr::V4(other)) => one.octets().as_slice()
            == other.octets().as_slice(),
        (IpAddr::V6(one), IpAddr::V6(other)) => {
            one.segments().as_slice() == other.segments().as_slice()
        }
        _ => false,
    }
}

/// Whether a datagram is answered: one that comes neither from port 464 nor from the service's own port, and is a whole
/// frame with an AP-REQ whose ticket is for kadmin/changepw of this realm. They are looked at in this order, so that
/// most of what isn't answered costs no memory; an error means that there is none to read the AP-REQ.
pub fn is_answerable(
    alloc: Global,
    sender: Sender,
    own_port: u16,
    realm: &[u8],
    message: &[u8],
) -> Result<bool, AllocError>
    ensures { IfOk result (λ answered. IsTrue answered ↔ IsAnswered own_port realm.now sender message.now) }
{
    if sender.is_service(own_port) {
        return Ok(false);
    }
    match split_request(message) {
        Err(_) => Ok(false),
        Ok(parts) => presents_ticket(alloc, realm, parts.ap),
    }
}
