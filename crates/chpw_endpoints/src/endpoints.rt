//! Where a request comes from, and where it comes in.
ghost use Rattle.std.specs.Prelude.{IsTrue, ◌↔◌};
ghost use Rattle.chpw_endpoints.specs.Endpoints.{IsHostOf};
ghost use Rattle.chpw_endpoints.specs.Peers.{IsOwn, IsShareOf};

use crate::peer::Peer;
use std::net::{IpAddr, Ipv4Addr, SocketAddr};

/// The addresses of a request's two ends.
#[derive(Clone, Copy, Drop)]
pub struct Endpoints {
    /// The address that it comes from: the client's, or a forwarder's.
    pub peer: IpAddr,
    /// The service's own address that it was sent to. It is the s-address of the reply (RFC 4120 section 5.7.1).
    pub local: IpAddr,
}

impl Endpoints {
    /// Both ends are 127.0.0.1.
    pub const LOOPBACK: Endpoints = Endpoints {
        peer: IpAddr::V4(Ipv4Addr::LOCALHOST),
        local: IpAddr::V4(Ipv4Addr::LOCALHOST),
    };

    /// The addresses of two sockets that are connected. An IPv4-mapped IPv6 address counts as the IPv4 address
    /// (RFC 4291 section 2.5.5.2): a socket of both families gives it for a client of IPv4.
    pub fn of(peer: SocketAddr, local: SocketAddr) -> Endpoints
        ensures peer { IsHostOf peer result.peer }
        ensures local { IsHostOf local result.local }
    {
        Endpoints {
            peer: peer.ip().to_canonical(),
            local: local.ip().to_canonical(),
        }
    }
    /// Whether the peer is this host itself: its address is a loopback address, or the one that the request was sent to.
    /// A connection to one of the host's own addresses comes from that address.
    pub fn is_own(&self) -> bool
        ensures value { IsTrue result ↔ IsOwn self.now }
    {
        self.peer.is_loopback() || self.peer == self.local
    }

    /// In whose share of the connections one between these counts: in its peer's, and in none if that is this host
    /// itself, since a forwarder may be here.
    pub fn share(&self) -> Option<Peer>
        ensures value { IsShareOf self.now result }
    {
        if self.is_own() {
            None
        } else {
            Some(Peer::of(self.peer))
        }
    }
}
