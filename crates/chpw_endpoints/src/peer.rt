//! Whose share of the connections one counts in.
ghost use Rattle.std.specs.Prelude.{◌≡◌};
ghost use Rattle.chpw_endpoints.specs.Peers.{peer_of, is_peer};

use std::net::IpAddr;

/// A peer that has a share of the connections: a host of IPv4, or a network of IPv6. A host of IPv6 has a whole /64 as a
/// rule (RFC 4291 section 2.5.1), in which it takes as many addresses as it likes (RFC 8981), so its addresses count
/// together.
#[derive(Clone, Copy, Drop)]
pub enum Peer {
    /// The host of this IPv4 address, its first octet the highest.
    Host(u32),
    /// The network of IPv6 whose addresses begin with these 64 bits.
    Network(u64),
}

impl Peer {
    pub fn of(address: IpAddr) -> Peer
        ensures value { result ≡ peer_of address }
    {
        match address {
            IpAddr::V4(ip) => Peer::Host(ip.to_bits()),
            IpAddr::V6(ip) => Peer::Network((ip.to_bits() >> 64) as u64),
        }
    }

    /// Whether it is this one.
    #[tactic(auto, unfolding(crate::specs::Peers::is_peer))]
    pub fn is(self, other: Peer) -> bool
        ensures value { result ≡ is_peer self other }
    {
        match (self, other) {
            (Peer::Host(mine), Peer::Host(its)) => mine == its,
            (Peer::Network(mine), Peer::Network(its)) => mine == its,
            (Peer::Host(_), Peer::Network(_)) | (Peer::Network(_), Peer::Host(_)) => false,
        }
    }
}
