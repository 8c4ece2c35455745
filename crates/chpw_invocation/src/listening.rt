//! The addresses at which a service listens.
ghost use Rattle.std.specs.Prelude.{◌≡◌, ◌++◌, ◌∷◌, ◌≤◌, ◌↔◌, [], IfErr, IsTrue, OnErr, OnOk};

use crate::refusing::Refusal;
use std::net::{IpAddr, Ipv4Addr};

/// The most addresses at which a service listens.
pub const MOST_ADDRESSES: usize = 64;

/// The address at which a service listens that is told none.
pub const DEFAULT_ADDRESS: IpAddr = IpAddr::V4(Ipv4Addr::LOCALHOST);

/// The addresses at which a service listens, 1 to 64, in the order in which they are given.
#[derive(Clone, Copy, Drop)]
pub struct ListenAddresses {
    addresses: [IpAddr; MOST_ADDRESSES],
    count: usize,
    ghost few: { (1 ≤ count) × (count ≤ 64) },
}

impl ListenAddresses {
    ghost use Rattle.chpw_invocation.specs.Addresses.{HasWildcard, IsAmong, RefusesAddress};
    ghost use Rattle.chpw_invocation.specs.Listening.{listened};

    /// This address alone.
    pub fn of(address: IpAddr) -> ListenAddresses
        ensures value { listened result ≡ address ∷ [] }
    {
        ListenAddresses {
            addresses: [address; MOST_ADDRESSES],
            count: 1,
        }
    }

    /// The addresses.
    pub fn as_slice(&self) -> &[IpAddr]
        ensures value { result.now ≡ listened self.now }
    {
        &self.addresses[..self.count]
    }

    /// Whether 0.0.0.0 or :: is among them.
    pub fn has_wildcard(&self) -> bool
        ensures value { IsTrue result ↔ HasWildcard (listened self.now) }
    {
        for address in self.as_slice() {
            if address.is_unspecified() {
                return true;
            }
        }
        false
    }

    // Whether an address is one of them.
    fn has(&self, address: IpAddr) -> bool
        ensures value { IsTrue result ↔ IsAmong address (listened self.now) }
    {
        for other in self.as_slice() {
            if is_same(other, &address) {
                return true;
            }
        }
        false
    }

    /// One more, which isn't one of them, if there are fewer than 64.
    pub(crate) fn add(&mut self, address: IpAddr) -> Result<(), Refusal>
        ensures added { OnOk result (listened self.new ≡ listened self.old ++ address ∷ []) }
        ensures apart { OnOk result (¬ (IsAmong address (listened self.old))) }
        ensures refused { IfErr result (RefusesAddress (listened self.old) address) }
        ensures unchanged { OnErr result (listened self.new ≡ listened self.old) }
    {
        if self.has(address) {
            return Err(Refusal::SameAddress);
        }
        if self.count == MOST_ADDRESSES {
            return Err(Refusal::ManyAddresses);
        }
        self.addresses[self.count] = address;
        self.count += 1;
        Ok(())
    }
}

fn is_same(address: &IpAddr, other: &IpAddr) -> bool
    ensures value { IsTrue result ↔ (address.now ≡ other.now) }
{
    address == other
}
