//! Addresses that can't be listened at together: a wildcard, and another one that it takes, too.
ghost use Rattle.std.specs.Prelude.{◌↔◌, All, Contains, IfNone, IfSome, IsTrue};
ghost use Rattle.chpw_endings.specs.Overlaps.{Takes};

use std::net::IpAddr;

/// Two addresses, of which the first takes what comes to the second, too.
#[derive(Drop)]
pub(crate) struct Overlap {
    pub wildcard: IpAddr,
    pub other: IpAddr,
}

/// A wildcard among these addresses that takes another one of them, with one that it takes.
pub(crate) fn overlap_of(addresses: &[IpAddr]) -> Option<Overlap>
    ensures sound { IfSome result (λ o. Contains addresses.now o.wildcard × Contains addresses.now o.other × Takes o.wildcard o.other) }
    ensures none { IfNone result (All (λ a. All (λ b. ¬ (Takes a b)) addresses.now) addresses.now) }
{
    for wildcard in addresses {
        if let Some(other) = taken_by(wildcard, addresses) {
            return Some(Overlap {
                wildcard: *wildcard,
                other,
            });
        }
    }
    None
}

// One of these addresses that a wildcard takes.
fn taken_by(wildcard: &IpAddr, addresses: &[IpAddr]) -> Option<IpAddr>
    ensures sound { IfSome result (λ other. Contains addresses.now other × Takes wildcard.now other) }
    ensures none { IfNone result (All (λ other. ¬ (Takes wildcard.now other)) addresses.now) }
{
    for other in addresses {
        if takes(wildcard, other) {
            return Some(*other);
        }
    }
    None
}

// Whether an address is the wildcard of its family, and takes what comes to the other one.
#[tactic(auto, unfolding(crate::specs::Overlaps::Takes))]
fn takes(wildcard: &IpAddr, other: &IpAddr) -> bool
    ensures value { IsTrue result ↔ Takes wildcard.now other.now }
{
    wildcard != other && wildcard.is_unspecified() && (wildcard.is_ipv6() || other.is_ipv4())
}
