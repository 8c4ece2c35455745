//! How many connections count in a peer's share, and which of them has waited for its client the longest.
ghost use Rattle.std.specs.Prelude.{◌≡◌, ◌≤◌, IfSome, IfNone};
ghost use Rattle.slab.specs.Slab.{get};
ghost use Rattle.chpw_connection.specs.Shares.{one_of_peer, waits_of_peer};
ghost use Rattle.chpw_slots.specs.Shares.{count_of, is_share_full};
ghost use Rattle.chpw_slots.specs.Longest.{IsLongestOf, NobodyWaitsOf};

use crate::longest::earlier_of;
use crate::slots::Slots;
use chpw_endpoints::Peer;

impl Slots {
    /// How many count in this peer's share: never more than one may have.
    pub fn count_of(&self, peer: Peer) -> usize
        ensures value { result ≡ count_of peer self.now.connections }
        ensures few { result ≤ self.now.per_peer }
    {
        let mut count = 0;
        for slot in 0..self.capacity() {
            count += self.one_of(slot, peer);
        }
        count
    }

    // One if the connection in a slot counts in this peer's share, otherwise none.
    fn one_of(&self, slot: usize, peer: Peer) -> usize
        ensures value { result ≡ one_of_peer peer (get self.now.connections slot) }
    {
        match self.get(slot) {
            Some(connection) if connection.is_of(peer) => 1,
            _ => 0,
        }
    }

    /// Whether this share has as many as it may; what counts in none may always come.
    pub fn is_share_full(&self, share: Option<Peer>) -> bool
        ensures value { result ≡ is_share_full self.now.per_peer self.now.connections share }
    {
        match share {
            None => false,
            Some(peer) => self.count_of(peer) >= self.per_peer,
        }
    }

    /// The slot of the connection in this peer's share that has waited for its client the longest.
    pub fn longest_of(&self, peer: Peer) -> Option<usize>
        ensures found { IfSome result (λ slot. IsLongestOf peer self.now.connections slot) }
        ensures none { IfNone result (NobodyWaitsOf peer self.now.connections) }
    {
        let mut longest: Option<(u64, usize)> = None;
        for slot in 0..self.capacity() {
            longest = earlier_of(longest, slot, self.waits_of(slot, peer));
        }
        match longest {
            None => None,
            Some((_, slot)) => Some(slot),
        }
    }

    // Since when the connection in a slot waits for its client, if it does and is in this peer's share.
    fn waits_of(&self, slot: usize, peer: Peer) -> Option<u64>
        ensures value { result ≡ waits_of_peer peer (get self.now.connections slot) }
    {
        let connection = self.get(slot)?;
        (connection.is_of(peer) && connection.waits_for_client()).then_some(connection.since)
    }
}
