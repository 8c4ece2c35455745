//! Which connection has waited for its client the longest.
ghost use Rattle.std.specs.Prelude.{◌≡◌, ◌+◌, ◌<◌, ◌^◌, IfSome, IfNone, Some, None};
ghost use Rattle.slab.specs.Slab.{get};
ghost use Rattle.chpw_slots.specs.Longest.{IsLongest, NobodyWaits, earlier};
ghost use Rattle.chpw_slots.specs.Longest.{waits_besides, IsLongestBesides, NobodyWaitsBesides, given_in, staying_besides as staying_besides_of};
ghost use Rattle.chpw_connection.specs.Eviction.{given_at};

use crate::slots::Slots;
use chpw_connection::EvictionRule;

impl Slots {
    /// The slot of the connection that has waited for its client the longest.
    pub fn longest_waiting(&self) -> Option<usize>
        ensures found { IfSome result (λ slot. IsLongest self.now.connections slot) }
        ensures none { IfNone result (NobodyWaits self.now.connections) }
    {
        self.longest_besides(None, EvictionRule::default())
    }

    /// The slot of the one longest under way of those that give way to the connection in a slot; if there is no such
    /// slot, the one that has waited longest of all that wait for their clients. Of the candidates those give way that
    /// hold bytes, unless they wait for room themselves.
    pub fn longest_besides(&self, besides: Option<usize>, who: EvictionRule) -> Option<usize>
        ensures found { IfSome result (λ slot. IsLongestBesides self.now.connections besides who slot) }
        ensures none { IfNone result (NobodyWaitsBesides self.now.connections besides who) }
    {
        let mut longest: Option<(u64, usize)> = None;
        for slot in 0..self.connections.capacity() {
            longest = earlier_of(longest, slot, self.waits_since(slot, besides, who));
        }
        match longest {
            None => None,
            Some((_, slot)) => Some(slot),
        }
    }

    // Since when the connection in a slot waits for its client, if it does; if room is made for another one, since when
    // it has been under way, if it gives way to that one.
    fn waits_since(&self, slot: usize, besides: Option<usize>, who: EvictionRule) -> Option<u64>
        ensures value { result ≡ waits_besides self.now.connections besides who slot }
    {
        if besides == Some(slot) {
            return None;
        }
        let connection = self.connections.get(slot)?;
        match besides {
            None => connection.waits_for_client().then_some(connection.since),
            Some(_) => connection.gives_way(who).then_some(connection.begun()),
        }
    }

    /// How many bytes would be held if all that give way had ended, but for the connection in a slot.
    pub fn staying_besides(&self, slot: usize, who: EvictionRule) -> usize
        ensures value { result ≡ staying_besides_of who self.now.connections slot }
    {
        self.left_by_all(who) + self.bytes_freed(slot, who)
    }

    // How many bytes would be held if all that give way had ended.
    fn left_by_all(&self, who: EvictionRule) -> usize
        ensures value { result + given_in who self.now.connections ≡ self.now.held }
        ensures fits { self.now.held < 2 ^ 64 }
    {
        let mut left = self.held;
        for slot in 0..self.connections.capacity() {
            left -= self.bytes_freed(slot, who);
        }
        left
    }

    // How many bytes the end of the connection in a slot would free, if it gives way.
    fn bytes_freed(&self, slot: usize, who: EvictionRule) -> usize
        ensures value { result ≡ given_at who (get self.now.connections slot) }
    {
        match self.connections.get(slot) {
            Some(connection) if connection.gives_way(who) => connection.bytes_held(),
            _ => 0,
        }
    }
}

// The earlier of two connections that wait.
pub(crate) fn earlier_of(
    longest: Option<(u64, usize)>,
    slot: usize,
    since: Option<u64>,
) -> Option<(u64, usize)>
    ensures value { result ≡ earlier longest slot since }
{
    match (longest, since) {
        (longest, None) => longest,
        (None, Some(since)) => Some((since, slot)),
        (Some(longest), Some(since)) => {
            if longest.0 <= since {
                Some(longest)
            } else {
                Some((since, slot))
            }
        }
    }
}
