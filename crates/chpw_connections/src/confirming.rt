//! Replies that wait until their changes are confirmed.
ghost use Rattle.std.specs.Prelude.{◌≡◌, ◌≢◌, ◌≤◌, ◌<◌, ℕ, false, IfSome, IfNone, Some, None, ◌∷◌, []};
ghost use Rattle.slab.specs.Slab.{get};
ghost use Rattle.chpw_slots.specs.Slots.{held_in, Happens};
ghost use Rattle.chpw_connection.specs.Stages.{failed, released};
ghost use Rattle.chpw_connections.specs.Queues.{queues_of};
ghost use Rattle.chpw_connection.specs.Confirming.{is_confirmed_in, Confirms, Withdraws, overdue_in};
ghost use Rattle.chpw_connections.specs.Confirming.{EndsOverdue, NoneIsOverdue};
ghost use Rattle.chpw_connections.specs.Held.{slots_of};
ghost use Rattle.chpw_connections.specs.Rest.{Rest};
ghost use Rattle.chpw_connections.specs.Noting.{noted_by, NotesEach, IsFirstOverdue, slot_if, slots_where};

use crate::set::Connections;
use chpw_connection::ConnectionEvent;
use chpw_endpoints::Endpoints;
use std::net::IpAddr;

/// A reply that no longer waits although its change wasn't confirmed.
#[derive(Clone, Copy, Drop)]
pub struct Unconfirmed {
    /// The address that its message came from.
    pub peer: IpAddr,
    /// The ticket of the change.
    pub ticket: u64,
}

impl Connections {
    /// The KDC has the changes up to this ticket: the replies that wait for no more are to be written now, and their slots
    /// are noted. The other connections stay unchanged.
    pub fn confirm(&mut self, ticket: u64, now: u64)
        ensures confirmed { (slot : ℕ) → Confirms ticket now (get (slots_of self.old) slot) (get (slots_of self.new) slot) }
        ensures rest { Rest self.old self.new }
        ensures held { held_in (slots_of self.new) ≤ held_in (slots_of self.old) }
        ensures notes { NotesEach (noted_by self.old) (noted_by self.new) (slots_where (is_confirmed_in ticket) (slots_of self.old)) }
        ensures queues { queues_of self.new ≡ queues_of self.old }
    {
        for slot in 0..self.slots.capacity() {
            self.confirm_slot(slot, ticket, now);
        }
    }

    // Confirms the reply in a slot.
    fn confirm_slot(&mut self, slot: usize, ticket: u64, now: u64)
        ensures confirmed { Confirms ticket now (get (slots_of self.old) slot) (get (slots_of self.new) slot) }
        ensures others { (other : ℕ) → other ≢ slot → get (slots_of self.new) other ≡ get (slots_of self.old) other }
        ensures rest { Rest self.old self.new }
        ensures held { held_in (slots_of self.new) ≤ held_in (slots_of self.old) }
        ensures notes { NotesEach (noted_by self.old) (noted_by self.new) (slot_if (is_confirmed_in ticket (get (slots_of self.old) slot)) slot) }
        ensures queues { queues_of self.new ≡ queues_of self.old }
    {
        if self.is_confirmed(slot, ticket) {
            self.release(slot, now);
        }
    }

    /// Nobody is told of the changes up to this ticket: the connections whose replies wait for no more end. The other
    /// connections stay unchanged.
    pub fn withdraw(&mut self, ticket: u64)
        ensures withdrawn { (slot : ℕ) → Withdraws ticket (get (slots_of self.old) slot) (get (slots_of self.new) slot) }
        ensures rest { Rest self.old self.new }
        ensures held { held_in (slots_of self.new) ≤ held_in (slots_of self.old) }
    {
        for slot in 0..self.slots.capacity() {
            self.withdraw_slot(slot, ticket);
        }
    }

    // Withdraws the reply in a slot.
    fn withdraw_slot(&mut self, slot: usize, ticket: u64)
        ensures withdrawn { Withdraws ticket (get (slots_of self.old) slot) (get (slots_of self.new) slot) }
        ensures others { (other : ℕ) → other ≢ slot → get (slots_of self.new) other ≡ get (slots_of self.old) other }
        ensures rest { Rest self.old self.new }
        ensures held { held_in (slots_of self.new) ≤ held_in (slots_of self.old) }
    {
        if self.is_confirmed(slot, ticket) {
            self.fail(slot);
        }
    }

    /// The first reply that has waited for its confirmation for `wait` milliseconds or longer is to be written now, and
    /// its slot is noted: its peer, and the ticket that it waited for. None if there is no such reply. With a `wait` of 0
    /// it is the first of all that wait.
    pub fn overdue(&mut self, wait: u64, now: u64) -> Option<Unconfirmed>
        ensures some { IfSome result (λ u. EndsOverdue wait now released now (slots_of self.old) (slots_of self.new) u.peer u.ticket) }
        ensures none { IfNone result (NoneIsOverdue wait now (slots_of self.old)) }
        ensures unchanged { IfNone result (self.new ≡ self.old) }
        ensures rest { Rest self.old self.new }
        ensures held { held_in (slots_of self.new) ≤ held_in (slots_of self.old) }
        ensures notes { IfSome result (λ u. (slot : ℕ) × IsFirstOverdue wait now (slots_of self.old) u.ticket slot
            × NotesEach (noted_by self.old) (noted_by self.new) (slot ∷ [])) }
        ensures queues { queues_of self.new ≡ queues_of self.old }
    {
        let (slot, ticket) = self.first_overdue(wait, now)?;
        let peer = self.peer(slot);
        self.release(slot, now);
        Some(Unconfirmed { peer, ticket })
    }

    /// As `overdue`, but the reply is never written: its connection ends.
    pub fn drop_overdue(&mut self, wait: u64, now: u64) -> Option<Unconfirmed>
        ensures some { IfSome result (λ u. EndsOverdue wait now failed 0 (slots_of self.old) (slots_of self.new) u.peer u.ticket) }
        ensures none { IfNone result (NoneIsOverdue wait now (slots_of self.old)) }
        ensures unchanged { IfNone result (self.new ≡ self.old) }
        ensures rest { Rest self.old self.new }
        ensures held { held_in (slots_of self.new) ≤ held_in (slots_of self.old) }
    {
        let (late, ticket) = self.first_overdue(wait, now)?;
        let peer = self.peer(late);
        self.fail(late);
        Some(Unconfirmed { peer, ticket })
    }

    // The address that the connection in a slot comes from.
    fn peer(&self, slot: usize) -> IpAddr
        ensures value { IfSome (get (slots_of self.now) slot) (λ c. result ≡ c.ends.peer) }
    {
        match self.slots.get(slot) {
            None => Endpoints::LOOPBACK.peer,
            Some(connection) => connection.ends.peer,
        }
    }

    // The first slot whose reply has waited for `wait`, and its ticket.
    fn first_overdue(&self, wait: u64, now: u64) -> Option<(usize, u64)>
        ensures some { IfSome result (λ found. overdue_in wait now (get (slots_of self.now) found.0) ≡ Some found.1) }
        ensures first { IfSome result (λ found. (other : ℕ) → other < found.0 → overdue_in wait now (get (slots_of self.now) other) ≡ None) }
        ensures none { IfNone result (NoneIsOverdue wait now (slots_of self.now)) }
    {
        for slot in 0..self.slots.capacity() {
            if let Some(ticket) = self.overdue_ticket(slot, wait, now) {
                return Some((slot, ticket));
            }
        }
        None
    }

    // The ticket of the reply in a slot, if it has waited for `wait`.
    fn overdue_ticket(&self, slot: usize, wait: u64, now: u64) -> Option<u64>
        ensures value { result ≡ overdue_in wait now (get (slots_of self.now) slot) }
    {
        self.slots.get(slot)?.overdue(wait, now)
    }

    // Whether the reply in a slot waits for no later ticket than this.
    fn is_confirmed(&self, slot: usize, ticket: u64) -> bool
        ensures value { result ≡ is_confirmed_in ticket (get (slots_of self.now) slot) }
    {
        match self.slots.get(slot) {
            None => false,
            Some(connection) => connection.is_confirmed(ticket),
        }
    }

    // The reply in a slot is to be written.
    #[tactic(auto, using(chpw_slots::proofs::HoldsLemmas::holds_quiet))]
    fn release(&mut self, slot: usize, now: u64)
        ensures happens { Happens now (slots_of self.old) (slots_of self.new) slot released }
        ensures rest { Rest self.old self.new }
        ensures held { held_in (slots_of self.new) ≤ held_in (slots_of self.old) }
        ensures notes { NotesEach (noted_by self.old) (noted_by self.new) (slot ∷ []) }
        ensures queues { queues_of self.new ≡ queues_of self.old }
    {
        self.slots
            .change(self.alloc, slot, ConnectionEvent::Released, now);
        self.note(slot);
    }
}
