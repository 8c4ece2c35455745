//! All callers at the control socket.
ghost use Rattle.std.specs.Prelude.{◌≡◌, ◌≢◌, ◌<◌, ◌≤◌, ◌+◌, ◌-◌, ◌^◌, ℕ, IfOk, IfSome, IfNone, OnSome, Some, min};
ghost use Rattle.std.specs.Prelude.{None, length, option_copied, is_some, true, false, ◌==◌, nat_le};
ghost use Rattle.slab.specs.Slab.{get, slab_len, HasRoomFor, Updates};
ghost use Rattle.chpw_control.specs.Dialogs.{at_start};
ghost use Rattle.chpw_control.specs.Callers.{asking, closed, expired, failed, told, taken, wrote};
ghost use Rattle.chpw_control.specs.Seats.{AreKept, Happens, HappensToHear, IsNew, IsFirst, NobodyWaits, waiting_at};
ghost use Rattle.chpw_control.specs.Seats.{number_in, left_at, is_late, is_order, is_over_at, waiting_of, earlier};
ghost use Rattle.chpw_control.specs.TakenOrders.{command_in, is_numbered, number_of, slot_of};

use crate::caller::Caller;
use crate::command::Command;
use slab::Slab;
use std::alloc::{AllocError, Global};

/// The milliseconds within which a caller's line has to be complete.
const PATIENCE: u64 = 1_000;

/// A caller at the control socket, since a moment in milliseconds. Callers are numbered in the order in which they
/// came.
#[derive(Drop)]
pub(crate) struct Seat {
    pub caller: Caller,
    pub since: u64,
    pub number: u64,
}

/// An order that is being carried out. Only `Callers::next_order` makes one, and it is used up by its answer
/// (`Callers::answer_order`): so each is answered once, and its answer goes to the caller who gave it. It can't be
/// dropped.
pub struct TakenOrder {
    command: Command,
    slot: usize,
    // The caller's: no other in that slot has it.
    number: u64,
}

impl TakenOrder {
    /// What is to be done.
    pub fn command(&self) -> &Command
        ensures value { result.now ≡ command_in self.now }
    {
        &self.command
    }
}

/// All callers at the control socket, each in a slot of its own.
///
/// `status` is answered at once, and `stop` at the end. The other commands are orders: they are carried out one
/// after the other, beside the thread that has the sockets.
#[derive(Drop)]
pub struct Callers {
    seats: Slab<Seat>,
    accepted: u64,
    /// The slot of the caller whose order is being carried out.
    ordering: Option<usize>,
}

impl Callers {
    /// None yet, with room for `count`.
    pub fn new(alloc: Global, count: usize) -> Result<Callers, AllocError>
        ensures none { IfOk result (λ c. slab_len c.seats ≡ 0) }
        ensures room { IfOk result (λ c. count ≤ c.seats.capacity) }
        ensures ordering { IfOk result (λ c. c.ordering ≡ None) }
    {
        Ok(Callers {
            seats: Slab::with_capacity(alloc, count)?,
            accepted: 0,
            ordering: None,
        })
    }

    /// Accepts a caller, if there is room for one more: its slot.
    pub fn accept(&mut self, alloc: Global, now: u64) -> Option<usize>
        ensures accepted { IfSome result (λ slot. IsNew now self.old.accepted self.old.seats self.new.seats slot (asking at_start)) }
        ensures number { OnSome result (self.new.accepted ≡ min (self.old.accepted + 1) (2 ^ 64 - 1)) }
        ensures full { IfNone result ((slab_len self.old.seats ≡ self.old.seats.capacity) × (self.new ≡ self.old)) }
        ensures ordering { self.new.ordering ≡ self.old.ordering }
        ensures capacity { self.new.seats.capacity ≡ self.old.seats.capacity }
    {
        if self.is_full() {
            return None;
        }
        let seat = Seat {
            caller: Caller::new(alloc),
            since: now,
            number: self.accepted,
        };
        self.accepted = self.accepted.saturating_add(1);
        Some(self.seats.insert_reserved(seat))
    }

    /// Whether there is no caller.
    pub fn is_empty(&self) -> bool
        ensures value { result ≡ (slab_len self.now.seats == 0) }
    {
        self.seats.len() == 0
    }

    /// Whether there is room for no more callers.
    pub fn is_full(&self) -> bool
        ensures value { result ≡ nat_le self.now.seats.capacity (slab_len self.now.seats) }
        ensures full { result ≡ true → slab_len self.now.seats ≡ self.now.seats.capacity }
    {
        self.seats.len() >= self.seats.capacity()
    }

    // Takes out the caller in a slot, which is the next to be filled.
    fn take_out(&mut self, slot: usize) -> Option<Seat>
        ensures value { result ≡ get self.old.seats slot }
        ensures updates { Updates self.old.seats self.new.seats slot None }
        ensures next { OnSome result (self.new.seats.vacant_key ≡ slot) }
        ensures room { OnSome result (HasRoomFor self.new.seats 1) }
        ensures absent { IfNone result (self.new ≡ self.old) }
        ensures ordering { self.new.ordering ≡ self.old.ordering }
        ensures kept { AreKept self.old self.new }
    {
        self.seats.try_remove(slot)
    }

    /// Bytes of a caller's line came.
    pub fn hear(&mut self, alloc: Global, slot: usize, bytes: &[u8])
        ensures heard { HappensToHear self.old.seats self.new.seats slot bytes.now }
        ensures ordering { self.new.ordering ≡ self.old.ordering }
        ensures kept { AreKept self.old self.new }
    {
        if let Some(mut seat) = self.take_out(slot) {
            seat.caller.hear(alloc, bytes);
            self.seats.insert_reserved(seat);
        }
    }

    /// A caller will send no more.
    pub fn close(&mut self, slot: usize)
        ensures happens { Happens self.old.seats self.new.seats slot closed }
        ensures ordering { self.new.ordering ≡ self.old.ordering }
        ensures kept { AreKept self.old self.new }
    {
        if let Some(mut seat) = self.take_out(slot) {
            seat.caller.close();
            self.seats.insert_reserved(seat);
        }
    }

    /// A caller can't go on.
    pub fn fail(&mut self, slot: usize)
        ensures happens { Happens self.old.seats self.new.seats slot failed }
        ensures ordering { self.new.ordering ≡ self.old.ordering }
        ensures kept { AreKept self.old self.new }
    {
        if let Some(mut seat) = self.take_out(slot) {
            seat.caller.fail();
            self.seats.insert_reserved(seat);
        }
    }

    /// If a caller's line isn't complete a second after its accept, its time is up.
    pub fn pass(&mut self, slot: usize, now: u64)
        ensures late { is_late now (get self.old.seats slot) ≡ true → Happens self.old.seats self.new.seats slot expired }
        ensures others { is_late now (get self.old.seats slot) ≡ false → self.new ≡ self.old }
        ensures ordering { self.new.ordering ≡ self.old.ordering }
        ensures kept { AreKept self.old self.new }
    {
        if self.is_late(slot, now) {
            self.expire(slot);
        }
    }

    fn is_late(&self, slot: usize, now: u64) -> bool
        ensures value { result ≡ is_late now (get self.now.seats slot) }
    {
        match self.seats.get(slot) {
            Some(seat) => seat.caller.is_asking() && now.saturating_sub(seat.since) >= PATIENCE,
            None => false,
        }
    }

    fn expire(&mut self, slot: usize)
        ensures happens { Happens self.old.seats self.new.seats slot expired }
        ensures ordering { self.new.ordering ≡ self.old.ordering }
        ensures kept { AreKept self.old self.new }
    {
        if let Some(mut seat) = self.take_out(slot) {
            seat.caller.expire();
            self.seats.insert_reserved(seat);
        }
    }

    /// The next caller with a question, and the question: the one that was accepted first.
    #[tactic(auto, using(crate::proofs::SeatLemmas::kind_of))]
    pub fn next_question(&mut self) -> Option<(usize, Command)>
        ensures first { IfSome result (λ r. IsFirst self.old.seats false r.0) }
        ensures command { IfSome result (λ r. waiting_at false (get self.old.seats r.0) ≡ Some r.1) }
        ensures kind { IfSome result (λ r. is_order r.1 ≡ false) }
        ensures taken { IfSome result (λ r. Happens self.old.seats self.new.seats r.0 taken) }
        ensures none { IfNone result (NobodyWaits self.old.seats false × (self.new ≡ self.old)) }
        ensures ordering { self.new.ordering ≡ self.old.ordering }
        ensures kept { AreKept self.old self.new }
    {
        let slot = self.first_waiting(false)?;
        let command = self.take(slot)?;
        Some((slot, command))
    }

    /// The next order, unless one is being carried out: that of the caller who was accepted first. It is being carried
    /// out from now on.
    #[tactic(auto, using(crate::proofs::SeatLemmas::kind_of))]
    pub fn next_order(&mut self) -> Option<TakenOrder>
        ensures first { IfSome result (λ order. IsFirst self.old.seats true (slot_of order)) }
        ensures command { IfSome result (λ order. waiting_at true (get self.old.seats (slot_of order)) ≡ Some (command_in order)) }
        ensures number { IfSome result (λ order. number_in self.old.seats true (slot_of order) ≡ Some (number_of order)) }
        ensures kind { IfSome result (λ order. is_order (command_in order) ≡ true) }
        ensures taken { IfSome result (λ order. Happens self.old.seats self.new.seats (slot_of order) taken) }
        ensures ordering { IfSome result (λ order. self.new.ordering ≡ Some (slot_of order)) }
        ensures idle { OnSome result (self.old.ordering ≡ None) }
        ensures none { IfNone result (self.new ≡ self.old) }
        ensures all { IfNone result (IfNone self.old.ordering (NobodyWaits self.old.seats true)) }
        ensures kept { AreKept self.old self.new }
    {
        if self.ordering.is_some() {
            return None;
        }
        let slot = self.first_waiting(true)?;
        let number = self.number_waiting(slot, true)?;
        let command = self.take(slot)?;
        self.ordering = Some(slot);
        Some(TakenOrder {
            command,
            slot,
            number,
        })
    }

    /// Whether a caller waits with an order, or with a question.
    pub fn has_waiting(&self, order: bool) -> bool
        ensures nobody { result ≡ false → NobodyWaits self.now.seats order }
        ensures somebody { result ≡ true → (slot : ℕ) × IsFirst self.now.seats order slot }
    {
        self.first_waiting(order).is_some()
    }

    /// Whether an order is being carried out.
    pub fn is_ordering(&self) -> bool
        ensures value { result ≡ is_some self.now.ordering }
    {
        self.ordering.is_some()
    }

    fn take(&mut self, slot: usize) -> Option<Command>
        ensures command { result ≡ waiting_of (get self.old.seats slot) }
        ensures taken { Happens self.old.seats self.new.seats slot taken }
        ensures ordering { self.new.ordering ≡ self.old.ordering }
        ensures kept { AreKept self.old self.new }
    {
        let mut seat = self.take_out(slot)?;
        let command = seat.caller.take();
        self.seats.insert_reserved(seat);
        command
    }

    // Each slot is below this number.
    fn capacity(&self) -> usize
        ensures value { result ≡ self.now.seats.capacity }
        ensures slots { length self.now.seats.slots ≤ result }
    {
        self.seats.capacity()
    }

    // The caller that was accepted first of those with an order, or of those with a question.
    #[tactic(auto, using(crate::proofs::SeatLemmas::first_next, crate::proofs::SeatLemmas::nobody_of_all))]
    fn first_waiting(&self, order: bool) -> Option<usize>
        ensures first { IfSome result (IsFirst self.now.seats order) }
        ensures none { IfNone result (NobodyWaits self.now.seats order) }
    {
        let mut first: Option<(u64, usize)> = None;
        for slot in 0..self.capacity() {
            first = earlier_of(first, slot, self.number_waiting(slot, order));
        }
        match first {
            None => None,
            Some((_, slot)) => Some(slot),
        }
    }

    // The number of the caller in a slot, if it waits with an order, or with a question.
    fn number_waiting(&self, slot: usize, order: bool) -> Option<u64>
        ensures value { result ≡ number_in self.now.seats order slot }
    {
        match self.seats.get(slot) {
            Some(seat) if seat.caller.waits(order) => Some(seat.number),
            _ => None,
        }
    }

    /// The answer to a caller's question is to be written.
    pub fn answer(&mut self, slot: usize, answer: Vec<u8>)
        ensures happens { Happens self.old.seats self.new.seats slot (told answer.items) }
        ensures ordering { self.new.ordering ≡ self.old.ordering }
        ensures kept { AreKept self.old self.new }
    {
        if let Some(mut seat) = self.take_out(slot) {
            seat.caller.answer(answer);
            self.seats.insert_reserved(seat);
        }
    }

    /// The answer to an order is to be written, and the next one may be carried out. It goes to the caller who gave the
    /// order, and to nobody else: if that caller is there no more, nobody is answered.
    pub fn answer_order(&mut self, order: TakenOrder, answer: Vec<u8>)
        ensures happens { is_numbered (number_of order) (get self.old.seats (slot_of order)) ≡ true
            → Happens self.old.seats self.new.seats (slot_of order) (told answer.items) }
        ensures others { is_numbered (number_of order) (get self.old.seats (slot_of order)) ≡ false
            → self.new.seats ≡ self.old.seats }
        ensures over { self.new.ordering ≡ None }
        ensures kept { AreKept self.old self.new }
    {
        let TakenOrder {
            command: _,
            slot,
            number,
        } = order;
        self.ordering = None;
        if self.is_numbered(slot, number) {
            self.answer(slot, answer);
        }
    }

    // Whether the caller in a slot has this number.
    fn is_numbered(&self, slot: usize, number: u64) -> bool
        ensures value { result ≡ is_numbered number (get self.now.seats slot) }
    {
        match self.seats.get(slot) {
            None => false,
            Some(seat) => seat.number == number,
        }
    }

    /// What is left to write to a caller.
    pub fn pending_output(&self, slot: usize) -> &[u8]
        ensures value { result.now ≡ left_at (get self.now.seats slot) }
    {
        match self.seats.get(slot) {
            None => &[],
            Some(seat) => seat.caller.pending_output(),
        }
    }

    /// `count` bytes of it were written.
    pub fn wrote(&mut self, slot: usize, count: usize)
        ensures happens { Happens self.old.seats self.new.seats slot (wrote count) }
        ensures ordering { self.new.ordering ≡ self.old.ordering }
        ensures kept { AreKept self.old self.new }
    {
        if let Some(mut seat) = self.take_out(slot) {
            seat.caller.wrote(count);
            self.seats.insert_reserved(seat);
        }
    }

    /// Whether the caller in a slot is finished, or there is none: its socket can be closed.
    pub fn is_over(&self, slot: usize) -> bool
        ensures value { result ≡ is_over_at (get self.now.seats slot) }
    {
        match self.seats.get(slot) {
            None => false,
            Some(seat) => seat.caller.is_over(),
        }
    }

    /// Removes a caller that is finished; whether there was one.
    pub fn remove(&mut self, slot: usize) -> bool
        ensures over { is_over_at (get self.old.seats slot) ≡ true → Updates self.old.seats self.new.seats slot None }
        ensures value { result ≡ is_over_at (get self.old.seats slot) }
        ensures not { result ≡ false → self.new ≡ self.old }
        ensures ordering { self.new.ordering ≡ self.old.ordering }
        ensures kept { AreKept self.old self.new }
    {
        if !self.is_over(slot) {
            return false;
        }
        self.take_out(slot).is_some()
    }
}

// The earlier of two that wait.
fn earlier_of(first: Option<(u64, usize)>, slot: usize, number: Option<u64>) -> Option<(u64, usize)>
    ensures value { result ≡ earlier first slot number }
{
    match (first, number) {
        (first, None) => first,
        (None, Some(number)) => Some((number, slot)),
        (Some(first), Some(number)) => {
            if first.0 <= number {
                Some(first)
            } else {
                Some((number, slot))
            }
        }
    }
}
