//! The callers at the control socket, shared by the reactor and the thread that carries out orders.
ghost use Rattle.std.specs.Prelude.{◌≡◌, ◌≢◌, ◌⊎◌, ◌&&◌, not, ℕ, [], IfOk, IfSome, OnSome, length, slice_get, true, false, None, Some};
ghost use Rattle.slab.specs.Slab.{Slab, get, slab_len, SameValues, Updates};
ghost use Rattle.chpw_control.specs.Callers.{asking, told, wrote};
ghost use Rattle.chpw_control.specs.Dialogs.{at_start};
ghost use Rattle.chpw_control.specs.declared.callers.Seat.{Seat};
ghost use Rattle.chpw_control.specs.Seats.{Happens, IsNew, seats_of, ordering_of, accepted_of, is_order, is_over_at, left_at};
ghost use Rattle.chpw_control.specs.TakenOrders.{command_in, slot_of};
ghost use Rattle.chpw_transfers.specs.Controlling.{Admits, ComesOfProbe, ComesOfRead, ComesOfWrite, HasNoOrder, HasOrder};
ghost use Rattle.chpw_transfers.specs.Controlling.{IsDue, IsHeard, IsIdle, IsOpen, IsProbed, IsTold, LooksAt, ServesAt, TellsDone, TellsLast};
ghost use Rattle.chpw_transfers.specs.Transfers.{IsWithin};

use crate::tokens::token_after;
use crate::transfer::Transfer;
use chpw_control::{Callers, TakenOrder, put_ok};
use mio::net::UnixStream;
use mio::{Interest, Registry};
use std::alloc::{AllocError, Global};
use std::io::{Read, Write};

/// The most callers at a time.
pub const CALLERS: usize = 64;

/// The callers at the control socket. They have a lock of their own, which no worker takes.
#[derive(Drop)]
pub struct Control {
    pub callers: Callers,
    /// Their sockets, by their slots.
    pub streams: Vec<Option<UnixStream>>,
    /// The service is to stop once what is under way is finished.
    pub is_stopping: bool,
    /// No order is carried out for now.
    pub is_paused: bool,
    /// No order will be carried out any more.
    pub is_over: bool,
}

impl Control {
    /// No callers yet.
    pub fn new(alloc: Global) -> Result<Control, AllocError>
        ensures nobody { IfOk result (λ c. slab_len (seats_of c.callers) ≡ 0) }
        ensures no_order { IfOk result (λ c. ordering_of c.callers ≡ None) }
        ensures places { IfOk result (λ c. length c.streams.items ≡ 64) }
        ensures goes_on { IfOk result (λ c. (c.is_stopping ≡ false) × (c.is_paused ≡ false) × (c.is_over ≡ false)) }
    {
        Ok(Control {
            callers: Callers::new(alloc, CALLERS)?,
            streams: no_streams(alloc)?,
            is_stopping: false,
            is_paused: false,
            is_over: false,
        })
    }

    /// A caller comes, whose token is after those of this many connections. One whose socket can't be watched, or for
    /// whom there is no room, is dropped.
    #[tactic(auto, using(crate::proofs::ControlLemmas::admits))]
    pub fn admit(
        &mut self,
        alloc: Global,
        registry: &Registry,
        mut stream: UnixStream,
        connections: usize,
        now: u64,
    )
        ensures admitted { Admits now (accepted_of self.old.callers)
            (seats_of self.old.callers) (seats_of self.new.callers) self.old.streams.items self.new.streams.items
            ⊎ (SameValues (seats_of self.old.callers) (seats_of self.new.callers) × (self.new.streams ≡ self.old.streams)) }
        ensures ordering { ordering_of self.new.callers ≡ ordering_of self.old.callers }
        ensures same { (self.new.is_stopping ≡ self.old.is_stopping) × (self.new.is_paused ≡ self.old.is_paused) × (self.new.is_over ≡ self.old.is_over) }
    {
        let Some(slot) = self.callers.accept(alloc, now) else {
            return;
        };
        let both = Interest::READABLE | Interest::WRITABLE;
        let token = token_after(connections, slot);
        let is_watched = registry.register(&mut stream, token, both).is_ok();
        if is_watched && slot < self.streams.len() {
            self.streams[slot] = Some(stream);
        } else {
            self.turn_away(slot);
        }
    }

    // Drops a caller that has just come.
    #[tactic(auto, using(crate::proofs::ControlLemmas::leaves_none))]
    fn turn_away(&mut self, slot: usize)
        ensures gone { (now number : ℕ) → (before : Slab Seat) → IsNew now number before (seats_of self.old.callers) slot (asking at_start)
            → SameValues before (seats_of self.new.callers) }
        ensures ordering { ordering_of self.new.callers ≡ ordering_of self.old.callers }
        ensures places { self.new.streams ≡ self.old.streams }
        ensures same { (self.new.is_stopping ≡ self.old.is_stopping) × (self.new.is_paused ≡ self.old.is_paused) × (self.new.is_over ≡ self.old.is_over) }
    {
        self.callers.fail(slot);
        let _ = self.callers.remove(slot);
    }

    /// Whether orders are carried out, and there is none yet.
    pub fn is_idle(&self) -> bool
        ensures idle { result ≡ true → (self.now.is_paused ≡ false) × (self.now.is_over ≡ false) × IsIdle self.now.callers }
        ensures due { result ≡ false → (self.now.is_paused ≡ true) ⊎ ((self.now.is_over ≡ true) ⊎ IsDue self.now.callers) }
    {
        !self.is_paused
            && !self.is_over
            && (self.callers.is_ordering() || !self.callers.has_waiting(true))
    }

    /// Whether an order is being carried out or waits.
    pub fn has_orders(&self) -> bool
        ensures none { result ≡ false → HasNoOrder self.now.callers }
        ensures some { result ≡ true → HasOrder self.now.callers }
    {
        self.callers.is_ordering() || self.callers.has_waiting(true)
    }

    /// Reads what came of a caller's line, and writes what is left of its answer, as far as the socket allows without
    /// blocking. A caller that has hung up is finished, and its command is not carried out, unless that has begun.
    pub fn serve(&mut self, alloc: Global, slot: usize, buffer: &mut [u8])
        ensures served { ServesAt (slice_get self.old.streams.items slot) (seats_of self.old.callers) (seats_of self.new.callers) slot }
        ensures ordering { ordering_of self.new.callers ≡ ordering_of self.old.callers }
        ensures others { (other : ℕ) → other ≢ slot → slice_get self.new.streams.items other ≡ slice_get self.old.streams.items other }
        ensures same { (self.new.is_stopping ≡ self.old.is_stopping) × (self.new.is_paused ≡ self.old.is_paused) × (self.new.is_over ≡ self.old.is_over) }
    {
        if slot >= self.streams.len() {
            return;
        }
        if let Some(stream) = &mut self.streams[slot] {
            hear(&mut self.callers, alloc, slot, stream, buffer);
            probe(&mut self.callers, slot, stream);
            tell(&mut self.callers, slot, stream);
        }
    }

    /// The next order, unless one is being carried out: that of the caller who was accepted first, of those who haven't
    /// hung up. It is being carried out from now on.
    pub fn next_order(&mut self) -> Option<TakenOrder>
        ensures order { IfSome result (λ order. is_order (command_in order) ≡ true) }
        ensures ordering { IfSome result (λ order. ordering_of self.new.callers ≡ Some (slot_of order)) }
        ensures idle { OnSome result (ordering_of self.old.callers ≡ None) }
        ensures same { (self.new.is_stopping ≡ self.old.is_stopping) × (self.new.is_paused ≡ self.old.is_paused) × (self.new.is_over ≡ self.old.is_over) }
    {
        for slot in 0..self.streams.len() {
            self.look_at(slot);
        }
        self.callers.next_order()
    }

    // A caller that has hung up can't go on.
    fn look_at(&mut self, slot: usize)
        ensures looked { LooksAt (slice_get self.old.streams.items slot) (seats_of self.old.callers) (seats_of self.new.callers) slot }
        ensures ordering { ordering_of self.new.callers ≡ ordering_of self.old.callers }
        ensures same { (self.new.is_stopping ≡ self.old.is_stopping) × (self.new.is_paused ≡ self.old.is_paused) × (self.new.is_over ≡ self.old.is_over) }
    {
        if slot >= self.streams.len() {
            return;
        }
        if let Some(stream) = &mut self.streams[slot] {
            probe(&mut self.callers, slot, stream);
        }
    }

    /// Answers a caller `ok`, if a stop was asked for and what was under way could be finished, and writes what is left
    /// of its answer.
    pub fn tell_last(&mut self, alloc: Global, slot: usize, is_deserted: bool, buffer: &mut [u8])
        ensures told { TellsLast (self.old.is_stopping && not is_deserted)
            (slice_get self.old.streams.items slot) (seats_of self.old.callers) (seats_of self.new.callers) slot }
    {
        let is_told = self.is_stopping && !is_deserted;
        self.tell_done(alloc, slot, is_told);
        self.serve(alloc, slot, buffer);
    }

    // Answers `ok`, if that is to be answered. Without memory for the word nothing is answered.
    fn tell_done(&mut self, alloc: Global, slot: usize, is_told: bool)
        ensures told { TellsDone is_told (seats_of self.old.callers) (seats_of self.new.callers) slot }
        ensures places { self.new.streams ≡ self.old.streams }
    {
        if is_told {
            let mut text = Vec::new(alloc);
            if put_ok(&mut text).is_ok() {
                self.callers.answer(slot, text);
            }
        }
    }

    /// Removes a caller that is finished, and closes the socket; whether there was one.
    #[tactic(auto, using(crate::proofs::ControlLemmas::none_there, crate::proofs::ControlLemmas::none_past, crate::proofs::ListLemmas::elsewhere))]
    pub fn let_go(&mut self, slot: usize) -> bool
        ensures value { result ≡ is_over_at (get (seats_of self.old.callers) slot) }
        ensures gone { result ≡ true → Updates (seats_of self.old.callers) (seats_of self.new.callers) slot None }
        ensures closed { result ≡ true → IsOpen self.new.streams.items slot → ⊥ }
        ensures others { (other : ℕ) → other ≢ slot → slice_get self.new.streams.items other ≡ slice_get self.old.streams.items other }
        ensures not { result ≡ false → self.new ≡ self.old }
        ensures ordering { ordering_of self.new.callers ≡ ordering_of self.old.callers }
        ensures same { (self.new.is_stopping ≡ self.old.is_stopping) × (self.new.is_paused ≡ self.old.is_paused) × (self.new.is_over ≡ self.old.is_over) }
    {
        if !self.callers.remove(slot) {
            return false;
        }
        if slot < self.streams.len() {
            self.streams[slot] = None;
        }
        true
    }
}

// A place for each caller's socket.
fn no_streams(alloc: Global) -> Result<Vec<Option<UnixStream>>, AllocError>
    ensures places { IfOk result (λ v. length v.items ≡ 64) }
{
    let mut streams = Vec::with_capacity(alloc, CALLERS)?;
    for _ in 0..CALLERS {
        streams.push(None)?;
    }
    Ok(streams)
}

// Reads what came of a caller's line.
#[tactic(auto, using(crate::proofs::TransferLemmas::within, crate::proofs::TransferLemmas::is_read))]
fn hear<I: Read>(
    callers: &mut Callers,
    alloc: Global,
    slot: usize,
    reader: &mut I,
    buffer: &mut [u8],
)
    ensures heard { IsHeard (seats_of callers.old) (seats_of callers.new) slot
        (I.remaining reader.old) (I.remaining reader.new) buffer.new }
    ensures ordering { ordering_of callers.new ≡ ordering_of callers.old }
{
    let read = Transfer::of(reader.read(buffer));
    note_read(callers, alloc, slot, read, buffer);
}

// A read of a caller's line into this buffer did this.
fn note_read(callers: &mut Callers, alloc: Global, slot: usize, read: Transfer, buffer: &[u8])
    requires within { IsWithin read buffer.now }
    ensures comes { ComesOfRead read buffer.now (seats_of callers.old) (seats_of callers.new) slot }
    ensures ordering { ordering_of callers.new ≡ ordering_of callers.old }
{
    match read {
        Transfer::Bytes(count) => callers.hear(alloc, slot, &buffer[..count]),
        Transfer::End => callers.close(slot),
        Transfer::Later | Transfer::Again => {}
        Transfer::Fault => callers.fail(slot),
    }
}

// Whether a caller has hung up shows at a write of no bytes, which fails then. Whoever has closed only its own side for
// writing still reads.
#[tactic(auto, using(crate::proofs::TransferLemmas::is_written))]
fn probe<W: Write>(callers: &mut Callers, slot: usize, writer: &mut W)
    ensures probed { IsProbed (seats_of callers.old) (seats_of callers.new) slot (W.contents writer.old) (W.contents writer.new) }
    ensures ordering { ordering_of callers.new ≡ ordering_of callers.old }
{
    let probed = Transfer::of(writer.write(&[]));
    note_probed(callers, slot, probed);
}

// A write of no bytes to a caller did this.
fn note_probed(callers: &mut Callers, slot: usize, probed: Transfer)
    ensures comes { ComesOfProbe probed (seats_of callers.old) (seats_of callers.new) slot }
    ensures ordering { ordering_of callers.new ≡ ordering_of callers.old }
{
    match probed {
        Transfer::Fault => callers.fail(slot),
        Transfer::Bytes(_) | Transfer::End | Transfer::Later | Transfer::Again => {}
    }
}

// Writes what is left of a caller's answer. A caller whose whole answer is written is finished.
#[tactic(auto, using(crate::proofs::TransferLemmas::is_written))]
fn tell<W: Write>(callers: &mut Callers, slot: usize, writer: &mut W)
    ensures told { IsTold (seats_of callers.old) (seats_of callers.new) slot (W.contents writer.old) (W.contents writer.new) }
    ensures out { left_at (get (seats_of callers.old) slot) ≡ [] → Happens (seats_of callers.old) (seats_of callers.new) slot (wrote 0) }
    ensures ordering { ordering_of callers.new ≡ ordering_of callers.old }
{
    let left = callers.pending_output(slot);
    if left.is_empty() {
        callers.wrote(slot, 0);
        return;
    }
    let written = Transfer::of(writer.write(left));
    note_written(callers, slot, written);
}

// A write of a caller's answer did this.
fn note_written(callers: &mut Callers, slot: usize, written: Transfer)
    ensures comes { ComesOfWrite written (seats_of callers.old) (seats_of callers.new) slot }
    ensures ordering { ordering_of callers.new ≡ ordering_of callers.old }
{
    match written {
        Transfer::Bytes(count) => callers.wrote(slot, count),
        Transfer::Later | Transfer::Again => {}
        Transfer::End | Transfer::Fault => callers.fail(slot),
    }
}
