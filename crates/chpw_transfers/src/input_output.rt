//! What is read at a connection's socket, written to it, and discarded.
ghost use Rattle.std.specs.Prelude.{◌≡◌, ◌≢◌, ◌<◌, ◌⊎◌, ◌||◌, ◌&&◌, [], length, if◌then◌else◌};
ghost use Rattle.std.specs.Prelude.{true, false};
ghost use Rattle.slab.specs.Slab.{get};
ghost use Rattle.chpw_connections.specs.Held.{slots_of, bounds_of};
ghost use Rattle.chpw_connections.specs.Queues.{workers_of};
ghost use Rattle.chpw_slots.specs.Slots.{Happens};
ghost use Rattle.chpw_connection.specs.Slot.{left_at, wanted_at};
ghost use Rattle.chpw_connection.specs.Stages.{came, failed, wrote};
ghost use Rattle.chpw_connections.specs.Room.{HappensWithRoom, for_message, is_large_in};
ghost use Rattle.chpw_transfers.specs.Steps.{IsCalled, Takes, TakesNone, LetsGo, Gives, GivesNone, may_be_read, short_of};
ghost use Rattle.chpw_transfers.specs.Transfers.{is_passed, ComesOfDrain, ComesOfMessageRead, ComesOfReplyWrite, IsWithin};
ghost use Rattle.chpw_transfers.specs.declared.state.Progress.TheVariants as progress;

use crate::state::{Progress, State};
use crate::transfer::Transfer;
use std::io::{Read, Write};

impl State {
    /// Reads what is wanted of a connection's message, as far as it has come, fits into the buffer and has room. If
    /// there is no room, it is left in the socket.
    #[tactic(auto, using(crate::proofs::TransferLemmas::within, crate::proofs::TransferLemmas::is_read, crate::proofs::TransferLemmas::reads))]
    pub fn read<I: Read>(
        &mut self,
        slot: usize,
        reader: &mut I,
        buffer: &mut [u8],
        now: u64,
    ) -> Progress
        ensures read { Takes (bounds_of self.old.connections) now (slots_of self.old.connections) (slots_of self.new.connections) slot
            (I.remaining reader.old) (I.remaining reader.new)
            ⊎ TakesNone (slots_of self.old.connections) (slots_of self.new.connections) slot
            (I.remaining reader.old) (I.remaining reader.new) }
        ensures held_back { 0 < length buffer.old → wanted_at (get (slots_of self.old.connections) slot) ≢ 0
            → may_be_read now self.old slot ≡ false
            → (result ≡ progress.Idle) × (reader.new ≡ reader.old) × (self.new.connections ≡ self.old.connections)
            × (self.new.shortage ≡ short_of (is_large_in (get (slots_of self.old.connections) slot)) self.old.shortage) }
        ensures shortage { may_be_read now self.old slot ≡ true → self.new.shortage ≡ self.old.shortage }
        ensures idle { result ≡ progress.Idle → self.new.connections ≡ self.old.connections }
        ensures queued { IsCalled (workers_of self.old.connections) (get (slots_of self.new.connections) slot) result }
        ensures bounds { bounds_of self.new.connections ≡ bounds_of self.old.connections }
        ensures rest { self.new ≡ record self.old { connections = self.new.connections; shortage = self.new.shortage } }
    {
        let most = buffer.len().min(self.connections.bytes_to_read(slot));
        if most == 0 || !self.may_read(slot, now) {
            return Progress::Idle;
        }
        let wanted = &mut buffer[..most];
        let read = Transfer::of(reader.read(wanted));
        self.note_read(slot, read, wanted, now)
    }

    // Whether the next bytes of a connection's message may be read; not if there was no room for one of its kind in
    // this round.
    fn may_read(&mut self, slot: usize, now: u64) -> bool
        ensures value { result ≡ may_be_read now self.old slot }
        ensures shortage { self.new.shortage ≡ (if result then self.old.shortage
            else short_of (is_large_in (get (slots_of self.old.connections) slot)) self.old.shortage) }
        ensures same { self.new.connections ≡ self.old.connections }
        ensures rest { self.new ≡ record self.old { shortage = self.new.shortage } }
    {
        let is_large = self.connections.is_large(slot);
        let may_read = !self.shortage.is_for(is_large)
            && self.connections.has_room_to_read(slot, now);
        if !may_read {
            self.shortage.begin(is_large);
        }
        may_read
    }

    // A read of a connection's message into this buffer did this.
    fn note_read(&mut self, slot: usize, read: Transfer, buffer: &[u8], now: u64) -> Progress
        requires within { IsWithin read buffer.now }
        ensures comes { ComesOfMessageRead read (bounds_of self.old.connections) now buffer.now
            (slots_of self.old.connections) (slots_of self.new.connections) slot result }
        ensures passed { is_passed read ≡ true → self.new ≡ self.old }
        ensures idle { result ≡ progress.Idle → self.new ≡ self.old }
        ensures queued { IsCalled (workers_of self.old.connections) (get (slots_of self.new.connections) slot) result }
        ensures shortage { self.new.shortage ≡ self.old.shortage }
        ensures bounds { bounds_of self.new.connections ≡ bounds_of self.old.connections }
        ensures rest { self.new ≡ record self.old { connections = self.new.connections } }
    {
        match read {
            Transfer::Bytes(count) => self.receive(slot, &buffer[..count], now),
            Transfer::End => {
                self.connections.input_ended(slot);
                Progress::Moved
            }
            Transfer::Later => Progress::Idle,
            Transfer::Again => Progress::Moved,
            Transfer::Fault => {
                self.connections.fail(slot);
                Progress::Moved
            }
        }
    }

    // These bytes came.
    fn receive(&mut self, slot: usize, bytes: &[u8], now: u64) -> Progress
        ensures happens { HappensWithRoom (for_message (bounds_of self.old.connections) now
            (get (slots_of self.old.connections) slot)) now
            (slots_of self.old.connections) (slots_of self.new.connections) slot (came bytes.now)
            ⊎ HappensWithRoom (for_message (bounds_of self.old.connections) now (get (slots_of self.old.connections)
            slot)) 0 (slots_of self.old.connections) (slots_of self.new.connections) slot failed }
        ensures some { result ≢ progress.Idle }
        ensures queued { IsCalled (workers_of self.old.connections) (get (slots_of self.new.connections) slot) result }
        ensures shortage { self.new.shortage ≡ self.old.shortage }
        ensures bounds { bounds_of self.new.connections ≡ bounds_of self.old.connections }
        ensures rest { self.new ≡ record self.old { connections = self.new.connections } }
    {
        match self.connections.receive(slot, bytes, now) {
            Some(worker) => Progress::Queued(worker),
            None => Progress::Moved,
        }
    }

    /// Writes what is left of a connection's reply, as much as the socket takes.
    #[tactic(auto, using(crate::proofs::TransferLemmas::is_written, crate::proofs::TransferLemmas::writes))]
    pub fn write<W: Write>(&mut self, slot: usize, writer: &mut W, now: u64) -> Progress
        ensures written { Gives now (slots_of self.old.connections) (slots_of self.new.connections) slot
            (W.contents writer.old) (W.contents writer.new)
            ⊎ GivesNone (slots_of self.old.connections) (slots_of self.new.connections) slot
            (W.contents writer.old) (W.contents writer.new) }
        ensures out { left_at (get (slots_of self.old.connections) slot) ≡ [] → (result ≡ progress.Moved)
            × Happens now (slots_of self.old.connections) (slots_of self.new.connections) slot (wrote 0) }
        ensures idle { result ≡ progress.Idle → self.new ≡ self.old }
        ensures queued { IsCalled (workers_of self.old.connections) (get (slots_of self.new.connections) slot) result }
        ensures bounds { bounds_of self.new.connections ≡ bounds_of self.old.connections }
        ensures rest { self.new ≡ record self.old { connections = self.new.connections } }
    {
        let left = self.connections.pending_output(slot);
        if left.is_empty() {
            self.connections.wrote(slot, 0, now);
            return Progress::Moved;
        }
        let written = Transfer::of(writer.write(left));
        self.note_written(slot, written, now)
    }

    // A write of a connection's reply did this.
    fn note_written(&mut self, slot: usize, written: Transfer, now: u64) -> Progress
        ensures comes { ComesOfReplyWrite written now (slots_of self.old.connections) (slots_of self.new.connections) slot result }
        ensures passed { is_passed written ≡ true → self.new ≡ self.old }
        ensures idle { result ≡ progress.Idle → self.new ≡ self.old }
        ensures queued { IsCalled (workers_of self.old.connections) (get (slots_of self.new.connections) slot) result }
        ensures bounds { bounds_of self.new.connections ≡ bounds_of self.old.connections }
        ensures rest { self.new ≡ record self.old { connections = self.new.connections } }
    {
        match written {
            Transfer::Bytes(count) => {
                self.connections.wrote(slot, count, now);
                Progress::Moved
            }
            Transfer::Later => Progress::Idle,
            Transfer::Again => Progress::Moved,
            Transfer::End | Transfer::Fault => {
                self.connections.fail(slot);
                Progress::Moved
            }
        }
    }

    /// Reads and discards what a client still sends after its last reply.
    #[tactic(auto, using(crate::proofs::TransferLemmas::is_read, crate::proofs::TransferLemmas::drains))]
    pub fn drain<I: Read>(&mut self, slot: usize, reader: &mut I, buffer: &mut [u8]) -> Progress
        ensures queued { IsCalled (workers_of self.old.connections) (get (slots_of self.new.connections) slot) result }
        ensures drained { LetsGo (slots_of self.old.connections) (slots_of self.new.connections)
            (I.remaining reader.old) (I.remaining reader.new)
            ⊎ TakesNone (slots_of self.old.connections) (slots_of self.new.connections) slot
            (I.remaining reader.old) (I.remaining reader.new) }
        ensures idle { result ≡ progress.Idle → self.new ≡ self.old }
        ensures bounds { bounds_of self.new.connections ≡ bounds_of self.old.connections }
        ensures rest { self.new ≡ record self.old { connections = self.new.connections } }
    {
        let drained = Transfer::of(reader.read(buffer));
        self.note_drained(slot, drained)
    }

    // A read of what is discarded did this.
    fn note_drained(&mut self, slot: usize, drained: Transfer) -> Progress
        ensures comes { ComesOfDrain drained (slots_of self.old.connections) (slots_of self.new.connections) slot result }
        ensures passed { is_passed drained ≡ true → self.new ≡ self.old }
        ensures idle { result ≡ progress.Idle → self.new ≡ self.old }
        ensures queued { IsCalled (workers_of self.old.connections) (get (slots_of self.new.connections) slot) result }
        ensures bounds { bounds_of self.new.connections ≡ bounds_of self.old.connections }
        ensures rest { self.new ≡ record self.old { connections = self.new.connections } }
    {
        match drained {
            Transfer::Bytes(_) | Transfer::Again => Progress::Moved,
            Transfer::End => {
                self.connections.input_ended(slot);
                Progress::Moved
            }
            Transfer::Later => Progress::Idle,
            Transfer::Fault => {
                self.connections.fail(slot);
                Progress::Moved
            }
        }
    }
}
