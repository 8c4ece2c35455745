//! Which datagrams wait for a worker.
ghost use Rattle.std.specs.Prelude.{◌≡◌, ◌⊎◌, ℕ, ◌<◌, ◌≤◌, ◌+◌, false, true, length, slice_get};
ghost use Rattle.chpw_connections.specs.Held.{slots_of, bounds_of, accepted_by};
ghost use Rattle.chpw_connections.specs.Queues.{workers_of};
ghost use Rattle.chpw_transfers.specs.Datagrams.{BeginsAndDrops, DropsDatagram};
ghost use Rattle.chpw_sockets.specs.Deciding.{IsDecided, QueuesThis, IsQueued, IsPlaced, is_at, is_under_way};
ghost use Rattle.chpw_sockets.specs.Replying.{Resends};
ghost use Rattle.chpw_sockets.specs.Shares.{datagrams_in, streams_in, most_datagrams};
ghost use Rattle.chpw_sockets.specs.Shares.{may_place_datagram as may_datagram};
ghost use Rattle.chpw_transfers.specs.declared.state.Progress.TheVariants as progress;

use crate::channel::DatagramChannel;
use crate::shares::may_place_datagram;
use crate::sockets::Transport;
use crate::udp::{Datagram, Datagrams};
use chpw_connections::Sender;
use chpw_transfers::{Progress, State};
use std::alloc::Global;

/// Handles a datagram that came: the worker for which it waits, if it does.
#[tactic(auto, using(crate::proofs::PlaceLemmas::queues))]
pub(crate) fn decide<S: Drop, D: DatagramChannel>(
    by_slot: &mut [Option<Transport<S>>],
    datagrams: &mut Datagrams<D>,
    state: &mut State,
    sender: Sender,
    message: &[u8],
    now: u64,
) -> Progress
    ensures queued { (worker : ℕ) → result ≡ progress.Queued worker
        → QueuesThis datagrams.old sender message.now by_slot.old by_slot.new (bounds_of state.old.connections) now (accepted_by state.old.connections)
        (slots_of state.old.connections) (slots_of state.new.connections) worker (workers_of state.old.connections) }
    ensures again { Resends datagrams.old sender message.now now (D.sent datagrams.old.socket) (D.sent datagrams.new.socket) }
    ensures left { D.left datagrams.new.socket ≡ D.left datagrams.old.socket }
    ensures rest { datagrams.new ≡ record datagrams.old { socket = datagrams.new.socket } }
    ensures ignored { ¬ (IsDecided datagrams.old by_slot.old sender message.now now) → (state.new ≡ state.old) × (by_slot.new ≡ by_slot.old) }
    ensures few { datagrams_in by_slot.old ≤ most_datagrams (length by_slot.old) → datagrams_in by_slot.new ≤ most_datagrams (length by_slot.new) }
    ensures streams { streams_in by_slot.new ≤ streams_in by_slot.old }
    ensures places { length by_slot.new ≡ length by_slot.old }
    ensures some { (result ≡ progress.Idle) → ⊥ }
    ensures bounds { bounds_of state.new.connections ≡ bounds_of state.old.connections }
    ensures dropped { result ≡ progress.Moved → DropsDatagram (slots_of state.old.connections) (slots_of state.new.connections) }
    ensures in_turn { result ≡ progress.Moved → (state.new ≡ state.old)
        ⊎ BeginsAndDrops (bounds_of state.old.connections) now sender.ends (accepted_by state.old.connections) message.now
        (slots_of state.old.connections) (slots_of state.new.connections) }
    ensures kept { result ≡ progress.Moved → by_slot.new ≡ by_slot.old }
{
    match datagrams.is_to_be_decided(sender, message, now) {
        Ok(true) if may_be_queued(by_slot, sender, message) => {
            queue(datagrams.alloc, by_slot, state, sender, message, now)
        }
        _ => Progress::Moved,
    }
}

// Whether a datagram isn't being answered, and one more may have a place.
fn may_be_queued<S>(by_slot: &[Option<Transport<S>>], sender: Sender, message: &[u8]) -> bool
    ensures apart { result ≡ true → is_under_way by_slot.now sender message.now ≡ false }
    ensures room { result ≡ true → may_datagram by_slot.now ≡ true }
    ensures not { result ≡ false → is_under_way by_slot.now sender message.now ≡ false → may_datagram by_slot.now ≡ false }
{
    !is_under_way(by_slot, sender, message) && may_place_datagram(by_slot)
}

// Whether the same datagram of the same sender is being answered.
fn is_under_way<S>(by_slot: &[Option<Transport<S>>], sender: Sender, message: &[u8]) -> bool
    ensures value { result ≡ is_under_way by_slot.now sender message.now }
{
    by_slot.iter().any(|place| is_at(place, sender, message))
}

fn is_at<S>(place: &Option<Transport<S>>, sender: Sender, message: &[u8]) -> bool
    ensures value { result ≡ is_at sender message.now place.now }
{
    match place {
        Some(Transport::Datagram(other)) => other.is(sender, message),
        Some(Transport::Stream(_)) | None => false,
    }
}

// Lets a datagram wait for its worker, if it can.
fn queue<S: Drop>(
    alloc: Global,
    by_slot: &mut [Option<Transport<S>>],
    state: &mut State,
    sender: Sender,
    message: &[u8],
    now: u64,
) -> Progress
    ensures queued { (worker : ℕ) → result ≡ progress.Queued worker
        → IsQueued sender message.now by_slot.old by_slot.new (bounds_of state.old.connections) now (accepted_by state.old.connections)
        (slots_of state.old.connections) (slots_of state.new.connections) worker (workers_of state.old.connections) }
    ensures some { (result ≡ progress.Idle) → ⊥ }
    ensures bounds { bounds_of state.new.connections ≡ bounds_of state.old.connections }
    ensures dropped { result ≡ progress.Moved → DropsDatagram (slots_of state.old.connections) (slots_of state.new.connections) }
    ensures in_turn { result ≡ progress.Moved → (state.new ≡ state.old)
        ⊎ BeginsAndDrops (bounds_of state.old.connections) now sender.ends (accepted_by state.old.connections) message.now
        (slots_of state.old.connections) (slots_of state.new.connections) }
    ensures kept { result ≡ progress.Moved → by_slot.new ≡ by_slot.old }
    ensures one_more { datagrams_in by_slot.new ≤ datagrams_in by_slot.old + 1 }
    ensures streams { streams_in by_slot.new ≤ streams_in by_slot.old }
    ensures places { length by_slot.new ≡ length by_slot.old }
{
    let Ok(copy) = Vec::from_slice(alloc, message) else {
        return Progress::Moved;
    };
    match state.take_datagram(sender.ends, message, now) {
        None => Progress::Moved,
        Some((slot, worker)) => {
            put_datagram(by_slot, slot, sender, copy);
            Progress::Queued(worker)
        }
    }
}

// Stores the datagram that a connection came as.
#[tactic(auto, using(chpw_transfers::proofs::ListLemmas::elsewhere, crate::proofs::ShareLemmas::sum_set))]
fn put_datagram<S: Drop>(
    by_slot: &mut [Option<Transport<S>>],
    slot: usize,
    sender: Sender,
    message: Vec<u8>,
)
    ensures placed { slot < length by_slot.old → IsPlaced by_slot.new slot sender message.items }
    ensures others { (other : ℕ) → (other ≡ slot → ⊥) → slice_get by_slot.new other ≡ slice_get by_slot.old other }
    ensures one_more { datagrams_in by_slot.new ≤ datagrams_in by_slot.old + 1 }
    ensures streams { streams_in by_slot.new ≤ streams_in by_slot.old }
    ensures places { length by_slot.new ≡ length by_slot.old }
{
    if slot < by_slot.len() {
        by_slot[slot] = Some(Transport::Datagram(Datagram { sender, message }));
    }
}
