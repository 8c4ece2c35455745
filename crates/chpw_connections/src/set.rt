//! What a set of connections is.
ghost use Rattle.std.specs.Prelude.{◌≡◌, ◌+◌, ◌≤◌};
ghost use Rattle.slab.specs.Slab.{slab_len};
ghost use Rattle.chpw_slots.specs.Waiting.{lists_of, Holds};

use chpw_connection::ConnectionLimits;
use chpw_slots::{Queues, Slots};
use std::alloc::Global;
use std::collections::VecDeque;

/// The connections of a service. Each is in a slot, from its accept until it is removed.
#[derive(Drop)]
pub struct Connections {
    pub(crate) alloc: Global,
    pub(crate) bounds: ConnectionLimits,
    pub(crate) slots: Slots,
    pub(crate) queues: Queues,
    // Slots noted for the caller.
    pub(crate) changed: VecDeque<usize>,
    pub(crate) accepted: u64,
    pub(crate) removed: u64,
    pub(crate) expired: u32,
    // Each connection that was accepted is present, or was removed once.
    ghost counted: { accepted ≡ removed + slab_len slots.connections },
    ghost few: { slab_len slots.connections ≤ bounds.connections },
    ghost bounded: { slots.held ≤ bounds.bytes },
    // Each worker's queue holds the slots whose messages wait for that worker, each once, and no others.
    ghost waiting: { Holds (lists_of queues) slots.connections },
    ghost room: { bounds.connections ≤ slots.connections.capacity },
    // So no peer has more than its share, as `Slots` promises.
    ghost shared: { slots.per_peer ≡ bounds.per_peer },
}
