//! The places of the connections' sockets.
ghost use Rattle.std.specs.Prelude.{◌≤◌, is_some, length};
ghost use Rattle.chpw_sockets.specs.Shares.{datagrams_in, streams_in, most_datagrams, most_streams};

use crate::sockets::Transport;
use crate::udp::Datagrams;
use mio::Registry;

/// The sockets by their connections' slots, with streams of one kind and a socket for datagrams of another, and what
/// watches them.
#[derive(Drop)]
pub struct Sockets<S, D> {
    pub registry: Registry,
    pub by_slot: Vec<Option<Transport<S>>>,
    pub buffer: Vec<u8>,
    pub datagrams: Option<Datagrams<D>>,
    /// The bytes of a datagram.
    pub datagram: Vec<u8>,
    // Datagrams hold at most half of the places, and with a socket for them some of the places are theirs alone.
    ghost few_datagrams: { datagrams_in by_slot.items ≤ most_datagrams (length by_slot.items) },
    ghost few_streams: { streams_in by_slot.items ≤ most_streams (is_some datagrams) (length by_slot.items) },
}
