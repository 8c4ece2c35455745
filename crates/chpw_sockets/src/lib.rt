//! Layer: threads and sockets. Touches: sockets, but no thread. Called by: chpw_reactor, chpw_host and chpw_service.
//!
//! The sockets of connections and datagrams: which place each has, and what one call of a socket does for its connection. The reactor
//! and the workers share them, with the connections, under one lock.
#![tactic(auto)]

mod channel;
mod deciding;
mod hub;
mod own_sockets;
mod places;
mod pool_fault;
mod shares;
mod sockets;
mod udp;

pub use channel::{Channel, DatagramChannel};
pub use hub::{Hub, STEPS};
pub use own_sockets::OwnSockets;
pub use places::Sockets;
pub use pool_fault::PoolFault;
pub use sockets::{Selector, Socket, Transport};
pub use udp::{Datagram, DatagramSockets, Datagrams};
