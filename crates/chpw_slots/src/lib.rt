//! Layer: machines without sockets. Touches: memory. Called by: chpw_connections, chpw_transfers and chpw_sockets.
//!
//! Connections in slots, with the bytes that they hold together, and the slots whose messages wait, in a queue for each
//! worker. `chpw_connections` keeps these in agreement.
#![tactic(auto)]

mod counting;
pub mod laws;
mod longest;
mod sharing;
mod slots;
mod waiting;

pub use slots::Slots;
pub use waiting::Queues;
