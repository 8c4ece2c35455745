//! Layer: machines without sockets. Touches: memory. Called by: chpw_slots and others above.
//!
//! One connection, from its accept to its end: which bytes are its message, what a worker did about it, when its reply is
//! written, and when its time is up. `chpw_slots` holds many, and `chpw_connections` says when one is ended for want of
//! room. Moments are milliseconds of a clock that doesn't go back.
#![tactic(auto)]

mod connection;
mod counting;
mod event;
mod eviction;
pub mod laws;
mod limits;
mod message;
mod remembered;
mod todo;

pub use connection::{Connection, DeferredReply, Incoming, MAX_MESSAGES, Outgoing, Phase};
pub use counting::CountedStage;
pub use event::ConnectionEvent;
pub use eviction::EvictionRule;
pub use limits::ConnectionLimits;
pub use message::{WholeMessage, at_most};
pub use remembered::Remembered;
pub use todo::Todo;
