//! Layer: machines without sockets. Touches: the streams handed in. Called by: chpw_sockets, chpw_reactor, chpw_host and chpw_service.
//!
//! What connections, the agent at the KDC's database and callers at the control socket are given and give, at any reader and writer: the state that
//! reactor and workers share, each read and write, and when a connection is accepted. Without a socket of its own, a clock or a thread.
#![tactic(auto)]

mod accept_limit;
mod accepting;
mod connection_counts;
mod control;
mod entrance;
mod input_output;
mod kdc;
mod one_message;
mod rounds;
mod state;
mod tokens;
mod transfer;

pub use accept_limit::AcceptLimit;
pub use accepting::Accepting;
pub use connection_counts::ConnectionCounts;
pub use control::{CALLERS, Control};
pub use entrance::{Admission, Entrance, Newcomer};
pub use kdc::{CLERK, KdcSide, Release, UpdateEnd};
pub use one_message::reply_of_datagram;
pub use rounds::{Noting, is_round_due, look_at_noted, slot_at_turn};
pub use state::{Progress, Shortage, State, TICK};
pub use tokens::{CONTROL, DATAGRAMS, EventSource, KDC, LISTENER, WAKER};
pub use transfer::Transfer;
