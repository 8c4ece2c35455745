//! Layer: machines without sockets. Touches: memory. Called by: chpw_transfers, chpw_sockets and others above.
//!
//! The state machine of connections: which bytes are a message, who answers it, when its reply is written, and who is
//! ended for want of room or time. Without sockets, clock or threads: the caller, who has those, reports what happened
//! and asks what to do. Of messages that come in datagrams (RFC 3244 section 2): which are answered, and which get the reply
//! again that was given before. Moments are milliseconds of a clock that doesn't go back.
#![tactic(auto)]

mod answer_cache;
mod confirming;
mod connections;
mod kdc_change;
mod kept;
pub mod laws;
mod noted;
mod phases;
mod presented;
mod queues;
mod receiving;
mod room;
mod sender;
mod set;
mod taking;

pub use answer_cache::{AnswerCache, MAX_ANSWERS, MAX_BYTES};
pub use chpw_connection::{ConnectionLimits, CountedStage, MAX_MESSAGES, Todo};
pub use confirming::Unconfirmed;
pub use kdc_change::KdcChange;
pub use kept::MAX_AGE;
pub use sender::{KPASSWD_PORT, Sender, is_answerable};
pub use set::Connections;
pub use taking::{Reply, TakenMessage, Turn};
