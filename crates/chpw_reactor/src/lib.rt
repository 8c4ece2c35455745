//! Layer: threads and sockets. Touches: the poll of all sockets, threads that wait at it. Called by: chpw_desks and chpw_service.
//!
//! The reactor: one thread that waits for all sockets, and the engine that it shares with the workers, who take their messages and give
//! their replies at seats there. The service starts both.
#![tactic(auto)]

mod attending;
mod datagrams;
mod engine;
mod kdc;
mod mirror;
mod outcome;
mod reactor;
mod seat;
mod status_reporter;
mod talking;
mod tasks;

pub use engine::Engine;
pub use kdc::KdcTerms;
pub use mirror::dialog_with;
pub use outcome::{Pool, outcome_of};
pub use seat::{EngineCrew, Seat};
pub use status_reporter::StatusReporter;
