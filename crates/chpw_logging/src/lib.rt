//! Layer: threads and sockets. Touches: files, under a lock. Called by: chpw_desks, chpw_host, chpw_service and chpw_program.
//!
//! The log of a service: a line for the result of each message, the events and the counters of the service, and its notices on
//! standard error.
#![tactic(auto)]

mod counters;
mod logging;
mod names;
mod notices;
mod observers;

pub use counters::{Counters, time_of};
pub use logging::{Log, LogLines, log_of};
pub use notices::{Notice, is_first, take_unreported};
pub use observers::{Lines, Logging};
