//! Layer: threads and sockets. Touches: threads. Called by: chpw_desks, chpw_reactor and others above.
//!
//! The workers of a service: each answers the messages of its inbox at a desk, one after the other, in a thread of its own. When all
//! have ended, the desk's history has in it what each of them answered.
#![tactic(auto)]

mod clock;
mod context;
mod desk;
mod inbox;
pub mod laws;
mod shift;
mod undecided;
mod updates;
mod worker;

pub use clock::{MachineClock, machine_moment};
pub use context::Context;
pub use desk::{AfterDesk, close_desk, serve_desk};
pub use inbox::{Crew, Inbox, Task, WorkerTurn};
pub use shift::{BackgroundTask, NotStarted, Shift, Staff, run_shift, serve_at};
pub use updates::{FittingUpdate, KdcDecider, UpdateTurn};
pub use worker::Worker;
