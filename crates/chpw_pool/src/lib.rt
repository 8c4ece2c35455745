//! Layer: tests. Touches: threads and sockets. Called by: cases_desk.
//!
//! For programs of cases alone: a pool of workers at one desk. A service has its workers from desk to desk, and so starts them
//! itself.
#![tactic(auto)]

mod pool;
mod unattended;

pub use chpw_reactor::Pool;
pub use chpw_sockets::PoolFault;
pub use chpw_transfers::AcceptLimit;
pub use chpw_workers::{MachineClock, machine_moment};
pub use pool::run_pool;
