//! Layer: shared under the lock. Touches: nothing. Called by: chpw_reactor.
//!
//! A list that exists in proofs alone. It takes no memory: it is a log that only the holder of its pen extends.
#![tactic(auto)]

mod line;
mod list;
mod rule;
mod steps;

pub use list::GhostList;
