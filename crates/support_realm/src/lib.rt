//! Layer: tests. Touches: memory. Called by: most crates above.
//!
//! A realm, its principals' requests, a service over its table, a journal, a clock and random words, for tests and
//! measurements.
#![tactic(auto)]

mod clock;
mod realm;
mod request;
mod world;

pub use clock::{Counting, Standing};
pub use realm::{config, name, table};
pub use request::{NOW, PASSWORD, change};
pub use world::{World, newest_kvno};
