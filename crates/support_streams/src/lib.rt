//! Layer: tests. Touches: memory. Called by: cases_network, cases_journal and cases_service.
//!
//! Readers and writers for tests: they give or take bytes, and fail, as a case says.
#![tactic(auto)]

mod peer;

pub use peer::{Course, Giver, Taker, Way};
