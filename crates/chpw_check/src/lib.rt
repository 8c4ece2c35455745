//! Layer: commands. Touches: the writers handed in. Called by: chpw_endings.
//!
//! `check`: what is wrong with the text of a configuration, and what it may not mean.
#![tactic(auto)]

mod checking;

pub use checking::{explain_check, run_check, warn_check};
