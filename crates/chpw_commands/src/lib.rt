//! Layer: commands. Touches: the streams handed in. Called by: chpw_drill, chpw_check, chpw_endings and chpw_program.
//!
//! `drill`: a script of decisions, taken by the machine, and what it prints.
#![tactic(auto)]

mod drill;

pub use drill::{DrillFault, run_drill};
