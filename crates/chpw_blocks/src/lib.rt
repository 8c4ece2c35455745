//! Layer: the machine. Touches: memory. Called by: chpw_resume.
//!
//! Byte strings one after the other, each after its length.
#![tactic(auto)]

pub mod laws;
mod reading;
mod writing;

pub use reading::read_blocks;
pub use writing::put_block;
