//! Layer: the machine. Touches: memory. Called by: chpw_report and chpw_import.
//!
//! Writes a configuration as the text of its TOML file.
#![tactic(auto)]

mod fault;
mod fields;
mod names;
mod rows;
mod stanzas;
mod writing;

pub use fault::WriteFault;
pub use names::can_be_written;
pub use stanzas::write_stanzas;
pub use writing::write_config;
