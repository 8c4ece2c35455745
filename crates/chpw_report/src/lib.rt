//! Layer: the machine. Touches: the streams handed in. Called by: chpw_reload, chpw_start and chpw_orders.
//!
//! Reports of the principals that a table holds: lines for a person, and lines for a KDC's tools.
#![tactic(auto)]

mod configuration;
mod form;
mod holding;
mod keys;
mod lines;
mod report;

pub use configuration::{held_config, held_row, write_configuration};
pub use form::Form;
pub use holding::{HeldTable, held_from};
pub use report::{ReportFault, write_report};
