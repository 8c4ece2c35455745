//! Layer: the machine. Touches: memory. Called by: chpw_start, chpw_orders, chpw_import, chpw_check and others above.
//!
//! The service's configuration, read from its file in TOML.
#![tactic(auto)]

mod explanation;
mod fault;
mod kdc;
mod keys;
mod kinds;
mod reading;
mod seen;

pub use explanation::explain;
pub use fault::{ConfigError, ConfigFault, ConfigFaultKind, Part};
pub use kdc::read_kdc;
pub use reading::read_config;
