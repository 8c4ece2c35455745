//! Layer: the machine. Touches: memory. Called by: chpw_orders, chpw_desks and chpw_check.
//!
//! What a configuration without a fault may not mean: settings that nothing reads, rules whose names are no principal's,
//! and rules for everybody.
#![tactic(auto)]

pub mod laws;
mod names;
mod rules;
mod settings;
mod tables;
mod telling;
mod warning;

pub use names::PrincipalNames;
pub use rules::{config_warnings, put_rule_warnings};
pub use settings::{Listed, setting_warnings};
pub use telling::{put_file_warnings, put_warning};
pub use warning::{Doubt, Party, Place, Warning};
