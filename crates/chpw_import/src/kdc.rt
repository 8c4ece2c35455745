//! The principals that a KDC has, by the agent at its database (agent/README.md).
mod choosing;
mod command;
mod fault;
mod listing;
mod reading;
mod telling;

pub use choosing::{KdcImport, LeftName, LeftReason};
pub use command::{import_from, tell_kdc};
pub use fault::ListFault;
pub use listing::{KdcKeys, Listed, listing_of};
