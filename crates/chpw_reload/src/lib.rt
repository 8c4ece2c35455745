//! Layer: the machine. Touches: memory. Called by: chpw_orders, chpw_desks and chpw_service.
//!
//! A reload: the table that the next desk opens with, made from the closed one, the new configuration and the whole
//! journal.
#![tactic(auto)]

mod compacting;
mod comparing;
mod fault;
mod lacking;
pub mod laws;
mod next;
mod prepared_reload;
mod reloading;

pub use compacting::goes_with;
pub use fault::{ReloadFault, put_fault};
pub use prepared_reload::{PreparedReload, prepare};
pub use reloading::{NextTable, RefusedReload, finish};
