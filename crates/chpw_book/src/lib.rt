//! Layer: shared under the lock. Touches: memory, the journal and the lock. Called by: chpw_workers, chpw_desks and others above.
//!
//! The book that several workers share under a lock, and the desk at which each decides with a pass of
//! its own.
#![tactic(auto)]

mod agreeing;
mod at_desk;
mod book;
mod closing;
mod deciding;
mod desk;
mod history;
mod known;
pub mod laws;
mod naming;
mod newest;
mod pass;
mod raising;
mod recorded;
mod rows;
mod standing;
mod unnamed;
mod updating;

pub use agreeing::agree;
pub use at_desk::AtDesk;
pub use book::Book;
pub use closing::{CloseFault, CloseRefused, Closed};
pub use desk::Desk;
pub use naming::DeskName;
pub use pass::Pass;
pub use raising::RaiseFault;
pub use unnamed::{StartFault, UnnamedDesk};
pub use updating::{DeskUpdateFault, DeskUpdateRefused};
