//! Layer: threads and sockets. Touches: threads, locks and files. Called by: chpw_service.
//!
//! `serve_histories`: a service's workers answer messages at one desk after the other, while orders of callers at the control socket
//! are carried out.
#![tactic(auto)]

mod closing;
mod compacting;
mod context;
mod histories;
mod journals;
mod keeping;
pub mod laws;
mod machine;
mod openings;
mod orders;
mod reloading;
mod staff;
mod tallies;

pub use context::{KdcPlace, ServiceContext};
pub use histories::serve_histories;
pub use journals::{JournalLength, journal_length};
pub use machine::Machine;
pub use openings::{Opened, Opening, first_opening, start_desk};
pub use staff::{ServiceWorker, make_staff};
