//! Layer: answering. Touches: memory. Called by: chpw_start and chpw_desks.
//!
//! What a message to the service opens to, and the replies to it. `Service` opens messages and makes replies.
#![tactic(auto)]

mod content;
pub mod laws;
mod names;
mod opened_request;
mod opening;
mod private_reply;
mod replies;
mod service;
mod versions;

pub use service::Service;
pub use versions::{Acceptance, Versions};
