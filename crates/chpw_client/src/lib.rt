//! Layer: answering. Touches: memory. Called by: chpw_endings.
//!
//! A client of the service (RFC 3244 section 2) that needs no KDC: it makes its own ticket with the
//! service's key, and reads the reply.
#![tactic(auto)]

mod drawing;
mod line;
mod messages;
mod records;
mod request;
mod request_terms;

pub use line::client_line;
pub use request::{LAST_START, LONGEST_PASSWORD, SentRequest, client_request};
