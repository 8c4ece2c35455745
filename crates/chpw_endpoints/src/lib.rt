//! Layer: standards and codecs. Touches: nothing. Called by: most crates above.
//!
//! The two addresses of a request: its peer's, and the service's own that it came to; and in whose share of the
//! connections one between them counts.
#![tactic(auto)]

mod endpoints;
mod peer;

pub use endpoints::Endpoints;
pub use peer::Peer;
