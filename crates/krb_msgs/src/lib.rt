//! Layer: standards and codecs. Touches: memory. Called by: chpw_messages, chpw_client and others above.
//!
//! The AP exchange, KRB-PRIV and KRB-ERROR (RFC 4120 sections 3.2, 3.5 and 5.9): opens requests and replies, and makes
//! messages.
#![tactic(auto)]

mod accepting;
mod addresses;
mod ap_exchange;
mod authenticators;
mod contents;
mod fault;
pub mod laws;
mod making;
mod opening;
mod presenting;
mod private_message;
mod reply;
mod sealed_part;
mod service_keys;
mod tickets;

pub use ap_exchange::{ApOpened, open_ap};
pub use contents::{copy_bytes, priv_part, service_name, word_bytes};
pub use fault::{ApFault, OpenError, PrivFault, ReplyFault};
pub use making::{make_ap_rep, make_ap_req, make_error, make_priv, make_ticket};
pub use presenting::is_for_us;
pub use private_message::{Private, Strictness, open_priv};
pub use reply::{Reply, read_reply};
pub use service_keys::ServiceKey;
