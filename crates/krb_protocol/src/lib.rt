//! Layer: standards and codecs. Touches: nothing. Called by: most crates above.
//!
//! The numbers of the protocol (RFC 4120 section 7.5), its result codes (RFC 3244 section 2) and error codes, and
//! `Refusal`, with which a message is refused.
#![tactic(auto)]

pub mod codes;
pub mod laws;
mod numbers;
mod refusal;

pub use numbers::{
    ADDR_TYPE_IPV4, ADDR_TYPE_IPV6, KRB_AP_REP, KRB_AP_REQ, KRB_ERROR, KRB_PRIV, MUTUAL_REQUIRED,
    NT_PRINCIPAL, NT_SRV_INST, PVNO, TICKET_INITIAL, TICKET_INVALID, USE_SESSION_KEY,
};
pub use refusal::Refusal;
