//! Layer: the machine. Touches: memory. Called by: chpw_table, chpw_journal and others above.
//!
//! The journal's records: their kinds and bytes, written and read.
#![tactic(auto)]

mod key;
pub mod laws;
mod record;

pub use key::KeyRow;
pub use record::{
    KeyKind, PrincipalKey, Record, is_record_length, key_bytes, raise_bytes, record_bytes,
};
