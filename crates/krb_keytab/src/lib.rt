//! Layer: standards and codecs. Touches: memory. Called by: chpw_import.
//!
//! Keytabs of MIT Kerberos, keytab file format 0x0502: the entries of a file, or its first fault.
#![tactic(auto)]

mod entry;
mod fault;
mod fields;
mod file;
pub mod laws;
mod records;

pub use entry::KeytabEntry;
pub use fault::{KeytabError, KeytabFault};
pub use file::{KEYTAB_FORMAT, read_keytab};
