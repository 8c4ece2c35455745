//! Layer: commands. Touches: files and one socket. Called by: chpw_endings and chpw_program.
//!
//! Importing keys: the service keys and the principals' keys of a keytab, with the entries that are skipped and why;
//! the principals that a KDC has; and a principal's keys from a password.
#![tactic(auto)]

mod counts;
mod entries;
mod fault;
mod import_command;
mod kdc;
mod key_command;
mod keytab;
mod left;
mod left_out;
mod numbers;
mod output;
mod password;
mod rows;
mod slot;
mod table;

pub use fault::KeysFault;
pub use import_command::{import, tell_keytab, write_keytab};
pub use kdc::{
    KdcImport, KdcKeys, LeftName, LeftReason, ListFault, Listed, import_from, listing_of, tell_kdc,
};
pub use key_command::{key, tell_password, write_password};
pub use keytab::{ImportFault, KeytabImport, bring_in};
pub use left::{Reason, SkippedEntry};
pub use numbers::KeyNumbers;
pub use password::{default_salt, has_carriage_return, password_in, password_row};
