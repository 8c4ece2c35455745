//! Layer: the machine. Touches: memory. Called by: most crates above.
//!
//! How names, bytes, texts and numbers are printed, as printable ASCII: each is added at the end of a text.
#![tactic(auto)]

pub mod laws;
mod lines;
mod numbers;
mod quoting;
mod times;

pub use lines::put_lines;
pub use numbers::{put_after_space, put_number, put_signed};
pub use quoting::{put_hex, put_name, put_principal, put_quoted, put_words};
pub use times::put_time;
