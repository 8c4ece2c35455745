//! Layer: tests. Touches: standard input and output. Called by: most crates above.
//!
//! What the programs of cases share: each case is a line on standard input, and its answer is printed
//! on standard output.
#![tactic(auto)]

mod census;
mod change;
mod fault;
mod topics;
mod words;

pub use census::Census;
pub use change::Change;
pub use fault::Fault;
pub use topics::{Topics, no_topic, print_topics};
pub use words::{bytes, bytes_with_zeros, hex_text, no_case, text_of};
