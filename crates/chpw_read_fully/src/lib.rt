//! Layer: standards and codecs. Touches: the reader handed in. Called by: chpw_frame, chpw_journal and others above.
//!
//! A buffer filled from a reader, in a bounded number of reads.
#![tactic(auto)]

mod filling;

pub use filling::{FillOutcome, fill, fill_vec};
