//! Layer: the machine. Touches: memory. Called by: chpw_start and chpw_desks.
//!
//! What a service leaves at a clean end for its next start: the text of its resume file, and whether that fits a start.
#![tactic(auto)]

mod fitting;
pub mod laws;
mod mark;
mod reading;
mod resume;
mod writing;

pub use fitting::{Misfit, first_misfit};
pub use mark::{JournalMark, MARKED, mark_in, mark_of};
pub use reading::{ResumeFault, read_resume};
pub use resume::{LONGEST_RESUME, Resume};
pub use writing::{WriteFault, write_resume};
