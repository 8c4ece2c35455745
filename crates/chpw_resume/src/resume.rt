//! What a resume file has.

use crate::mark::JournalMark;
use chpw_rules::Items;
use chpw_table::ResumeState;

/// The most bytes of a resume file: 256 MiB, some three million used ids.
pub const LONGEST_RESUME: usize = 268_435_456;

/// The line that a resume file begins with: its format's number is 1.
pub(crate) const HEADER: [u8; 19] = *b"boddrelyn resume 1\n";

/// What a service leaves at a clean end, as its resume file has it.
#[derive(Drop)]
pub struct Resume {
    /// The realm that it served.
    pub realm: Items<u8>,
    /// Its journal, as it left it.
    pub journal: JournalMark,
    /// What its table leaves.
    pub carried: ResumeState,
}
