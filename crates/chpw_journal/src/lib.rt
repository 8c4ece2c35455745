//! Layer: the machine. Touches: one file. Called by: chpw_book, chpw_start, chpw_reload, chpw_report, chpw_desks and others above.
//!
//! The journal: where its records go, and how a table is restored from them.
#![tactic(auto)]

mod compact;
mod end_mark;
mod explaining;
mod explanation;
mod fault;
mod file_limit;
mod file_number;
mod file_sink;
mod heading;
mod journal_file;
pub mod known;
pub mod laws;
mod memory_sink;
mod quiet;
mod reading;
mod replacing;
mod restoring;
mod sink_cause;
mod synced_file;
mod whole;

pub use compact::compact_journal;
pub use end_mark::JournalMarks;
pub use explaining::{Expectation, Explanation, RefusedRecord, explain_file};
pub use explanation::{put_explanation, put_place};
pub use fault::RestoreFault;
pub use file_limit::room_for;
pub use file_number::FileNumber;
pub use file_sink::FileSink;
pub use heading::{heading_bytes, is_headed};
pub use journal_file::{Journal, JournalFile, OpenFault, open_journal};
pub use memory_sink::MemorySink;
pub use quiet::quiet_after;
pub use replacing::{Replacement, beside, remove_unfinished, replace_journal, write_new};
pub use restoring::{Restored, restore};
pub use sink_cause::SinkCause;
pub use synced_file::SyncedFile;
pub use whole::restore_file;
