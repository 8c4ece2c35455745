//! Layer: threads and sockets. Touches: files. Called by: chpw_desks and chpw_host.
//!
//! What the orders of callers at the control socket read, write and are answered, without a desk: a configuration read anew, and a
//! compact journal.
#![tactic(auto)]

mod answers;
mod checked_reload;
mod compacting;
mod replacing;
mod rereading;
mod telling;

pub use answers::{
    answer_or_empty, compact_answer, compact_refusal, exposed_refusal, prepare_refusal, refusal,
    reload_answer, reload_refusal, reopen_answer,
};
pub use checked_reload::CheckedReload;
pub use compacting::{CompactFault, Compaction, begin_compaction};
pub use replacing::{JournalAt, JournalPlace, NotReplaced, go_on_in, text_to_write};
pub use rereading::{PendingReload, PrepareFault, read_anew};
