//! Layer: threads and sockets. Touches: files and the clock. Called by: chpw_service, chpw_program and others above.
//!
//! What a service starts from: its files, and why they are refused; the rules and the table that they give; a raise of the
//! iteration count. And `table`, which prints what those files hold.
#![tactic(auto)]

mod bounded;
mod explaining;
mod fault;
mod file_ids;
mod files;
mod line_output;
mod new_journal;
mod ownership;
mod raising;
mod readiness;
mod resuming;
mod rules;
mod shared_files;
mod starting;
mod table;

pub use explaining::{explain_journal, explanation_line, explanation_words};
pub use fault::ServeFault;
pub use file_ids::keep_apart;
pub use files::{
    Configuration, LONGEST_CONFIGURATION, configuration_of, configuration_text, kdc_names,
    open_file, read_configuration, read_seed, read_settings, settings, unread_fault,
};
pub use line_output::{Kind, LineOutput, is_standard_error};
pub use new_journal::{JournalMaker, NewJournal, Unmade, make_journal, make_journal_at};
pub use ownership::{Exposure, Ids, Standing, is_shared, own_ids, standing_at};
pub use raising::{RaiseReport, raise_where_asked};
pub use resuming::{Resumption, SetAside, resume_where_asked};
pub use rules::{Rules, rules_of};
pub use shared_files::{Exposed, exposure_at, refuse_exposed, refuse_missing};
pub use starting::open_table;
pub use table::{tell_table, write_table, write_table_of};
