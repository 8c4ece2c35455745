//! Layer: commands. Touches: files, sockets and the standard streams. Called by: chpw_program.
//!
//! How runs of the program end, with the line and the reason that standard error gets; and the commands that are carried out
//! without a service of their own: `client`, a command for a running service, and a check of a configuration.
#![tactic(auto)]

mod checking;
mod client;
mod control;
mod ending;
mod journals;
mod new_password;
mod overlaps;
mod patience;
mod reasons;
mod seeds;

pub use checking::check_file;
pub use client::ask;
pub use control::{send_command, tell_service};
pub use ending::{Ending, tell};
pub use journals::journal_reason;
pub use reasons::{Reason, reason_of};
