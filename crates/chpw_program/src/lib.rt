//! Layer: commands. Touches: files, sockets and the standard streams. Called by: chpw_server.
//!
//! What the program does for each command line: the service, a request to it, a command for a running
//! one, the table that is held, imported keys, a check of a configuration, and a script of decisions.
#![tactic(auto)]

mod command_line;
mod commands;
mod descriptors;
mod running;

pub use command_line::words;
pub use commands::explain_misuse;
pub use running::run_program;
