//! Layer: machines without sockets. Touches: memory. Called by: chpw_transfers and others above.
//!
//! The control socket of the service (docs/PROTOCOL.md): which command a line is, and the text of its answer. Without
//! sockets, clock or threads: chpw_transfers has their sockets, hands in what came and writes what is answered.
#![tactic(auto)]

mod answer;
mod caller;
mod callers;
mod command;
mod dialog;
mod fault;
mod file_name;
pub mod laws;
mod piece;
mod status;
mod telling;
mod time;

pub use answer::{ended_ok, put_error, put_line, put_ok};
pub use callers::{Callers, TakenOrder};
pub use command::Command;
pub use dialog::Dialog;
pub use fault::ControlFault;
pub use file_name::FileName;
pub use status::{JournalState, KdcState, NameState, Status};
pub use telling::status_answer;
pub use time::Time;
