//! Layer: machines without sockets. Touches: memory. Called by: chpw_program and others above.
//!
//! The program's command line, over `clap`: its commands, their options and help texts, and what a user asks for.
#![tactic(auto)]

mod addresses;
mod invocation;
mod listening;
mod matching;
mod option_lists;
mod options;
mod program;
mod refusing;
mod texts;
mod values;

pub use invocation::{
    ClientOptions, ConnectionLimit, ControlOptions, DEFAULT_BUFFERS, DEFAULT_CLIENTS,
    DEFAULT_COUNT, DEFAULT_IDLE, DEFAULT_KDC_WAIT, DEFAULT_KVNO, GREATEST_COUNT, GREATEST_KVNO,
    GREATEST_PORT, ImportOptions, Invocation, KdcOptions, KeyOptions, LONGEST_IDLE,
    LONGEST_KDC_WAIT, LONGEST_REALM, MOST_BUFFERS, MOST_CLIENTS, MOST_CLIENTS_PER_PEER,
    MOST_WORKERS, NewJournalOptions, PasswordSource, ServeOptions, TableForm, TableOptions,
    default_clients_per_peer,
};
pub use listening::{DEFAULT_ADDRESS, ListenAddresses, MOST_ADDRESSES};
pub use matching::command_of;
pub use program::VERSION;
