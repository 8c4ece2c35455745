//! Layer: threads and sockets. Touches: files, the clock, threads and sockets. Called by: chpw_program.
//!
//! `serve`: the service at its addresses, from reading its files to closing its last desk.
#![tactic(auto)]

mod kdc;
pub mod laws;
mod opening;
mod running;
mod serving;

pub use chpw_desks::Machine;
pub use serving::serve;
