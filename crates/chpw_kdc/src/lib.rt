//! Layer: machines without sockets. Touches: memory. Called by: chpw_transfers, chpw_reactor and others above.
//!
//! What the service says to the agent at the KDC's database, and hears from it (agent/README.md). Without sockets,
//! clock or threads: the caller, who has those, sends the lines that are asked and hands in the bytes that came.
#![tactic(auto)]

mod again;
mod answer;
mod asking;
mod comparing;
mod dialog;
mod fault;
mod fields;
mod getting;
mod hearing;
mod judging;
pub mod laws;
mod pace;
mod put;
mod putting;
mod request;
mod tellings;
mod update;

pub use answer::{Answer, Reason};
pub use comparing::FEW_GONE;
pub use dialog::{KdcDialog, KdcStatus};
pub use fault::{HoldFault, LineFault, ProtocolFault};
pub use fields::{KeyPair, NAME_TEXT, is_sayable};
pub use judging::{DEFAULT_COUNT, IsOurs};
pub use request::{LINE, Request};
pub use update::{KdcUpdate, Notice, RefusedName};
