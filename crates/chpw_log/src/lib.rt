//! Layer: answering. Touches: memory. Called by: chpw_logging.
//!
//! The lines of the service's log: one record for one message, as printable ASCII.
#![tactic(auto)]

mod event;
mod held_count;
mod kind;
pub mod laws;
mod limit;
mod limits;
mod line;
mod message_event;
mod moment;
mod summing;
mod unconfirmed;
mod updates;
mod writing;

pub use event::{ServiceEvent, write_event};
pub use held_count::HeldCount;
pub use kind::HeldKind;
pub use limits::{HeldCounts, LineLimits, LinePermit};
pub use line::{Line, micros_of};
pub use message_event::{ClientAndTarget, MessageEvent, Party};
pub use summing::write_held;
pub use unconfirmed::write_unconfirmed;
pub use updates::write_update;
pub use writing::write_line;
