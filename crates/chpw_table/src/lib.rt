//! Layer: the machine. Touches: memory. Called by: chpw_decider, chpw_book and others above.
//!
//! The decision machine of the service: one request, one row of the decision, one step of the
//! table.
#![tactic(auto)]

mod change;
mod counts;
mod derived;
mod digest;
mod history;
mod key;
pub mod laws;
mod outcome;
mod raising;
mod request;
mod same_keys;
mod sink;
mod standing;
mod table;
mod times;
mod updating;
mod verdict;

pub use change::{AcceptedChange, KeyChange};
pub use chpw_record::{KeyRow, raise_bytes, record_bytes};
pub use counts::{COUNTS_LIMIT, Counts};
pub use derived::DerivedKeys;
pub use digest::Digest;
pub use history::{Entry, Event, Receipt};
pub use key::{blank_key, newest};
pub use outcome::{DecideFault, Outcome, Refused};
pub use raising::{Full, Raise, RaiseVerdict};
pub use request::{Body, Opened, RequestId, Target};
pub use same_keys::are_same_keys;
pub use sink::{Durability, JournalSink, SinkFault};
pub use standing::StandingRules;
pub use table::{
    KeyFault, Lookup, MOST_CARRIED, Prepared, PreparedUpdate, Principal, ResumeState, RowChange,
    Table,
};
pub use times::{CLOCK_SKEW, LAST_SECOND, Moment};
pub use updating::{KdcUpdate, UpdateFault, UpdateOutcome, UpdateRefused, UpdateVerdict};
pub use verdict::Verdict;
