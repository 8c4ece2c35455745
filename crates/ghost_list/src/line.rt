//! The log.

use crate::rule::LineRule;
use logbook::{Seen, Word};

/// A line of the log, which exists in proofs alone. It is written with the pen `by`, which is then spent, and names
/// the pen that goes on. Only a line that is never written has no value: what a step asks for that writes none.
pub struct Line<E> {
    pub value: Option<E>,
    pub by: u64,
    pub next: u64,
}

/// Knows that the log has reached some length. It has no bytes.
pub(crate) type Log<E> = Seen<Line<E>, u64, LineRule>;

/// A word, of which the log knows by whom it may be written. The one that each step uses is the head.
pub(crate) type LogWord<E> = Word<Line<E>, u64, LineRule>;
