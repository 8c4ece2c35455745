//! The forms that a report has.

/// What is printed for each principal.
#[derive(Clone, Copy, Drop)]
pub enum Form {
    /// A line for a person: `alice kvno 3 counts 4096 4096`; at the end how many principals there are.
    Lines,
    /// A line for each key, the newest first, for a KDC's tools: principal, kvno, etype, iteration count, key in
    /// hexadecimal, salt. They are secret.
    Keys,
}
