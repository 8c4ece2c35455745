//! Why an update was not prepared.

/// Why an update from the KDC can't be shown to lookups, in the order of the checks. Nothing has changed.
#[derive(Clone, Copy, Drop)]
pub enum NotPrepared {
    /// Its name has no row yet, and has not one component of at most 128 bytes. The next opening can have it.
    Composite,
    /// Its name has no row yet, and as many rows were added as may be (10,000). The next opening has room again.
    NoRoom,
    /// A growth was refused.
    Memory,
}
