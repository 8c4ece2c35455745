//! Messages without a line of their own.

/// How many messages of one kind were held back: they have no line of their own.
#[derive(Clone, Copy, Drop)]
pub struct HeldCount {
    /// Those from this machine, of 127.0.0.0/8 or ::1.
    pub loopback: u32,
    /// Those from elsewhere.
    pub other: u32,
    /// When the first of them came, in microseconds.
    pub since: u64,
}
