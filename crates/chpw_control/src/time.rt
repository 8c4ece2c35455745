//! A time to be printed.

/// A time to be printed: seconds since 1970-01-01T00:00:00Z, of the years 0 to 9999, and microseconds, 0 to 999999.
#[derive(Clone, Copy, Drop)]
pub struct Time {
    pub seconds: i64,
    pub micros: u32,
}
