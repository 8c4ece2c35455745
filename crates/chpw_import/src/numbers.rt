//! The numbers of a principal's keys.
ghost use Rattle.std.specs.Prelude.{◌≤◌};

/// The numbers of a principal's keys.
#[derive(Clone, Copy, Drop)]
pub struct KeyNumbers {
    /// 1 to 4,294,967,295.
    pub kvno: u32,
    /// 1 to 16,777,216.
    pub iterations: u32,
    ghost some_count: { 1 ≤ iterations },
}
