//! The policy for new passwords.
/// What a new password must meet, and how its keys are made.
#[derive(Clone, Copy, Drop)]
pub struct Policy {
    /// Bytes at least, 0 to 1024.
    pub min_length: u32,
    /// Character classes at least, 0 to 5.
    pub min_classes: u8,
    /// How many of a principal's newest keys a new password is compared with, 0 to 16.
    pub depth: u8,
    /// The iteration count of new keys, 1 to 16,777,216.
    pub iterations: u32,
    /// Whether setting another principal's password needs an initial ticket, as changing one's own does.
    pub set_needs_initial: bool,
}
