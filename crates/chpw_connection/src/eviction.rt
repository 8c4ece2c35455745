//! Who gives way where room is made.

/// Who may be ended to make room: connections with a message or reply of more than `larger_than` bytes that has been
/// under way since `begun_by` or longer.
#[derive(Clone, Copy, Default, Drop)]
pub struct EvictionRule {
    pub larger_than: usize,
    pub begun_by: u64,
}
