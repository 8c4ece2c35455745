//! A principal's keys of one version.

/// A principal's keys of one version, both made under one iteration count.
#[derive(Clone, Copy, Drop)]
pub struct KeyRow {
    /// The key version number, 1 to 4294967295.
    pub kvno: u32,
    /// The iteration count that both keys were derived under, 1 to 16,777,216.
    pub count: u32,
    /// The key of etype 17.
    pub aes128: [u8; 16],
    /// The key of etype 18.
    pub aes256: [u8; 32],
}
