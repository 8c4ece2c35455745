//! Why a pool ended early.

/// Why a pool ended early.
#[derive(Clone, Copy, Drop)]
pub enum PoolFault {
    /// The listener failed, or the system has no file for what watches the sockets.
    Accept,
    /// A worker's thread could not be started.
    Start,
    /// A growth was refused, before the first connection.
    Memory,
}
