//! How much is held, and for how long.

/// How many connections are held, how many bytes, and for how long. Times are in milliseconds.
#[derive(Clone, Copy, Drop)]
pub struct ConnectionLimits {
    /// Connections at a time, at least 1.
    pub connections: usize,
    /// Those of one peer, at least 1.
    pub per_peer: usize,
    /// The bytes of messages and replies that are held together.
    pub bytes: usize,
    /// How long a connection may be without a whole message, or with a reply that isn't taken.
    pub idle: u64,
    /// How long a message is left alone, from when there is room for all of it, before it may be ended to make room for
    /// another one.
    pub grace: u64,
    /// How long a message may wait for its worker.
    pub wait: u64,
    /// How long a client may go on sending after the last reply.
    pub linger: u64,
}
