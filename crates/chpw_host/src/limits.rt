//! What the connections of a service may hold, and for how long.
ghost use Rattle.std.specs.Prelude.{◌≡◌};
ghost use Rattle.chpw_host.specs.Serving.{limit_asked, limits_asked};

use chpw_connections::ConnectionLimits;
use chpw_invocation::{ConnectionLimit, ServeOptions};
use chpw_transfers::AcceptLimit;

/// The most milliseconds that a message may wait for its worker.
const LONGEST_WAIT: u64 = 5_000;

/// For how many milliseconds a message under way is left alone.
const GRACE: u64 = 1_000;

/// How many milliseconds a client has to end its side after the last reply.
const LINGER: u64 = 1_000;

/// The bounds that the options set, in bytes and milliseconds.
pub fn limits_of(options: &ServeOptions<'_>) -> ConnectionLimits
    ensures value { result ≡ limits_asked options.now }
{
    ConnectionLimits {
        connections: options.clients as usize,
        per_peer: options.clients_per_peer as usize,
        bytes: usize::from(options.buffers) * 1_048_576,
        idle: u64::from(options.idle) * 1_000,
        grace: GRACE,
        wait: LONGEST_WAIT,
        linger: LINGER,
    }
}

/// After how many connections the service ends.
pub fn limit_of(asked: ConnectionLimit) -> AcceptLimit
    ensures value { result ≡ limit_asked asked }
{
    match asked {
        ConnectionLimit::Unlimited => AcceptLimit::Unlimited,
        ConnectionLimit::Of(count) => AcceptLimit::Of(u64::from(count)),
    }
}
