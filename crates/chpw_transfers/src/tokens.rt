//! Which token reports whose events.
ghost use Rattle.std.specs.Prelude.{◌≡◌, ◌+◌, ◌<◌, ◌^◌};
ghost use Rattle.chpw_transfers.specs.Tokens.{reported_by};
ghost use Rattle.chpw_transfers.specs.declared.tokens.EventSource.TheVariants as reported;

use mio::Token;

/// The listener's events.
pub const LISTENER: Token = Token(usize::MAX);

/// The events of a worker that has something for the reactor.
pub const WAKER: Token = Token(usize::MAX - 1);

/// The events of the connection to the agent at the KDC's database.
pub const KDC: Token = Token(usize::MAX - 2);

/// The events of the socket for datagrams.
pub const DATAGRAMS: Token = Token(usize::MAX - 3);

/// The events of the control socket's listener.
pub const CONTROL: Token = Token(usize::MAX - 4);

/// What was reported.
#[derive(Clone, Copy, Drop)]
pub enum EventSource {
    /// The listener.
    Listener,
    /// The connection to the agent at the KDC's database.
    Kdc,
    /// The socket for datagrams.
    Datagrams,
    /// The socket of the connection in this slot.
    Connection(usize),
    /// The control socket, a caller at it, or a wake: an order may have been answered.
    Control,
}

impl EventSource {
    /// What a token reports, if connections have the tokens below this number.
    pub fn of(token: Token, connections: usize) -> EventSource
        ensures value { result ≡ reported_by token.0 connections }
    {
        if token == LISTENER {
            EventSource::Listener
        } else if token == KDC {
            EventSource::Kdc
        } else if token == DATAGRAMS {
            EventSource::Datagrams
        } else if token.0 < connections {
            EventSource::Connection(token.0)
        } else {
            EventSource::Control
        }
    }
}

/// The token of the caller in this slot, after those of this many connections.
pub(crate) fn token_after(connections: usize, slot: usize) -> Token
    ensures reported { connections + slot + 4 < 2 ^ 64 → reported_by result.0 connections ≡ reported.Control }
{
    Token(connections.saturating_add(slot))
}
