//! The entrance: how many connections are accepted, when the next one is, which one waits for room, and which one isn't
//! let in.
ghost use Rattle.std.specs.Prelude.{◌≡◌, ◌&&◌, is_none, ◌≢◌, Some, None, false};
ghost use Rattle.std.specs.IoError.{error_kind, raw_os_error};
ghost use Rattle.chpw_transfers.specs.Accepting.{is_passing as passing, is_ready, reported, resumed, after_fault};
ghost use Rattle.chpw_transfers.specs.Bounded.{allows_more};
ghost use Rattle.chpw_endpoints.specs.Endpoints.{IsHostOf};
ghost use Rattle.chpw_endpoints.specs.Peers.{IsShareOf};
ghost use Rattle.chpw_transfers.specs.declared.accepting.Accepting.TheVariants as accepting;
ghost use Rattle.chpw_transfers.specs.declared.accept_limit.AcceptLimit.TheVariants as limit;

use crate::accept_limit::AcceptLimit;
use crate::accepting::Accepting;
use chpw_endpoints::{Endpoints, Peer};
use std::io::{Error, ErrorKind};
use std::net::{SocketAddr, TcpStream};

/// A connection that has come, and its two addresses.
#[derive(Drop)]
pub struct Newcomer {
    pub stream: TcpStream,
    pub ends: Endpoints,
    /// In whose share of the connections it counts, if in any.
    pub share: Option<Peer>,
}

impl Newcomer {
    /// The connection of this stream between these two sockets.
    pub fn of(stream: TcpStream, peer: SocketAddr, local: SocketAddr) -> Newcomer
        ensures stream { result.stream ≡ stream }
        ensures peer { IsHostOf peer result.ends.peer }
        ensures local { IsHostOf local result.ends.local }
        ensures share { IsShareOf result.ends result.share }
    {
        let ends = Endpoints::of(peer, local);
        Newcomer {
            stream,
            ends,
            share: ends.share(),
        }
    }
}

/// What becomes of a connection that has come.
#[derive(Drop)]
pub enum Admission {
    /// It is in this slot.
    Admitted(usize),
    /// Its peer has as many connections as it may: it is closed.
    Refused,
    /// It waits until there is room for it.
    Waits(Newcomer),
}

/// Lets connections in.
#[derive(Drop)]
pub struct Entrance {
    /// How many connections are accepted in all, those that come as datagrams among them.
    pub wanted: AcceptLimit,
    pub accepting: Accepting,
    /// A connection for which there is no room yet.
    pub pending: Option<Newcomer>,
}

impl Entrance {
    /// An entrance for so many connections. Nobody has come yet.
    pub fn new(wanted: AcceptLimit) -> Entrance
        ensures value { result ≡ record { wanted = wanted; accepting = accepting.Ready; pending = None } }
    {
        Entrance {
            wanted,
            accepting: Accepting::Ready,
            pending: None,
        }
    }

    /// Whether more than this many connections are accepted.
    pub fn wants_more(&self, accepted: u64) -> bool
        ensures value { result ≡ allows_more self.now.wanted accepted }
    {
        self.wanted.allows_more(accepted)
    }

    /// Whether the listener is asked for one more connection, after this many.
    pub fn can_accept(&self, accepted: u64) -> bool
        ensures value { result ≡ (allows_more self.now.wanted accepted && (is_none self.now.pending && is_ready self.now.accepting)) }
    {
        self.wanted.allows_more(accepted)
            && self.pending.is_none()
            && matches!(self.accepting, Accepting::Ready)
    }

    /// The listener can't be watched: no connection is accepted.
    pub fn fail(&mut self)
        ensures value { self.new ≡ record self.old { accepting = accepting.Failed } }
    {
        self.accepting = Accepting::Failed;
    }

    /// The listener was reported.
    pub fn report(&mut self)
        ensures value { self.new ≡ record self.old { accepting = reported self.old.accepting } }
    {
        self.accepting = self.accepting.after_report();
    }

    /// Time has passed up to this moment.
    pub fn pass(&mut self, now: u64)
        ensures value { self.new ≡ record self.old { accepting = resumed now self.old.accepting } }
    {
        self.accepting = self.accepting.after_time(now);
    }

    /// An accept failed so, at this moment.
    pub fn stumble(&mut self, error: &Error, now: u64)
        ensures would_wait { error_kind error.now ≡ ErrorKind.WouldBlock → self.new ≡ record self.old { accepting = accepting.Waiting } }
        ensures fault { error_kind error.now ≢ ErrorKind.WouldBlock
            → self.new ≡ record self.old { accepting = after_fault false (passing (raw_os_error error.now)) now } }
        ensures not_at_once { is_ready self.new.accepting ≡ false }
    {
        self.accepting = Accepting::after_error(error, now);
    }

    /// Stores a connection that has come, until there is room for it.
    pub fn keep(&mut self, newcomer: Newcomer)
        ensures value { self.new ≡ record self.old { pending = Some newcomer } }
    {
        self.pending = Some(newcomer);
    }

    /// The connection that waits for room, if there is one. It waits here no longer.
    pub fn take(&mut self) -> Option<Newcomer>
        ensures value { result ≡ self.old.pending }
        ensures taken { self.new ≡ record self.old { pending = None } }
    {
        self.pending.take()
    }

    /// After this many connections no more are accepted. The one that waits for room is dropped.
    pub fn close(&mut self, accepted: u64)
        ensures value { self.new ≡ record self.old { wanted = limit.Of accepted; pending = None } }
    {
        self.wanted = AcceptLimit::Of(accepted);
        self.pending = None;
    }
}
