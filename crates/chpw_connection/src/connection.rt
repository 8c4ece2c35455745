//! What happens to one connection, from its accept to its end.
ghost use Rattle.std.specs.Prelude.{◌≡◌, ◌==◌, if◌then◌else◌, ◌+◌, ◌≤◌, [], IfSome, IfNone, Some, None, IfOk, OnOk, OnErr, true, nat_lt};
ghost use Rattle.chpw_connection.specs.Reading.{is_unfinished, is_covered};

use crate::eviction::EvictionRule;
use crate::limits::ConnectionLimits;
use crate::message::{WholeMessage, at_most, wanted_after, whole_after};
use crate::remembered::Remembered;
use chpw_endpoints::{Endpoints, Peer};
use std::alloc::{AllocError, Global};
use std::mem;

/// Messages of one connection, at the most.
pub const MAX_MESSAGES: u32 = 65_536;

#[derive(Drop)]
pub enum Phase {
    /// It reads its next message.
    Reading(Incoming),
    /// This message waits for its worker.
    Queued(WholeMessage),
    /// A worker answers this message.
    Answering(Remembered<Vec<u8>>),
    /// This reply is written once its change is confirmed.
    Confirming(DeferredReply),
    /// This reply is being written.
    Writing(Outgoing),
    /// Its last reply is out, and what still comes is discarded.
    Lingering,
    /// It is gone, and a worker still answers its message.
    Abandoned,
    /// It has ended.
    Ended,
}

/// A message, of which these bytes have come.
#[derive(Drop)]
pub struct Incoming {
    pub received: Vec<u8>,
    /// The bytes that there is room for: four from the first byte of its length on, and all of the message from the
    /// next byte on.
    pub room: usize,
    /// The moment since which there is that much room.
    pub begun: u64,
}

impl Incoming {
    /// A message of which nothing has come.
    pub(crate) fn new(alloc: Global) -> Incoming
        ensures nothing { (result.received.items ≡ []) × (result.room ≡ 0) }
    {
        Incoming {
            received: Vec::new(alloc),
            room: 0,
            begun: 0,
        }
    }
}

/// A reply that waits until its change is confirmed.
#[derive(Drop)]
pub struct DeferredReply {
    pub reply: Vec<u8>,
    /// Whether the connection ends after it.
    pub is_last: bool,
    pub ticket: u64,
}

/// A reply, and how many of its bytes are out.
#[derive(Drop)]
pub struct Outgoing {
    pub reply: Vec<u8>,
    pub written: usize,
    /// Whether the connection ends after it.
    pub is_last: bool,
}

/// A connection. `since` is the moment of its accept, of its last whole message, of its last reply, or of that reply's
/// release, in milliseconds; `answered` counts the replies after which it goes on.
#[derive(Drop)]
pub struct Connection {
    pub number: u64,
    /// Its two addresses.
    pub ends: Endpoints,
    /// In whose share of the connections it counts, if in any.
    pub share: Option<Peer>,
    pub since: u64,
    pub answered: u32,
    pub phase: Phase,
    // While it reads a message, that isn't whole.
    pub ghost unfinished: { is_unfinished phase ≡ true },
    // What has come of a message is no more than it holds.
    pub ghost covered: { is_covered phase ≡ true },
}

impl Connection {
    ghost use Rattle.chpw_connection.specs.Holding.{held_by, size_by, growth_by, begun_of};
    ghost use Rattle.chpw_connection.specs.Stages.{stage, reading, queued};
    ghost use Rattle.chpw_connection.specs.Stages.{Goes, came, taken, failed, wanted_by, left_of};
    ghost use Rattle.chpw_connection.specs.Slot.{waits, queued_by, is_newly_queued};
    ghost use Rattle.chpw_connection.specs.Late.{is_late};
    ghost use Rattle.chpw_connection.specs.Shares.{is_of_peer};
    ghost use Rattle.chpw_connection.specs.Confirming.{is_confirmed as is_confirmed_by, overdue_in};
    ghost use Rattle.chpw_connection.specs.Eviction.{gives_way as gives_way_of, is_among as is_among_of};

    /// A connection between these two, in this share, that was accepted at this moment.
    pub fn new(
        alloc: Global,
        number: u64,
        ends: Endpoints,
        share: Option<Peer>,
        now: u64,
    ) -> Connection
        ensures stage { stage result ≡ reading [] }
        ensures number { result.number ≡ number }
        ensures ends { result.ends ≡ ends }
        ensures share { result.share ≡ share }
        ensures answered { result.answered ≡ 0 }
        ensures since { result.since ≡ now }
        ensures nothing { held_by result.phase ≡ 0 }
    {
        Connection {
            number,
            ends,
            share,
            since: now,
            answered: 0,
            phase: Phase::Reading(Incoming::new(alloc)),
        }
    }

    /// Whether it counts in this peer's share.
    pub fn is_of(&self, peer: Peer) -> bool
        ensures value { result ≡ is_of_peer peer self.now }
    {
        match self.share {
            None => false,
            Some(own) => own.is(peer),
        }
    }

    /// How many bytes of its message are still to come, as far as is known: until its length is complete, those of the
    /// length.
    pub fn bytes_to_read(&self) -> usize
        ensures value { result ≡ wanted_by (stage self.now) }
    {
        match &self.phase {
            Phase::Reading(incoming) => wanted_after(&incoming.received),
            _ => 0,
        }
    }

    /// How many bytes it holds, of its message or its reply, or has room for, of a message that it reads.
    pub fn bytes_held(&self) -> usize
        ensures value { result ≡ held_by self.now.phase }
    {
        match &self.phase {
            Phase::Reading(incoming) => incoming.room,
            Phase::Queued(message) => message.bytes.len(),
            Phase::Confirming(deferred) => deferred.reply.len(),
            Phase::Writing(outgoing) => outgoing.reply.len(),
            Phase::Answering(_) | Phase::Lingering | Phase::Abandoned | Phase::Ended => 0,
        }
    }

    /// How many bytes its message has, as far as its length has come, or its reply.
    pub fn size(&self) -> usize
        ensures value { result ≡ size_by self.now.phase }
    {
        match &self.phase {
            Phase::Reading(incoming) => whole_after(&incoming.received),
            Phase::Queued(message) => message.bytes.len(),
            Phase::Confirming(deferred) => deferred.reply.len(),
            Phase::Writing(outgoing) => outgoing.reply.len(),
            Phase::Answering(_) | Phase::Lingering | Phase::Abandoned | Phase::Ended => 0,
        }
    }

    /// How many more bytes it will hold once the next ones of its message are read.
    pub fn growth(&self) -> usize
        ensures value { result ≡ growth_by self.now.phase }
    {
        self.size().saturating_sub(self.bytes_held())
    }

    /// Bytes came, of which those count that are wanted. If the message is complete then, it is queued; the answer says
    /// so. Without memory for them the connection has ended.
    #[tactic(auto, using(crate::proofs::ReadingLemmas::no_more_than_whole, crate::proofs::ReadingLemmas::covered_by))]
    pub fn receive(&mut self, bytes: &[u8], now: u64) -> Result<bool, AllocError>
        ensures goes { OnOk result (Goes now self.old self.new (came bytes.now)) }
        ensures ended { OnErr result (Goes 0 self.old self.new failed) }
        ensures whole { IfOk result (λ whole. whole ≡ is_newly_queued (queued_by (stage self.old)) (queued_by (stage self.new))) }
        ensures reading { OnErr result (queued_by (stage self.old) ≡ None) }
        ensures held { held_by self.new.phase ≤ held_by self.old.phase + growth_by self.old.phase }
        ensures share { self.new.share ≡ self.old.share }
    {
        match mem::replace(&mut self.phase, Phase::Ended) {
            Phase::Reading(
                Incoming {
                    mut received,
                    room: before,
                    begun,
                },
            ) => {
                let room = whole_after(&received);
                let begun = begun_with(room, before, begun, now);
                let fitting = at_most(bytes, wanted_after(&received));
                received.extend_from_slice(fitting)?;
                if wanted_after(&received) == 0 {
                    self.since = now;
                    self.phase = Phase::Queued(WholeMessage { bytes: received });
                    return Ok(true);
                }
                self.phase = Phase::Reading(Incoming {
                    received,
                    room,
                    begun,
                });
                Ok(false)
            }
            other => {
                self.phase = other;
                Ok(false)
            }
        }
    }

    /// Its message goes to a worker.
    pub fn take(&mut self) -> Option<WholeMessage>
        ensures goes { Goes 0 self.old self.new taken }
        ensures held { held_by self.new.phase ≤ held_by self.old.phase }
        ensures message { IfSome result (λ message. stage self.old ≡ queued message.bytes.items) }
        ensures none { IfNone result (queued_by (stage self.old) ≡ None) }
    {
        match mem::replace(&mut self.phase, Phase::Ended) {
            Phase::Queued(message) => {
                self.phase = Phase::Answering(Remembered::of(&message.bytes));
                Some(message)
            }
            other => {
                self.phase = other;
                None
            }
        }
    }

    /// Whether its reply waits for no later ticket than this.
    pub fn is_confirmed(&self, ticket: u64) -> bool
        ensures value { result ≡ is_confirmed_by ticket (stage self.now) }
    {
        match &self.phase {
            Phase::Confirming(deferred) => deferred.ticket <= ticket,
            _ => false,
        }
    }

    /// The ticket that its reply waits for, if it has waited for `wait` milliseconds.
    pub fn overdue(&self, wait: u64, now: u64) -> Option<u64>
        ensures value { result ≡ overdue_in wait now (Some self.now) }
    {
        match &self.phase {
            Phase::Confirming(deferred) if now.saturating_sub(self.since) >= wait => {
                Some(deferred.ticket)
            }
            _ => None,
        }
    }

    /// What is left to write.
    pub fn pending_output(&self) -> &[u8]
        ensures value { result.now ≡ left_of (stage self.now) }
    {
        match &self.phase {
            Phase::Writing(outgoing) if outgoing.written <= outgoing.reply.len() => {
                &outgoing.reply[outgoing.written..]
            }
            _ => &[],
        }
    }

    /// Whether its time is up, within these bounds.
    pub fn is_late(&self, bounds: &ConnectionLimits, now: u64) -> bool
        ensures value { result ≡ is_late bounds.now now self.now }
    {
        let waited = now.saturating_sub(self.since);
        match self.phase {
            Phase::Reading(_) | Phase::Writing(_) => waited >= bounds.idle,
            Phase::Lingering => waited >= bounds.linger,
            Phase::Queued(_) => waited >= bounds.wait,
            Phase::Answering(_) | Phase::Confirming(_) | Phase::Abandoned | Phase::Ended => false,
        }
    }

    /// Whether it waits for its client: for a whole message, or for a reply to be taken.
    pub fn waits_for_client(&self) -> bool
        ensures value { result ≡ waits (stage self.now) }
    {
        matches!(
            self.phase,
            Phase::Reading(_) | Phase::Writing(_) | Phase::Lingering
        )
    }

    /// Since when its message or reply has been under way: a message since there has been as much room for it as now.
    pub fn begun(&self) -> u64
        ensures value { result ≡ begun_of self.now }
    {
        match &self.phase {
            Phase::Reading(incoming) => incoming.begun,
            Phase::Queued(_)
            | Phase::Answering(_)
            | Phase::Confirming(_)
            | Phase::Writing(_)
            | Phase::Lingering
            | Phase::Abandoned
            | Phase::Ended => self.since,
        }
    }

    /// Whether it is one of the candidates, waits for its client and holds some bytes.
    pub fn gives_way(&self, who: EvictionRule) -> bool
        ensures value { result ≡ gives_way_of who self.now }
    {
        self.waits_for_client() && self.bytes_held() > 0 && self.growth() == 0 && self.is_among(who)
    }

    // Whether its message or its reply is large enough, and has been under way for long enough.
    fn is_among(&self, who: EvictionRule) -> bool
        ensures value { result ≡ is_among_of who self.now }
    {
        self.size() > who.larger_than && self.begun() <= who.begun_by
    }
}

// Since when there is room for this many bytes: from this moment, if there was room for another number before.
fn begun_with(room: usize, before: usize, begun: u64, now: u64) -> u64
    ensures value { result ≡ (if room == before then begun else now) }
{
    if room == before { begun } else { now }
}
