//! What happens to a connection, but for the bytes that come and its message's way to a worker.
ghost use Rattle.std.specs.Prelude.{◌≡◌, ℕ, if◌then◌else◌, ◌+◌, ◌≤◌, length};
ghost use Rattle.chpw_connection.specs.Changes.{event_of, added_by};
ghost use Rattle.chpw_connection.specs.Holding.{held_by};
ghost use Rattle.chpw_connection.specs.Stages.{Goes, is_last_reply, replied, deferred, unanswered, released, wrote, closed, failed};

use crate::connection::{Connection, DeferredReply, Incoming, MAX_MESSAGES, Outgoing, Phase};
use std::alloc::Global;
use std::mem;

/// What happens to a connection. Bytes that come (`Connection::receive`) and its message's way to a worker
/// (`Connection::take`) are calls of their own, since they return something.
#[derive(Drop)]
pub enum ConnectionEvent {
    /// The worker's reply is to be written; after the last one the connection ends.
    Answered {
        reply: Vec<u8>,
        is_last: bool,
    },
    /// The worker's reply is to be written once the change with this ticket is confirmed.
    /// After the last one the connection ends.
    Deferred {
        reply: Vec<u8>,
        is_last: bool,
        ticket: u64,
    },
    /// The change of its reply is confirmed, or no longer waited for: the reply is to be written.
    Released,
    /// The worker has no reply for it.
    Unanswered,
    /// `count` bytes of its reply were written. After a whole reply its next message is read.
    Wrote {
        count: usize,
    },
    /// The client closed its writing side, and all that it wrote was read.
    Closed,
    /// It can't go on: a message that waits is dropped with it, and a reply too.
    Failed,
}

impl Connection {
    /// This happens to it, at this moment. What can't happen in its stage changes nothing.
    pub fn change(&mut self, alloc: Global, change: ConnectionEvent, now: u64)
        ensures goes { Goes now self.old self.new (event_of change) }
        ensures held { held_by self.new.phase ≤ held_by self.old.phase + added_by change }
    {
        match change {
            ConnectionEvent::Answered { reply, is_last } => self.answer(reply, is_last, now),
            ConnectionEvent::Deferred {
                reply,
                is_last,
                ticket,
            } => self.defer(reply, is_last, ticket, now),
            ConnectionEvent::Released => self.release(now),
            ConnectionEvent::Unanswered => self.leave_unanswered(now),
            ConnectionEvent::Wrote { count } => self.wrote(alloc, count, now),
            ConnectionEvent::Closed => self.input_ended(),
            ConnectionEvent::Failed => self.fail(),
        }
    }

    // The worker's reply is to be written; after the last one the connection ends.
    fn answer(&mut self, reply: Vec<u8>, is_last: bool, now: u64)
        ensures goes { Goes now self.old self.new (replied reply.items is_last) }
        ensures held { held_by self.new.phase ≤ held_by self.old.phase + length reply.items }
    {
        match self.phase {
            Phase::Answering(_) => {
                let is_last = self.count_reply(is_last);
                self.since = now;
                self.phase = Phase::Writing(Outgoing {
                    reply,
                    written: 0,
                    is_last,
                });
            }
            Phase::Abandoned => self.phase = Phase::Ended,
            _ => {}
        }
    }

    // The worker's reply is to be written once the change with this ticket is confirmed.
    // After the last one the connection ends.
    fn defer(&mut self, reply: Vec<u8>, is_last: bool, ticket: u64, now: u64)
        ensures goes { Goes now self.old self.new (deferred reply.items is_last ticket) }
        ensures held { held_by self.new.phase ≤ held_by self.old.phase + length reply.items }
    {
        match self.phase {
            Phase::Answering(_) => {
                let is_last = self.count_reply(is_last);
                self.since = now;
                self.phase = Phase::Confirming(DeferredReply {
                    reply,
                    is_last,
                    ticket,
                });
            }
            Phase::Abandoned => self.phase = Phase::Ended,
            _ => {}
        }
    }

    // Counts a reply after which the connection goes on; whether it is the last one.
    fn count_reply(&mut self, is_last: bool) -> bool
        ensures value { result ≡ is_last_reply self.old.answered is_last }
        ensures count { self.new.answered ≡ (if is_last_reply self.old.answered is_last then self.old.answered else self.old.answered + 1) }
        ensures phase { self.new.phase ≡ self.old.phase }
        ensures since { self.new.since ≡ self.old.since }
        ensures number { self.new.number ≡ self.old.number }
        ensures ends { self.new.ends ≡ self.old.ends }
        ensures share { self.new.share ≡ self.old.share }
    {
        let is_last = is_last || self.answered >= MAX_MESSAGES - 1;
        if !is_last {
            self.answered += 1;
        }
        is_last
    }

    // The change of its reply is confirmed, or no longer waited for: the reply is to be written.
    fn release(&mut self, now: u64)
        ensures goes { Goes now self.old self.new released }
        ensures held { held_by self.new.phase ≤ held_by self.old.phase }
    {
        match mem::replace(&mut self.phase, Phase::Ended) {
            Phase::Confirming(DeferredReply { reply, is_last, .. }) => {
                self.since = now;
                self.phase = Phase::Writing(Outgoing {
                    reply,
                    written: 0,
                    is_last,
                });
            }
            other => self.phase = other,
        }
    }

    // The worker has no reply for it.
    fn leave_unanswered(&mut self, now: u64)
        ensures goes { Goes now self.old self.new unanswered }
        ensures held { held_by self.new.phase ≤ held_by self.old.phase }
    {
        match self.phase {
            Phase::Answering(_) => {
                self.since = now;
                self.phase = Phase::Lingering;
            }
            Phase::Abandoned => self.phase = Phase::Ended,
            _ => {}
        }
    }

    // `count` bytes of its reply were written. After a whole reply its next message is read.
    fn wrote(&mut self, alloc: Global, count: usize, now: u64)
        ensures goes { Goes now self.old self.new (wrote count) }
        ensures held { held_by self.new.phase ≤ held_by self.old.phase }
    {
        if let Phase::Writing(outgoing) = &mut self.phase {
            outgoing.written = outgoing.written.saturating_add(count);
            if outgoing.written >= outgoing.reply.len() {
                self.since = now;
                self.phase = if outgoing.is_last {
                    Phase::Lingering
                } else {
                    Phase::Reading(Incoming::new(alloc))
                };
            }
        }
    }

    // The client closed its writing side, and all that it wrote was read.
    fn input_ended(&mut self)
        ensures goes { (now : ℕ) → Goes now self.old self.new closed }
        ensures held { held_by self.new.phase ≤ held_by self.old.phase }
    {
        if matches!(self.phase, Phase::Reading(_) | Phase::Lingering) {
            self.phase = Phase::Ended;
        }
    }

    // It can't go on: a message that waits is dropped with it, and a reply too.
    fn fail(&mut self)
        ensures goes { (now : ℕ) → Goes now self.old self.new failed }
        ensures held { held_by self.new.phase ≤ held_by self.old.phase }
    {
        self.phase = match self.phase {
            Phase::Answering(_) | Phase::Abandoned => Phase::Abandoned,
            _ => Phase::Ended,
        };
    }
}
