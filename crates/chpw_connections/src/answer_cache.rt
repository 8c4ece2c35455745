//! What has been answered, and gets the same reply again.
ghost use Rattle.std.specs.Prelude.{◌≡◌, ◌≤◌, ◌-◌, ◌^◌, [], length, min, nat_lt, IfOk, IfSome, IfNone, Some, None};
ghost use Rattle.std.specs.VecDeque.{deque_capacity};
ghost use Rattle.chpw_connections.specs.Answers.{after_keep, bytes_of, reply_for, within};
ghost use Rattle.chpw_connections.specs.Fields.{answers_of};

use crate::kept::KeptAnswer;
use crate::sender::Sender;
use std::alloc::{AllocError, Global};
use std::collections::VecDeque;
use std::marker::Model;

/// The most answers that are kept.
pub const MAX_ANSWERS: usize = 1_024;

/// The most bytes of messages and replies that are kept.
pub const MAX_BYTES: usize = 4_194_304;

/// The answers that are kept, the newest first. Moments are milliseconds of a clock that doesn't go back.
#[derive(Drop)]
pub struct AnswerCache {
    kept: VecDeque<KeptAnswer>,
}

impl Model for AnswerCache {
    ghost use Rattle.std.specs.Prelude.{◌≤◌, List};
    ghost use Rattle.std.specs.VecDeque.{deque_capacity};
    ghost use Rattle.chpw_connections.specs.Answers.{Answer};
    ghost use Rattle.chpw_connections.specs.Fields.{answers_of};

    ghost Value = { List Answer };

    ghost view = { λ a. answers_of a.kept.items };

    ghost invariant = { λ a. 1024 ≤ deque_capacity a.kept };
}

impl AnswerCache {
    /// Nothing has been answered. It takes the memory of a place for each answer.
    pub fn new(alloc: Global) -> Result<AnswerCache, AllocError>
        ensures value { IfOk result (λ a. a ≡ []) }
    {
        let kept = VecDeque::with_capacity(alloc, MAX_ANSWERS)?;
        Ok(AnswerCache { kept })
    }

    /// The reply that this message gets again: the newest kept one that the very bytes got from this sender less than
    /// five seconds ago.
    pub fn find(&self, sender: Sender, message: &[u8], now: u64) -> Option<&[u8]>
        ensures some { IfSome result (λ reply. reply_for self.now sender message.now now ≡ Some reply.now) }
        ensures none { IfNone result (reply_for self.now sender message.now now ≡ None) }
    {
        let (newer, older) = self.kept.as_slices();
        match first_reply(newer, &sender, message, now) {
            Some(reply) => Some(reply),
            None => first_reply(older, &sender, message, now),
        }
    }

    /// A message was answered with this reply. Answers of five seconds ago and older are dropped, and then the oldest
    /// ones, while there are too many or they hold too many bytes. If this one holds too many by itself, none is kept.
    pub fn keep(&mut self, sender: Sender, message: Vec<u8>, reply: Vec<u8>, now: u64)
        ensures value { self.new ≡ after_keep self.old (record { sender = sender; message = message.items; reply = reply.items; moment = now }) }
        ensures few { length self.new ≤ 1024 }
        ensures bytes { bytes_of self.new ≤ 4194304 }
    {
        self.kept.retain(|kept| kept.is_recent(now));
        self.kept.truncate(MAX_ANSWERS - 1);
        self.kept.push_front_reserved(KeptAnswer {
            sender,
            message,
            reply,
            moment: now,
        });
        drop_oldest(&mut self.kept);
    }
}

// Drops the oldest ones until the others hold no more bytes than are kept.
#[tactic(auto, using(crate::proofs::KeptLemmas::within_without_last, crate::proofs::WithinLemmas::within_all))]
fn drop_oldest(kept: &mut VecDeque<KeptAnswer>)
    ensures value { answers_of kept.new.items ≡ within 4194304 (answers_of kept.old.items) }
    ensures capacity { deque_capacity kept.new ≡ deque_capacity kept.old }
{
    while holds_too_many_bytes(kept) {
        kept.pop_back();
    }
}

// Whether these hold more bytes than may be kept.
fn holds_too_many_bytes(kept: &VecDeque<KeptAnswer>) -> bool
    ensures value { result ≡ nat_lt 4194304 (bytes_of (answers_of kept.now.items)) }
{
    let (newer, older) = kept.as_slices();
    bytes_in(newer).saturating_add(bytes_in(older)) > MAX_BYTES
}

// How many bytes these hold, up to the greatest number that can be counted.
fn bytes_in(kept: &[KeptAnswer]) -> usize
    ensures value { result ≡ min (2 ^ 64 - 1) (bytes_of (answers_of kept.now)) }
{
    let mut bytes: usize = 0;
    for answer in kept {
        bytes = bytes.saturating_add(answer.size());
    }
    bytes
}

// The reply of the first of these that answers the message.
fn first_reply<'a>(
    kept: &'a [KeptAnswer],
    sender: &Sender,
    message: &[u8],
    now: u64,
) -> Option<&'a [u8]>
    ensures some { IfSome result (λ reply. reply_for (answers_of kept.now) sender.now message.now now ≡ Some reply.now) }
    ensures none { IfNone result (reply_for (answers_of kept.now) sender.now message.now now ≡ None) }
{
    let mut others = kept;
    while let [first, rest @ ..] = others {
        if first.answers(sender, message, now) {
            return Some(first.reply.as_slice());
        }
        others = rest;
    }
    None
}
