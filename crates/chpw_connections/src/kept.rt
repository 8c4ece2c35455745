//! An answer that is kept.
ghost use Rattle.std.specs.Prelude.{◌≡◌, ◌&&◌};
ghost use Rattle.chpw_connections.specs.Answers.{is_for, is_recent as is_recent_answer, size_of};
ghost use Rattle.chpw_connections.specs.Fields.{answer_of};

use crate::sender::Sender;

/// For this many milliseconds an answer is given again.
pub const MAX_AGE: u64 = 5_000;

/// A message, its reply, and the moment of that in milliseconds.
#[derive(Drop)]
pub(crate) struct KeptAnswer {
    pub sender: Sender,
    pub message: Vec<u8>,
    pub reply: Vec<u8>,
    pub moment: u64,
}

impl KeptAnswer {
    // Whether it was given less than five seconds ago.
    pub(crate) fn is_recent(&self, now: u64) -> bool
        ensures value { result ≡ is_recent_answer now (answer_of self.now) }
    {
        now.saturating_sub(self.moment) < MAX_AGE
    }

    // How many bytes its message and its reply hold.
    pub(crate) fn size(&self) -> usize
        ensures value { result ≡ size_of (answer_of self.now) }
    {
        self.message.len() + self.reply.len()
    }

    // Whether it is the answer to this message, and recent.
    pub(crate) fn answers(&self, sender: &Sender, message: &[u8], now: u64) -> bool
        ensures value { result ≡ (is_for sender.now message.now (answer_of self.now) && is_recent_answer now (answer_of self.now)) }
    {
        self.sender.is_same(sender) && self.message.as_slice() == message && self.is_recent(now)
    }
}
