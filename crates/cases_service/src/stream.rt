//! Cases of the service on one stream, a line each.
//!
//! - `| TEXT`: a line of a configuration.
//! - `world as it is`, `world OLD -> NEW`, `world quiet N`, `world of RFC 3244 alone`: the following lines are done with
//!   that configuration; with another text in it; with a service that refuses requests up to the second N; with one
//!   that answers requests of version 0xff80 alone.
//! - `message NAME CTIME.CUSEC HEX`: a message, and the authenticator's time in it.
//! - `served HOW: NAME NAME ..`: these messages are served as one stream by a table that one thread owns. The answer is
//!   each reply, how the stream ended, how many events there were, and the kvno of each principal.
//! - `written HOW: HEX`: a stream with these bytes is served, `-` for none, and ` zeros N` after them for N more; the
//!   answer has what was written. `replied HOW: NAME ..` does so with messages.
//! - `CHANGE, HOW: NAME`: that message is served with a change at each of its places in turn, each time in a world of
//!   its own; CHANGE is `prefixes` (it ends before that byte), `prefixes with their length` (its length field says so
//!   too), `changed by 01` (these bits of that byte are flipped) or `changed to 00`. The answer has each of the answers
//!   that `served` gives, after how often and at which places it came. A change that changes nothing, and a prefix
//!   without its length field, are left out.
//! - `answered WHO: NAME ..`: these messages are answered one by one by a decider that records its calls.
//! - `looks: NAME ..`: likewise; the answer has the names that were looked up.
//! - `words N STREAM PLACE`: the sixteen words of a worker from that place on, as bytes; the seed is of zeros except
//!   its last byte, which is N.
//!
//! HOW has words with commas between: the moment, as `at 1000100`, and how the reader behaves, see support_streams.

mod deciding;
mod messages;
mod serving;
mod setting;
mod varied;
mod watched;
mod words;

use crate::stream::deciding::answers_text;
use crate::stream::messages::{Message, read_message, stream_of};
use crate::stream::serving::{How, served_text, written_text};
use crate::stream::setting::Setting;
use crate::stream::varied::varied_message;
use crate::words::apply_edits;
use std::alloc::Global;
use std::io;
use support_cases::{Change, bytes_with_zeros, no_case};

/// What the lines before have set.
#[derive(Drop)]
pub struct Cases {
    base: String,
    setting: Setting,
    messages: Vec<Message>,
}

impl Cases {
    pub fn new(alloc: Global) -> Cases {
        Cases {
            base: String::new(alloc),
            setting: Setting {
                config: String::new(alloc),
                quiet_until: -1,
                rfc3244_only: false,
            },
            messages: Vec::new(alloc),
        }
    }

    /// The answer to a case.
    pub fn answer(&mut self, alloc: Global, case: &str) -> io::Result<String> {
        let (kind, text) = case.split_once(' ').unwrap_or((case, ""));
        match kind {
            "|" => self.add_line(text)?,
            "world" => self.set_world(alloc, text)?,
            "message" => return self.add_message(alloc, text),
            "words" => return words::answer(alloc, text),
            _ => return self.of_stream(alloc, case),
        }
        Ok(String::from_str(alloc, case)?)
    }

    /// A line of the configuration.
    fn add_line(&mut self, text: &str) -> io::Result<()> {
        self.base.push_str(text)?;
        self.base.push_str("\n")?;
        Ok(())
    }

    fn add_message(&mut self, alloc: Global, text: &str) -> io::Result<String> {
        self.messages.push(read_message(alloc, text)?)?;
        Ok(String::from_str(alloc, "a message")?)
    }

    /// `quiet N`, `of RFC 3244 alone`, and `OLD -> NEW`.
    fn set_world(&mut self, alloc: Global, text: &str) -> io::Result<()> {
        self.setting.quiet_until = match text.strip_prefix("quiet ") {
            Some(second) => second.parse().unwrap_or(-1),
            None => -1,
        };
        self.setting.rfc3244_only = text == "of RFC 3244 alone";
        self.setting.config = apply_edits(alloc, self.base.as_str(), text)?;
        Ok(())
    }

    /// The answer to a case of streams.
    fn of_stream(&self, alloc: Global, case: &str) -> io::Result<String> {
        let Some((head, text)) = case.split_once(": ") else {
            return Err(no_case());
        };
        match head.split_once(' ') {
            Some(("written", how)) => self.of_bytes(alloc, how, text),
            _ => self.of_messages(alloc, head, &self.messages_named(alloc, text)?),
        }
    }

    /// The answer to a case of a stream with these bytes.
    fn of_bytes(&self, alloc: Global, how: &str, text: &str) -> io::Result<String> {
        let stream = bytes_with_zeros(alloc, text)?;
        written_text(alloc, &self.setting, &How::of(how), &stream)
    }

    /// The answer to a case of messages.
    fn of_messages(&self, alloc: Global, head: &str, messages: &[&Message]) -> io::Result<String> {
        let setting = &self.setting;
        let (change, how) = head.split_once(", ").unwrap_or((head, ""));
        if let Some(change) = Change::of(change) {
            return varied_message(alloc, setting, change, &How::of(how), messages);
        }
        let (kind, how) = head.split_once(' ').unwrap_or((head, ""));
        if kind == "answered" || kind == "looks" {
            return answers_text(alloc, setting, how, messages, kind == "looks");
        }
        self.of_one_stream(alloc, kind, how, messages)
    }

    /// The answer to a case of messages on one stream.
    fn of_one_stream(
        &self,
        alloc: Global,
        kind: &str,
        how: &str,
        messages: &[&Message],
    ) -> io::Result<String> {
        let stream = stream_of(alloc, messages)?;
        match kind {
            "served" => served_text(alloc, &self.setting, &How::of(how), messages, &stream),
            "replied" => written_text(alloc, &self.setting, &How::of(how), &stream),
            _ => Err(no_case()),
        }
    }

    /// The messages with these names.
    fn messages_named(&self, alloc: Global, text: &str) -> io::Result<Vec<&Message>> {
        let mut messages = Vec::new(alloc);
        for name in text.split(' ') {
            let Some(found) = self.messages.iter().find(|m| m.name.as_str() == name) else {
                return Err(no_case());
            };
            messages.push(found)?;
        }
        Ok(messages)
    }
}
