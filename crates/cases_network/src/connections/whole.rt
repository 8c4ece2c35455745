//! Lines that concern no particular slot.

use crate::connections::script::Script;
use crate::connections::showing::{bytes_text, slots_text};
use crate::words::parsed;
use chpw_connections::Todo;
use chpw_endpoints::{Endpoints, Peer};
use support_cases::Fault;

/// More than any case here notes.
const LOOKS: usize = 10_000;

impl Script {
    /// What is done by `accept PEER`, `accept PEER to LOCAL`, `datagram PEER`, `share PEER`, `pass`, `room`, `room PEER`,
    /// `take WORKER`, `look`, `show`, `confirm TICKET` or `overdue WAIT`; nothing by another line.
    pub fn whole(&mut self, kind: &str, words: &str, now: u64) -> Result<Option<String>, Fault> {
        let text = match kind {
            "accept" => self.accept(words, false, now),
            "datagram" => self.accept(words, true, now),
            "share" => self.share(words),
            "room" => self.make_room(words),
            "take" => self.take(parsed(words)?, now),
            "look" => self.look(),
            "show" => self.overview(),
            "overdue" => self.overdue(parsed(words)?, now),
            "pass" => {
                self.connections.pass(now);
                Ok(String::from_str(self.alloc, "passed")?)
            }
            "confirm" => {
                self.connections.confirm(parsed(words)?, now);
                Ok(String::from_str(self.alloc, "confirmed")?)
            }
            _ => return Ok(None),
        };
        Ok(Some(text?))
    }

    /// A datagram counts in no share.
    fn accept(&mut self, words: &str, is_datagram: bool, now: u64) -> Result<String, Fault> {
        let (peer, local) = words.split_once(" to ").unwrap_or((words, "127.0.0.1"));
        let ends = Endpoints {
            peer: parsed(peer)?,
            local: parsed(local)?,
        };
        let share = if is_datagram { None } else { ends.share() };
        let text = match self.connections.accept(ends, share, now) {
            None => String::from_str(self.alloc, "no room"),
            Some(slot) => format!(in self.alloc; "slot {slot}"),
        };
        Ok(text?)
    }

    /// How many connections a peer has in its share, and whether that is full.
    fn share(&self, words: &str) -> Result<String, Fault> {
        let peer = Peer::of(parsed(words)?);
        let count = self.connections.count_of(peer);
        let full = if self.connections.is_share_full(Some(peer)) {
            " (full)"
        } else {
            ""
        };
        Ok(format!(in self.alloc; "{count}{full}")?)
    }

    /// Room for another connection: of this peer, if one is named.
    fn make_room(&mut self, words: &str) -> Result<String, Fault> {
        let ended = if words.is_empty() {
            self.connections.make_room()
        } else {
            self.connections.make_room_for(Peer::of(parsed(words)?))
        };
        let text = if ended.is_some() {
            "made room"
        } else {
            "nobody waits"
        };
        Ok(String::from_str(self.alloc, text)?)
    }

    /// The message that a worker takes, with its slot and peer. It is kept until the line that says what the worker did
    /// about it.
    pub fn take(&mut self, worker: usize, now: u64) -> Result<String, Fault> {
        let waits = self.connections.has_message(worker);
        let Some(taken) = self.connections.take(worker, now) else {
            let word = if waits { "dropped" } else { "none" };
            return Ok(String::from_str(self.alloc, word)?);
        };
        let (slot, peer) = (taken.slot(), taken.ends().peer);
        let message = bytes_text(self.alloc, taken.message());
        if let Err(failed) = self.taken.push(taken) {
            self.connections.leave_unanswered(failed.value, now);
            return Err(Fault::Memory);
        }
        Ok(format!(in self.alloc; "slot {slot} from {peer}: {}", message?)?)
    }

    /// The slot whose reply has waited for its confirmation for `wait`, and its ticket.
    fn overdue(&mut self, wait: u64, now: u64) -> Result<String, Fault> {
        let text = match self.connections.overdue(wait, now) {
            None => String::from_str(self.alloc, "none"),
            Some(unconfirmed) => {
                let (peer, ticket) = (unconfirmed.peer, unconfirmed.ticket);
                format!(in self.alloc; "{peer} waited for {ticket}")
            }
        };
        Ok(text?)
    }

    /// The slots that were noted, each once, if something is to be done that the socket doesn't report.
    fn look(&mut self) -> Result<String, Fault> {
        let mut slots = Vec::new(self.alloc);
        for _ in 0..LOOKS {
            let Some(slot) = self.connections.take_changed() else {
                break;
            };
            let is_told = matches!(self.connections.todo(slot), Todo::Read(_) | Todo::Wait);
            if !is_told && !slots.contains(&slot) {
                slots.push(slot)?;
            }
        }
        let more = if self.connections.has_changed() {
            " and more"
        } else {
            ""
        };
        let slots = slots_text(self.alloc, &slots)?;
        Ok(format!(in self.alloc; "look at {slots}{more}")?)
    }
}
