//! What happens to the connection in a slot.

use crate::connections::script::Script;
use crate::words::parsed;
use chpw_connections::TakenMessage;
use std::alloc::{AllocError, Global};
use support_cases::{Fault, bytes};

impl Script {
    /// What an event does: the stage of the connection afterwards.
    pub fn event(
        &mut self,
        kind: &str,
        slot: usize,
        rest: &str,
        now: u64,
    ) -> Result<String, Fault> {
        match kind {
            "bytes" => self.read_bytes(slot, rest, now),
            "fill" => self.read_filler(slot, rest, now),
            "push" => self.push(slot, rest, now),
            "has" => self.tell_room(slot, now),
            "remove" => self.remove(slot),
            "rounds" => self.rounds(slot, parsed(rest)?, now),
            _ => {
                self.step(kind, slot, rest, now)?;
                Ok(self.state(slot)?)
            }
        }
    }

    // What is answered with the stage alone.
    fn step(&mut self, kind: &str, slot: usize, rest: &str, now: u64) -> Result<(), Fault> {
        match kind {
            "answer" => self.give_reply(slot, rest, now)?,
            "defer" => self.defer_reply(slot, rest, now)?,
            "unanswered" => self.leave_message(slot, now),
            "wrote" => self.connections.wrote(slot, parsed(rest)?, now),
            "end" => self.connections.input_ended(slot),
            "fail" => self.connections.fail(slot),
            "again" => self.connections.look_again(slot),
            _ => return Err(Fault::NoSuchCase),
        }
        Ok(())
    }

    fn read_bytes(&mut self, slot: usize, rest: &str, now: u64) -> Result<String, Fault> {
        let bytes = bytes(self.alloc, rest)?;
        self.read_told(slot, &bytes, now)
    }

    fn read_filler(&mut self, slot: usize, rest: &str, now: u64) -> Result<String, Fault> {
        let bytes = filler_bytes(self.alloc, rest)?;
        self.read_told(slot, &bytes, now)
    }

    fn push(&mut self, slot: usize, rest: &str, now: u64) -> Result<String, Fault> {
        let bytes = bytes(self.alloc, rest)?;
        let worker = self.connections.receive(slot, &bytes, now);
        Ok(self.received_text(slot, worker)?)
    }

    fn tell_room(&mut self, slot: usize, now: u64) -> Result<String, Fault> {
        let has_room = self.connections.has_room_to_read(slot, now);
        let word = if has_room { "has room" } else { "no room" };
        Ok(String::from_str(self.alloc, word)?)
    }

    fn remove(&mut self, slot: usize) -> Result<String, Fault> {
        let removed = self.connections.remove(slot);
        let word = if removed { "removed" } else { "not removed" };
        Ok(String::from_str(self.alloc, word)?)
    }

    fn leave_message(&mut self, slot: usize, now: u64) {
        if let Some(taken) = self.taken_from(slot) {
            self.connections.leave_unanswered(taken, now);
        }
    }

    /// Reads from a socket that has these bytes, never more than are wanted: how many were read, and the worker for
    /// whom the message waits now.
    pub fn read(&mut self, slot: usize, bytes: &[u8], now: u64) -> (usize, Option<usize>) {
        let mut left = bytes;
        for _ in 0..bytes.len() {
            let wanted = self.connections.bytes_to_read(slot);
            if wanted == 0 || left.is_empty() {
                break;
            }
            let (piece, rest) = left.split_at(wanted.min(left.len()));
            left = rest;
            if let Some(worker) = self.connections.receive(slot, piece, now) {
                return (bytes.len().saturating_sub(left.len()), Some(worker));
            }
        }
        (bytes.len().saturating_sub(left.len()), None)
    }

    fn read_told(&mut self, slot: usize, bytes: &[u8], now: u64) -> Result<String, Fault> {
        let (count, worker) = self.read(slot, bytes, now);
        let received = self.received_text(slot, worker)?;
        Ok(format!(in self.alloc; "{count} of {} read, {received}", bytes.len())?)
    }

    fn received_text(&self, slot: usize, worker: Option<usize>) -> Result<String, AllocError> {
        match worker {
            None => self.state(slot),
            Some(worker) => format!(in self.alloc; "message for worker {worker}"),
        }
    }

    // `HEX`, or `HEX last`
    fn give_reply(&mut self, slot: usize, rest: &str, now: u64) -> Result<(), Fault> {
        let (reply, end) = rest.split_once(' ').unwrap_or((rest, ""));
        let reply = bytes(self.alloc, reply)?;
        if let Some(taken) = self.taken_from(slot) {
            self.connections.answer(taken, reply, end == "last", now);
        }
        Ok(())
    }

    // `HEX TICKET`, or `HEX TICKET last`
    fn defer_reply(&mut self, slot: usize, rest: &str, now: u64) -> Result<(), Fault> {
        let (reply, rest) = rest.split_once(' ').unwrap_or((rest, ""));
        let (ticket, end) = rest.split_once(' ').unwrap_or((rest, ""));
        let reply = bytes(self.alloc, reply)?;
        let ticket = parsed(ticket)?;
        if let Some(taken) = self.taken_from(slot) {
            self.connections
                .defer(taken, reply, end == "last", ticket, now);
        }
        Ok(())
    }

    // What a worker took from the connection in a slot, if it did nothing about it yet.
    fn taken_from(&mut self, slot: usize) -> Option<TakenMessage> {
        let place = self.taken.iter().position(|taken| taken.slot() == slot)?;
        Some(self.taken.remove(place))
    }

    /// `count` empty messages, each answered with one byte, which is written; or until none is read.
    fn rounds(&mut self, slot: usize, count: u32, now: u64) -> Result<String, Fault> {
        let mut done = 0_u32;
        for _ in 0..count {
            let (_, Some(worker)) = self.read(slot, &[0; 4], now) else {
                break;
            };
            let reply = Vec::from_slice(self.alloc, b"*")?;
            if let Some(taken) = self.connections.take(worker, now) {
                self.connections.answer(taken, reply, false, now);
            }
            self.connections.wrote(slot, 1, now);
            done = done.saturating_add(1);
        }
        let state = self.state(slot)?;
        Ok(format!(in self.alloc; "{done} rounds, {state}")?)
    }
}

/// This many bytes, 00 01 .. fa 00 ..
fn filler_bytes(alloc: Global, count: &str) -> Result<Vec<u8>, Fault> {
    let count: u32 = parsed(count)?;
    let mut bytes = Vec::new(alloc);
    for index in 0..count {
        bytes.push((index % 251) as u8)?;
    }
    Ok(bytes)
}
