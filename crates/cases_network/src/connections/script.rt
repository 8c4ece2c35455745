//! The state machine that a script runs, and the lines of the script.
ghost use Rattle.std.specs.Prelude.{◌≡◌, []};

use crate::connections::showing::slots_text;
use crate::words::parsed;
use chpw_connections::{ConnectionLimits, Connections, TakenMessage};
use std::alloc::{AllocError, Global};
use support_cases::Fault;

/// The most connections and workers in a script.
const MOST: usize = 100;

pub struct Script {
    pub alloc: Global,
    pub connections: Connections,
    /// The connections allowed; no slot from this number on is shown.
    pub slots: usize,
    pub workers: usize,
    /// What workers took and did nothing about yet.
    pub taken: Vec<TakenMessage>,
}

impl Script {
    /// `CONNECTIONS BYTES IDLE GRACE WAIT LINGER WORKERS`, with ` PER_PEER` after it unless one peer may have all.
    pub fn of(alloc: Global, words: &str) -> Result<Script, Fault> {
        let words: Vec<&str> = words.split(' ').collect(alloc)?;
        let (bounds, workers) = bounds_of(&words)?;
        Script::new(alloc, bounds, workers)
    }

    pub fn new(alloc: Global, bounds: ConnectionLimits, workers: usize) -> Result<Script, Fault> {
        if bounds.connections > MOST || workers > MOST {
            return Err(Fault::NoSuchCase);
        }
        Ok(Script {
            alloc,
            connections: Connections::new(alloc, bounds, workers)?,
            slots: bounds.connections,
            workers,
            taken: Vec::new(alloc),
        })
    }

    /// What a line does, and which other connections it ended.
    pub fn answer(&mut self, kind: &str, words: &str, now: u64) -> Result<String, Fault> {
        let before = self.ended_besides(&[], None)?;
        let (own, text) = match self.whole(kind, words, now)? {
            Some(text) => (None, text),
            None => {
                let (slot, rest) = words.split_once(' ').unwrap_or((words, ""));
                let slot = parsed(slot)?;
                (Some(slot), self.event(kind, slot, rest, now)?)
            }
        };
        let others = self.ended_besides(&before, own)?;
        if others.is_empty() {
            return Ok(text);
        }
        let others = slots_text(self.alloc, &others)?;
        Ok(format!(in self.alloc; "{text}; ended {others}")?)
    }

    /// The slots whose connections have ended, without these and without this one.
    fn ended_besides(
        &self,
        before: &[usize],
        own: Option<usize>,
    ) -> Result<Vec<usize>, AllocError> {
        let mut ended = Vec::new(self.alloc);
        for slot in 0..self.slots {
            if self.connections.is_ended(slot) && own != Some(slot) && !before.contains(&slot) {
                ended.push(slot)?;
            }
        }
        Ok(ended)
    }
}

impl Drop for Script {
    /// The workers have no reply to what they took.
    fn drop(self) {
        let Script {
            alloc: _,
            mut connections,
            slots: _,
            workers: _,
            mut taken,
        } = self;
        leave_unanswered(&mut connections, &mut taken);
        taken.destroy_empty();
    }
}

// The bounds and the number of workers that the words of a script's first line are.
fn bounds_of(words: &[&str]) -> Result<(ConnectionLimits, usize), Fault> {
    let [
        connections,
        bytes,
        idle,
        grace,
        wait,
        linger,
        workers,
        rest @ ..,
    ] = words
    else {
        return Err(Fault::NoSuchCase);
    };
    let bounds = ConnectionLimits {
        connections: parsed(connections)?,
        per_peer: parsed(rest.first().unwrap_or(connections))?,
        bytes: parsed(bytes)?,
        idle: parsed(idle)?,
        grace: parsed(grace)?,
        wait: parsed(wait)?,
        linger: parsed(linger)?,
    };
    Ok((bounds, parsed(workers)?))
}

fn leave_unanswered(connections: &mut Connections, taken: &mut Vec<TakenMessage>)
    ensures none { taken.new.items ≡ [] }
{
    while let Some(message) = taken.pop() {
        connections.leave_unanswered(message, 0);
    }
}
