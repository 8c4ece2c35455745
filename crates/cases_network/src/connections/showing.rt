//! Connections, slots and bytes as they are printed.

use crate::connections::script::Script;
use chpw_connections::Todo;
use hex::encode;
use std::alloc::{AllocError, Global};
use support_cases::{Fault, hex_text};

/// Bytes in hexadecimal, `-` for none; of many the first and the last.
pub fn bytes_text(alloc: Global, bytes: &[u8]) -> Result<String, AllocError> {
    if bytes.len() <= 32 {
        return hex_text(alloc, bytes);
    }
    let (front, _) = bytes.split_at(8);
    let (_, back) = bytes.split_at(bytes.len() - 4);
    let (front, back) = (encode(alloc, front)?, encode(alloc, back)?);
    format!(in alloc; "{front}..{back} of {} bytes", bytes.len())
}

/// Slots with spaces between, `-` for none.
pub fn slots_text(alloc: Global, slots: &[usize]) -> Result<String, AllocError> {
    if slots.is_empty() {
        return String::from_str(alloc, "-");
    }
    let mut text = String::new(alloc);
    for slot in slots {
        if !text.is_empty() {
            text.push_str(" ")?;
        }
        write!(text, "{slot}")?;
    }
    Ok(text)
}

impl Script {
    /// The stage of the connection in a slot.
    pub fn state(&self, slot: usize) -> Result<String, AllocError> {
        let alloc = self.alloc;
        let left = self.connections.pending_output(slot);
        let wanted = self.connections.bytes_to_read(slot);
        if self.connections.is_ended(slot) {
            String::from_str(alloc, "has ended")
        } else if self.connections.is_lingering(slot) {
            String::from_str(alloc, "lingers")
        } else if !left.is_empty() {
            let bytes = bytes_text(alloc, left)?;
            format!(in alloc; "has {} to write: {bytes}", left.len())
        } else if wanted > 0 {
            format!(in alloc; "wants {wanted}")
        } else {
            String::from_str(alloc, "waits")
        }
    }

    /// What is to be done for the connection in a slot.
    fn todo(&self, slot: usize) -> Result<String, AllocError> {
        let alloc = self.alloc;
        match self.connections.todo(slot) {
            Todo::Read(count) => format!(in alloc; "read {count}"),
            Todo::Write => {
                let left = bytes_text(alloc, self.connections.pending_output(slot))?;
                format!(in alloc; "write {left}")
            }
            Todo::Linger => String::from_str(alloc, "linger"),
            Todo::Close => String::from_str(alloc, "close"),
            Todo::Wait => String::from_str(alloc, "wait"),
        }
    }

    /// Each slot, and then the totals.
    pub fn overview(&self) -> Result<String, Fault> {
        let connections = &self.connections;
        let mut text = String::new(self.alloc);
        for slot in 0..self.slots {
            let todo = self.todo(slot)?;
            let wanted = connections.bytes_to_read(slot);
            let left = connections.pending_output(slot).len();
            write!(text, "{slot} {todo}, wanted {wanted}, left {left} | ")?;
        }
        let count = connections.len();
        let word = if connections.is_empty() {
            " (none)"
        } else if connections.is_full() {
            " (full)"
        } else {
            ""
        };
        let (held, accepted) = (connections.bytes_held(), connections.accepted_count());
        let (expired, workers) = (connections.expired_count(), self.waited_for()?);
        write!(
            text,
            "connections {count}{word}, held {held}, accepted {accepted}, expired {expired}, messages for {workers}"
        )?;
        Ok(text)
    }

    /// The workers for whom a message waits.
    fn waited_for(&self) -> Result<String, AllocError> {
        let mut workers = Vec::new(self.alloc);
        for worker in 0..self.workers {
            if self.connections.has_message(worker) {
                workers.push(worker)?;
            }
        }
        slots_text(self.alloc, &workers)
    }
}
