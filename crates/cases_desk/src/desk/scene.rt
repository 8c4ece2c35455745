//! What one worker does at a desk.

use crate::desk::asking::{NOW, printed_answer, request};
use crate::desk::lacking::{asking, digest_of};
use crate::desk::updates::{fault_text, update_of, verdict_text};
use crate::desk::words::{first_word, number};
use chpw_book::{AtDesk, Desk, DeskName, Pass, RaiseFault};
use chpw_decider::Decider;
use chpw_journal::MemorySink;
use chpw_messages::Service;
use chpw_serve::{Gate, NoGate, Observer};
use chpw_table::{Durability, KeyRow, Lookup};
use std::alloc::Global;
use std::io;
use std::sync::Wait;
use support_cases::no_case;
use support_realm::name;

/// A desk, and what its workers need.
#[derive(Drop)]
pub struct Scene<'a, D: DeskName, R: Wait> {
    pub rt: &'a R,
    pub alloc: Global,
    pub service: &'a Service,
    pub desk: &'a Desk<D, MemorySink>,
}

impl<D: DeskName, R: Wait> Scene<'_, D, R> {
    /// What a worker answers to a line.
    pub fn step(&self, pass: &mut Pass<D>, line: &str) -> io::Result<String> {
        let (word, text) = first_word(line);
        match word {
            "ask" => self.ask(pass, &mut NoGate, text),
            "look" => self.look(pass, text),
            "raise" => self.raise(pass, number(Some(text))),
            "pass" => self.show_pass(pass),
            "held" => self.held(text),
            "lacks" => self.lacks(text),
            _ => self.update(pass, word, text),
        }
    }

    /// What the client of a request prints.
    pub fn ask<G: Gate + Observer>(
        &self,
        pass: &mut Pass<D>,
        gate: &mut G,
        text: &str,
    ) -> io::Result<String> {
        let sent = request(self.alloc, text)?;
        let mut place = AtDesk {
            rt: self.rt,
            desk: self.desk,
            pass,
        };
        printed_answer(self.alloc, self.service, &mut place, gate, &sent)
    }

    /// What is shown of a name.
    fn look(&self, pass: &mut Pass<D>, text: &str) -> io::Result<String> {
        let Some(found) = self.found(pass, text)? else {
            return Ok(String::from_str(self.alloc, "no such principal")?);
        };
        let (kvno, policy, seen) = (found.kvno, found.policy, found.seen);
        let mut text = format!(in self.alloc; "kvno {kvno}, seen {seen}, count {policy}, held")?;
        for count in found.held.as_slice() {
            write!(text, " {count}")?;
        }
        Ok(text)
    }

    /// What a lookup finds.
    pub fn found(&self, pass: &mut Pass<D>, text: &str) -> io::Result<Option<Lookup>> {
        let name = name(self.alloc, text)?;
        match self.desk.lookup(pass, &name) {
            Ok(found) => Ok(found),
            Err(_) => Err(no_case()),
        }
    }

    /// Raises the count.
    pub fn raise(&self, pass: &mut Pass<D>, count: u32) -> io::Result<String> {
        if count < 1 || count > 16_777_216 {
            return Err(no_case());
        }
        let said = match self.desk.raise(self.rt, pass, NOW, count) {
            Ok(verdict) => verdict.text(),
            Err(RaiseFault::Full) => "history full",
            Err(RaiseFault::Memory) => "no memory",
        };
        Ok(String::from_str(self.alloc, said)?)
    }

    /// Takes what the KDC says.
    fn update(&self, pass: &mut Pass<D>, word: &str, text: &str) -> io::Result<String> {
        let update = update_of(self.alloc, word, text)?;
        let fits = update.fits();
        if !fits {
            return Err(no_case());
        }
        let said = match self
            .desk
            .update(self.rt, pass, NOW, update, Durability::Immediate)
        {
            Ok(verdict) => verdict_text(verdict),
            Err(refused) => fault_text(refused.fault),
        };
        Ok(String::from_str(self.alloc, said)?)
    }

    /// What a pass holds: receipts, how many changes its own front has, the version that was made last, and whether the
    /// history was full.
    fn show_pass(&self, pass: &mut Pass<D>) -> io::Result<String> {
        let (receipts, full) = (pass.receipts().len(), pass.was_full());
        let front = match pass.front() {
            Some(front) => front.len(),
            None => 0,
        };
        let place = AtDesk {
            rt: self.rt,
            desk: self.desk,
            pass,
        };
        let made = place.made_kvno().unwrap_or(0);
        Ok(format!(in self.alloc; "{receipts} receipts, front {front}, made {made}, full {full}")?)
    }

    /// `NAME PASSWORD`: the versions of the newest key that is held of the name, and of the newest that is this password's; 0
    /// for none.
    fn held(&self, text: &str) -> io::Result<String> {
        let (client, password) = first_word(text);
        let digest = digest_of(self.alloc, client, password)?;
        let name = name(self.alloc, client)?;
        let newest = self.desk.newest_key(self.rt, &name);
        let made = self.desk.made_key(self.rt, &name, &digest);
        let (newest, made) = (version(newest), version(made));
        Ok(format!(in self.alloc; "newest {newest}, made {made}")?)
    }

    /// Whether a request is refused anyway, and under which counts it lacks keys.
    fn lacks(&self, text: &str) -> io::Result<String> {
        let opened = asking(self.alloc, text)?;
        let now = support_realm::NOW;
        let refused = self.desk.refuses_anyway(now, &opened);
        let counts = self.desk.missing(self.rt, now, &opened);
        drop(opened);
        let mut text = format!(in self.alloc; "refused {refused}, lacks")?;
        for count in counts.as_slice() {
            write!(text, " {count}")?;
        }
        Ok(text)
    }
}

fn version(key: Option<KeyRow>) -> u32 {
    match key {
        Some(key) => key.kvno,
        None => 0,
    }
}
