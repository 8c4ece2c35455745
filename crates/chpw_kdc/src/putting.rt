//! The answers to what is put.
ghost use Rattle.std.specs.Prelude.{◌≡◌, OnOk, OnErr, IfErr, Ok, true, false};
ghost use Rattle.chpw_kdc.specs.declared.fault.ProtocolFault.TheVariants.{OtherName};
ghost use Rattle.chpw_kdc.specs.Faults.{IsFault};
ghost use Rattle.chpw_kdc.specs.Answers.{SameLost};
ghost use Rattle.chpw_kdc.specs.Answering.{of_put, is_put_for, is_newest, lifted, has_version, popped, retried};
ghost use Rattle.chpw_kdc.specs.Mirrors.{key_of};

use crate::answer::Answer;
use crate::dialog::KdcDialog;
use crate::fault::ProtocolFault;
use crate::update::KdcUpdate;
use chpw_record::KeyRow;
use chpw_rules::{Items, Name};
use std::alloc::AllocError;

impl KdcDialog {
    // The answer to a put of this key.
    pub(crate) fn hear_of_put(
        &mut self,
        key: KeyRow,
        answer: Answer,
        now: u64,
    ) -> Result<(), ProtocolFault>
        ensures value { OnOk result (of_put key now self.old answer ≡ Ok self.new) }
        ensures fault { IfErr result (IsFault (of_put key now self.old answer)) }
        ensures lost { OnErr result (SameLost self.old self.new) }
    {
        let is_written = match answer {
            Answer::Put { name, kvno } => {
                self.is_put_for(&name)?;
                if kvno < key.kvno {
                    return Err(ProtocolFault::LowerVersion);
                }
                self.lift(&name, key.kvno, kvno)?;
                self.tellings.accept(&name);
                true
            }
            Answer::None { name } => {
                self.is_put_for(&name)?;
                self.updates.push_back(KdcUpdate::Remove { name })?;
                false
            }
            Answer::Refused { name, reason } => {
                self.is_put_for(&name)?;
                self.tellings.refuse(name, reason)?;
                false
            }
            Answer::Failed { name, text } => {
                self.is_put_for(&name)?;
                self.retry(text, now)?;
                return Ok(());
            }
            _ => return Err(ProtocolFault::OutOfTurn),
        };
        self.settle(is_written);
        self.succeed();
        Ok(())
    }

    // The put failed, and is made again after a pause, before anything else is asked.
    fn retry(&mut self, text: Items<u8>, now: u64) -> Result<(), AllocError>
        ensures step { OnOk result (self.new ≡ retried text now self.old) }
        ensures unchanged { OnErr result (self.new ≡ self.old) }
    {
        self.tellings.fail(text)?;
        self.asked = None;
        self.pace.fail(now);
        Ok(())
    }

    // Whether this is the name of the first put.
    fn is_put_for(&self, name: &Name) -> Result<(), ProtocolFault>
        ensures yes { OnOk result (is_put_for self.now.puts name.now ≡ true) }
        ensures no { OnErr result (is_put_for self.now.puts name.now ≡ false) }
        ensures fault { IfErr result (λ fault. fault ≡ OtherName) }
    {
        match self.puts.front() {
            Some(put) if put.name.is_same(name) => Ok(()),
            _ => Err(ProtocolFault::OtherName),
        }
    }

    // The KDC has the key that was put under this version. If that is a higher one, the table's key is lifted, or comes back in
    // front of others by a comparison.
    fn lift(&mut self, name: &Name, put: u32, kvno: u32) -> Result<(), AllocError>
        ensures step { OnOk result (self.new ≡ lifted name.now put kvno self.old) }
        ensures unchanged { OnErr result (self.new ≡ self.old) }
    {
        if kvno <= put {
            return Ok(());
        }
        if self.is_newest(name, put) {
            let name = name.clone()?;
            self.updates.push_back(KdcUpdate::Lift { name, kvno })?;
        } else {
            self.pace.is_due = true;
        }
        Ok(())
    }

    // Whether the table's newest key of the name is the one that was put under this version: the mirror has it, and the desk has
    // decided all that it was asked.
    fn is_newest(&self, name: &Name, put: u32) -> bool
        ensures value { result ≡ is_newest name.now put self.now }
    {
        self.has_version(name, put) && self.updates.is_empty() && self.deciding == 0
    }

    // Whether the mirror's key of the name has this version.
    fn has_version(&self, name: &Name, kvno: u32) -> bool
        ensures value { result ≡ has_version (key_of self.now.mirror name.now) kvno }
    {
        match self.mirror.get(name) {
            Some(held) => held.kvno == kvno,
            None => false,
        }
    }

    // The first put is done with; whether the KDC has its key. Its ticket is confirmed.
    fn settle(&mut self, is_written: bool)
        ensures step { self.new ≡ record (popped self.old) { written = is_written } }
    {
        self.written = is_written;
        if let Some(put) = self.puts.pop_front() {
            if let Some(ticket) = put.ticket {
                self.confirmed = self.confirmed.max(ticket);
            }
        }
    }
}
