//! The comparison of the table with the KDC: the list, and the names that it lacks.
ghost use Rattle.std.specs.Prelude.{◌≡◌, IfOk, OnOk, OnErr, IfErr, Ok, false};
ghost use Rattle.chpw_kdc.specs.Faults.{IsFault, IsListFault};
ghost use Rattle.chpw_kdc.specs.Answers.{SameLost};
ghost use Rattle.chpw_kdc.specs.Answering.{of_list, is_listed, with_listed, with_put, is_on_its_way, compared, refused_if_held, after_end, lacked_in, is_many};

use crate::answer::{Answer, Reason};
use crate::dialog::KdcDialog;
use crate::fault::ProtocolFault;
use crate::fields::KeyPair;
use crate::judging::{IsOurs, Judgement, judge};
use crate::put::Put;
use crate::update::KdcUpdate;
use chpw_record::KeyRow;
use chpw_rules::Name;
use std::alloc::AllocError;
use std::collections::VecDeque;

/// As many names may be gone from the KDC at once, whatever part of all they are.
pub const FEW_GONE: usize = 10;

impl KdcDialog {
    // A line of the list's answer.
    pub(crate) fn hear_of_list<O: IsOurs>(
        &mut self,
        ours: &O,
        answer: Answer,
        now: u64,
    ) -> Result<(), ProtocolFault>
        ensures value { OnOk result (of_list (O.ours ours.now) now self.old answer ≡ Ok self.new) }
        ensures fault { IfErr result (IsFault (of_list (O.ours ours.now) now self.old answer)) }
        ensures lost { OnErr result (SameLost self.old self.new) }
    {
        match answer {
            Answer::Has { name, kvno, keys } => {
                self.list(&name)?;
                self.compare(ours, name, kvno, &keys)?;
                Ok(())
            }
            Answer::Other { name, reason } => {
                self.list(&name)?;
                self.refuse(name, reason)?;
                Ok(())
            }
            Answer::End { count } => self.end_list(count, now),
            Answer::ListFailed { text } => {
                self.postpone(text, now)?;
                self.listed.clear();
                Ok(())
            }
            _ => Err(ProtocolFault::OutOfTurn),
        }
    }

    // The list names this.
    fn list(&mut self, name: &Name) -> Result<(), ProtocolFault>
        ensures step { OnOk result (self.new ≡ with_listed name.now self.old) }
        ensures new { OnOk result (is_listed self.old.listed name.now ≡ false) }
        ensures fault { IfErr result (λ fault. IsListFault fault (is_listed self.old.listed name.now)) }
        ensures unchanged { OnErr result (self.new ≡ self.old) }
    {
        if self.listed.contains(name) {
            return Err(ProtocolFault::NamedTwice);
        }
        self.listed.insert(name.clone()?)?;
        Ok(())
    }

    // The KDC has these keys of the name.
    pub(crate) fn compare<O: IsOurs>(
        &mut self,
        ours: &O,
        name: Name,
        kvno: u32,
        keys: &KeyPair,
    ) -> Result<(), AllocError>
        ensures step { OnOk result (self.new ≡ compared (O.ours ours.now) name kvno keys.now self.old) }
        ensures unchanged { OnErr result (self.new ≡ self.old) }
    {
        match judge(ours, self.mirror.get(&name), &name, kvno, keys) {
            Judgement::Leave => {}
            Judgement::Adopt(key) => self.updates.push_back(KdcUpdate::Adopt { name, key })?,
            Judgement::Put(key) => self.put_right(name, key)?,
        }
        Ok(())
    }

    // The KDC gets this key. A change that came after the KDC was read may have it on its way.
    fn put_right(&mut self, name: Name, key: KeyRow) -> Result<(), AllocError>
        ensures step { OnOk result (self.new ≡ with_put name key self.old) }
        ensures unchanged { OnErr result (self.new ≡ self.old) }
    {
        if !self.is_on_its_way(&name, &key) {
            self.puts.push_back(Put {
                name,
                key,
                ticket: None,
                since: self.pace.began,
            })?;
        }
        Ok(())
    }

    // Whether a change's put of this key of the name is on its way.
    fn is_on_its_way(&self, name: &Name, key: &KeyRow) -> bool
        ensures value { result ≡ is_on_its_way self.now.puts name.now key.now }
    {
        self.puts.iter().any(|put| put.brings(name, key))
    }

    // The KDC has the name, but the agent doesn't write it or give its keys.
    pub(crate) fn refuse(&mut self, name: Name, reason: Reason) -> Result<(), AllocError>
        ensures step { OnOk result (self.new ≡ refused_if_held name reason self.old) }
        ensures unchanged { OnErr result (self.new ≡ self.old) }
    {
        if self.mirror.contains_key(&name) {
            self.tellings.refuse(name, reason)?;
        }
        Ok(())
    }

    // The end of the list: the names that it lacks are asked for alone, unless they are many.
    fn end_list(&mut self, count: u32, now: u64) -> Result<(), ProtocolFault>
        ensures value { OnOk result (after_end count now self.old ≡ Ok self.new) }
        ensures fault { IfErr result (IsFault (after_end count now self.old)) }
        ensures lost { OnErr result (SameLost self.old self.new) }
    {
        if self.listed.len() != count as usize {
            return Err(ProtocolFault::WrongCount);
        }
        let lacked = self.lacked()?;
        let (gone, of) = (lacked.len(), self.mirror.len());
        if is_many(gone, of) {
            self.tellings.miss(gone, of)?;
        } else {
            self.gets = lacked;
            self.tellings.miss_few();
        }
        self.listed.clear();
        self.pace.end(now);
        self.succeed();
        Ok(())
    }

    // The names that the mirror has and the list hasn't named.
    fn lacked(&self) -> Result<VecDeque<Name>, AllocError>
        ensures value { IfOk result (λ names. names.items ≡ lacked_in self.now.listed self.now.mirror) }
    {
        let mut lacked = VecDeque::new(self.alloc);
        for (name, _) in &self.mirror {
            if !self.listed.contains(name) {
                lacked.push_back(name.clone()?)?;
            }
        }
        Ok(lacked)
    }
}

// Whether as many of all the names are too many to be removed: more than ten, and more than a tenth.
fn is_many(gone: usize, of: usize) -> bool
    ensures value { result ≡ is_many gone of }
{
    gone > FEW_GONE && gone > of / 10
}
