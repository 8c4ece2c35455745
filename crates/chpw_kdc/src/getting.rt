//! The answers for names that are asked for alone, and the ends of all requests.
ghost use Rattle.std.specs.Prelude.{◌≡◌, OnOk, OnErr, IfErr, Ok, true, false};
ghost use Rattle.chpw_kdc.specs.declared.fault.ProtocolFault.TheVariants.{OtherName};
ghost use Rattle.chpw_kdc.specs.Faults.{IsFault};
ghost use Rattle.chpw_kdc.specs.Answers.{SameLost};
ghost use Rattle.chpw_kdc.specs.Answering.{of_get, is_first, postponed, succeeded};

use crate::answer::Answer;
use crate::dialog::KdcDialog;
use crate::fault::ProtocolFault;
use crate::judging::IsOurs;
use crate::update::KdcUpdate;
use chpw_rules::{Items, Name};
use std::alloc::AllocError;

impl KdcDialog {
    // The answer for a name that was asked for alone.
    pub(crate) fn hear_of_get<O: IsOurs>(
        &mut self,
        ours: &O,
        answer: Answer,
        now: u64,
    ) -> Result<(), ProtocolFault>
        ensures value { OnOk result (of_get (O.ours ours.now) now self.old answer ≡ Ok self.new) }
        ensures fault { IfErr result (IsFault (of_get (O.ours ours.now) now self.old answer)) }
        ensures lost { OnErr result (SameLost self.old self.new) }
    {
        match answer {
            Answer::Has { name, kvno, keys } => {
                self.is_asked_for(&name)?;
                self.compare(ours, name, kvno, &keys)?;
            }
            Answer::Other { name, reason } => {
                self.is_asked_for(&name)?;
                self.refuse(name, reason)?;
            }
            Answer::None { name } => {
                self.is_asked_for(&name)?;
                self.updates.push_back(KdcUpdate::Remove { name })?;
            }
            Answer::Failed { name, text } => {
                self.is_asked_for(&name)?;
                self.postpone(text, now)?;
                self.gets.pop_front();
                return Ok(());
            }
            _ => return Err(ProtocolFault::OutOfTurn),
        }
        self.gets.pop_front();
        self.succeed();
        Ok(())
    }

    // Whether this is the first of the names that are asked for alone.
    fn is_asked_for(&self, name: &Name) -> Result<(), ProtocolFault>
        ensures yes { OnOk result (is_first self.now.gets name.now ≡ true) }
        ensures no { OnErr result (is_first self.now.gets name.now ≡ false) }
        ensures fault { IfErr result (λ fault. fault ≡ OtherName) }
    {
        match self.gets.front() {
            Some(asked) if asked.is_same(name) => Ok(()),
            _ => Err(ProtocolFault::OtherName),
        }
    }

    // A list failed, or a look at one name: there is a list again, after a pause.
    pub(crate) fn postpone(&mut self, text: Items<u8>, now: u64) -> Result<(), AllocError>
        ensures step { OnOk result (self.new ≡ postponed text now self.old) }
        ensures unchanged { OnErr result (self.new ≡ self.old) }
    {
        self.tellings.fail(text)?;
        self.asked = None;
        self.pace.postpone(now);
        Ok(())
    }

    // The request was answered.
    pub(crate) fn succeed(&mut self)
        ensures step { self.new ≡ succeeded self.old }
    {
        self.asked = None;
        self.pace.succeed();
        self.tellings.succeed();
    }
}
