//! What is to be reported, and what was reported already.
ghost use Rattle.std.specs.Prelude.{◌≡◌, OnOk, OnErr};
ghost use Rattle.std.specs.Option.{option_copied};
ghost use Rattle.chpw_kdc.specs.Tellings.{nothing_told, after_refusal, after_told, is_told, after_accepted, after_missing, after_few};
ghost use Rattle.chpw_kdc.specs.Tellings.{after_failure, after_success, after_lost_change, after_full, after_room, next_notice, after_notice};

use crate::answer::Reason;
use crate::update::{Notice, RefusedName};
use chpw_rules::{Items, Name};
use std::alloc::{AllocError, Global};
use std::collections::{BTreeMap, VecDeque};
use std::marker::Model;
use std::mem;

/// What is to be reported, and what was reported already.
#[derive(Drop)]
pub(crate) struct Tellings {
    // What is to be reported, the oldest first.
    notices: VecDeque<Notice>,
    // The reason that was reported last for each name that the agent refuses.
    told: BTreeMap<Name, Reason>,
    refusal: Option<RefusedName>,
    // A change was lost, which isn't told yet.
    is_lost: bool,
    // A failure was reported, and nothing has succeeded since.
    is_failing: bool,
    // It was reported that the table is full, and no name has gone since.
    is_full_told: bool,
    // It was reported that many names are gone, and the lists since were so, too.
    is_many_told: bool,
}

impl Model for Tellings {
    ghost use Rattle.chpw_kdc.specs.Tellings.{Tellings as State};

    ghost Value = { State };

    ghost view = { λ t. record {
      notices = t.notices.items;
      told = t.told.entries;
      refusal = t.refusal;
      is_lost = t.is_lost;
      is_failing = t.is_failing;
      is_full_told = t.is_full_told;
      is_many_told = t.is_many_told;
    } };
}

impl Tellings {
    pub fn new(alloc: Global) -> Tellings
        ensures value { result ≡ nothing_told }
    {
        Tellings {
            notices: VecDeque::new(alloc),
            told: BTreeMap::new(alloc),
            refusal: None,
            is_lost: false,
            is_failing: false,
            is_full_told: false,
            is_many_told: false,
        }
    }

    /// The next notice.
    pub fn take(&mut self) -> Option<Notice>
        ensures value { result ≡ next_notice self.old }
        ensures step { self.new ≡ after_notice self.old }
    {
        if self.is_lost {
            self.is_lost = false;
            return Some(Notice::Lost);
        }
        self.notices.pop_front()
    }

    pub fn refusal(&self) -> Option<&RefusedName>
        ensures value { option_copied result ≡ self.now.refusal }
    {
        self.refusal.as_ref()
    }

    /// A change was lost for want of memory.
    pub fn lose(&mut self)
        ensures step { self.new ≡ after_lost_change self.old }
    {
        self.is_lost = true;
    }

    /// The agent refuses a name. It is reported unless this reason was the last one reported for it.
    pub fn refuse(&mut self, name: Name, reason: Reason) -> Result<(), AllocError>
        ensures step { OnOk result (self.new ≡ after_refusal name reason self.old) }
        ensures unchanged { OnErr result (self.new ≡ self.old) }
    {
        if !self.is_told(&name, reason) {
            self.tell_refusal(&name, reason)?;
        }
        self.refusal = Some(RefusedName { name, reason });
        Ok(())
    }

    // Whether this reason was the last one reported for the name.
    fn is_told(&self, name: &Name, reason: Reason) -> bool
        ensures value { result ≡ is_told self.now name.now reason }
    {
        match self.told.get(name) {
            Some(told) => *told == reason,
            None => false,
        }
    }

    fn tell_refusal(&mut self, name: &Name, reason: Reason) -> Result<(), AllocError>
        ensures step { OnOk result (self.new ≡ after_told name.now reason self.old) }
        ensures unchanged { OnErr result (self.new ≡ self.old) }
    {
        self.notices.reserve(1)?;
        let name = name.clone()?;
        self.told.insert(name.clone()?, reason)?;
        self.notices
            .push_back_reserved(Notice::Refused { name, reason });
        Ok(())
    }

    /// The agent wrote a name's key: its next refusal is reported again.
    pub fn accept(&mut self, name: &Name)
        ensures step { self.new ≡ after_accepted name.now self.old }
    {
        self.told.remove(name);
    }

    /// A list lacks many names. It is reported unless that was reported, and the lists since were so, too.
    pub fn miss(&mut self, gone: usize, of: usize) -> Result<(), AllocError>
        ensures step { OnOk result (self.new ≡ after_missing gone of self.old) }
        ensures unchanged { OnErr result (self.new ≡ self.old) }
    {
        if self.is_many_told {
            return Ok(());
        }
        self.notices.push_back(Notice::TooManyGone { gone, of })?;
        self.is_many_told = true;
        Ok(())
    }

    /// A list lacks few names.
    pub fn miss_few(&mut self)
        ensures step { self.new ≡ after_few self.old }
    {
        self.is_many_told = false;
    }

    /// A request failed. It is reported unless nothing has succeeded since a failure was reported, or another program has the
    /// database locked.
    pub fn fail(&mut self, text: Items<u8>) -> Result<(), AllocError>
        ensures step { OnOk result (self.new ≡ after_failure text self.old) }
        ensures unchanged { OnErr result (self.new ≡ self.old) }
    {
        if self.is_failing || text.as_slice() == b"locked".as_slice() {
            return Ok(());
        }
        self.notices.push_back(Notice::Failed { text })?;
        self.is_failing = true;
        Ok(())
    }

    /// The table is full, so a name isn't adopted. It is reported unless that was reported and no name has gone since.
    pub fn fill(&mut self, name: Name) -> Result<(), AllocError>
        ensures step { OnOk result (self.new ≡ after_full name self.old) }
        ensures unchanged { OnErr result (self.new ≡ self.old) }
    {
        if self.is_full_told {
            return Ok(());
        }
        self.notices.push_back(Notice::TableFull { name })?;
        self.is_full_told = true;
        Ok(())
    }

    /// A name has gone from the table: whether it was reported that it is full.
    pub fn make_room(&mut self) -> bool
        ensures value { result ≡ self.old.is_full_told }
        ensures step { self.new ≡ after_room self.old }
    {
        mem::take(&mut self.is_full_told)
    }

    /// A request was answered.
    pub fn succeed(&mut self)
        ensures step { self.new ≡ after_success self.old }
    {
        self.is_failing = false;
    }
}
