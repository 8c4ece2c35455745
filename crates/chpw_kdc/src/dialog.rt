//! What the service says to the agent at the KDC's database, and what it makes of the answers.
ghost use Rattle.std.specs.Prelude.{◌≡◌, ◌+◌, ◌-◌, ◌^◌, ◌==◌, ◌&&◌, not, nat_le, length, true, false, None, ◌⊎◌, IfOk, IfErr, OnOk, OnErr};
ghost use Rattle.std.specs.Option.{option_copied};
ghost use Rattle.chpw_kdc.specs.Lines.{is_sayable};
ghost use Rattle.chpw_kdc.specs.Mirrors.{key_of, newest};
ghost use Rattle.chpw_kdc.specs.Dialogs.{at_start, after_hold, after_none, after_full_table, after_want, after_want_comparison, after_lost_want};
ghost use Rattle.chpw_kdc.specs.Dialogs.{forgotten, after_connect, after_loss, after_fault, first_update, after_take, after_decision};
ghost use Rattle.chpw_kdc.specs.Dialogs.{after_telling, changes_of, has_most_puts, is_in_reach};
ghost use Rattle.chpw_kdc.specs.Tellings.{next_notice};
ghost use Rattle.chpw_kdc.specs.declared.fault.HoldFault.TheVariants.{LongName, NoTicket, TooMany, Memory};

use crate::fault::HoldFault;
use crate::fields::is_sayable;
use crate::judging::newer;
use crate::pace::Pace;
use crate::put::{MOST_PUTS, Put, UnderWay};
use crate::tellings::Tellings;
use crate::update::{KdcUpdate, Notice, RefusedName};
use chpw_record::KeyRow;
use chpw_rules::Name;
use std::alloc::{AllocError, Global};
use std::collections::{BTreeMap, BTreeSet, VecDeque};
use std::marker::Model;

/// What the service says to the agent at the KDC's database, and what it makes of the answers.
///
/// It keeps a mirror of the table: the newest key that was reported for each name. One request is under way at a time. All
/// times are milliseconds of a clock that doesn't go back.
#[derive(Drop)]
pub struct KdcDialog {
    pub(crate) alloc: Global,
    // The newest key that the table had for each name, as it was reported.
    pub(crate) mirror: BTreeMap<Name, KeyRow>,
    // The keys that the KDC is to get, in the order in which they are put. The first may be under way.
    pub(crate) puts: VecDeque<Put>,
    // The last ticket that was given.
    pub(crate) issued: u64,
    // The last ticket that is confirmed, with all before it.
    pub(crate) confirmed: u64,
    // Whether the KDC has the key whose put was answered last.
    pub(crate) written: bool,
    pub(crate) asked: Option<UnderWay>,
    // The beginning of a line.
    pub(crate) heard: Vec<u8>,
    // The names that the list under way has named.
    pub(crate) listed: BTreeSet<Name>,
    // The names that the last list lacked, to be asked for alone. The first may be under way.
    pub(crate) gets: VecDeque<Name>,
    // What the desk is to be asked.
    pub(crate) updates: VecDeque<KdcUpdate>,
    // How many updates the desk was asked and hasn't decided.
    pub(crate) deciding: usize,
    pub(crate) tellings: Tellings,
    pub(crate) pace: Pace,
}

impl Model for KdcDialog {
    ghost use Rattle.chpw_kdc.specs.Dialogs.{State};

    ghost Value = { State };

    ghost view = { λ d. record {
      mirror = d.mirror.entries;
      puts = d.puts.items;
      issued = d.issued;
      confirmed = d.confirmed;
      written = d.written;
      asked = d.asked;
      heard = d.heard.items;
      listed = d.listed.keys;
      gets = d.gets.items;
      updates = d.updates.items;
      deciding = d.deciding;
      tellings = d.tellings;
      pace = d.pace;
    } };
}

/// The state, to be shown.
#[derive(Drop)]
pub struct KdcStatus<'a> {
    /// Whether there is a connection to the agent.
    pub connected: bool,
    /// Since when there is one, or none.
    pub since: u64,
    /// How many keys are on their way to the KDC.
    pub behind: usize,
    pub refusal: Option<&'a RefusedName>,
}

impl KdcDialog {
    /// Nothing is held, and the agent is to be called.
    pub fn new(alloc: Global, now: u64) -> KdcDialog
        ensures value { result ≡ at_start now }
    {
        KdcDialog {
            alloc,
            mirror: BTreeMap::new(alloc),
            puts: VecDeque::new(alloc),
            issued: 0,
            confirmed: 0,
            written: true,
            asked: None,
            heard: Vec::new(alloc),
            listed: BTreeSet::new(alloc),
            gets: VecDeque::new(alloc),
            updates: VecDeque::new(alloc),
            deciding: 0,
            tellings: Tellings::new(alloc),
            pace: Pace::at_start(now),
        }
    }

    /// The table has this key as the newest of the name: at the opening of a desk, or after an update that was decided.
    /// A key whose version is older than that of the mirror's changes nothing. Refused with nothing changed as
    /// `LongName` or `Memory`; never as `Memory` if the mirror has the name.
    pub fn hold(&mut self, name: Name, key: KeyRow) -> Result<(), HoldFault>
        ensures step { OnOk result (self.new ≡ after_hold name key self.old) }
        ensures unchanged { OnErr result (self.new ≡ self.old) }
        ensures sayable { OnOk result (is_sayable name ≡ true) }
        ensures long { result ≡ Err LongName → is_sayable name ≡ false }
        ensures fault { IfErr result (λ why. (why ≡ LongName) ⊎ (why ≡ Memory)) }
        ensures memory { result ≡ Err Memory → key_of self.old.mirror name ≡ None }
    {
        if !is_sayable(&name) {
            return Err(HoldFault::LongName);
        }
        self.mirror_key(name, key)?;
        Ok(())
    }

    // The mirror has the key, unless it has a newer one.
    fn mirror_key(&mut self, name: Name, key: KeyRow) -> Result<(), AllocError>
        ensures step { OnOk result (self.new ≡ after_hold name key self.old) }
        ensures unchanged { OnErr result (self.new ≡ self.old) }
        ensures absent { OnErr result (key_of self.old.mirror name ≡ None) }
    {
        let key = self.newest(&name, key);
        self.mirror.insert(name, key)?;
        Ok(())
    }

    // The mirror's key of the name if it is newer than this one, or this one.
    pub(crate) fn newest(&self, name: &Name, key: KeyRow) -> KeyRow
        ensures value { result ≡ newest self.now.mirror name.now key }
    {
        match self.mirror.get(name) {
            Some(held) => newer(*held, key),
            None => key,
        }
    }

    /// The table has no such name, or has it no more. If it was full, so that another one wasn't adopted, table and KDC are
    /// compared again.
    pub fn hold_none(&mut self, name: &Name)
        ensures step { self.new ≡ after_none name.now self.old }
    {
        if self.mirror.remove(name).is_some() && self.tellings.make_room() {
            self.pace.is_due = true;
        }
    }

    /// The desk didn't adopt this name, since its table has as many principals as it may. That is reported once, until one of
    /// them is gone. After `AllocError` nothing has changed.
    pub fn tell_full(&mut self, name: Name) -> Result<(), AllocError>
        ensures step { OnOk result (self.new ≡ after_full_table name self.old) }
        ensures unchanged { OnErr result (self.new ≡ self.old) }
    {
        self.tellings.fill(name)?;
        Ok(())
    }

    /// How many names the table has, as it was reported.
    pub fn held(&self) -> usize
        ensures value { result ≡ length self.now.mirror }
    {
        self.mirror.len()
    }

    /// A change was accepted: the KDC is to get this key of the name. The change's ticket, one more than the last one;
    /// `confirmed` says when it has arrived. It is put whatever newer key the mirror has.
    ///
    /// Refused with nothing changed as `LongName`, `NoTicket`, `TooMany` or `Memory`. The caller then hands the key to `hold`,
    /// which takes no memory for a name that the mirror has, and calls `want_lost`; there is no ticket then.
    pub fn want(&mut self, name: Name, key: KeyRow, now: u64) -> Result<u64, HoldFault>
        ensures step { OnOk result (self.new ≡ after_want now name key self.old) }
        ensures ticket { IfOk result (λ ticket. ticket ≡ self.old.issued + 1) }
        ensures unchanged { OnErr result (self.new ≡ self.old) }
        ensures sayable { OnOk result (is_sayable name ≡ true) }
        ensures few { OnOk result (has_most_puts self.old ≡ false) }
        ensures long { result ≡ Err LongName → is_sayable name ≡ false }
        ensures no_ticket { result ≡ Err NoTicket → self.old.issued ≡ 2 ^ 64 - 1 }
        ensures too_many { result ≡ Err TooMany → has_most_puts self.old ≡ true }
        ensures memory { result ≡ Err Memory → has_most_puts self.old ≡ false }
    {
        if !is_sayable(&name) {
            return Err(HoldFault::LongName);
        }
        let Some(ticket) = self.issued.checked_add(1) else {
            return Err(HoldFault::NoTicket);
        };
        if self.puts.len() >= MOST_PUTS {
            return Err(HoldFault::TooMany);
        }
        let copy = name.clone()?;
        let newest = self.newest(&name, key);
        self.puts.reserve(1)?;
        self.mirror.insert(copy, newest)?;
        self.puts.push_back_reserved(Put {
            name,
            key,
            ticket: Some(ticket),
            since: now,
        });
        self.issued = ticket;
        Ok(ticket)
    }

    /// Table and KDC are to be compared: the table has changed otherwise than by what `want` told, or the desk has refused
    /// what the KDC said.
    pub fn want_comparison(&mut self)
        ensures step { self.new ≡ after_want_comparison self.old }
    {
        self.pace.is_due = true;
    }

    /// A change, or a key of the table's, was lost: `want` or `hold` refused it, or it wasn't found. Table and KDC are compared
    /// anew, which is reported. The comparison puts right what the mirror knows of.
    pub fn want_lost(&mut self)
        ensures step { self.new ≡ after_lost_want self.old }
    {
        self.pace.is_due = true;
        self.tellings.lose();
    }

    /// The last ticket that is confirmed; all before it are confirmed too. 0 if none is.
    pub fn confirmed(&self) -> u64
        ensures value { result ≡ self.now.confirmed }
    {
        self.confirmed
    }

    /// Whether the KDC has the key whose put was answered last: not if the agent refused it, or the KDC has no such name.
    pub fn is_written(&self) -> bool
        ensures value { result ≡ self.now.written }
    {
        self.written
    }

    /// How many keys are on their way to the KDC.
    pub fn behind(&self) -> usize
        ensures value { result ≡ length self.now.puts }
    {
        self.puts.len()
    }

    /// Whether keys are on their way to the KDC.
    pub fn is_behind(&self) -> bool
        ensures value { result ≡ not (length self.now.puts == 0) }
    {
        !self.puts.is_empty()
    }

    pub fn is_connected(&self) -> bool
        ensures value { result ≡ self.now.pace.connected }
    {
        self.pace.connected
    }

    /// Whether the KDC has changes in time: there is a connection, and the key that it gets next has been on its way for
    /// less than `wait`.
    pub fn is_in_reach(&self, wait: u64, now: u64) -> bool
        ensures value { result ≡ is_in_reach wait now self.now }
    {
        let is_late = match self.puts.front() {
            None => false,
            Some(put) => put.since.saturating_add(wait) <= now,
        };
        self.pace.connected && !is_late
    }

    /// Whether the agent is to be called now: there is no connection, and the pause since the last one is over.
    pub fn is_to_call(&self, now: u64) -> bool
        ensures value { result ≡ (not self.now.pace.connected && nat_le self.now.pace.call_at now) }
    {
        !self.pace.connected && self.pace.call_at <= now
    }

    /// A connection was made. Table and KDC are compared. One that there was is lost.
    pub fn connect(&mut self, now: u64)
        ensures step { self.new ≡ after_connect now self.old }
    {
        self.forget();
        self.pace.connect(now);
    }

    /// The connection has ended, or couldn't be made. The changes that are on their way are put over the next one, before the
    /// next comparison; what the last one was to put is forgotten, since somebody may set a newer key meanwhile, and so is what
    /// the agent said that the desk wasn't asked yet. No key of the mirror and no ticket changes.
    pub fn lose(&mut self, now: u64)
        ensures step { self.new ≡ after_loss now self.old }
    {
        self.forget();
        self.pace.lose(now);
    }

    // The connection ends, since the agent is at fault.
    pub(crate) fn end_at_fault(&mut self, now: u64)
        ensures step { self.new ≡ after_fault now self.old }
    {
        self.forget();
        self.pace.blame();
        self.pace.lose(now);
    }

    // Forgets all that belongs to one connection, and what a comparison was to put.
    fn forget(&mut self)
        ensures step { self.new ≡ forgotten self.old }
    {
        keep_changes(&mut self.puts);
        self.asked = None;
        self.heard.clear();
        self.listed.clear();
        self.gets.clear();
        self.updates.clear();
    }

    /// What the desk is to be asked next. The caller says when it is decided.
    pub fn take_update(&mut self) -> Option<KdcUpdate>
        ensures value { result ≡ first_update self.old.updates }
        ensures step { self.new ≡ after_take self.old }
    {
        let update = self.updates.pop_front()?;
        self.deciding = self.deciding.saturating_add(1);
        Some(update)
    }

    /// The desk has decided an update, whatever its verdict. The caller then tells what the table has of that name, by
    /// `hold` or `hold_none`.
    pub fn decided(&mut self)
        ensures step { self.new ≡ after_decision self.old }
    {
        self.deciding = self.deciding.saturating_sub(1);
    }

    /// What is to be reported next.
    pub fn take_notice(&mut self) -> Option<Notice>
        ensures value { result ≡ next_notice self.old.tellings }
        ensures step { self.new ≡ after_telling self.old }
    {
        self.tellings.take()
    }

    /// The state, to be shown.
    pub fn status(&self) -> KdcStatus<'_>
        ensures connected { result.connected ≡ self.now.pace.connected }
        ensures since { result.since ≡ self.now.pace.since }
        ensures behind { result.behind ≡ length self.now.puts }
        ensures refusal { option_copied result.refusal ≡ self.now.tellings.refusal }
    {
        KdcStatus {
            connected: self.pace.connected,
            since: self.pace.since,
            behind: self.puts.len(),
            refusal: self.tellings.refusal(),
        }
    }
}

// Drops the puts that no change waits for.
fn keep_changes(puts: &mut VecDeque<Put>)
    ensures value { puts.new.items ≡ changes_of puts.old.items }
{
    puts.retain(|put| put.ticket.is_some());
}
