//! The KDC, as the connections' state knows it: the keys that its agent is asked to write, the replies that wait for that, and
//! what it says that workers take into the table.
ghost use Rattle.std.specs.Prelude.{◌≡◌, ◌<◌, ◌||◌, ℕ, Option, Some, None, is_some, OnOk, IfErr, IfSome, IfNone};
ghost use Rattle.std.specs.Prelude.{nat_lt, if◌then◌else◌, option_map, option_and_then};
ghost use Rattle.chpw_connections.specs.Held.{slots_of, bounds_of};
ghost use Rattle.chpw_slots.specs.Counting.{count_in};
ghost use Rattle.chpw_connections.specs.Turns.{slot_of};
ghost use Rattle.chpw_connection.specs.declared.counting.CountedStage.TheVariants as counted;
ghost use Rattle.chpw_kdc.specs.Dialogs.{first_update, after_take};
ghost use Rattle.chpw_kdc.specs.Mirrors.{are_ours};
ghost use Rattle.chpw_transfers.specs.Kdc.{IsDecided, IsFaulty, IsHeard, IsToldFull, IsToldTo, LeavesChange, LeavesKey, Releases};
ghost use Rattle.chpw_transfers.specs.Kdc.{confirmed_in, has_update, is_behind, is_clerk, is_deciding, release_of_lost};
ghost use Rattle.chpw_transfers.specs.Kdc.{OverdueEnds, SettlesEach, is_withheld, reply_under, ticket_of};
ghost use Rattle.chpw_connections.specs.Confirming.{NoneIsOverdue};
ghost use Rattle.chpw_transfers.specs.declared.kdc.Release.{Release};
ghost use Rattle.chpw_transfers.specs.Rounds.{is_update_next};
ghost use Rattle.chpw_transfers.specs.Steps.{IsAnswered};

use crate::state::State;
use chpw_connections::{CountedStage, KdcChange, Reply, Turn, Unconfirmed};
use chpw_kdc::{HoldFault, KdcDialog, KdcUpdate, ProtocolFault};
use chpw_record::{KeyRow, PrincipalKey};
use chpw_rules::{Name, NamePatterns};

/// The worker that takes what the KDC says into the table.
pub const CLERK: usize = 0;

/// A service's side of a KDC.
#[derive(Drop)]
pub struct KdcSide {
    /// What is said to the agent at its database.
    pub dialog: KdcDialog,
    /// Which of its names are the service's.
    pub names: NamePatterns,
    /// If it has to be in reach for a change: the milliseconds within which it gets each.
    pub reach: Option<u64>,
}

/// What came of an update that a worker was given.
#[derive(Clone, Copy, Drop)]
pub enum UpdateEnd {
    /// The desk has decided it, or never takes it.
    Over,
    /// The desk may take it later.
    Postponed,
    /// The table has no room for its name.
    TableFull,
}

/// When the reply to a message may go.
#[derive(Clone, Copy, Drop)]
pub enum Release {
    Now,
    /// When the change with this ticket is confirmed.
    After(u64),
    /// Its change may never reach the KDC.
    Never,
}

impl State {
    /// A worker's reply to the message that it took is to be written, or there is none and the connection ends. If a change
    /// came of the message, its key is on its way to the KDC from then on; and while there is a connection to the agent, or
    /// if the KDC has to be in reach, the reply waits until the agent has confirmed it. Of a change whose key was lost for
    /// want of memory nobody is told if the KDC has to be in reach.
    pub fn answer(&mut self, turn: Turn, now: u64)
        ensures answered { (release : Release) × LeavesChange (is_some self.old.reach) now self.old.kdc turn.change self.new.kdc release
            × IsAnswered (bounds_of self.old.connections) now (ticket_of release) (reply_under turn.reply release)
            (slots_of self.old.connections) (slots_of self.new.connections) (slot_of turn.taken) }
        ensures bounds { bounds_of self.new.connections ≡ bounds_of self.old.connections }
        ensures rest { self.new ≡ record self.old { connections = self.new.connections; kdc = self.new.kdc } }
    {
        let Turn {
            taken,
            reply,
            change,
        } = turn;
        let release = self.leave(change, now);
        match (reply, release) {
            (None, _) => self.connections.leave_unanswered(taken, now),
            (Some(Reply { bytes, is_last }), Release::Now) => {
                self.connections.answer(taken, bytes, is_last, now);
            }
            (Some(Reply { bytes, is_last }), Release::After(ticket)) => {
                self.connections.defer(taken, bytes, is_last, ticket, now);
            }
            (Some(_), Release::Never) => self.connections.leave_unanswered(taken, now),
        }
    }

    // What a turn leaves to be put into the KDC's database is on its way. When its reply may go.
    fn leave(&mut self, change: KdcChange, now: u64) -> Release
        ensures left { LeavesChange (is_some self.old.reach) now self.old.kdc change self.new.kdc result }
        ensures rest { self.new ≡ record self.old { kdc = self.new.kdc } }
    {
        let is_needed = self.reach.is_some();
        let Some(kdc) = &mut self.kdc else {
            return Release::Now;
        };
        match change {
            KdcChange::Nothing => Release::Now,
            KdcChange::Lost => {
                kdc.want_lost();
                release_of_lost(is_needed)
            }
            KdcChange::Key(change) => want(kdc, change, is_needed, now),
        }
    }

    /// The last ticket that is confirmed; 0 without a KDC.
    pub fn confirmed(&self) -> u64
        ensures value { result ≡ confirmed_in self.now.kdc }
    {
        match &self.kdc {
            None => 0,
            Some(kdc) => kdc.confirmed(),
        }
    }

    /// Whether requests are decided: not if the KDC has to be in reach and isn't, since the agent isn't there, or since
    /// keys are on their way for too long.
    pub fn is_deciding(&self, now: u64) -> bool
        ensures value { result ≡ is_deciding now self.now.reach self.now.kdc }
    {
        match (self.reach, &self.kdc) {
            (None, _) => true,
            (Some(_), None) => false,
            (Some(reach), Some(kdc)) => kdc.is_in_reach(reach, now),
        }
    }

    /// The agent sent these bytes. The replies whose changes it has confirmed with them are to be written, also with those
    /// before a fault; but if the KDC has to be in reach, and doesn't have the last one's key, their connections end. Of the
    /// names that the table lacks, those that are the service's are adopted. After a fault the caller closes the connection.
    pub fn hear(&mut self, bytes: &[u8], now: u64) -> Result<(), ProtocolFault>
        ensures heard { OnOk result (IsHeard (are_ours self.old.names) now bytes.now self.old.kdc self.new.kdc) }
        ensures fault { IfErr result (λ fault. IsFaulty (are_ours self.old.names) now bytes.now fault self.old.kdc self.new.kdc) }
        ensures released { Releases (is_withheld (is_some self.old.reach) self.new.kdc) (confirmed_in self.old.kdc) (confirmed_in self.new.kdc) now
            (slots_of self.old.connections) (slots_of self.new.connections) }
        ensures bounds { bounds_of self.new.connections ≡ bounds_of self.old.connections }
        ensures rest { self.new ≡ record self.old { connections = self.new.connections; kdc = self.new.kdc } }
    {
        let Some(kdc) = &mut self.kdc else {
            return Ok(());
        };
        let before = kdc.confirmed();
        let heard = kdc.hear(&self.names, bytes, now);
        let confirmed = kdc.confirmed();
        let is_withheld = self.reach.is_some() && !kdc.is_written();
        if before < confirmed {
            self.settle(confirmed, is_withheld, now);
        }
        heard
    }

    // The changes up to this ticket are confirmed: their replies are to be written, or withdrawn.
    fn settle(&mut self, confirmed: u64, is_withheld: bool, now: u64)
        ensures settled { SettlesEach is_withheld confirmed now (slots_of self.old.connections) (slots_of self.new.connections) }
        ensures bounds { bounds_of self.new.connections ≡ bounds_of self.old.connections }
        ensures rest { self.new ≡ record self.old { connections = self.new.connections } }
    {
        if is_withheld {
            self.connections.withdraw(confirmed);
        } else {
            self.connections.confirm(confirmed, now);
        }
    }

    /// What the KDC says next, for the clerk to take into the table: the worker that does that and answers messages in turn.
    /// None if the clerk is to take nothing, or a message first.
    pub fn take_update(&mut self, worker: usize) -> Option<KdcUpdate>
        ensures value { result ≡ (if is_update_next worker self.old then option_and_then (λ s. first_update s.updates) self.old.kdc else None) }
        ensures kdc { self.new.kdc ≡ (if is_update_next worker self.old then option_map after_take self.old.kdc else self.old.kdc) }
        ensures turn { self.new.is_message_next ≡ (is_update_next worker self.old || self.old.is_message_next) }
        ensures rest { self.new ≡ record self.old { kdc = self.new.kdc; is_message_next = self.new.is_message_next } }
    {
        if !self.is_update_next(worker) {
            return None;
        }
        self.is_message_next = true;
        self.kdc.as_mut()?.take_update()
    }

    // Whether this worker is the clerk, and takes what the KDC says before messages.
    fn is_update_next(&self, worker: usize) -> bool
        ensures value { result ≡ is_update_next worker self.now }
    {
        let is_message_next = self.is_message_next && self.connections.has_message(worker);
        is_clerk(worker) && !self.is_stopped && !is_message_next
    }

    /// A worker has decided what the KDC said of a name, or it was refused. The table has this as the name's newest key then,
    /// or it doesn't hold the name. If the desk may take it later, table and KDC are compared anew. If the table has no room
    /// for the name, that is told, once until there is room.
    pub fn updated(&mut self, name: Name, newest: Option<KeyRow>, end: UpdateEnd)
        ensures decided { IsDecided name newest end self.old.kdc self.new.kdc }
        ensures rest { self.new ≡ record self.old { kdc = self.new.kdc } }
    {
        if let Some(kdc) = &mut self.kdc {
            kdc.decided();
            match end {
                UpdateEnd::Over => tell(kdc, name, newest),
                UpdateEnd::Postponed => {
                    tell(kdc, name, newest);
                    kdc.want_comparison();
                }
                UpdateEnd::TableFull => tell_full(kdc, name),
            }
        }
    }

    /// The wait of the first reply that has waited for its confirmation for `wait` milliseconds or longer is over. It is to be
    /// written now; or if the KDC has to be in reach, it is dropped, and its connection ends. None if there is no such reply.
    pub fn end_overdue(&mut self, wait: u64, now: u64) -> Option<Unconfirmed>
        ensures some { IfSome result (λ u. OverdueEnds (is_some self.old.reach) wait now
            (slots_of self.old.connections) (slots_of self.new.connections) u.peer u.ticket) }
        ensures none { IfNone result (NoneIsOverdue wait now (slots_of self.old.connections)) }
        ensures unchanged { IfNone result (self.new ≡ self.old) }
        ensures bounds { bounds_of self.new.connections ≡ bounds_of self.old.connections }
        ensures rest { self.new ≡ record self.old { connections = self.new.connections } }
    {
        if self.reach.is_some() {
            self.connections.drop_overdue(wait, now)
        } else {
            self.connections.overdue(wait, now)
        }
    }

    /// Whether a reply waits for the KDC.
    pub fn has_waiting(&self) -> bool
        ensures value { result ≡ nat_lt 0 (count_in counted.Confirming (slots_of self.now.connections)) }
    {
        self.connections.count(CountedStage::Confirming) > 0
    }

    /// Whether there is something for a worker to take into the table.
    pub fn has_update(&self) -> bool
        ensures value { result ≡ has_update self.now.kdc }
    {
        match &self.kdc {
            None => false,
            Some(kdc) => kdc.has_update(),
        }
    }

    /// Whether keys are on their way to the KDC.
    pub fn is_behind(&self) -> bool
        ensures value { result ≡ is_behind self.now.kdc }
    {
        match &self.kdc {
            None => false,
            Some(kdc) => kdc.is_behind(),
        }
    }
}

/// Whether this worker is the clerk, who takes what the KDC says into the table.
pub(crate) fn is_clerk(worker: usize) -> bool
    ensures value { result ≡ is_clerk worker }
{
    worker == CLERK
}

// The key is on its way. When its reply may go. If memory runs out for it, table and KDC are compared anew.
fn want(kdc: &mut KdcDialog, change: PrincipalKey, is_needed: bool, now: u64) -> Release
    ensures left { LeavesKey is_needed now change kdc.old kdc.new result }
{
    let PrincipalKey { name, key } = change;
    let wanted = match name.clone() {
        Ok(copy) => kdc.want(copy, key, now),
        Err(_) => Err(HoldFault::Memory),
    };
    match wanted {
        Ok(ticket) if is_needed || kdc.is_connected() => Release::After(ticket),
        Ok(_) => Release::Now,
        Err(_) => {
            let _ = kdc.hold(name, key);
            kdc.want_lost();
            release_of_lost(is_needed)
        }
    }
}

// When the reply to a change may go whose key was lost.
fn release_of_lost(is_needed: bool) -> Release
    ensures value { result ≡ release_of_lost is_needed }
{
    if is_needed {
        Release::Never
    } else {
        Release::Now
    }
}

// The table has this as the name's newest key, or doesn't hold it. If memory runs out for that, they are compared anew.
fn tell(kdc: &mut KdcDialog, name: Name, newest: Option<KeyRow>)
    ensures told { IsToldTo name newest kdc.old kdc.new }
{
    match newest {
        None => kdc.hold_none(&name),
        Some(key) => {
            if kdc.hold(name, key).is_err() {
                kdc.want_lost();
            }
        }
    }
}

// The table has no room for the name, which is told. If memory runs out for that, they are compared anew, and it comes again.
fn tell_full(kdc: &mut KdcDialog, name: Name)
    ensures told { IsToldFull name kdc.old kdc.new }
{
    kdc.hold_none(&name);
    if kdc.tell_full(name).is_err() {
        kdc.want_comparison();
    }
}
