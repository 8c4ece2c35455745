//! What the agent is asked now.
ghost use Rattle.std.specs.Prelude.{◌≡◌, IfOk, OnOk, OnErr, IfErr, Some, true, false};
ghost use Rattle.std.specs.Option.{option_map};
ghost use Rattle.chpw_kdc.specs.Lines.{list_keys, request_line};
ghost use Rattle.chpw_kdc.specs.Dialogs.{after_ask, after_request, request_by, first_get, first_put, is_late, after_tick};
ghost use Rattle.chpw_kdc.specs.declared.fault.ProtocolFault.TheVariants.{Late};
ghost use Rattle.chpw_kdc.specs.Times.{next_of, next_time};

use crate::dialog::KdcDialog;
use crate::fault::ProtocolFault;
use crate::put::UnderWay;
use crate::request::Request;
use std::alloc::AllocError;

/// What comes next.
#[derive(Clone, Copy, Drop)]
pub(crate) enum Next {
    /// The first put.
    Put,
    /// The first of the names that are asked for alone.
    Get,
    /// The list.
    List,
    /// Nothing.
    Nothing,
}

impl KdcDialog {
    // What comes next, once it may be asked: puts first, then the names that a list lacked, then a list, if one is due
    // and the desk has decided all that the last one brought.
    fn next(&self) -> Next
        ensures value { result ≡ next_of self.now }
    {
        if !self.puts.is_empty() {
            Next::Put
        } else if !self.gets.is_empty() {
            Next::Get
        } else if self.pace.is_due && self.updates.is_empty() && self.deciding == 0 {
            Next::List
        } else {
            Next::Nothing
        }
    }

    /// The line to be sent now, whose request then is under way. None if an answer is awaited, if there is no connection
    /// or nothing to ask, or if the time for it hasn't come. After `AllocError` nothing has changed.
    pub fn ask(&mut self, now: u64) -> Result<Option<Vec<u8>>, AllocError>
        ensures line { IfOk result (λ line.
            option_map (λ l. l.items) line ≡ option_map request_line (request_by now self.old)) }
        ensures step { OnOk result (self.new ≡ after_ask now self.old) }
        ensures unchanged { OnErr result (self.new ≡ self.old) }
    {
        if self.asked.is_some() || !self.pace.may_ask(now) {
            return Ok(None);
        }
        match self.next() {
            Next::Put => self.ask_put(now),
            Next::Get => self.ask_get(now),
            Next::List if self.pace.compare_at <= now => self.ask_list(now),
            Next::List | Next::Nothing => Ok(None),
        }
    }

    // Asks for the first put.
    fn ask_put(&mut self, now: u64) -> Result<Option<Vec<u8>>, AllocError>
        ensures line { IfOk result (λ line.
            option_map (λ l. l.items) line ≡ option_map request_line (first_put self.old)) }
        ensures step { OnOk result (self.new ≡ after_request now (first_put self.old) self.old) }
        ensures unchanged { OnErr result (self.new ≡ self.old) }
    {
        let Some(put) = self.puts.front() else {
            return Ok(None);
        };
        let key = put.key;
        let request = Request::Put {
            name: &put.name,
            key: &key,
        };
        let line = request.line(self.alloc)?;
        self.asked = Some(UnderWay::Put(key));
        self.pace.ask(now);
        Ok(Some(line))
    }

    // Asks for the first of the names that are asked for alone.
    fn ask_get(&mut self, now: u64) -> Result<Option<Vec<u8>>, AllocError>
        ensures line { IfOk result (λ line.
            option_map (λ l. l.items) line ≡ option_map request_line (first_get self.old)) }
        ensures step { OnOk result (self.new ≡ after_request now (first_get self.old) self.old) }
        ensures unchanged { OnErr result (self.new ≡ self.old) }
    {
        let Some(name) = self.gets.front() else {
            return Ok(None);
        };
        let line = Request::Get(name).line(self.alloc)?;
        self.asked = Some(UnderWay::Get);
        self.pace.ask(now);
        Ok(Some(line))
    }

    fn ask_list(&mut self, now: u64) -> Result<Option<Vec<u8>>, AllocError>
        ensures line { IfOk result (λ line.
            option_map (λ l. l.items) line ≡ Some (request_line list_keys)) }
        ensures step { OnOk result (self.new ≡ after_request now (Some list_keys) self.old) }
        ensures unchanged { OnErr result (self.new ≡ self.old) }
    {
        let line = Request::ListKeys.line(self.alloc)?;
        self.asked = Some(UnderWay::List);
        self.pace.begin(now);
        self.pace.ask(now);
        Ok(Some(line))
    }

    /// Time has passed. `Late` if the next line of an answer has been awaited for thirty seconds: the caller closes the
    /// connection, and the state is that after `lose`.
    pub fn tick(&mut self, now: u64) -> Result<(), ProtocolFault>
        ensures late { OnErr result (is_late now self.old ≡ true) }
        ensures on_time { OnOk result (is_late now self.old ≡ false) }
        ensures fault { IfErr result (λ fault. fault ≡ Late) }
        ensures step { self.new ≡ after_tick now self.old }
    {
        if self.asked.is_none() || now < self.pace.late_at {
            return Ok(());
        }
        self.end_at_fault(now);
        Err(ProtocolFault::Late)
    }

    /// When to look again at `is_to_call`, `ask` and `tick`, if nothing happens before.
    pub fn next_time(&self) -> Option<u64>
        ensures value { result ≡ next_time self.now }
    {
        if !self.pace.connected {
            return Some(self.pace.call_at);
        }
        if self.asked.is_some() {
            return Some(self.pace.late_at);
        }
        match self.next() {
            Next::Put | Next::Get => Some(self.pace.ask_at),
            Next::List => Some(self.pace.ask_at.max(self.pace.compare_at)),
            Next::Nothing => None,
        }
    }
}
