//! A connection's bytes, heard until their first newline.
ghost use Rattle.std.specs.Prelude.{◌≡◌, ◌++◌, true, Some, None, OnSome, IfNone};
ghost use Rattle.std.specs.Option.{option_map};
ghost use Rattle.chpw_control.specs.declared.fault.ControlFault.TheVariants.{NoWholeLine, Late};
ghost use Rattle.chpw_control.specs.Dialogs.{State, at_start, after_bytes, told_by, told_at_end, goes_on, is_held};
ghost use Rattle.chpw_control.specs.Commands.{command_of};
ghost use Rattle.chpw_control.specs.Faults.{ToldUnlessMemory, UnlessMemory};

use crate::command::Command;
use crate::fault::ControlFault;
use crate::piece::{Piece, piece_of};
use std::alloc::Global;
use std::marker::Model;

/// What has come of a connection's one line.
#[derive(Drop)]
pub struct Dialog {
    heard: Option<Vec<u8>>,
}

impl Model for Dialog {
    ghost use Rattle.std.specs.Prelude.{◌≡◌, true};
    ghost use Rattle.std.specs.Option.{option_map};
    ghost use Rattle.chpw_control.specs.Dialogs.{State, is_held};

    ghost Value = { State };

    ghost view = { λ d. option_map (λ v. v.items) d.heard };

    ghost invariant = { λ d. is_held (option_map (λ v. v.items) d.heard) ≡ true };
}

impl Dialog {
    /// Nothing has come.
    pub fn new(alloc: Global) -> Dialog
        ensures value { result ≡ at_start }
    {
        Dialog {
            heard: Some(Vec::new(alloc)),
        }
    }

    /// Bytes came. The command of the line that is complete with them, or the reason why there is none, which is given
    /// once. Nothing while the line goes on, and nothing afterwards: no more is heard then.
    pub fn hear(&mut self, alloc: Global, bytes: &[u8]) -> Option<Result<Command, ControlFault>>
        ensures value { ToldUnlessMemory result (told_by self.old bytes.now) }
        ensures behind { IfNone result (self.new ≡ after_bytes self.old bytes.now) }
        ensures over { OnSome result (self.new ≡ None) }
        ensures once { self.old ≡ None → result ≡ None }
    {
        let heard = self.heard.take()?;
        match piece_of(heard.len(), bytes) {
            Piece::Line(line) => Some(whole(alloc, heard, line)),
            Piece::More => self.go_on(heard, bytes),
            Piece::TooLong => Some(Err(ControlFault::LineTooLong)),
        }
    }

    // More of the line came.
    fn go_on(&mut self, mut heard: Vec<u8>, bytes: &[u8]) -> Option<Result<Command, ControlFault>>
        requires none { self.old ≡ None }
        requires on { goes_on (heard.items ++ bytes.now) ≡ true }
        ensures value { ToldUnlessMemory result None }
        ensures behind { IfNone result (self.new ≡ Some (heard.items ++ bytes.now)) }
        ensures over { OnSome result (self.new ≡ None) }
    {
        if heard.extend_from_slice(bytes).is_err() {
            return Some(Err(ControlFault::Memory));
        }
        self.heard = Some(heard);
        None
    }

    /// The other side will send no more. The fault, if its line wasn't complete.
    pub fn end(&mut self) -> Option<ControlFault>
        ensures value { result ≡ told_at_end self.old NoWholeLine }
        ensures over { self.new ≡ None }
    {
        self.heard.take()?;
        Some(ControlFault::NoWholeLine)
    }

    /// The other side's time for its line is up. The fault, if the line wasn't complete.
    pub fn expire(&mut self) -> Option<ControlFault>
        ensures value { result ≡ told_at_end self.old Late }
        ensures over { self.new ≡ None }
    {
        self.heard.take()?;
        Some(ControlFault::Late)
    }
}

// The command of a line of which `heard` and then `rest` came.
fn whole(alloc: Global, mut heard: Vec<u8>, rest: &[u8]) -> Result<Command, ControlFault>
    ensures value { UnlessMemory result (command_of (heard.items ++ rest.now)) }
{
    heard.extend_from_slice(rest)?;
    Command::of(alloc, heard.as_slice())
}
