//! A caller at the control socket, from its accept to its end.
ghost use Rattle.std.specs.Prelude.{◌≡◌};
ghost use Rattle.chpw_control.specs.Callers.{error_line, bytes_of, refused_with};

use crate::command::Command;
use crate::dialog::Dialog;
use crate::fault::ControlFault;
use std::alloc::Global;
use std::marker::Model;
use std::mem;

/// The stage of a caller.
#[derive(Drop)]
pub(crate) enum Phase {
    /// Its line is being read.
    Asking(Dialog),
    /// Its command waits to be carried out.
    Waiting(Command),
    /// Its command is being carried out.
    Served,
    /// Its answer is being written.
    Answered(Answer),
    /// It is gone, and its command is carried out all the same.
    Deserted,
    /// It is finished.
    Over,
}

/// An answer, and how many of its bytes are out.
#[derive(Drop)]
pub(crate) struct Answer {
    pub text: Text,
    pub written: usize,
}

/// The text of an answer.
#[derive(Drop)]
pub(crate) enum Text {
    /// The reason why there is no command.
    Fault(ControlFault),
    /// What the command gave.
    Given(Vec<u8>),
}

impl Text {
    fn bytes(&self) -> &[u8]
        ensures value { result.now ≡ bytes_of self.now }
    {
        match self {
            Text::Fault(fault) => error_line(*fault).as_bytes(),
            Text::Given(answer) => answer,
        }
    }
}

// The line for a fault.
fn error_line(fault: ControlFault) -> &'static str
    ensures value { result.now ≡ error_line fault }
{
    match fault {
        ControlFault::UnknownCommand => "error: unknown command\n",
        ControlFault::NoFile => "error: compact wants a file\n",
        ControlFault::BadFileName => "error: bad file name\n",
        ControlFault::LineTooLong => "error: line too long\n",
        ControlFault::NoWholeLine => "error: no whole line\n",
        ControlFault::Late => "error: no command within a second\n",
        ControlFault::Memory => "error: memory\n",
    }
}

/// A caller at the control socket. Contracts see its stage.
#[derive(Drop)]
pub struct Caller {
    phase: Phase,
}

impl Model for Caller {
    ghost use Rattle.chpw_control.specs.Callers.{Stage, stage_of};

    ghost Value = { Stage };

    ghost view = { λ c. stage_of c.phase };
}

impl Caller {
    ghost use Rattle.std.specs.Prelude.{◌≡◌};
    ghost use Rattle.std.specs.Prelude.{is_some};
    ghost use Rattle.chpw_control.specs.Dialogs.{at_start};
    ghost use Rattle.chpw_control.specs.Seats.{is_asking, waiting_by};
    ghost use Rattle.chpw_control.specs.Callers.{asking, after, closed, expired, taken, told, wrote, failed, left_of, waiting_in, over, Hears, is_over};

    /// A caller that was accepted at this moment.
    pub fn new(alloc: Global) -> Caller
        ensures value { result ≡ asking at_start }
    {
        Caller {
            phase: Phase::Asking(Dialog::new(alloc)),
        }
    }

    /// Bytes of its line came.
    pub fn hear(&mut self, alloc: Global, bytes: &[u8])
        ensures heard { Hears self.old self.new bytes.now }
    {
        match mem::replace(&mut self.phase, Phase::Over) {
            Phase::Asking(mut dialog) => {
                self.phase = match dialog.hear(alloc, bytes) {
                    None => Phase::Asking(dialog),
                    Some(Ok(command)) => Phase::Waiting(command),
                    Some(Err(fault)) => phase_after_fault(fault),
                };
            }
            other => self.phase = other,
        }
    }

    /// It will send no more.
    pub fn close(&mut self)
        ensures value { self.new ≡ after self.old closed }
    {
        if let Phase::Asking(dialog) = &mut self.phase {
            if let Some(fault) = dialog.end() {
                self.phase = phase_after_fault(fault);
            }
        }
    }

    /// The time for its line is up.
    pub fn expire(&mut self)
        ensures value { self.new ≡ after self.old expired }
    {
        if let Phase::Asking(dialog) = &mut self.phase {
            if let Some(fault) = dialog.expire() {
                self.phase = phase_after_fault(fault);
            }
        }
    }

    /// Whether its line is still being read.
    pub fn is_asking(&self) -> bool
        ensures value { result ≡ is_asking self.now }
    {
        matches!(self.phase, Phase::Asking(_))
    }

    /// Whether its command waits to be carried out, an order or a question.
    pub fn waits(&self, order: bool) -> bool
        ensures value { result ≡ is_some (waiting_by order self.now) }
    {
        match &self.phase {
            Phase::Waiting(command) => command.is_order() == order,
            _ => false,
        }
    }

    /// Its command, which is being carried out from now on.
    pub fn take(&mut self) -> Option<Command>
        ensures command { result ≡ waiting_in self.old }
        ensures value { self.new ≡ after self.old taken }
    {
        match mem::replace(&mut self.phase, Phase::Served) {
            Phase::Waiting(command) => Some(command),
            other => {
                self.phase = other;
                None
            }
        }
    }

    /// The answer to its command is to be written.
    pub fn answer(&mut self, answer: Vec<u8>)
        ensures value { self.new ≡ after self.old (told answer.items) }
    {
        match self.phase {
            Phase::Served => {
                self.phase = Phase::Answered(Answer {
                    text: Text::Given(answer),
                    written: 0,
                });
            }
            Phase::Deserted => self.phase = Phase::Over,
            _ => {}
        }
    }

    /// What is left to write of its answer.
    pub fn pending_output(&self) -> &[u8]
        ensures value { result.now ≡ left_of self.now }
    {
        match &self.phase {
            Phase::Answered(answer) => answer.text.bytes().get(answer.written..).unwrap_or(&[]),
            _ => &[],
        }
    }

    /// `count` bytes of its answer were written.
    pub fn wrote(&mut self, count: usize)
        ensures value { self.new ≡ after self.old (wrote count) }
    {
        if let Phase::Answered(answer) = &mut self.phase {
            answer.written = answer.written.saturating_add(count);
            if answer.written >= answer.text.bytes().len() {
                self.phase = Phase::Over;
            }
        }
    }

    /// It can't go on. A command that is being carried out is carried out all the same.
    pub fn fail(&mut self)
        ensures value { self.new ≡ after self.old failed }
    {
        self.phase = match self.phase {
            Phase::Served | Phase::Deserted => Phase::Deserted,
            _ => Phase::Over,
        };
    }

    /// Whether it is finished.
    pub fn is_over(&self) -> bool
        ensures value { result ≡ is_over self.now }
    {
        matches!(self.phase, Phase::Over)
    }
}

// It gets the reason why there is no command.
fn phase_after_fault(fault: ControlFault) -> Phase
    ensures value { result ≡ refused_with fault }
{
    Phase::Answered(Answer {
        text: Text::Fault(fault),
        written: 0,
    })
}
