//! Commands.
ghost use Rattle.std.specs.Prelude.{◌≡◌, is_some, not, IfNone, IfSome};
ghost use Rattle.chpw_control.specs.Commands.{command_of, compact_of, file_of, longer_of, named, takes_file, whole_of, with_file, word_of};
ghost use Rattle.chpw_control.specs.Faults.{UnlessMemory};
ghost use Rattle.chpw_control.specs.Seats.{is_order};

use crate::fault::ControlFault;
use crate::file_name::{FileName, text_of};
use std::alloc::Global;

/// A command for a running service. `F` is the name of its file: one that a file can have, as the service takes it; a text, as a
/// user gives it; or nothing, where only the command's word is known.
#[derive(Clone, Copy, Drop)]
pub enum Command<F = FileName> {
    /// To report its state.
    Status,
    /// To reload its configuration.
    Reload,
    /// To reopen its log.
    ReopenLog,
    /// To stop.
    Stop,
    /// To write a compact journal, and the present configuration to this file.
    Compact(F),
}

impl<F> Command<F> {
    /// The word that names it.
    pub fn word(&self) -> &'static str
        ensures value { result.now ≡ word_of self.now }
    {
        match self {
            Command::Status => "status",
            Command::Reload => "reload",
            Command::ReopenLog => "reopen-log",
            Command::Stop => "stop",
            Command::Compact(_) => "compact",
        }
    }

    /// Whether it takes a file.
    pub fn takes_file(&self) -> bool
        ensures value { result ≡ takes_file self.now }
    {
        matches!(self, Command::Compact(_))
    }
}

impl<F: Copy> Command<F> {
    /// The file that it takes.
    pub fn file(&self) -> Option<F>
        ensures value { result ≡ file_of self.now }
    {
        match self {
            Command::Compact(file) => Some(*file),
            _ => None,
        }
    }
}

impl Command<()> {
    /// The command that a word names.
    pub fn named(word: &[u8]) -> Option<Command<()>>
        ensures value { result ≡ named word.now }
        ensures word { IfSome result (λ command. word_of command ≡ word.now) }
    {
        if word == b"status".as_slice() {
            Some(Command::Status)
        } else if word == b"reload".as_slice() {
            Some(Command::Reload)
        } else if word == b"reopen-log".as_slice() {
            Some(Command::ReopenLog)
        } else if word == b"stop".as_slice() {
            Some(Command::Stop)
        } else if word == b"compact".as_slice() {
            Some(Command::Compact(()))
        } else {
            None
        }
    }

    /// The command with this file; none if it takes a file and there is none, or takes none and there is one.
    pub fn with_file<F: Drop>(self, file: Option<F>) -> Option<Command<F>>
        ensures value { result ≡ with_file self file }
        ensures word { IfSome result (λ command. word_of command ≡ word_of self) }
        ensures file { IfSome result (λ command. file_of command ≡ file) }
        ensures none { IfNone result (takes_file self ≡ not (is_some file)) }
    {
        match (self, file) {
            (Command::Status, None) => Some(Command::Status),
            (Command::Reload, None) => Some(Command::Reload),
            (Command::ReopenLog, None) => Some(Command::ReopenLog),
            (Command::Stop, None) => Some(Command::Stop),
            (Command::Compact(()), Some(file)) => Some(Command::Compact(file)),
            _ => None,
        }
    }
}

impl Command<FileName> {
    /// Whether it is an order: carried out beside the thread that has the sockets, one at a time.
    pub fn is_order(&self) -> bool
        ensures value { result ≡ is_order self.now }
    {
        match self {
            Command::Status | Command::Stop => false,
            Command::Reload | Command::ReopenLog | Command::Compact(_) => true,
        }
    }

    /// The command of a line, which is given without its newline. Refused as `UnknownCommand`, `NoFile`, `BadFileName`
    /// or `Memory`.
    pub fn of(alloc: Global, line: &[u8]) -> Result<Command, ControlFault>
        ensures value { UnlessMemory result (command_of line.now) }
    {
        match Command::<()>::named(line) {
            Some(command) => whole(command.with_file(None)),
            None => longer(alloc, line),
        }
    }
}

// The command of a line that is a word.
fn whole(command: Option<Command>) -> Result<Command, ControlFault>
    ensures value { result ≡ whole_of command }
{
    match command {
        Some(command) => Ok(command),
        None => Err(ControlFault::NoFile),
    }
}

// The command of a line that is more than a word.
fn longer(alloc: Global, line: &[u8]) -> Result<Command, ControlFault>
    ensures value { UnlessMemory result (longer_of line.now) }
{
    match line.strip_prefix(b"compact ") {
        Some(name) => compact(alloc, name),
        None => Err(ControlFault::UnknownCommand),
    }
}

// `compact` with these bytes as its file.
fn compact(alloc: Global, name: &[u8]) -> Result<Command, ControlFault>
    ensures value { UnlessMemory result (compact_of name.now) }
{
    if name.is_empty() {
        return Err(ControlFault::NoFile);
    }
    let Some(text) = text_of(name) else {
        return Err(ControlFault::BadFileName);
    };
    Ok(Command::Compact(FileName::of(alloc, text)?))
}
