//! Why the service ends early.

use crate::shared_files::Exposed;
use chpw_config::ConfigFault;
use chpw_journal::RestoreFault;
use std::fmt;

/// Why the service ends early, in the order in which its files and its port are tried; displayed as the line on
/// standard error.
#[derive(Clone, Copy, Drop)]
pub enum ServeFault<'a> {
    /// This file can't be read: the configuration, the seed, or an existing journal.
    CannotRead(&'a str),
    /// The configuration has this fault.
    Config(ConfigFault),
    /// Others may read, write or replace this file, with strict modes: the configuration, the seed, the log or the
    /// journal.
    Exposed(Exposed<'a>),
    /// The journal's file can't be made, or its torn tail can't be cut off.
    CannotWrite(&'a str),
    /// A journal is to be made here, and something is there already.
    Present(&'a str),
    /// The journal has this fault.
    Journal(RestoreFault),
    /// The service can't listen at the port, or a connection couldn't be accepted.
    CannotListen,
    /// The service can't listen at the control socket.
    CannotListenAt(&'a str),
    /// A line couldn't be printed.
    CannotPrint,
    /// A growth was refused, or a thread couldn't be started.
    Memory,
    /// The workers' receipts differ from the history.
    CannotClose,
}

impl fmt::Display for ServeFault<'_> {
    ghost use Rattle.std.specs.Prelude.{Some};
    ghost use Rattle.chpw_start.specs.Faults.{line_of};

    ghost output = { λ fault. Some (line_of fault) };

    fn fmt<W: fmt::Write>(&self, f: &mut fmt::Formatter<W>) -> fmt::Result {
        match self {
            ServeFault::CannotRead(file) => write!(f, "cannot read {file}"),
            ServeFault::Config(fault) => write!(f, "config: {fault}"),
            ServeFault::Exposed(exposed) => {
                write!(f, "{}: not started, since {}", exposed.file, exposed.why)
            }
            ServeFault::CannotWrite(file) => write!(f, "cannot write {file}"),
            ServeFault::Present(file) => write!(f, "{file}: not made, since it is there already"),
            ServeFault::Journal(fault) => write!(f, "journal: {fault}"),
            ServeFault::CannotListen => f.write_str("cannot listen"),
            ServeFault::CannotListenAt(socket) => write!(f, "cannot listen at {socket}"),
            ServeFault::CannotPrint => f.write_str("cannot write"),
            ServeFault::Memory => f.write_str("memory"),
            ServeFault::CannotClose => f.write_str("cannot close"),
        }
    }
}
