//! Why no keys are written.
use crate::kdc::ListFault;
use chpw_config::ConfigFault;
use krb_keytab::KeytabFault;
use std::fmt;

/// Why no keys are written; displayed as the line on standard error.
#[derive(Clone, Copy, Drop)]
pub enum KeysFault<'a> {
    /// The name isn't one that a configuration can have.
    BadName,
    /// This file can't be read.
    CannotRead(&'a str),
    /// The keytab in this file has this fault.
    Keytab(&'a str, KeytabFault),
    /// This file holds no password.
    EmptyPassword(&'a str),
    /// There is no agent at this socket.
    Unconnected(&'a str),
    /// The connection to the agent at this socket failed.
    Unanswered(&'a str),
    /// What the agent at this socket answered has this fault.
    Kdc(&'a str, ListFault),
    /// The table `kdc` of this file has this fault.
    Patterns(&'a str, ConfigFault),
    /// No principal is imported of the agent's at this socket.
    NoPrincipal(&'a str),
    /// No key is imported of the keytab in this file.
    NoKey(&'a str),
    /// A line couldn't be printed.
    CannotPrint,
    /// A growth was refused.
    Memory,
}

impl fmt::Display for KeysFault<'_> {
    ghost use Rattle.std.specs.Prelude.{Some};
    ghost use Rattle.chpw_import.specs.Faults.{line_of};

    ghost output = { λ fault. Some (line_of fault) };

    fn fmt<W: fmt::Write>(&self, f: &mut fmt::Formatter<W>) -> fmt::Result {
        match self {
            KeysFault::BadName => f.write_str("bad argument"),
            KeysFault::CannotRead(file) => write!(f, "cannot read {file}"),
            KeysFault::Keytab(file, fault) => write!(f, "{file}: {}", KeytabWords(*fault)),
            KeysFault::EmptyPassword(file) => write!(f, "{file}: the password is empty"),
            KeysFault::Unconnected(socket) => write!(f, "cannot connect to {socket}"),
            KeysFault::Unanswered(socket) => write!(f, "{socket}: the connection failed"),
            KeysFault::Kdc(socket, fault) => write!(f, "{socket}: {fault}"),
            KeysFault::Patterns(file, fault) => write!(f, "{file}: {fault}"),
            KeysFault::NoPrincipal(socket) => write!(f, "{socket}: no principal is imported"),
            KeysFault::NoKey(file) => write!(f, "{file}: no key is imported"),
            KeysFault::CannotPrint => f.write_str("cannot write"),
            KeysFault::Memory => f.write_str("memory"),
        }
    }
}

/// A keytab's fault, in words.
#[derive(Drop)]
struct KeytabWords(KeytabFault);

impl fmt::Display for KeytabWords {
    ghost use Rattle.std.specs.Prelude.{Some};
    ghost use Rattle.chpw_import.specs.Faults.{keytab_text};

    ghost output = { λ words. Some (keytab_text words.0) };

    fn fmt<W: fmt::Write>(&self, f: &mut fmt::Formatter<W>) -> fmt::Result {
        match self.0 {
            KeytabFault::NotKeytab => f.write_str("not a keytab of format 0x0502"),
            KeytabFault::CutOff { place } => write!(f, "the record at {place} is cut off"),
            KeytabFault::BadLength { place } => write!(f, "the length at {place} is -2147483648"),
            KeytabFault::BadEntry { place } => {
                write!(f, "a field of the record at {place} extends past its end")
            }
        }
    }
}
