//! How a run of the program ends.
ghost use Rattle.std.specs.Prelude.{◌≡◌, ◌≤◌, OnOk};
ghost use Rattle.std.specs.Io.KnownBytes.{Appends};
ghost use Rattle.chpw_endings.specs.Endings.{has_line, line_of, status_of, told_of};

use chpw_commands::DrillFault;
use chpw_import::KeysFault;
use chpw_start::ServeFault;
use std::fmt;
use std::io::{self, Write};

/// How a run ends.
#[derive(Drop)]
pub enum Ending<'a> {
    /// The command did its work, and found no fault.
    Good,
    /// The configuration in this file has a fault, in these words.
    Faulty { file: &'a str, words: String },
    /// The command ended early.
    Early(DrillFault),
    /// This file can't be read.
    Unread(&'a str),
    /// The service ended early, or a file that `client` reads has a fault.
    Unserved(ServeFault<'a>),
    /// The keys could not be imported or made.
    Unbrought(KeysFault<'a>),
    /// This file, or standard input, has no password.
    EmptyPassword(&'a str),
    /// There is more than one line where the password should be.
    ManyLines(&'a str),
    /// A name, a password or the clock with which no request can be made, or a file that a command for a running
    /// service can't name.
    BadArgument,
    /// There is no service at the port.
    Unconnected,
    /// No reply came that can be read.
    Unanswered,
    /// None came within 30 seconds.
    TimedOut,
    /// The service answered with another code than 0; or without `ok` at the end.
    Refused,
    /// The command line asks for no command, or for help.
    Misused,
    /// A word of the command line isn't UTF-8.
    NotText,
}

impl Ending<'_> {
    /// The exit status: 0; 1 after a fault; 2 if the command line asks for no command or isn't UTF-8, or `client` for
    /// no request.
    pub fn status(&self) -> u8
        ensures value { result ≡ status_of self.now }
        ensures few { result ≤ 2 }
    {
        match self {
            Ending::Good => 0,
            Ending::Faulty { .. } | Ending::Early(_) | Ending::Unread(_) | Ending::Unserved(_) => 1,
            Ending::Unbrought(_) | Ending::EmptyPassword(_) | Ending::ManyLines(_) => 1,
            Ending::Unconnected | Ending::Unanswered | Ending::TimedOut | Ending::Refused => 1,
            Ending::BadArgument | Ending::Misused | Ending::NotText => 2,
        }
    }

    /// Whether there is a line on standard error.
    pub fn is_told(&self) -> bool
        ensures value { result ≡ has_line self.now }
    {
        !matches!(self, Ending::Good | Ending::Refused | Ending::Misused)
    }
}

/// Writes the line of an ending that has one.
pub fn tell<W: Write>(errors: &mut W, ending: &Ending<'_>) -> io::Result<()>
    ensures told { OnOk result (Appends (W.contents errors.old) (W.contents errors.new) (told_of ending.now)) }
{
    if ending.is_told() {
        writeln!(errors, "{ending}")
    } else {
        Ok(())
    }
}

impl fmt::Display for Ending<'_> {
    ghost use Rattle.std.specs.Prelude.{Some};

    ghost output = { λ ending. Some (line_of ending) };

    fn fmt<W: fmt::Write>(&self, f: &mut fmt::Formatter<W>) -> fmt::Result {
        match self {
            Ending::Good | Ending::Refused | Ending::Misused => Ok(()),
            Ending::Faulty { file, words } => write!(f, "{file}: {}", words.as_str()),
            Ending::Early(fault) => write!(f, "{fault}"),
            Ending::Unread(file) => write!(f, "cannot read {file}"),
            Ending::Unserved(fault) => write!(f, "{fault}"),
            Ending::Unbrought(fault) => write!(f, "{fault}"),
            Ending::EmptyPassword(file) => write!(f, "{file}: the password is empty"),
            Ending::ManyLines(file) => write!(f, "{file}: more than one line"),
            Ending::BadArgument => f.write_str("bad argument"),
            Ending::Unconnected => f.write_str("cannot connect"),
            Ending::Unanswered => f.write_str("connection ended"),
            Ending::TimedOut => f.write_str("no answer within 30 seconds"),
            Ending::NotText => f.write_str("a word of the command line is not UTF-8"),
        }
    }
}
