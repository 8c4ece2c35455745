//! Why no command is carried out.
ghost use Rattle.std.specs.Prelude.{◌≡◌};
ghost use Rattle.chpw_control.specs.Faults.{fault_text};

use std::alloc::AllocError;

/// Why a connection gave no command.
#[derive(Clone, Copy, Drop)]
pub enum ControlFault {
    /// The line is none of the commands.
    UnknownCommand,
    /// The line is `compact` without a file.
    NoFile,
    /// The file's name isn't UTF-8, or has a NUL in it.
    BadFileName,
    /// More than 4,200 bytes came, and no newline among them.
    LineTooLong,
    /// The other side ended before its newline.
    NoWholeLine,
    /// The time for the line is up.
    Late,
    /// A growth was refused.
    Memory,
}

impl ControlFault {
    /// The words that are printed for it.
    pub fn text(self) -> &'static str
        ensures value { result.now ≡ fault_text self }
    {
        match self {
            ControlFault::UnknownCommand => "unknown command",
            ControlFault::NoFile => "compact wants a file",
            ControlFault::BadFileName => "bad file name",
            ControlFault::LineTooLong => "line too long",
            ControlFault::NoWholeLine => "no whole line",
            ControlFault::Late => "no command within a second",
            ControlFault::Memory => "memory",
        }
    }
}

impl From<AllocError> for ControlFault {
    ghost use Rattle.std.specs.Prelude.{◌≡◌};
    ghost use Rattle.chpw_control.specs.declared.fault.ControlFault.TheVariants.{Memory};

    ghost from_gives = { λ _ error. error ≡ Memory };

    fn from(_error: AllocError) -> ControlFault {
        ControlFault::Memory
    }
}
