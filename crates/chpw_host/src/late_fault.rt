//! Why the service ends once its files are read.
ghost use Rattle.std.specs.Prelude.{◌≡◌};
ghost use Rattle.chpw_start.specs.Faults.{IsLate};
ghost use Rattle.chpw_host.specs.Faults.{late_fault};

use chpw_start::ServeFault;

/// Why the service ends once its files are read.
#[derive(Clone, Copy, Drop)]
pub enum LateFault {
    CannotListen,
    CannotPrint,
    Memory,
    CannotClose,
}

impl LateFault {
    /// A fault that comes once the files are read.
    pub fn of(fault: ServeFault<'_>) -> LateFault
        requires late { IsLate fault }
        ensures value { late_fault result ≡ fault.entry }
    {
        match fault {
            ServeFault::CannotListen => LateFault::CannotListen,
            ServeFault::CannotPrint => LateFault::CannotPrint,
            ServeFault::Memory => LateFault::Memory,
            ServeFault::CannotClose => LateFault::CannotClose,
            _ => unreachable!(),
        }
    }

    /// The fault as one of the service's.
    pub fn fault<'a>(self) -> ServeFault<'a>
        ensures value { result ≡ late_fault self }
        ensures late { IsLate result }
    {
        match self {
            LateFault::CannotListen => ServeFault::CannotListen,
            LateFault::CannotPrint => ServeFault::CannotPrint,
            LateFault::Memory => ServeFault::Memory,
            LateFault::CannotClose => ServeFault::CannotClose,
        }
    }
}
