//! What is wrong with a configuration.
ghost use Rattle.std.specs.Prelude.{◌≡◌};

use std::alloc::{AllocError, AllocFailed};
use std::fmt;
use thiserror::Error;

/// What is wrong. For one key, `MissingKey`, `WrongKind`, `BadHex` and `OutOfRange` are checked in this order. A kind
/// is displayed as its code, `C1` to `C6`.
#[derive(Clone, Copy, Drop, Debug)]
pub enum ConfigFaultKind {
    /// The file isn't TOML.
    NotToml,
    /// A key is missing.
    MissingKey,
    /// A value isn't of the kind that its key takes.
    WrongKind,
    /// A value is outside its limits.
    OutOfRange,
    /// A key's text isn't hexadecimal digits, two for each byte.
    BadHex,
    /// An earlier service key has the same encryption type and version number, or an earlier
    /// principal the same name.
    Duplicate,
}

/// A part of the file. A part is displayed as its word, such as `servicekey`.
#[derive(Clone, Copy, Drop, Debug)]
pub enum Part {
    /// The file as a whole.
    File,
    /// The table `service`.
    Service,
    /// The list `service.key`, and each key in it.
    ServiceKey,
    /// The table `policy`.
    Policy,
    /// The list `rule`, and each rule in it.
    Rule,
    /// The list `principal`, and each principal in it.
    Principal,
    /// A principal's list `key`, and each key in it.
    PrincipalKey,
    /// The table `kdc`.
    Kdc,
    /// The list `kdc.include`, and each pattern in it.
    KdcInclude,
    /// The list `kdc.exclude`, and each pattern in it.
    KdcExclude,
}

/// The first fault of a configuration, displayed as `C4 policy 0`.
#[derive(Clone, Copy, Debug, Drop, Error)]
pub struct ConfigFault {
    pub kind: ConfigFaultKind,
    pub part: Part,
    /// The place in the part's list, from 0. For a principal's key it is the principal's.
    pub index: usize,
}

impl ConfigFaultKind {
    ghost use Rattle.chpw_config.specs.Faults.{kind_text};

    /// The letter and number that the program prints.
    pub fn code(self) -> &'static str
        ensures value { result.now ≡ kind_text self }
    {
        match self {
            ConfigFaultKind::NotToml => "C1",
            ConfigFaultKind::MissingKey => "C2",
            ConfigFaultKind::WrongKind => "C3",
            ConfigFaultKind::OutOfRange => "C4",
            ConfigFaultKind::BadHex => "C5",
            ConfigFaultKind::Duplicate => "C6",
        }
    }
}

impl Part {
    ghost use Rattle.chpw_config.specs.Faults.{part_text};

    /// The word that the program prints.
    pub fn word(self) -> &'static str
        ensures value { result.now ≡ part_text self }
    {
        match self {
            Part::File => "file",
            Part::Service => "service",
            Part::ServiceKey => "servicekey",
            Part::Policy => "policy",
            Part::Rule => "rule",
            Part::Principal => "principal",
            Part::PrincipalKey => "principalkey",
            Part::Kdc => "kdc",
            Part::KdcInclude => "kdcinclude",
            Part::KdcExclude => "kdcexclude",
        }
    }
}

impl ConfigFault {
    ghost use Rattle.chpw_config.specs.Faults.{no_toml};

    /// The fault of a file that isn't TOML, or isn't UTF-8.
    pub fn not_toml() -> ConfigFault
        ensures value { result ≡ no_toml }
    {
        Location::of(Part::File, 0).fault(ConfigFaultKind::NotToml)
    }
}

impl fmt::Display for ConfigFaultKind {
    ghost use Rattle.std.specs.Prelude.{Some};
    ghost use Rattle.chpw_config.specs.Faults.{kind_text};

    ghost output = { λ kind. Some (kind_text kind) };

    fn fmt<W: fmt::Write>(&self, f: &mut fmt::Formatter<W>) -> fmt::Result {
        f.write_str(self.code())
    }
}

impl fmt::Display for Part {
    ghost use Rattle.std.specs.Prelude.{Some};
    ghost use Rattle.chpw_config.specs.Faults.{part_text};

    ghost output = { λ part. Some (part_text part) };

    fn fmt<W: fmt::Write>(&self, f: &mut fmt::Formatter<W>) -> fmt::Result {
        f.write_str(self.word())
    }
}

impl fmt::Display for ConfigFault {
    ghost use Rattle.std.specs.Prelude.{Some};
    ghost use Rattle.chpw_config.specs.Faults.{fault_text};

    ghost output = { λ fault. Some (fault_text fault) };

    fn fmt<W: fmt::Write>(&self, f: &mut fmt::Formatter<W>) -> fmt::Result {
        write!(f, "{} {} {}", self.kind, self.part, self.index)
    }
}

/// The part and index at which a fault is found, and at which the keys of a table are read (`keys`).
#[derive(Clone, Copy, Drop)]
pub struct Location {
    pub part: Part,
    pub index: usize,
}

impl Location {
    ghost use Rattle.chpw_config.specs.Faults.{fault_at, location};

    /// The element of this index, from 0, in the part's list.
    pub fn of(part: Part, index: usize) -> Location
        ensures value { result ≡ location part index }
    {
        Location { part, index }
    }

    /// The fault of this kind, found here.
    pub fn fault(self, kind: ConfigFaultKind) -> ConfigFault
        ensures value { result ≡ fault_at self kind }
    {
        ConfigFault {
            kind,
            part: self.part,
            index: self.index,
        }
    }
}

/// Why no configuration is read.
#[derive(Clone, Copy, Debug, Drop, Error)]
pub enum ConfigError {
    /// The file's first fault.
    #[error(transparent)]
    Fault(ConfigFault),
    /// A growth was refused.
    #[error("memory")]
    Memory,
}

impl From<ConfigFault> for ConfigError {
    ghost use Rattle.chpw_config.specs.declared.fault.ConfigError.TheVariants.{Fault};

    ghost from_gives = { λ fault error. error ≡ Fault fault };

    fn from(fault: ConfigFault) -> ConfigError {
        ConfigError::Fault(fault)
    }
}

impl From<AllocError> for ConfigError {
    ghost use Rattle.chpw_config.specs.declared.fault.ConfigError.TheVariants.{Memory};

    ghost from_gives = { λ _ error. error ≡ Memory };

    fn from(_error: AllocError) -> ConfigError {
        ConfigError::Memory
    }
}

impl<T: Drop> From<AllocFailed<T>> for ConfigError {
    ghost use Rattle.chpw_config.specs.declared.fault.ConfigError.TheVariants.{Memory};

    ghost from_gives = { λ _ error. error ≡ Memory };

    fn from(_error: AllocFailed<T>) -> ConfigError {
        ConfigError::Memory
    }
}
