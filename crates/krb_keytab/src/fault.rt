//! Why no keytab is read.

use std::alloc::{AllocError, AllocFailed};

/// What is wrong with a keytab, the first from the left (MIT Kerberos, keytab file format 0x0502). A record's faults
/// are checked in this order. `place` is the offset in the file, in bytes from 0, of the four bytes of its length.
#[derive(Clone, Copy, Drop)]
pub enum KeytabFault {
    /// The file doesn't begin with the bytes 05 02.
    NotKeytab,
    /// The file ends within the record: within its length, or before the end of its bytes.
    CutOff { place: usize },
    /// The record's length is -2^31.
    BadLength { place: usize },
    /// The record's entry has a field that ends after the record.
    BadEntry { place: usize },
}

/// Why no keytab is read.
#[derive(Clone, Copy, Drop)]
pub enum KeytabError {
    /// The file's first fault.
    Fault(KeytabFault),
    /// A growth was refused.
    Memory,
}

impl From<KeytabFault> for KeytabError {
    ghost use Rattle.std.specs.Prelude.{◌≡◌};
    ghost use Rattle.krb_keytab.specs.declared.fault.KeytabError.TheVariants.{Fault};

    ghost from_gives = { λ fault error. error ≡ Fault fault };

    fn from(fault: KeytabFault) -> KeytabError {
        KeytabError::Fault(fault)
    }
}

impl<T: Drop> From<AllocFailed<T>> for KeytabError {
    ghost use Rattle.std.specs.Prelude.{◌≡◌};
    ghost use Rattle.krb_keytab.specs.declared.fault.KeytabError.TheVariants.{Memory};

    ghost from_gives = { λ _ error. error ≡ Memory };

    fn from(_error: AllocFailed<T>) -> KeytabError {
        KeytabError::Memory
    }
}

/// Why no field of an entry is read.
#[derive(Clone, Copy, Drop)]
pub(crate) enum FieldError {
    /// It ends after the record.
    PastEnd,
    /// A growth was refused.
    Memory,
}

impl From<AllocError> for FieldError {
    ghost use Rattle.std.specs.Prelude.{◌≡◌};
    ghost use Rattle.krb_keytab.specs.declared.fault.FieldError.TheVariants.{Memory};

    ghost from_gives = { λ _ error. error ≡ Memory };

    fn from(_error: AllocError) -> FieldError {
        FieldError::Memory
    }
}

impl<T: Drop> From<AllocFailed<T>> for FieldError {
    ghost use Rattle.std.specs.Prelude.{◌≡◌};
    ghost use Rattle.krb_keytab.specs.declared.fault.FieldError.TheVariants.{Memory};

    ghost from_gives = { λ _ error. error ≡ Memory };

    fn from(_error: AllocFailed<T>) -> FieldError {
        FieldError::Memory
    }
}
