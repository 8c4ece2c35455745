//! The limits of a configuration.
ghost use Rattle.std.specs.Prelude.{Bool, ◌≡◌};
ghost use Rattle.std.specs.List.{list_all};
ghost use Rattle.chpw_rules.specs.Limits.{is_in, key_length as key_length_of};

/// A range of numbers, both ends included.
#[derive(Clone, Copy, Drop)]
pub struct Limits {
    pub low: usize,
    pub high: usize,
}

/// The length of a realm in bytes.
pub const REALM_LENGTHS: Limits = Limits { low: 1, high: 255 };
/// How many events the history may have.
pub const ENTRY_COUNTS: Limits = Limits {
    low: 1,
    high: 1_048_576,
};
/// Key version numbers (UInt32 of RFC 4120 section 5.2.4, from 1).
pub const KVNOS: Limits = Limits {
    low: 1,
    high: 4_294_967_295,
};
/// Iteration counts of PBKDF2 in string-to-key (RFC 3962 section 4).
pub const ITERATION_COUNTS: Limits = Limits {
    low: 1,
    high: 16_777_216,
};
/// The least length in bytes that a policy may ask of a password.
pub const MIN_LENGTHS: Limits = Limits { low: 0, high: 1024 };
/// The least number of character classes that a policy may ask of a password.
pub const MIN_CLASS_COUNTS: Limits = Limits { low: 0, high: 5 };
/// How many of a principal's newest keys a policy may compare a new password with.
pub const DEPTHS: Limits = Limits { low: 0, high: 16 };
/// Encryption types 17 and 18 (RFC 3962 section 7).
pub const ETYPES: Limits = Limits { low: 17, high: 18 };

pub const SERVICE_KEY_COUNTS: Limits = Limits { low: 1, high: 16 };

pub const KEY_COUNTS: Limits = Limits { low: 1, high: 16 };

pub const RULE_COUNTS: Limits = Limits {
    low: 0,
    high: 10_000,
};

pub const PRINCIPAL_COUNTS: Limits = Limits {
    low: 0,
    high: 10_000,
};

pub const COMPONENT_COUNTS: Limits = Limits { low: 1, high: 8 };
/// The length of a name's component in bytes.
pub const COMPONENT_LENGTHS: Limits = Limits { low: 1, high: 128 };
/// How many patterns a list of `[kdc]` has.
pub const PATTERN_COUNTS: Limits = Limits { low: 0, high: 64 };
/// The length of a pattern in bytes.
pub const PATTERN_LENGTHS: Limits = Limits { low: 1, high: 255 };
/// The length in bytes of a key of encryption type 17 (RFC 3962 section 7).
pub const AES128_LENGTH: usize = 16;
/// The length in bytes of a key of encryption type 18.
pub const AES256_LENGTH: usize = 32;

impl Limits {
    ghost use Rattle.chpw_rules.specs.Limits.{is_in};

    /// Whether the number is within these limits.
    pub fn allow(self, number: usize) -> bool
        ensures value { result ≡ is_in self number }
    {
        self.low <= number && number <= self.high
    }
}

/// The length in bytes of a key of encryption type 17 or 18 (RFC 3962 section 7).
pub fn key_length(etype: usize) -> usize
    ensures value { result ≡ key_length_of etype }
{
    if etype == ETYPES.low {
        AES128_LENGTH
    } else {
        AES256_LENGTH
    }
}

/// A value that has limits.
pub trait Limited {
    ghost fits: { Self → Bool };

    /// Whether the value is within its limits.
    fn fits(&self) -> bool
        ensures { result ≡ fits self.now };
}

/// Whether each value is within its limits.
pub fn all_fit<T: Limited>(list: &[T]) -> bool
    ensures value { result ≡ list_all T.fits list.now }
{
    list.iter().all(|item| item.fits())
}
