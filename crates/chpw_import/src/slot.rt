//! Which key of a configuration an entry offers.

use chpw_rules::Name;
use krb_keys::Key;
use std::cmp::Reverse;

/// Which key: of a name, a version and an encryption type. They are ordered by name, then the newest version first,
/// then etype 18 first.
#[derive(PartialEq, Eq, PartialOrd, Ord, Drop)]
pub(crate) struct Slot {
    pub name: Name,
    pub kvno: Reverse<u32>,
    pub etype: Reverse<i16>,
}

/// A key that an entry offers.
#[derive(Clone, Copy, Drop)]
pub(crate) struct Found {
    /// The entry's place in the file, from 0.
    pub index: usize,
    /// When the key was added, in seconds since 1970-01-01T00:00:00Z.
    pub timestamp: u32,
    pub key: Key,
}
