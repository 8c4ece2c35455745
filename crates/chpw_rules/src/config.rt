//! The configuration.
use crate::items::Items;
use crate::limits::{AES128_LENGTH, AES256_LENGTH};
use crate::name::Name;
use crate::policy::Policy;
use crate::rules::Rules;

/// A key of the service, under which tickets are sealed.
#[derive(Drop)]
pub struct ServiceRow {
    /// 1 to 4294967295.
    pub kvno: u32,
    /// 17 or 18 (RFC 3962 section 7).
    pub etype: i32,
    /// 16 bytes for etype 17, 32 for etype 18.
    pub key: Items<u8>,
}

/// One password's keys of both encryption types.
#[derive(Clone, Copy, Drop)]
pub struct KeyBytes {
    /// 1 to 4294967295.
    pub kvno: u32,
    /// The iteration count that the keys were derived under, 1 to 16,777,216.
    pub iterations: u32,
    /// The key of etype 17.
    pub aes128: [u8; AES128_LENGTH],
    /// The key of etype 18.
    pub aes256: [u8; AES256_LENGTH],
}

/// A principal as a configuration's file has it.
#[derive(Drop)]
pub struct PrincipalRow {
    pub name: Name,
    /// Newest first, 1 to 16, each version number less than the one before it.
    pub keys: Items<KeyBytes>,
}

/// What the service is started with. `Config::fits` says whether all of it is within the limits.
#[derive(Drop)]
pub struct Config {
    /// 1 to 255 bytes.
    pub realm: Items<u8>,
    /// The most events of a history, 1 to 1,048,576.
    pub max_entries: u32,
    /// At most 16, no encryption type twice with one version number.
    pub service: Items<ServiceRow>,
    pub policy: Policy,
    /// At most 10,000.
    pub rules: Rules,
    /// At most 10,000, no name twice.
    pub principals: Items<PrincipalRow>,
}
