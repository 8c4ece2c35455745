//! The keys of the configuration's tables: what each holds, its fault, and what it must be in words.
use crate::fault::{ConfigError, ConfigFault, ConfigFaultKind, Location, Part};
use crate::reading::DEFAULT_ENTRIES;
use chpw_rules::{
    AES128_LENGTH, AES256_LENGTH, COMPONENT_COUNTS, COMPONENT_LENGTHS, DEPTHS, ENTRY_COUNTS,
    ETYPES, ITERATION_COUNTS, KVNOS, Limits, MIN_CLASS_COUNTS, MIN_LENGTHS, REALM_LENGTHS,
    key_length,
};
use std::alloc::{AllocError, Global};
use toml::Table;

/// A key of a table, and what it holds.
pub type Key = (&'static str, Holds);

#[derive(Clone, Copy, Drop)]
pub enum Holds {
    Number(Limits),
    // A number that may be left out.
    Entries,
    Flag,
    Text(Limits),
    Name,
    // A name, or `*`.
    Target,
    // This many bytes, in hexadecimal.
    Bytes(usize),
    // The bytes of a key of the table's encryption type.
    AesKey,
}

pub const SERVICE: [Key; 2] = [
    ("realm", Holds::Text(REALM_LENGTHS)),
    ("max_entries", Holds::Entries),
];

pub const SERVICE_KEY: [Key; 3] = [
    ("kvno", Holds::Number(KVNOS)),
    ("etype", Holds::Number(ETYPES)),
    ("key", Holds::AesKey),
];

pub const POLICY: [Key; 5] = [
    ("min_length", Holds::Number(MIN_LENGTHS)),
    ("min_classes", Holds::Number(MIN_CLASS_COUNTS)),
    ("depth", Holds::Number(DEPTHS)),
    ("iterations", Holds::Number(ITERATION_COUNTS)),
    ("set_needs_initial", Holds::Flag),
];

pub const RULE: [Key; 2] = [("actor", Holds::Name), ("target", Holds::Target)];

pub const PRINCIPAL: [Key; 1] = [("name", Holds::Name)];

pub const PRINCIPAL_KVNO: [Key; 1] = [("kvno", Holds::Number(KVNOS))];

pub const PRINCIPAL_KEY: [Key; 3] = [
    ("iterations", Holds::Number(ITERATION_COUNTS)),
    ("aes128", Holds::Bytes(AES128_LENGTH)),
    ("aes256", Holds::Bytes(AES256_LENGTH)),
];

/// The first of these keys that has a fault, and its kind.
pub fn first_fault(
    alloc: Global,
    table: &Table,
    keys: &[Key],
) -> Result<Option<(Key, ConfigFaultKind)>, AllocError> {
    for key in keys {
        if let Some(kind) = fault_of(alloc, table, *key)? {
            return Ok(Some((*key, kind)));
        }
    }
    Ok(None)
}

// The length that a key of the table's encryption type has.
fn aes_key_length(table: &Table) -> usize {
    match Location::of(Part::ServiceKey, 0).number(table, "etype", ETYPES) {
        Ok(etype) => key_length(etype),
        Err(_) => AES256_LENGTH,
    }
}

// The fault of a key, as the configuration's reader finds it.
fn fault_of(alloc: Global, table: &Table, key: Key) -> Result<Option<ConfigFaultKind>, AllocError> {
    let at = Location::of(Part::File, 0);
    let (name, holds) = key;
    match holds {
        Holds::Number(limits) => Ok(kind_of(at.number(table, name, limits))),
        Holds::Entries => Ok(kind_of(at.number_or(table, name, ENTRY_COUNTS, DEFAULT_ENTRIES))),
        Holds::Flag => Ok(kind_of(at.flag(table, name))),
        Holds::Text(lengths) => Ok(kind_of(at.text(table, name, lengths))),
        Holds::Name => kind_unless_memory(at.name(alloc, table, name)),
        Holds::Target => kind_unless_memory(at.target(alloc, table, name)),
        Holds::Bytes(size) => kind_unless_memory(at.hex_key(alloc, table, name, size)),
        Holds::AesKey => {
            kind_unless_memory(at.hex_key(alloc, table, name, aes_key_length(table)))
        }
    }
}

// The kind of the fault, if there is one.
fn kind_of<T: Drop>(read: Result<T, ConfigFault>) -> Option<ConfigFaultKind> {
    match read {
        Ok(_) => None,
        Err(fault) => Some(fault.kind),
    }
}

// The kind of the fault, if there is one and memory sufficed.
fn kind_unless_memory<T: Drop>(
    read: Result<T, ConfigError>,
) -> Result<Option<ConfigFaultKind>, AllocError> {
    match read {
        Ok(_) => Ok(None),
        Err(ConfigError::Fault(fault)) => Ok(Some(fault.kind)),
        Err(ConfigError::Memory) => Err(AllocError),
    }
}

/// What is wrong with a key, and what it must be.
pub fn put_fault(
    words: &mut String,
    table: &Table,
    key: Key,
    kind: ConfigFaultKind,
) -> Result<(), AllocError> {
    let (name, holds) = key;
    words.push_str(name)?;
    match kind {
        ConfigFaultKind::MissingKey => words.push_str(" is missing"),
        ConfigFaultKind::WrongKind => {
            words.push_str(" must be ")?;
            words.push_str(kind_text(holds))
        }
        ConfigFaultKind::BadHex => {
            words.push_str(" must be hexadecimal digits, two for each byte")
        }
        _ => {
            words.push_str(" must be ")?;
            put_limits(words, table, holds)
        }
    }
}

/// The kind of value that a key holds.
pub fn kind_text(holds: Holds) -> &'static str {
    match holds {
        Holds::Number(_) | Holds::Entries => "a whole number",
        Holds::Flag => "true or false",
        _ => "text in quotes",
    }
}

// The limits of a key's value.
fn put_limits(words: &mut String, table: &Table, holds: Holds) -> Result<(), AllocError> {
    match holds {
        Holds::Number(limits) => put_range(words, limits),
        Holds::Entries => put_range(words, ENTRY_COUNTS),
        Holds::Text(lengths) => put_length(words, lengths),
        Holds::Name => put_name(words),
        Holds::Target => {
            put_name(words)?;
            words.push_str(", or *")
        }
        Holds::Bytes(size) => put_digits(words, size),
        Holds::AesKey => put_digits(words, aes_key_length(table)),
        Holds::Flag => words.push_str("true or false"),
    }
}

/// A range of exactly two numbers, or of more.
pub fn put_range(words: &mut String, limits: Limits) -> Result<(), AllocError> {
    let Limits { low, high } = limits;
    if high.checked_sub(low) == Some(1) {
        write!(words, "{low} or {high}")
    } else {
        write!(words, "{low} to {high}")
    }
}

/// The length of a text.
pub fn put_length(words: &mut String, lengths: Limits) -> Result<(), AllocError> {
    put_range(words, lengths)?;
    words.push_str(" bytes long")
}

// What a name must be.
fn put_name(words: &mut String) -> Result<(), AllocError> {
    put_range(words, COMPONENT_COUNTS)?;
    words.push_str(" components of ")?;
    put_range(words, COMPONENT_LENGTHS)?;
    words.push_str(" bytes with / between them")
}

// This many bytes in hexadecimal.
fn put_digits(words: &mut String, size: usize) -> Result<(), AllocError> {
    let digits = size.saturating_mul(2);
    write!(words, "{digits} hexadecimal digits")
}
