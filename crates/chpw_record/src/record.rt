//! The journal's records: their kinds, how they are written and how they are read. Numbers are high byte first.
ghost use Rattle.std.specs.Prelude.{◌≡◌, ◌≢◌, ◌∷◌, ◌+◌, ◌≤◌, ◌<◌, ◌++◌, ℕ, List, IfOk, IsOk, OnOk, MatchOption, true, length, take, drop};
ghost use Rattle.std.specs.Int.{from_be_bytes, to_be_bytes, w32};
ghost use Rattle.std.specs.List.{flat_map};
ghost use Rattle.chpw_rules.specs.declared.name.Name.{Name};
ghost use Rattle.chpw_rules.specs.Limits.{is_in, iteration_counts};
ghost use Rattle.chpw_rules.specs.Names.{is_component, is_name};
ghost use Rattle.chpw_record.specs.RecordKeys.{key_at, key_fits};
ghost use Rattle.chpw_record.specs.Records.{framed, is_record_length as is_length_spec, key_bytes as key_bytes_spec, kind_number};
ghost use Rattle.chpw_record.specs.Records.{key_text, name_bytes, part_bytes, raise_bytes as raise_bytes_spec};
ghost use Rattle.chpw_record.specs.Records.{record_bytes as record_bytes_spec, version_bytes};

use crate::key::KeyRow;
use chpw_rules::{ITERATION_COUNTS, Items, KVNOS, Limits, Name};
use std::alloc::{AllocError, Global};

// The kind of a raised iteration count: a record's first byte after its length.
const RAISE_KIND: u8 = 2;

// The length of a raise, without the two bytes of the length.
const RAISE_LENGTH: usize = 5;

// The lengths of the records of keys: 58 bytes, and 1 to 8 components of 1 to 128 bytes, each after its length.
const KEY_LENGTHS: Limits = Limits {
    low: 60,
    high: 1090,
};

// How many bytes of a key's record are between its length and its name.
const VERSION_LENGTH: usize = 57;

/// A principal and a key of its own.
#[derive(Drop)]
pub struct PrincipalKey {
    pub name: Name,
    pub key: KeyRow,
}

/// What a record says of a principal and a key.
#[derive(Clone, Copy, Drop)]
pub enum KeyKind {
    /// The principal's new key, of an accepted change.
    Change,
    /// The key that a compact journal begins a principal with: it has this key alone then.
    Base,
    /// A key of the KDC's: newer than those held of the principal, or the first of one that wasn't held.
    Adopt,
    /// The principal's newest key, under the version that the KDC gave it.
    Lift,
    /// The newest key of a principal that the KDC has no more: it isn't held any more.
    Remove,
}

/// What was accepted, as the journal keeps it; or what a compact journal keeps of that.
#[derive(Drop)]
pub enum Record {
    /// A principal's key.
    Key(KeyKind, PrincipalKey),
    /// A new iteration count of new keys.
    Raise(u32),
}

impl KeyKind {
    ghost use Rattle.chpw_record.specs.Records.{kind_number, kind_with};

    // A record's first byte after its length.
    fn number(self) -> u8
        ensures value { result ≡ kind_number self }
    {
        match self {
            KeyKind::Change => 1,
            KeyKind::Base => 3,
            KeyKind::Adopt => 4,
            KeyKind::Lift => 5,
            KeyKind::Remove => 6,
        }
    }

    // The kind with this first byte, if it is that of a key.
    fn with_number(number: u8) -> Option<KeyKind>
        ensures value { result ≡ kind_with number }
    {
        match number {
            1 => Some(KeyKind::Change),
            3 => Some(KeyKind::Base),
            4 => Some(KeyKind::Adopt),
            5 => Some(KeyKind::Lift),
            6 => Some(KeyKind::Remove),
            _ => None,
        }
    }
}

/// The record of a change: its length, two bytes, and then the kind 1, kvno and iteration count, four bytes each, the
/// keys of etype 17 and 18, and the name: how many components, and each after its length, one byte. The name has 1 to 8
/// components of 1 to 128 bytes.
pub fn record_bytes(alloc: Global, name: &Name, key: &KeyRow) -> Result<Vec<u8>, AllocError>
    requires name { is_name name.now ≡ true }
    ensures value { IfOk result (λ r. r.items ≡ record_bytes_spec name.now key.now) }
{
    framed_key(alloc, KeyKind::Change.number(), name, key)
}

/// The record of this kind: what the record of a change is, with the kind's number. The name has 1 to 8 components of 1
/// to 128 bytes.
pub fn key_bytes(
    alloc: Global,
    kind: KeyKind,
    name: &Name,
    key: &KeyRow,
) -> Result<Vec<u8>, AllocError>
    requires name { is_name name.now ≡ true }
    ensures value { IfOk result (λ r. r.items ≡ key_bytes_spec kind name.now key.now) }
{
    framed_key(alloc, kind.number(), name, key)
}

/// The record of a raise: its length, which is 5, two bytes, and then the kind 2 and the iteration count, four bytes.
pub fn raise_bytes(count: u32) -> [u8; 7]
    ensures value { result ≡ raise_bytes_spec count }
{
    let number = count.to_be_bytes();
    [0, 5, RAISE_KIND, number[0], number[1], number[2], number[3]]
}

fn framed_key(alloc: Global, kind: u8, name: &Name, key: &KeyRow) -> Result<Vec<u8>, AllocError>
    requires name { is_name name.now ≡ true }
    ensures value { IfOk result (λ r. r.items ≡ framed (key_text kind name.now key.now)) }
{
    let mut text = version_of(alloc, kind, key)?;
    put_name(&mut text, name)?;
    let text = text.as_slice();
    let size = text.len() as u16;
    let mut record = Vec::from_slice(alloc, &size.to_be_bytes())?;
    record.extend_from_slice(text)?;
    Ok(record)
}

// What precedes the name.
fn version_of(alloc: Global, kind: u8, key: &KeyRow) -> Result<Vec<u8>, AllocError>
    ensures value { IfOk result (λ version. version.items ≡ version_bytes kind key.now) }
    ensures length { IfOk result (λ version. length version.items ≡ 57) }
{
    let mut version = Vec::from_slice(alloc, &[kind])?;
    version.extend_from_slice(&key.kvno.to_be_bytes())?;
    version.extend_from_slice(&key.count.to_be_bytes())?;
    version.extend_from_slice(&key.aes128)?;
    version.extend_from_slice(&key.aes256)?;
    Ok(version)
}

fn put_name(bytes: &mut Vec<u8>, name: &Name) -> Result<(), AllocError>
    requires name { is_name name.now ≡ true }
    ensures value { OnOk result (bytes.new.items ≡ bytes.old.items ++ name_bytes name.now) }
{
    let parts = name.parts.as_slice();
    bytes.push(parts.len() as u8)?;
    for part in parts {
        put_part(bytes, part)?;
    }
    Ok(())
}

fn put_part(bytes: &mut Vec<u8>, part: &Items<u8>) -> Result<(), AllocError>
    requires part { is_component part.now ≡ true }
    ensures value { OnOk result (bytes.new.items ≡ bytes.old.items ++ part_bytes part.now) }
{
    let part = part.as_slice();
    bytes.push(part.len() as u8)?;
    bytes.extend_from_slice(part)?;
    Ok(())
}

/// Whether a record may have this length, without the two bytes of the length: 5, or 60 to 1090.
pub fn is_record_length(length: usize) -> bool
    ensures value { result ≡ is_length_spec length }
{
    length == RAISE_LENGTH || KEY_LENGTHS.allow(length)
}

impl Record {
    ghost use Rattle.chpw_record.specs.Records.{RecordFits, body_text};

    /// The record with this text, after its length; none where it is that of no record within the limits. A raise
    /// has 5 bytes, and no key's record has as few.
    pub fn read(alloc: Global, body: &[u8]) -> Result<Option<Record>, AllocError>
        ensures value { IfOk result (λ found. MatchOption found
            ((r : _) → RecordFits r → body.now ≢ body_text r)
            (λ r. RecordFits r × (body.now ≡ body_text r))) }
        ensures small { length body.now < 57 → IsOk result }
    {
        if body.len() == RAISE_LENGTH {
            return Ok(raise_in(body).map(Record::Raise));
        }
        let Some((kind, change)) = PrincipalKey::read(alloc, body)? else {
            return Ok(None);
        };
        Ok(Some(Record::Key(kind, change)))
    }
}

impl PrincipalKey {
    ghost use Rattle.chpw_record.specs.Records.{ChangeFits};

    // The key with this text, from its kind on, and the kind; none where it is that of no key's record within the limits.
    fn read(alloc: Global, body: &[u8]) -> Result<Option<(KeyKind, PrincipalKey)>, AllocError>
        ensures value { IfOk result (λ found. MatchOption found
            ((kind : _) → (c : _) → ChangeFits c → body.now ≢ key_text (kind_number kind) c.name c.key)
            (λ f. ChangeFits f.1 × (body.now ≡ key_text (kind_number f.0) f.1.name f.1.key))) }
        ensures small { length body.now < 57 → IsOk result }
    {
        if body.len() < VERSION_LENGTH {
            return Ok(None);
        }
        let (version, name) = body.split_at(VERSION_LENGTH);
        let Some(kind) = KeyKind::with_number(version[0]) else {
            return Ok(None);
        };
        let key = key_in(version);
        if !fits(&key) {
            return Ok(None);
        }
        match name_in(alloc, name)? {
            Some(name) => Ok(Some((kind, PrincipalKey { name, key }))),
            None => Ok(None),
        }
    }
}

// The count of the raise with these bytes; none where they are those of no raise within the limits.
fn raise_in(body: &[u8]) -> Option<u32>
    requires length { length body.now ≡ 5 }
    ensures value { MatchOption result
        ((count : _) → is_in iteration_counts count ≡ true → body.now ≢ 2 ∷ to_be_bytes w32 count)
        (λ count. (is_in iteration_counts count ≡ true) × (body.now ≡ 2 ∷ to_be_bytes w32 count)) }
{
    let mut number = [0; 4];
    number.copy_from_slice(&body[1..]);
    let count = u32::from_be_bytes(number);
    if body[0] == RAISE_KIND && ITERATION_COUNTS.allow(count as usize) {
        Some(count)
    } else {
        None
    }
}

// The kvno, the iteration count and the keys that follow the kind.
fn key_in(version: &[u8]) -> KeyRow
    requires length { length version.now ≡ 57 }
    ensures value { result ≡ key_at version.now }
{
    let mut aes128 = [0; 16];
    aes128.copy_from_slice(&version[9..25]);
    let mut aes256 = [0; 32];
    aes256.copy_from_slice(&version[25..57]);
    KeyRow {
        kvno: number_at(version, 1),
        count: number_at(version, 5),
        aes128,
        aes256,
    }
}

// The number in the four bytes at a place, high byte first.
fn number_at(bytes: &[u8], place: usize) -> u32
    requires room { place + 4 ≤ length bytes.now }
    ensures value { result ≡ from_be_bytes w32 (take 4 (drop place bytes.now)) }
{
    let mut number = [0; 4];
    number.copy_from_slice(&bytes[place..place + 4]);
    u32::from_be_bytes(number)
}

// Whether kvno and iteration count are within their limits.
fn fits(key: &KeyRow) -> bool
    ensures value { result ≡ key_fits key.now }
{
    KVNOS.allow(key.kvno as usize) && ITERATION_COUNTS.allow(key.count as usize)
}

// The name with these bytes; none where they are the bytes of no name.
fn name_in(alloc: Global, bytes: &[u8]) -> Result<Option<Name>, AllocError>
    ensures value { IfOk result (λ found. MatchOption found
        ((n : Name) → is_name n ≡ true → bytes.now ≢ name_bytes n)
        (λ n. (is_name n ≡ true) × (bytes.now ≡ name_bytes n))) }
{
    let [count, components @ ..] = bytes else {
        return Ok(None);
    };
    let Some(parts) = parts_in(alloc, components)? else {
        return Ok(None);
    };
    let whole = parts.len() == usize::from(*count);
    let name = Name {
        parts: Items::of(parts),
    };
    if whole && name.fits() {
        Ok(Some(name))
    } else {
        Ok(None)
    }
}

// The components that these bytes are, each after its length; none where the last is cut off.
fn parts_in(alloc: Global, bytes: &[u8]) -> Result<Option<Vec<Items<u8>>>, AllocError>
    ensures value { IfOk result (λ found. MatchOption found
        ((parts : List (List ℕ)) → bytes.now ≢ flat_map part_bytes parts)
        (λ parts. bytes.now ≡ flat_map part_bytes parts.items)) }
{
    let mut parts = Vec::new(alloc);
    let mut rest = bytes;
    while let [length, others @ ..] = rest {
        let length = usize::from(*length);
        if others.len() < length {
            return Ok(None);
        }
        let (part, behind) = others.split_at(length);
        parts.push(Items::of(Vec::from_slice(alloc, part)?))?;
        rest = behind;
    }
    Ok(Some(parts))
}
