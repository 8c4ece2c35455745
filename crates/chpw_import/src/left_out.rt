//! Which entries of a keytab are skipped.
ghost use Rattle.std.specs.Prelude.{◌≡◌, Bool, IfOk, map};
ghost use Rattle.std.specs.BTreeMap.{get};
ghost use Rattle.std.specs.List.{list_any};
ghost use Rattle.std.specs.List.Sorted.{IsStrictlySortedBy};
ghost use Rattle.chpw_rules.specs.Names.{name_cmp};
ghost use Rattle.chpw_import.specs.Tables.{newest_at, slot_cmp};
ghost use Rattle.chpw_import.specs.LeftOut.{has_version, is_found, is_key_of, told_from, unused, unused_of_service, usable, used_keys, why_left};

use crate::entries::{named_in, usable_key};
use crate::left::{Reason, SkippedEntry};
use crate::rows::{is_service, pair_at};
use crate::slot::{Found, Slot};
use crate::table::{Table, newest_version, slot_of};
use chpw_rules::{KeyBytes, Name, PrincipalRow, ServiceRow};
use krb_keytab::KeytabEntry;
use std::alloc::{AllocError, Global};
use std::collections::BTreeMap;

/// What is used of a keytab: its table, and the rows that it gives, the principals in the order of their names.
#[derive(Drop)]
pub(crate) struct UsableKeys<'a> {
    pub table: &'a Table,
    pub service: &'a [ServiceRow],
    pub principals: &'a [PrincipalRow],
}

/// The skipped entries, in the order of the file.
pub(crate) fn left_of(
    alloc: Global,
    realm: &[u8],
    entries: &[KeytabEntry],
    used: &UsableKeys<'_>,
) -> Result<Vec<SkippedEntry>, AllocError>
    requires sorted { IsStrictlySortedBy name_cmp (map (λ row. row.name) used.now.principals.now) }
    ensures value { IfOk result (λ left. left.items ≡ told_from
        (why_left realm.now (get slot_cmp used.now.table.now.found) (newest_at used.now.table.now.newest)
        used.now.service.now used.now.principals.now) 0 entries.now) }
{
    let mut left = Vec::new(alloc);
    let mut rest = entries;
    while let [entry, others @ ..] = rest {
        let index = entries.len() - rest.len();
        if let Some(why) = why_left(alloc, realm, used, index, entry)? {
            left.push(SkippedEntry { index, why })?;
        }
        rest = others;
    }
    Ok(left)
}

// Why the index-th entry is skipped, if it is.
fn why_left(
    alloc: Global,
    realm: &[u8],
    used: &UsableKeys<'_>,
    index: usize,
    entry: &KeytabEntry,
) -> Result<Option<Reason>, AllocError>
    requires sorted { IsStrictlySortedBy name_cmp (map (λ row. row.name) used.now.principals.now) }
    ensures value { IfOk result (λ why. why ≡
        why_left realm.now (get slot_cmp used.now.table.now.found) (newest_at used.now.table.now.newest)
        used.now.service.now used.now.principals.now index entry.now) }
{
    let name = match named_in(alloc, realm, entry)? {
        Ok(name) => name,
        Err(why) => return Ok(Some(why)),
    };
    match usable_key(entry) {
        Ok(_) => why_unused(alloc, used, index, entry, &name),
        Err(why) => Ok(Some(why)),
    }
}

// Why an entry with this name, whose key can be used, is skipped, if it is.
fn why_unused(
    alloc: Global,
    used: &UsableKeys<'_>,
    index: usize,
    entry: &KeytabEntry,
    name: &Name,
) -> Result<Option<Reason>, AllocError>
    requires sorted { IsStrictlySortedBy name_cmp (map (λ row. row.name) used.now.principals.now) }
    ensures value { IfOk result (λ why. why ≡
        usable (get slot_cmp used.now.table.now.found) (newest_at used.now.table.now.newest)
        used.now.service.now used.now.principals.now index entry.now name.now) }
{
    if !is_found(&used.table.found, &slot_of(name.clone()?, entry), index) {
        return Ok(Some(Reason::Repeated));
    }
    if is_service(name) {
        return Ok(unused_of_service(entry, used.service));
    }
    let is_pair = pair_at(alloc, &used.table.found, name, entry.kvno, 1)?.is_some();
    let newest = newest_version(&used.table.newest, name);
    let keys = used_keys(used.principals, name);
    Ok(why_key_unused(entry.kvno, newest, keys, is_pair))
}

// Whether the slot has the key of the index-th entry.
fn is_found(found: &BTreeMap<Slot, Found>, slot: &Slot, index: usize) -> bool
    ensures value { result ≡ is_found index (get slot_cmp found.now slot.now) }
{
    match found.get(slot) {
        Some(found) => found.index == index,
        None => false,
    }
}

// Why a key of the service isn't used, if it isn't.
fn unused_of_service(entry: &KeytabEntry, service: &[ServiceRow]) -> Option<Reason>
    ensures value { result ≡ unused_of_service entry.now service.now }
{
    let mut others = service;
    while let [row, rest @ ..] = others {
        if row.kvno == entry.kvno && row.etype == i32::from(entry.etype) {
            return None;
        }
        others = rest;
    }
    Some(Reason::TooManyKeys)
}

// The keys of a name that are used.
fn used_keys<'a>(principals: &'a [PrincipalRow], name: &Name) -> &'a [KeyBytes]
    requires sorted { IsStrictlySortedBy name_cmp (map (λ row. row.name) principals.now) }
    ensures value { result.now ≡ used_keys name.now principals.now }
{
    match principals.binary_search_by(|row| row.name.cmp(name)) {
        Ok(place) => principals[place].keys.as_slice(),
        Err(_) => &[],
    }
}

// Why a principal's key isn't used, if it isn't.
fn why_key_unused(kvno: u32, newest: u32, keys: &[KeyBytes], is_pair: bool) -> Option<Reason>
    ensures value { result ≡ unused kvno newest keys.now is_pair }
{
    if has_version(kvno, keys) {
        None
    } else if u64::from(kvno) + keys.len() as u64 != u64::from(newest) {
        Some(Reason::BehindGap)
    } else if !is_pair {
        Some(Reason::Unpaired)
    } else if keys.is_empty() {
        Some(Reason::TooManyPrincipals)
    } else {
        Some(Reason::TooManyKeys)
    }
}

// Whether one of the keys is of this version.
fn has_version(kvno: u32, keys: &[KeyBytes]) -> bool
    ensures value { result ≡ has_version kvno keys.now }
{
    let mut others = keys;
    while let [key, rest @ ..] = others {
        if key.kvno == kvno {
            return true;
        }
        others = rest;
    }
    false
}
