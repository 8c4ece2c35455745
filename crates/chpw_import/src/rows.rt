//! The rows of a configuration for the keys of a table.
ghost use Rattle.std.specs.Prelude.{◌≡◌, IfOk, IfErr, map};
ghost use Rattle.std.specs.List.Sorted.{IsStrictlySortedBy};
ghost use Rattle.std.specs.BTreeMap.{IsOrdered, get};
ghost use Rattle.chpw_rules.specs.Names.{name_cmp};
ghost use Rattle.chpw_import.specs.Tables.{slot_cmp};
ghost use Rattle.chpw_import.specs.Rows.{first_principals, first_service_rows, is_service, key_for, keys_from, pair_for, pair_of, row_for, service_row};

use crate::slot::{Found, Slot};
use crate::table::Table;
use chpw_rules::{
    ETYPES, Items, KEY_COUNTS, KeyBytes, Name, PRINCIPAL_COUNTS, PrincipalRow, SERVICE_KEY_COUNTS,
    ServiceRow,
};
use krb_keys::Key;
use std::alloc::{AllocError, Global};
use std::cmp::Reverse;
use std::collections::BTreeMap;

/// The principals with keys, in the order of their names; at most 10,000.
pub(crate) fn principals_of(
    alloc: Global,
    table: &Table,
    iterations: u32,
) -> Result<Vec<PrincipalRow>, AllocError>
    ensures value { IfOk result (λ rows. rows.items
        ≡ first_principals (get slot_cmp table.now.found) iterations table.now.newest.entries) }
    ensures sorted { IfOk result (λ rows.
        IsStrictlySortedBy name_cmp (map (λ row. row.name) rows.items)) }
    ensures ordered { IfOk result (λ _. IsOrdered name_cmp table.now.newest) }
{
    let count = table.newest.len();
    let mut rows = Vec::with_capacity(alloc, count.min(PRINCIPAL_COUNTS.high))?;
    for (name, newest) in &table.newest {
        if rows.len() >= PRINCIPAL_COUNTS.high {
            return Ok(rows);
        }
        if let Some(row) = row_of(alloc, &table.found, name, *newest, iterations)? {
            rows.push(row)?;
        }
    }
    Ok(rows)
}

// The principal of this name, if it has keys.
fn row_of(
    alloc: Global,
    found: &BTreeMap<Slot, Found>,
    name: &Name,
    newest: u32,
    iterations: u32,
) -> Result<Option<PrincipalRow>, AllocError>
    ensures value { IfOk result (λ row.
        row ≡ row_for (get slot_cmp found.now) iterations (name.now, newest)) }
{
    if is_service(name) {
        return Ok(None);
    }
    let keys = keys_of(alloc, found, name, newest, iterations)?;
    if keys.is_empty() {
        return Ok(None);
    }
    Ok(Some(PrincipalRow {
        name: name.clone()?,
        keys: Items::of(keys),
    }))
}

// The keys of the name's newest version and of each one below it, as long as both are present.
#[tactic(auto, using(crate::proofs::RowLemmas::no_more, crate::proofs::RowLemmas::stopped, crate::proofs::RowLemmas::one_key))]
fn keys_of(
    alloc: Global,
    found: &BTreeMap<Slot, Found>,
    name: &Name,
    newest: u32,
    iterations: u32,
) -> Result<Vec<KeyBytes>, AllocError>
    ensures value { IfOk result (λ keys.
        keys.items ≡ keys_from (pair_for (get slot_cmp found.now) iterations name.now) 16 newest) }
{
    let mut keys = Vec::new(alloc);
    let mut kvno = newest;
    while keys.len() < KEY_COUNTS.high && kvno > 0 {
        let Some(pair) = pair_at(alloc, found, name, kvno, iterations)? else {
            return Ok(keys);
        };
        keys.push(pair)?;
        kvno -= 1;
    }
    Ok(keys)
}

/// Both keys of a version, if both are present.
pub(crate) fn pair_at(
    alloc: Global,
    found: &BTreeMap<Slot, Found>,
    name: &Name,
    kvno: u32,
    iterations: u32,
) -> Result<Option<KeyBytes>, AllocError>
    ensures value { IfOk result (λ pair.
        pair ≡ pair_for (get slot_cmp found.now) iterations name.now kvno) }
{
    let aes128 = key_at(found, name.clone()?, kvno, 17);
    let aes256 = key_at(found, name.clone()?, kvno, 18);
    Ok(both(kvno, iterations, aes128, aes256))
}

// The key of a slot.
fn key_at(found: &BTreeMap<Slot, Found>, name: Name, kvno: u32, etype: i16) -> Option<Key>
    ensures value { result ≡ key_for (get slot_cmp found.now) name kvno etype }
{
    let slot = Slot {
        name,
        kvno: Reverse(kvno),
        etype: Reverse(etype),
    };
    match found.get(&slot) {
        Some(found) => Some(found.key),
        None => None,
    }
}

// Both keys, if both are present.
fn both(kvno: u32, iterations: u32, aes128: Option<Key>, aes256: Option<Key>) -> Option<KeyBytes>
    ensures value { result ≡ pair_of kvno iterations aes128 aes256 }
{
    match (aes128, aes256) {
        (Some(Key::Aes128(aes128)), Some(Key::Aes256(aes256))) => Some(KeyBytes {
            kvno,
            iterations,
            aes128,
            aes256,
        }),
        _ => None,
    }
}

/// The keys of the service, newest first and of one version etype 18 first; at most 16.
pub(crate) fn service_of(
    alloc: Global,
    found: &BTreeMap<Slot, Found>,
) -> Result<Vec<ServiceRow>, AllocError>
    ensures value { IfOk result (λ rows. rows.items ≡ first_service_rows found.now.entries) }
    ensures ordered { IfOk result (λ _. IsOrdered slot_cmp found.now) }
{
    let count = found.len();
    let mut rows = Vec::with_capacity(alloc, count.min(SERVICE_KEY_COUNTS.high))?;
    for (slot, key) in found {
        if rows.len() >= SERVICE_KEY_COUNTS.high {
            return Ok(rows);
        }
        if let Some(row) = service_row(alloc, slot, key)? {
            rows.push(row)?;
        }
    }
    Ok(rows)
}

// The row of a key, if it is the service's.
fn service_row(alloc: Global, slot: &Slot, found: &Found) -> Result<Option<ServiceRow>, AllocError>
    ensures value { IfOk result (λ row. row ≡ service_row (slot.now, found.now)) }
{
    if !is_service(&slot.name) {
        return Ok(None);
    }
    let key = Items::of(Vec::from_slice(alloc, found.key.bytes())?);
    Ok(Some(ServiceRow {
        kvno: slot.kvno.0,
        etype: i32::from(slot.etype.0),
        key,
    }))
}

/// Whether it is kadmin/changepw (RFC 3244 section 2).
pub(crate) fn is_service(name: &Name) -> bool
    ensures value { result ≡ is_service name.now }
{
    match name.parts.as_slice() {
        [first, second] => first.as_slice() == b"kadmin".as_slice()
            && second.as_slice() == b"changepw".as_slice(),
        _ => false,
    }
}
