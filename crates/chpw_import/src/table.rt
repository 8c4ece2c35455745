//! The keys that the entries of a keytab offer, by their slots.
ghost use Rattle.std.specs.Prelude.{◌≡◌, IfOk, OnOk, []};
ghost use Rattle.std.specs.List.{AllByRecursion};
ghost use Rattle.std.specs.Option.{option_copied};
ghost use Rattle.chpw_import.specs.Tables.{HasKvno, Holds, Puts, Raises, Takes, is_older, newest_at, slot_in};

use crate::entries::{named_in, usable_key};
use crate::slot::{Found, Slot};
use chpw_rules::Name;
use krb_keytab::KeytabEntry;
use std::alloc::{AllocError, Global};
use std::cmp::Reverse;
use std::collections::BTreeMap;

/// What the entries have of a realm.
#[derive(Drop)]
pub(crate) struct Table {
    /// The latest usable key of each slot.
    pub found: BTreeMap<Slot, Found>,
    /// The newest version of each name, its keys usable or not.
    pub newest: BTreeMap<Name, u32>,
}

/// The table of these entries.
pub(crate) fn table_of(
    alloc: Global,
    realm: &[u8],
    entries: &[KeytabEntry],
) -> Result<Table, AllocError>
    ensures value { IfOk result (Holds realm.now entries.now) }
    ensures kvnos { IfOk result (λ _. AllByRecursion HasKvno entries.now) }
{
    let mut table = Table::new(alloc);
    let mut rest = entries;
    while let [entry, others @ ..] = rest {
        let index = entries.len() - rest.len();
        table.take(alloc, realm, index, entry)?;
        rest = others;
    }
    Ok(table)
}

impl Table {
    fn new(alloc: Global) -> Table
        ensures value { Holds [] [] result }
    {
        Table {
            found: BTreeMap::new(alloc),
            newest: BTreeMap::new(alloc),
        }
    }

    // Takes the index-th entry, the next.
    fn take(
        &mut self,
        alloc: Global,
        realm: &[u8],
        index: usize,
        entry: &KeytabEntry,
    ) -> Result<(), AllocError>
        ensures step { OnOk result (Takes realm.now index entry.now self.old self.new) }
        ensures kvno { OnOk result (HasKvno entry.now) }
    {
        let kvno = entry.kvno;
        let Ok(name) = named_in(alloc, realm, entry)? else {
            return Ok(());
        };
        raise(&mut self.newest, name.clone()?, kvno)?;
        if let Ok(key) = usable_key(entry) {
            let timestamp = entry.timestamp;
            let next = Found {
                index,
                timestamp,
                key,
            };
            put(&mut self.found, slot_of(name, entry), next)?;
        }
        Ok(())
    }
}

// Sets a slot's key, unless it has a later one.
fn put(found: &mut BTreeMap<Slot, Found>, slot: Slot, next: Found) -> Result<(), AllocError>
    ensures step { OnOk result (Puts slot next found.old found.new) }
{
    if is_older(found.get(&slot), &next) {
        return Ok(());
    }
    found.insert(slot, next)?;
    Ok(())
}

// Whether the key was added before the one that is held.
fn is_older(held: Option<&Found>, next: &Found) -> bool
    ensures value { result ≡ is_older (option_copied held.entry) next.now }
{
    match held {
        Some(held) => next.timestamp < held.timestamp,
        None => false,
    }
}

// Raises the newest version of a name to this one.
fn raise(newest: &mut BTreeMap<Name, u32>, name: Name, kvno: u32) -> Result<(), AllocError>
    ensures step { OnOk result (Raises name kvno newest.old newest.new) }
{
    if newest_version(newest, &name) < kvno {
        newest.insert(name, kvno)?;
    }
    Ok(())
}

/// The newest version of a name; 0 if there is none.
pub(crate) fn newest_version(newest: &BTreeMap<Name, u32>, name: &Name) -> u32
    ensures value { result ≡ newest_at newest.now name.now }
{
    match newest.get(name) {
        Some(kvno) => *kvno,
        None => 0,
    }
}

/// The slot that the entry, of this name, has a key of.
pub(crate) fn slot_of(name: Name, entry: &KeytabEntry) -> Slot
    ensures value { result ≡ slot_in name entry.now }
{
    Slot {
        name,
        kvno: Reverse(entry.kvno),
        etype: Reverse(entry.etype),
    }
}
