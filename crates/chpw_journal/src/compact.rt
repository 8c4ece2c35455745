//! Writing a compact journal.
ghost use Rattle.std.specs.Prelude.{◌≡◌, ◌++◌, ◌∷◌, ◌+◌, ◌==◌, [], IfOk, OnOk, Some, true, filter};
ghost use Rattle.std.specs.List.{flat_map};
ghost use Rattle.chpw_rules.specs.Names.{is_name};
ghost use Rattle.chpw_record.specs.declared.record.KeyKind.TheVariants.{Remove};
ghost use Rattle.chpw_record.specs.declared.record.Record.TheVariants as record_of;
ghost use Rattle.chpw_record.specs.Records.{record_text, records_text};
ghost use Rattle.chpw_table.specs.Decision.{newest_kvno};
ghost use Rattle.chpw_table.specs.Updates.{blank_key};
ghost use Rattle.chpw_journal.specs.Compact.{are_same_keys, compacted, joined_names, key_records, lacks_name, name_records, names_of, records_between};
ghost use Rattle.chpw_journal.specs.Compact.{newer_kind, raise_records, AreWholeRecords, HasOrder};
ghost use Rattle.chpw_journal.specs.Runs.{IsWholeKey};

use crate::known::{know_key, know_order};
use chpw_record::{KeyKind, KeyRow, key_bytes, raise_bytes};
use chpw_rules::Name;
use chpw_table::{Table, blank_key};
use std::alloc::{AllocError, Global};

/// The text of a journal that, restored onto the opening, gives exactly the principals that the held table has, with the same
/// keys, and the held count if that is greater. First comes a raise to it. Then, for each of the opening's principals that is
/// held with other keys, the oldest as a base and each newer one as a change, or as adopted from the KDC if its version isn't
/// the next; and for each that isn't held, its removal. Last, for each one that the opening lacks, the oldest key as an
/// adopted one, and the newer ones likewise. It has nothing for those with the same keys.
///
/// The opening is the table that the configuration opens with. The keys in the text have the lengths of their types, as each
/// key that a table holds; `laws::compact` requires that, and that both tables have their names in order.
pub fn compact_journal(alloc: Global, opening: &Table, held: &Table) -> Result<Vec<u8>, AllocError>
    ensures value { IfOk result (λ text. text.items
        ≡ records_text (compacted opening.now.state held.now.state)) }
    ensures whole { OnOk result (AreWholeRecords (compacted opening.now.state held.now.state)) }
    ensures order { HasOrder opening.now.state × HasOrder held.now.state }
{
    know_order(opening);
    know_order(held);
    let mut text = Vec::new(alloc);
    put_raise(&mut text, opening, held)?;
    put_present(&mut text, opening, held)?;
    put_joined(&mut text, opening, held)?;
    Ok(text)
}

// Adds a raise to the held count, if that is greater than the opening's.
fn put_raise(text: &mut Vec<u8>, opening: &Table, held: &Table) -> Result<(), AllocError>
    ensures value { OnOk result (text.new.items
        ≡ text.old.items ++ records_text (raise_records opening.now.state held.now.state)) }
{
    let count = held.count();
    if opening.count() < count {
        text.extend_from_slice(&raise_bytes(count))?;
    }
    Ok(())
}

// Adds the records that the opening's principals need.
fn put_present(text: &mut Vec<u8>, opening: &Table, held: &Table) -> Result<(), AllocError>
    ensures value { OnOk result (text.new.items ≡ text.old.items ++ records_text
        (flat_map (name_records opening.now.state held.now.state) (names_of opening.now.state))) }
    ensures whole { OnOk result (AreWholeRecords
        (flat_map (name_records opening.now.state held.now.state) (names_of opening.now.state))) }
{
    let mut place = 0u32;
    while let Some(name) = opening.name_at(place) {
        put_principal(text, opening, held, name)?;
        // No memory holds more names than that.
        let Some(next) = place.checked_add(1) else {
            return Err(AllocError);
        };
        place = next;
    }
    Ok(())
}

// Adds those of the principals that joined them.
fn put_joined(text: &mut Vec<u8>, opening: &Table, held: &Table) -> Result<(), AllocError>
    ensures value { OnOk result (text.new.items ≡ text.old.items ++ records_text
        (flat_map (name_records opening.now.state held.now.state)
        (joined_names opening.now.state held.now.state))) }
    ensures whole { OnOk result (AreWholeRecords
        (flat_map (name_records opening.now.state held.now.state)
        (joined_names opening.now.state held.now.state))) }
{
    let mut place = 0u32;
    while let Some(name) = held.name_at(place) {
        put_lacked(text, opening, held, name)?;
        // No memory holds more names than that.
        let Some(next) = place.checked_add(1) else {
            return Err(AllocError);
        };
        place = next;
    }
    Ok(())
}

// Adds the records of a principal that the opening lacks.
fn put_lacked(
    text: &mut Vec<u8>,
    opening: &Table,
    held: &Table,
    name: &Name,
) -> Result<(), AllocError>
    requires name { is_name name.now ≡ true }
    ensures value { OnOk result (text.new.items ≡ text.old.items ++ records_text
        (flat_map (name_records opening.now.state held.now.state)
        (filter (lacks_name opening.now.state) (name.now ∷ [])))) }
    ensures whole { OnOk result (AreWholeRecords
        (flat_map (name_records opening.now.state held.now.state)
        (filter (lacks_name opening.now.state) (name.now ∷ [])))) }
{
    if opening.keys_of(name).is_some() {
        return Ok(());
    }
    put_principal(text, opening, held, name)
}

// Adds the records that lead from the opening's keys of a name to the held ones.
fn put_principal(
    text: &mut Vec<u8>,
    opening: &Table,
    held: &Table,
    name: &Name,
) -> Result<(), AllocError>
    requires name { is_name name.now ≡ true }
    ensures value { OnOk result (text.new.items
        ≡ text.old.items ++ records_text (name_records opening.now.state held.now.state name.now)) }
    ensures whole { OnOk result
        (AreWholeRecords (name_records opening.now.state held.now.state name.now)) }
{
    match (opening.keys_of(name), held.keys_of(name)) {
        (None, None) => Ok(()),
        (None, Some(keys)) => put_keys(text, KeyKind::Adopt, name, keys),
        (Some(_), None) => put_removal(text, name),
        (Some(before), Some(keys)) => put_others(text, name, before, keys),
    }
}

// Adds the removal of a name.
fn put_removal(text: &mut Vec<u8>, name: &Name) -> Result<(), AllocError>
    requires name { is_name name.now ≡ true }
    ensures value { OnOk result (text.new.items ≡ text.old.items ++ records_text
        (record_of.Key Remove (record { name = name.now; key = blank_key }) ∷ [])) }
    ensures whole { OnOk result (AreWholeRecords
        (record_of.Key Remove (record { name = name.now; key = blank_key }) ∷ [])) }
{
    put_key(text, KeyKind::Remove, name, &blank_key())
}

// Adds the records that give a name these keys, unless it has them.
fn put_others(
    text: &mut Vec<u8>,
    name: &Name,
    before: &[KeyRow],
    keys: &[KeyRow],
) -> Result<(), AllocError>
    requires name { is_name name.now ≡ true }
    ensures value { OnOk result (text.new.items ≡ text.old.items ++ records_text
        (records_between name.now (Some before.now) (Some keys.now))) }
    ensures whole { OnOk result
        (AreWholeRecords (records_between name.now (Some before.now) (Some keys.now))) }
{
    if are_same(before, keys) {
        return Ok(());
    }
    put_keys(text, KeyKind::Base, name, keys)
}

// Adds the records that give a name these keys, the oldest first, which has a record of this kind.
fn put_keys(
    text: &mut Vec<u8>,
    first: KeyKind,
    name: &Name,
    keys: &[KeyRow],
) -> Result<(), AllocError>
    requires name { is_name name.now ≡ true }
    ensures value { OnOk result (text.new.items
        ≡ text.old.items ++ records_text (key_records first name.now keys.now)) }
    ensures whole { OnOk result (AreWholeRecords (key_records first name.now keys.now)) }
{
    let Some((key, older)) = keys.split_first() else {
        return Ok(());
    };
    if older.is_empty() {
        return put_key(text, first, name, key);
    }
    put_keys(text, first, name, older)?;
    put_key(text, newer_kind(key, older), name, key)
}

// The kind of the record that puts a key in front of these.
fn newer_kind(key: &KeyRow, older: &[KeyRow]) -> KeyKind
    ensures value { result ≡ newer_kind key.now older.now }
{
    if is_next(newest_version(older), key.kvno) {
        KeyKind::Change
    } else {
        KeyKind::Adopt
    }
}

// The newest version, and 0 if there is no key.
pub(crate) fn newest_version(keys: &[KeyRow]) -> u32
    ensures value { result ≡ newest_kvno keys.now }
{
    match keys {
        [] => 0,
        [key, ..] => key.kvno,
    }
}

// Whether a version is the one after another.
fn is_next(newest: u32, kvno: u32) -> bool
    ensures value { result ≡ (kvno == newest + 1) }
{
    newest < kvno && kvno - newest == 1
}

// Adds a record of this kind.
fn put_key(text: &mut Vec<u8>, kind: KeyKind, name: &Name, key: &KeyRow) -> Result<(), AllocError>
    requires name { is_name name.now ≡ true }
    ensures value { OnOk result (text.new.items ≡ text.old.items
        ++ record_text (record_of.Key kind (record { name = name.now; key = key.now }))) }
    ensures whole { OnOk result (IsWholeKey key.now) }
{
    know_key(key);
    let record = key_bytes(*text.allocator(), kind, name, key)?;
    text.extend_from_slice(record.as_slice())
}

fn are_same(keys: &[KeyRow], others: &[KeyRow]) -> bool
    ensures value { result ≡ are_same_keys keys.now others.now }
{
    chpw_table::are_same_keys(keys, others)
}
