//! Rows of names that the opening lacks.
ghost use Rattle.std.specs.Prelude.{◌≡◌, ◌≤◌, IfOk, IfErr, None, Some, [], vec_capacity, option_copied};
ghost use Rattle.std.specs.List.Sorted.{IsStrictlySortedBy};
ghost use Rattle.chpw_rules.specs.Names.{name_cmp};
ghost use Rattle.chpw_changelog.specs.Changes.{short_name};
ghost use Rattle.chpw_snapshots.specs.Rows.{added_after, added_at, added_limit, adopts, blank_row, changed_at, names_of_rows};
ghost use Rattle.chpw_snapshots.specs.Rows.{place_in, row_after, IsPlaceFor};

use crate::keys_shown::KeysShown;
use chpw_changelog::{KeysChange, ShortName};
use chpw_rules::Name;
use std::alloc::{AllocError, Global};
use std::cmp::Ordering;
use std::marker::Model;

/// The most rows that are added to those of the opening.
pub const ADDED_LIMIT: usize = 10_000;

/// What is published of a principal that the opening lacks, in a fixed size. Contracts see it as a row.
#[derive(Drop)]
pub(crate) struct AddedRow {
    name: ShortName,
    shown: Option<KeysShown>,
}

impl Model for AddedRow {
    ghost use Rattle.chpw_changelog.specs.Changes.{short_name};
    ghost use Rattle.chpw_snapshots.specs.declared.row.Row.{Row};

    ghost Value = { Row };

    ghost view = { λ r. record { name = short_name r.name; shown = r.shown } };
}

impl AddedRow {
    fn blank(name: ShortName) -> AddedRow
        ensures value { result ≡ blank_row (short_name name) }
    {
        AddedRow { name, shown: None }
    }

    pub(crate) fn name(&self) -> ShortName
        ensures value { short_name result ≡ self.now.name }
    {
        self.name
    }

    pub(crate) fn shown(&self) -> Option<&KeysShown>
        ensures value { option_copied result ≡ self.now.shown }
    {
        self.shown.as_ref()
    }

    // How its name compares with a name.
    fn compare(&self, name: &Name) -> Ordering
        ensures value { result ≡ name_cmp self.now.name name.now }
    {
        self.name.compare(name)
    }

    fn compare_short(&self, name: &ShortName) -> Ordering
        ensures value { result ≡ name_cmp self.now.name (short_name name.now) }
    {
        self.name.compare_short(name)
    }

    fn change(&mut self, kept: u8, change: KeysChange)
        requires kept { (1 ≤ kept) × (kept ≤ 16) }
        ensures value { self.new ≡ row_after kept change self.old }
    {
        KeysShown::change(&mut self.shown, kept, change);
    }
}

// The place of a name's row among rows in the order of their names.
pub(crate) fn place_of_name(rows: &[AddedRow], name: &Name) -> Option<usize>
    requires order { IsStrictlySortedBy name_cmp (names_of_rows rows.now) }
    ensures value { result ≡ place_in rows.now name.now }
{
    match rows.binary_search_by(|row| row.compare(name)) {
        Ok(place) => Some(place),
        Err(_) => None,
    }
}

// Likewise; and where a row of the name is put in if there is none.
fn place_of(rows: &[AddedRow], name: &ShortName) -> Result<usize, usize>
    requires order { IsStrictlySortedBy name_cmp (names_of_rows rows.now) }
    ensures found { IfOk result (λ place. place_in rows.now (short_name name.now) ≡ Some place) }
    ensures absent { IfErr result (λ _. place_in rows.now (short_name name.now) ≡ None) }
    ensures place { IfErr result (IsPlaceFor rows.now (short_name name.now)) }
{
    rows.binary_search_by(|row| row.compare_short(name))
}

// The memory of all rows that will be added.
pub(crate) fn no_rows(alloc: Global) -> Result<Vec<AddedRow>, AllocError>
    ensures room { IfOk result (λ rows. added_limit ≤ vec_capacity rows) }
    ensures empty { IfOk result (λ rows. rows.items ≡ []) }
{
    Vec::with_capacity(alloc, ADDED_LIMIT)
}

// The change in the row of its name; a key that is adopted adds one where there is none yet, in the order of names.
pub(crate) fn change_added(rows: &mut Vec<AddedRow>, name: &ShortName, kept: u8, change: KeysChange)
    requires kept { (1 ≤ kept) × (kept ≤ 16) }
    requires room { added_limit ≤ vec_capacity rows.old }
    requires order { IsStrictlySortedBy name_cmp (names_of_rows rows.old.items) }
    ensures value { rows.new.items ≡ added_after kept change (short_name name.now) rows.old.items }
    ensures room { added_limit ≤ vec_capacity rows.new }
{
    match place_of(rows.as_slice(), name) {
        Ok(place) => change_at(rows.as_mut_slice(), place, kept, change),
        Err(place) => add(rows, place, name, kept, change),
    }
}

fn change_at(rows: &mut [AddedRow], place: usize, kept: u8, change: KeysChange)
    requires kept { (1 ≤ kept) × (kept ≤ 16) }
    ensures value { rows.new ≡ changed_at kept change place rows.old }
{
    if place < rows.len() {
        rows[place].change(kept, change);
    }
}

fn add(rows: &mut Vec<AddedRow>, place: usize, name: &ShortName, kept: u8, change: KeysChange)
    requires kept { (1 ≤ kept) × (kept ≤ 16) }
    requires room { added_limit ≤ vec_capacity rows.old }
    requires place { IsPlaceFor rows.old.items (short_name name.now) place }
    ensures value { rows.new.items ≡ added_at kept change (short_name name.now) None rows.old.items }
    ensures room { added_limit ≤ vec_capacity rows.new }
{
    if is_adopted(change) && rows.len() < ADDED_LIMIT {
        let mut row = AddedRow::blank(*name);
        row.change(kept, change);
        let _ = rows.insert(place, row);
    }
}

fn is_adopted(change: KeysChange) -> bool
    ensures value { result ≡ adopts change }
{
    match change {
        KeysChange::Adopted { .. } => true,
        _ => false,
    }
}
