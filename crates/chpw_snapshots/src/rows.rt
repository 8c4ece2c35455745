//! The published rows.
ghost use Rattle.std.specs.Prelude.{◌≡◌, ◌≤◌, ◌<◌, All, IfOk, IfSome, nat_lt, length, find, option_map, option_copied, slice_get, []};
ghost use Rattle.std.specs.List.Sorted.{IsStrictlySortedBy};
ghost use Rattle.chpw_rules.specs.Names.{is_same_name, name_cmp};
ghost use Rattle.chpw_changelog.specs.declared.change.NumberedChange.TheVariants.{Keys, Count};
ghost use Rattle.chpw_changelog.specs.declared.change.Whose.TheVariants.{Number, Short};
ghost use Rattle.chpw_snapshots.specs.Rows.{added_limit, all_rows, keys_as_shown, keys_in, lookup_with};
ghost use Rattle.chpw_snapshots.specs.Rows.{names_of_rows, place_in, rows_after, shown_in, IsPositive};
ghost use Rattle.chpw_snapshots.specs.Following.{IsWhose};

use crate::added::{ADDED_LIMIT, AddedRow, change_added, no_rows, place_of_name};
use crate::keys_shown::KeysShown;
use crate::row::{Row, change_at};
use chpw_changelog::{KeysChange, NumberedChange, ShortName, Whose};
use chpw_ordered_keys::place_of;
use chpw_rules::Name;
use chpw_table::Lookup;
use std::alloc::{AllocError, Global};
use std::marker::Model;

/// A row for each principal of the opening, in the order of their names, and one for each name that was adopted since and
/// that the opening lacks, in their order too. Contracts see the rows, how many counts of a principal are kept, the count of new keys, and how
/// many changes were accepted so far.
#[derive(Drop)]
pub struct Rows {
    rows: Vec<Row>,
    added: Vec<AddedRow>,
    kept: u8,
    policy: u32,
    seen: u32,
}

impl Model for Rows {
    ghost use Rattle.std.specs.Prelude.{◌≤◌, vec_capacity};
    ghost use Rattle.std.specs.List.Sorted.{IsStrictlySortedBy};
    ghost use Rattle.chpw_rules.specs.Names.{name_cmp};
    ghost use Rattle.chpw_snapshots.specs.Rows.{Rowed, names_of_rows, added_limit};

    ghost Value = { Rowed };

    ghost view = { λ r. record {
      rows = r.rows.items;
      added = r.added.items;
      kept = r.kept;
      policy = r.policy;
      seen = r.seen;
    } };

    ghost invariant = { λ r. (1 ≤ r.kept) × (r.kept ≤ 16)
        × IsStrictlySortedBy name_cmp (names_of_rows r.rows.items)
        × IsStrictlySortedBy name_cmp (names_of_rows r.added.items)
        × (added_limit ≤ vec_capacity r.added) };
}

impl Rows {
    /// These rows, which are in the order of their names, with memory for those that will be added. Of each principal
    /// the newest counts are kept, 1 to 16 of them; `policy` is the count of new keys, and `seen` how many changes were
    /// accepted so far.
    pub fn of(
        alloc: Global,
        rows: Vec<Row>,
        kept: u8,
        policy: u32,
        seen: u32,
    ) -> Result<Rows, AllocError>
        requires order { IsStrictlySortedBy name_cmp (names_of_rows rows.items) }
        requires kept { (1 ≤ kept) × (kept ≤ 16) }
        ensures value { IfOk result (λ all. all ≡ record {
          rows = rows.items;
          added = [];
          kept = kept;
          policy = policy;
          seen = seen;
        }) }
    {
        let added = no_rows(alloc)?;
        Ok(Rows {
            rows,
            added,
            kept,
            policy,
            seen,
        })
    }

    /// Makes a change: of a principal's keys in its row, and in none if it has none; or of the count of new keys. An
    /// adopted name gets a row, if there is room. It takes no memory and doesn't fail.
    pub(crate) fn change(&mut self, change: NumberedChange)
        ensures value { self.new ≡ rows_after change self.old }
    {
        match change {
            NumberedChange::Keys(Whose::Number(number), change) => self.change_row(number, change),
            NumberedChange::Keys(Whose::Short(name), change) => self.change_added(name, change),
            NumberedChange::Count(count) => self.change_count(count),
        }
    }

    fn change_row(&mut self, number: usize, change: KeysChange)
        ensures value { self.new ≡ rows_after (Keys (Number number) change) self.old }
    {
        let kept = self.kept;
        change_at(self.rows.as_mut_slice(), number, kept, change);
        self.seen = self.seen.wrapping_add(1);
    }

    fn change_added(&mut self, name: ShortName, change: KeysChange)
        ensures value { self.new ≡ rows_after (Keys (Short name) change) self.old }
    {
        let kept = self.kept;
        change_added(&mut self.added, &name, kept, change);
        self.seen = self.seen.wrapping_add(1);
    }

    fn change_count(&mut self, count: u32)
        ensures value { self.new ≡ rows_after (Count count) self.old }
    {
        self.policy = count;
        self.seen = self.seen.wrapping_add(1);
    }

    /// Whose row a name has; none if it has none.
    pub(crate) fn whose(&self, name: &Name) -> Option<Whose>
        ensures value { IsWhose self.now name.now result }
    {
        match self.number_of(name) {
            Some(number) => Some(Whose::Number(number)),
            None => match self.added_row(name) {
                Some(row) => Some(Whose::Short(row.name())),
                None => None,
            },
        }
    }

    /// Whether another row can be added.
    pub(crate) fn has_room(&self) -> bool
        ensures value { result ≡ nat_lt (length self.now.added) added_limit }
    {
        self.added.len() < ADDED_LIMIT
    }

    // The number of a name of the opening: its position, from 0.
    fn number_of(&self, name: &Name) -> Option<usize>
        ensures value { result ≡ place_in self.now.rows name.now }
    {
        // A field is read, so that the type's invariant is known.
        let _ = &self.rows;
        place_of(self.rows.as_slice(), name)
    }

    // The row of a name among those that were added.
    fn added_row(&self, name: &Name) -> Option<&AddedRow>
        ensures value { option_copied result
            ≡ find (λ r. is_same_name r.name name.now) self.now.added }
    {
        match self.added_place(name) {
            None => None,
            Some(place) => self.added_at(place),
        }
    }

    fn added_place(&self, name: &Name) -> Option<usize>
        ensures value { result ≡ place_in self.now.added name.now }
    {
        // A field is read, so that the type's invariant is known.
        let _ = &self.added;
        place_of_name(self.added.as_slice(), name)
    }

    fn added_at(&self, place: usize) -> Option<&AddedRow>
        ensures value { option_copied result ≡ slice_get self.now.added place }
    {
        self.added.get(place)
    }

    fn opening_row(&self, name: &Name) -> Option<&Row>
        ensures value { option_copied result
            ≡ find (λ r. is_same_name r.name name.now) self.now.rows }
    {
        match self.number_of(name) {
            None => None,
            Some(place) => self.row_at(place),
        }
    }

    fn row_at(&self, place: usize) -> Option<&Row>
        ensures value { option_copied result ≡ slice_get self.now.rows place }
    {
        self.rows.get(place)
    }

    fn keys_of(&self, name: &Name) -> Option<&KeysShown>
        ensures value { option_copied result ≡ keys_in (all_rows self.now) name.now }
    {
        match self.opening_row(name) {
            Some(row) => row.shown.as_ref(),
            None => match self.added_row(name) {
                Some(row) => row.shown(),
                None => None,
            },
        }
    }

    /// What the rows show of a name; none for an unknown one.
    pub(crate) fn lookup(&self, name: &Name) -> Option<Lookup>
        ensures value { result
            ≡ option_map (lookup_with self.now.policy self.now.seen) (shown_in (all_rows self.now) name.now) }
        ensures positive { IsPositive self.now
            → IfSome result (λ l. (1 ≤ l.policy) × All (λ n. 1 ≤ n) l.held) }
    {
        match self.keys_of(name) {
            None => None,
            Some(keys) => Some(lookup_of(keys, self.policy, self.seen)),
        }
    }
}

fn lookup_of(keys: &KeysShown, policy: u32, seen: u32) -> Lookup
    ensures value { result ≡ lookup_with policy seen (keys_as_shown keys.now) }
{
    Lookup {
        kvno: keys.kvno,
        held: keys.counts.clone(),
        policy,
        seen,
    }
}
