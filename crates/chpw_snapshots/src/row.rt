//! A row of a principal of the opening.
ghost use Rattle.std.specs.Prelude.{◌≡◌, ◌≤◌};
ghost use Rattle.chpw_snapshots.specs.Rows.{changed_at, row_after};

use crate::keys_shown::KeysShown;
use chpw_changelog::KeysChange;
use chpw_ordered_keys::HasKey;
use chpw_rules::Name;

/// What is published of a principal.
#[derive(Drop)]
pub struct Row {
    pub name: Name,
    /// None once the name is removed.
    pub shown: Option<KeysShown>,
}

// Rows are ordered by their names.
impl HasKey<Name> for Row {
    ghost key_of = { λ r. r.name };

    fn key(&self) -> &Name {
        &self.name
    }
}

impl Row {
    fn change(&mut self, kept: u8, change: KeysChange)
        requires kept { (1 ≤ kept) × (kept ≤ 16) }
        ensures value { self.new ≡ row_after kept change self.old }
    {
        KeysShown::change(&mut self.shown, kept, change);
    }
}

// The change in the row with its number, and in none if no row has it.
pub(crate) fn change_at(rows: &mut [Row], number: usize, kept: u8, change: KeysChange)
    requires kept { (1 ≤ kept) × (kept ≤ 16) }
    ensures value { rows.new ≡ changed_at kept change number rows.old }
{
    if number < rows.len() {
        rows[number].change(kept, change);
    }
}
