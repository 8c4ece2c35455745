//! Calls that compute nothing: each gives a proof what the type of its argument keeps.
ghost use Rattle.std.specs.Prelude.{◌≡◌, true};
ghost use Rattle.chpw_table.specs.State.{keys_held};
ghost use Rattle.chpw_table.specs.Requests.{target_of};
ghost use Rattle.chpw_table.specs.Verdicts.{is_done};
ghost use Rattle.chpw_book.specs.Wholeness.{FirstIsWhole, NewestIsWhole};

use chpw_journal::known::know_key;
use chpw_rules::Name;
use chpw_table::{KeyRow, Opened, Table, Verdict};

/// If the request was accepted, the newest key of its target has the lengths of its type, as each key that a table holds.
pub(crate) fn know_accepted_key(table: &Table, opened: &Opened, verdict: Verdict)
    ensures whole { is_done verdict ≡ true
        → NewestIsWhole (keys_held table.now.state (target_of opened.now).name) }
{
    if verdict != Verdict::Done {
        return;
    }
    know_newest_key(table, opened.target_name());
}

/// The newest key of a name, if it has one, has the lengths of its type.
pub(crate) fn know_newest_key(table: &Table, name: &Name)
    ensures whole { NewestIsWhole (keys_held table.now.state name.now) }
{
    match table.keys_of(name) {
        None => {}
        Some(keys) => know_first_key(keys),
    }
}

// The first of some keys has the lengths of its type.
fn know_first_key(keys: &[KeyRow])
    ensures whole { FirstIsWhole keys.now }
{
    match keys {
        [] => {}
        [newest, ..] => know_key(newest),
    }
}
