//! The tables and lists of a configuration's file.
ghost use Rattle.std.specs.Prelude.{◌≡◌, option_map};
ghost use Rattle.toml.specs.Data.{get_member};
ghost use Rattle.toml.specs.View.{items_view, table_view, view};
ghost use Rattle.chpw_warnings.specs.Settings.{items_in, members_in, within};

use toml::{Table, Value};

/// The value at a key of a table, if it is one.
pub(crate) fn member<'a>(table: Option<&'a Value>, key: &str) -> Option<&'a Value>
    ensures value { option_map (λ v. view v.now) result
        ≡ within key.now (option_map (λ v. view v.now) table.entry) }
{
    match table?.as_table() {
        None => None,
        Some(table) => get(table, key),
    }
}

/// The value at a key of a table.
pub(crate) fn get<'a>(table: &'a Table, key: &str) -> Option<&'a Value>
    ensures value { option_map (λ v. view v.now) result ≡ get_member key.now (table_view table.now) }
{
    table.get(key)
}

/// The elements of a list; none if it isn't one.
pub(crate) fn elements<'a>(list: Option<&'a Value>) -> &'a [Value]
    ensures value { items_view result.now ≡ items_in (option_map (λ v. view v.now) list.entry) }
{
    match list {
        None => &[],
        Some(list) => match list.as_array() {
            None => &[],
            Some(list) => list.as_slice(),
        },
    }
}
