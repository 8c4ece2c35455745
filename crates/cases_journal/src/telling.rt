//! What a table has, in words.

use chpw_printing::{put_after_space, put_name};
use chpw_rules::Name;
use chpw_table::Table;
use std::alloc::AllocError;

/// Adds a table's principals, each with the versions of its keys, newest first, and its count.
pub fn show_table(text: &mut Vec<u8>, table: &Table) -> Result<(), AllocError> {
    for place in 0..u32::MAX {
        let Some(name) = table.name_at(place) else {
            break;
        };
        show_principal(text, table, name)?;
    }
    text.extend_from_slice(b" count")?;
    put_after_space(text, table.count())
}

fn show_principal(text: &mut Vec<u8>, table: &Table, name: &Name) -> Result<(), AllocError> {
    text.push(b' ')?;
    put_name(text, name)?;
    for key in table.keys_of(name).unwrap_or(&[]) {
        put_after_space(text, key.kvno)?;
    }
    Ok(text.push(b',')?)
}
