//! The principals that the new configuration lacks.
ghost use Rattle.std.specs.Prelude.{◌≡◌, ◌++◌, ◌∷◌, [], IfOk, OnOk, filter};
ghost use Rattle.chpw_reload.specs.Next.{is_unknown, lacked};

use chpw_rules::Name;
use chpw_table::Table;
use std::alloc::{AllocError, Global};

/// The names of the closed table that the renewed one lacks, in their order.
pub(crate) fn missing_names(
    alloc: Global,
    closed: &Table,
    renewed: &Table,
) -> Result<Vec<Name>, AllocError>
    ensures value { IfOk result (λ names. names.items ≡ lacked closed.now.state renewed.now.state) }
{
    let mut names = Vec::new(alloc);
    let mut place = 0u32;
    while let Some(name) = closed.name_at(place) {
        add_unknown(&mut names, renewed, name)?;
        // No memory holds more names than that.
        let Some(next) = place.checked_add(1) else {
            return Err(AllocError);
        };
        place = next;
    }
    Ok(names)
}

// Adds the name if the table has no such principal.
fn add_unknown(names: &mut Vec<Name>, table: &Table, name: &Name) -> Result<(), AllocError>
    ensures value { OnOk result (names.new.items
        ≡ names.old.items ++ filter (is_unknown table.now.state) (name.now ∷ [])) }
{
    if table.keys_of(name).is_some() {
        return Ok(());
    }
    names.push(name.clone()?)?;
    Ok(())
}
