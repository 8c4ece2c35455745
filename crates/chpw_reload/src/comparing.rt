//! Whether the renewed table goes on with the keys of the closed one.
ghost use Rattle.std.specs.Prelude.{◌≡◌, ◌↔◌, false, IsTrue, IfOk, MatchOption};
ghost use Rattle.chpw_rules.specs.declared.name.Name.{Name as TheName};
ghost use Rattle.chpw_table.specs.State.{kept_count};
ghost use Rattle.chpw_reload.specs.Comparing.{AreNewest, HoldAlike, HoldApart};

use chpw_record::KeyRow;
use chpw_rules::Name;
use chpw_table::{Table, are_same_keys, newest};
use std::alloc::AllocError;

/// The first name of both tables whose keys in the closed one, as many as the renewed one keeps, aren't its newest in
/// the renewed one; none if there is no such name.
pub(crate) fn first_apart<'c>(
    closed: &'c Table,
    renewed: &Table,
) -> Result<Option<&'c Name>, AllocError>
    ensures value { IfOk result (λ found. MatchOption found
        ((name : TheName) → HoldAlike closed.now.state renewed.now.state name)
        (λ name. HoldApart closed.now.state renewed.now.state name.now)) }
{
    let kept = kept_by(renewed);
    let mut place = 0u32;
    while let Some(name) = closed.name_at(place) {
        if are_apart(closed, renewed, name, kept) {
            return Ok(Some(name));
        }
        // No memory holds more names than that.
        let Some(next) = place.checked_add(1) else {
            return Err(AllocError);
        };
        place = next;
    }
    Ok(None)
}

// How many keys of a name a table keeps.
pub(crate) fn kept_by(table: &Table) -> usize
    ensures value { result ≡ kept_count table.now.state }
{
    usize::from(table.policy().depth.max(1))
}

// Whether both have the name, and its newest `kept` keys in the closed one aren't its newest in the renewed one.
fn are_apart(closed: &Table, renewed: &Table, name: &Name, kept: usize) -> bool
    requires kept { kept ≡ kept_count renewed.now.state }
    ensures apart { IsTrue result → HoldApart closed.now.state renewed.now.state name.now }
    ensures alike { result ≡ false → HoldAlike closed.now.state renewed.now.state name.now }
{
    match (closed.keys_of(name), renewed.keys_of(name)) {
        (Some(keys), Some(others)) => !are_newest(newest(keys, kept), others),
        _ => false,
    }
}

// Whether these keys are the newest of the others, which have one at least if the others do.
fn are_newest(keys: &[KeyRow], others: &[KeyRow]) -> bool
    ensures value { IsTrue result ↔ AreNewest keys.now others.now }
{
    are_same_keys(keys, newest(others, keys.len().max(1)))
}
