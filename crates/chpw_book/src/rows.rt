//! The rows that lookups show at first.
ghost use Rattle.std.specs.Prelude.{◌≡◌, ◌≤◌, ◌<◌, ◌^◌, All, IfOk, OnOk, map, max};
ghost use Rattle.std.specs.List.Sorted.{IsStrictlySortedBy};
ghost use Rattle.chpw_rules.specs.Names.{name_cmp};
ghost use Rattle.chpw_snapshots.specs.Rows.{names_of_rows, HasPositive, IsPositive};
ghost use Rattle.chpw_book.specs.Publishing.{row_showing, row_under, table_rows};

use chpw_rules::Name;
use chpw_snapshots::{KeysShown, Row, Rows};
use chpw_table::{Lookup, Table};
use std::alloc::{AllocError, Global};

/// What the table shows of each of its names.
pub(crate) fn rows_of(alloc: Global, table: &Table) -> Result<Rows, AllocError>
    ensures value { IfOk result (λ rows. rows ≡ table_rows table.now) }
    ensures few { OnOk result (table.now.seen < 2 ^ 31) }
    ensures positive { IfOk result IsPositive }
{
    let policy = table.policy();
    let rows = all_rows(alloc, table)?;
    let kept = policy.depth.max(1);
    Rows::of(alloc, rows, kept, table.count(), table.changes_accepted())
}

fn all_rows(alloc: Global, table: &Table) -> Result<Vec<Row>, AllocError>
    ensures value { IfOk result (λ rows. rows.items
        ≡ map (λ p. row_under table.now.state p.name) table.now.state.principals) }
    ensures order { IfOk result (λ rows. IsStrictlySortedBy name_cmp (names_of_rows rows.items)) }
    ensures positive { IfOk result (λ rows. All HasPositive rows.items) }
{
    let mut rows = Vec::new(alloc);
    let mut place = 0u32;
    while let Some((name, shown)) = table.row_at(place) {
        rows.push(row_of(name, shown)?)?;
        // No memory holds more names than that.
        let Some(next) = place.checked_add(1) else {
            return Err(AllocError);
        };
        place = next;
    }
    Ok(rows)
}

fn row_of(name: &Name, shown: Lookup) -> Result<Row, AllocError>
    ensures value { IfOk result (λ row. row ≡ row_showing name.now shown) }
{
    Ok(Row {
        name: name.clone()?,
        shown: Some(KeysShown {
            kvno: shown.kvno,
            counts: shown.held,
        }),
    })
}
