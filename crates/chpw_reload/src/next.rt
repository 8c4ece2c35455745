//! The configuration that the next table is made from, and that table.
ghost use Rattle.std.specs.Prelude.{◌≡◌, ◌++◌, IfOk, OnOk, map, max, true};
ghost use Rattle.chpw_rules.specs.Fitting.{are_distinct, is_same_principal};
ghost use Rattle.chpw_report.specs.Configurations.{row_of};
ghost use Rattle.chpw_reload.specs.Next.{lacked as lacked_names, next_config};

use chpw_journal::known::know_order;
use chpw_report::{held_config, held_row};
use chpw_rules::{Config, Items, Name, Policy, PrincipalRow};
use chpw_table::Table;
use std::alloc::{AllocError, Global};

/// The settings with the renewed table's principals and keys, followed by the closed table's principals of these names,
/// and the greater of the counts of new keys. No name is repeated in it, as none is in a table.
pub(crate) fn next_config(
    alloc: Global,
    settings: Config,
    closed: &Table,
    renewed: &Table,
    lacked: &[Name],
) -> Result<Config, AllocError>
    requires lacked { lacked.now ≡ lacked_names closed.now.state renewed.now.state }
    ensures value { IfOk result (λ next. next
        ≡ next_config settings closed.now.state renewed.now.state) }
    ensures once { IfOk result (λ next. are_distinct is_same_principal next.principals ≡ true) }
{
    know_order(closed);
    know_order(renewed);
    let held = held_config(alloc, settings, renewed)?;
    let policy = Policy {
        iterations: closed.count().max(held.policy.iterations),
        ..held.policy
    };
    let mut rows = held.principals.into_vec();
    add_rows(&mut rows, closed, lacked)?;
    Ok(Config {
        realm: held.realm,
        max_entries: held.max_entries,
        service: held.service,
        policy,
        rules: held.rules,
        principals: Items::of(rows),
    })
}

// Adds the table's principals of these names.
fn add_rows(rows: &mut Vec<PrincipalRow>, table: &Table, names: &[Name]) -> Result<(), AllocError>
    ensures value { OnOk result (rows.new.items
        ≡ rows.old.items ++ map (row_of table.now.state) names.now) }
{
    let alloc = *rows.allocator();
    for name in names {
        rows.push(held_row(alloc, table, name)?)?;
    }
    Ok(())
}
