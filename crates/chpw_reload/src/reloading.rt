//! The table that the next desk opens with.
ghost use Rattle.std.specs.Prelude.{◌≡◌, ◌≤◌, ◌^◌, true, false, length, IfOk, IfErr, IfSome, IfNone, OnOk};
ghost use Rattle.chpw_rules.specs.declared.config.Config.{Config as Settings};
ghost use Rattle.chpw_rules.specs.declared.name.Name.{Name as TheName};
ghost use Rattle.chpw_rules.specs.Fitting.{are_distinct, config_fits, is_same_principal};
ghost use Rattle.chpw_reload.specs.Comparing.{HoldAlike};
ghost use Rattle.chpw_reload.specs.Next.{lacked as lacked_names};
ghost use Rattle.chpw_reload.specs.Reasons.{fault_after, number_after};
ghost use Rattle.chpw_reload.specs.Reloading.{IsOfRealms, IsRefused, IsReloaded};
ghost use Rattle.chpw_reload.specs.declared.fault.ReloadFault.TheVariants.{Realm};
ghost use Rattle.chpw_reload.specs.Starting.{IsRefusedOver, IsStarted, IsStartedFrom};

use crate::comparing::first_apart;
use crate::fault::ReloadFault;
use crate::lacking::missing_names;
use crate::next::next_config;
use crate::prepared_reload::{PreparedReload, read_on};
use chpw_journal::RestoreFault;
use chpw_rules::{Config, Items, Name};
use chpw_table::{MOST_CARRIED, Table};
use std::alloc::{AllocError, Global};
use std::io::Read;

/// The table that the next desk opens with, and the principals in it that neither the new configuration nor the journal has.
#[derive(Drop)]
pub struct NextTable {
    pub table: Table,
    pub lacked: Vec<Name>,
}

/// A reload that was refused, and the unchanged closed table.
#[derive(Drop)]
pub struct RefusedReload {
    pub fault: ReloadFault,
    pub closed: Table,
}

/// The table that the next desk opens with, once a history is closed. The rest of the journal is read from after the
/// bytes that the renewal has read, to its end.
///
/// It has the new settings; the principals that the new configuration and the journal give, so those that joined and none
/// that was removed, and those of the closed table that they lack; the greater of the counts of new keys. Used ids, clock and
/// quiet time are the closed table's. Of several faults the first in `ReloadFault`'s order is returned.
pub fn finish<F: Read + Drop>(
    alloc: Global,
    renewal: PreparedReload,
    rest: F,
    closed: Table,
) -> Result<NextTable, RefusedReload>
    ensures reloaded { IfOk result (IsReloaded renewal (F.remaining rest) closed) }
    ensures refused { IfErr result (λ refused.
        IsRefused renewal (F.remaining rest) closed refused.fault) }
    ensures unchanged { IfErr result (λ refused. refused.closed ≡ closed) }
{
    match start_table(alloc, renewal, rest, &closed) {
        Ok(started) => Ok(NextTable {
            table: started.table.going_on_from(closed),
            lacked: started.lacked,
        }),
        Err(fault) => Err(RefusedReload { fault, closed }),
    }
}

// The next configuration's table, before it takes over what the closed one used.
fn start_table<F: Read + Drop>(
    alloc: Global,
    renewal: PreparedReload,
    rest: F,
    closed: &Table,
) -> Result<NextTable, ReloadFault>
    ensures started { IfOk result (IsStartedFrom renewal (F.remaining rest) closed.now.state) }
    ensures refused { IfErr result (IsRefused renewal (F.remaining rest) closed.now) }
{
    if closed.realm() != renewal.settings.realm.as_slice() {
        let held = closed.realm();
        return Err(another_realm(alloc, held, renewal.settings.realm.as_slice()));
    }
    let PreparedReload {
        settings,
        table,
        records,
        kept: _,
    } = renewal;
    match read_on(alloc, table, rest) {
        Ok(restored) => start_over(alloc, settings, closed, &restored.table),
        Err(fault) => Err(ReloadFault::of(fault_after(records, fault))),
    }
}

// The fault of a configuration of another realm than the one that is held.
fn another_realm(alloc: Global, held: &[u8], new: &[u8]) -> ReloadFault
    ensures value { IsOfRealms held.now new.now result }
{
    match realms(alloc, held, new) {
        Ok(fault) => fault,
        Err(_) => ReloadFault::Memory,
    }
}

fn realms(alloc: Global, held: &[u8], new: &[u8]) -> Result<ReloadFault, AllocError>
    ensures value { IfOk result (λ fault. fault ≡ Realm held.now new.now) }
{
    Ok(ReloadFault::Realm {
        held: Items::of(Vec::from_slice(alloc, held)?),
        new: Items::of(Vec::from_slice(alloc, new)?),
    })
}

// A fault that was found after this many records.
fn fault_after(records: u64, fault: RestoreFault) -> RestoreFault
    ensures value { result ≡ fault_after records fault }
{
    match fault {
        RestoreFault::BadRecord(n) => RestoreFault::BadRecord(number_after(records, n)),
        RestoreFault::WrongVersion(n) => RestoreFault::WrongVersion(number_after(records, n)),
        RestoreFault::UnknownPrincipal(n) => {
            RestoreFault::UnknownPrincipal(number_after(records, n))
        }
        RestoreFault::TooMany(n) => RestoreFault::TooMany(number_after(records, n)),
        RestoreFault::OtherRealm => RestoreFault::OtherRealm,
        RestoreFault::CannotRead => RestoreFault::CannotRead,
        RestoreFault::Memory => RestoreFault::Memory,
    }
}

fn number_after(records: u64, number: u64) -> u64
    ensures value { result ≡ number_after records number }
{
    records.saturating_add(number)
}

// The next configuration's table, made from the closed one and this renewed one.
fn start_over(
    alloc: Global,
    settings: Config,
    closed: &Table,
    renewed: &Table,
) -> Result<NextTable, ReloadFault>
    ensures started { IfOk result (IsStarted settings closed.now.state renewed.now.state) }
    ensures refused { IfErr result
        (IsRefusedOver settings closed.now.state renewed.now.state) }
{
    if let Err(fault) = check_keys(closed, renewed) {
        return Err(fault);
    }
    if closed.ids_held() > MOST_CARRIED {
        return Err(ReloadFault::Memory);
    }
    start_next(alloc, settings, closed, renewed)
}

// No name has different keys in both.
fn check_keys(closed: &Table, renewed: &Table) -> Result<(), ReloadFault>
    ensures alike { OnOk result ((name : TheName) → HoldAlike closed.now.state renewed.now.state name) }
    ensures refused { IfErr result (λ fault. (settings : Settings)
        → IsRefusedOver settings closed.now.state renewed.now.state fault) }
{
    match first_apart(closed, renewed)? {
        None => Ok(()),
        Some(name) => Err(ReloadFault::Keys(name.clone()?)),
    }
}

// The next configuration's table, if it is within the limits.
fn start_next(
    alloc: Global,
    settings: Config,
    closed: &Table,
    renewed: &Table,
) -> Result<NextTable, ReloadFault>
    requires alike { (name : TheName) → HoldAlike closed.now.state renewed.now.state name }
    requires few { length closed.now.state.used ≤ 2 ^ 31 }
    ensures started { IfOk result (IsStarted settings closed.now.state renewed.now.state) }
    ensures refused { IfErr result
        (IsRefusedOver settings closed.now.state renewed.now.state) }
{
    let lacked = missing_names(alloc, closed, renewed)?;
    let config = next_config(alloc, settings, closed, renewed, lacked.as_slice())?;
    let Some(config) = fitting(config) else {
        return Err(ReloadFault::Limits);
    };
    let table = Table::start(alloc, config, closed.quiet_until())?;
    Ok(NextTable { table, lacked })
}

// The configuration, if it is within the limits. No name is repeated in it.
fn fitting(config: Config) -> Option<Config>
    requires once { are_distinct is_same_principal config.principals ≡ true }
    ensures fits { IfSome result (λ same. (same ≡ config) × (config_fits same ≡ true)) }
    ensures refused { IfNone result (config_fits config ≡ false) }
{
    if config.fits_with_distinct_names() {
        Some(config)
    } else {
        None
    }
}
