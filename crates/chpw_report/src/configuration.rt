//! A configuration with the principals that are held.
ghost use Rattle.std.specs.Prelude.{◌≡◌, List, ℕ, IfOk, OnOk, Ok, map};
ghost use Rattle.std.specs.Io.KnownBytes.{Appends};
ghost use Rattle.chpw_config.specs.Settings.{settings_of};
ghost use Rattle.chpw_report.specs.Configurations.{config_held, key_bytes_of, row_of};

use crate::report::ReportFault;
use chpw_config_text::{WriteFault, write_config};
use chpw_rules::{Config, Items, KeyBytes, Name, Policy, PrincipalRow};
use chpw_table::{KeyRow, Table};
use std::alloc::{AllocError, Global};
use std::io::Write;

/// The configuration with the principals that the table holds, in the order of their names, and with its iteration
/// count. Its other settings stay.
#[tactic(auto, using(crate::proofs::RowLemmas::rows_more, crate::proofs::RowLemmas::rows_all))]
pub fn held_config(alloc: Global, config: Config, table: &Table) -> Result<Config, AllocError>
    ensures value { IfOk result (λ held. held ≡ config_held table.now.state config) }
{
    let mut rows = Vec::new(alloc);
    let mut place = 0u32;
    while let Some(name) = table.name_at(place) {
        rows.push(held_row(alloc, table, name)?)?;
        // No memory holds more names than that.
        let Some(next) = place.checked_add(1) else {
            return Err(AllocError);
        };
        place = next;
    }
    let policy = Policy {
        iterations: table.count(),
        ..config.policy
    };
    Ok(Config {
        policy,
        principals: Items::of(rows),
        ..config
    })
}

/// A principal with the keys that the table holds; with none if the table has no such principal.
pub fn held_row(alloc: Global, table: &Table, name: &Name) -> Result<PrincipalRow, AllocError>
    ensures value { IfOk result (λ row. row ≡ row_of table.now.state name.now) }
{
    let keys = match table.keys_of(name) {
        Some(keys) => key_bytes(alloc, keys)?,
        None => Vec::new(alloc),
    };
    Ok(PrincipalRow {
        name: name.clone()?,
        keys: Items::of(keys),
    })
}

fn key_bytes(alloc: Global, rows: &[KeyRow]) -> Result<Vec<KeyBytes>, AllocError>
    ensures value { IfOk result (λ keys. keys.items ≡ map key_bytes_of rows.now) }
{
    let mut keys = Vec::new(alloc);
    for row in rows {
        keys.push(KeyBytes {
            kvno: row.kvno,
            iterations: row.count,
            aes128: row.aes128,
            aes256: row.aes256,
        })?;
    }
    Ok(keys)
}

/// Writes the configuration that is held as the text of its file, which is read as that configuration. It has keys in
/// the clear.
///
/// `Write` if a write failed, or if the configuration can't be written (chpw_config_text).
pub fn write_configuration<W: Write>(
    alloc: Global,
    config: Config,
    table: &Table,
    writer: &mut W,
) -> Result<(), ReportFault>
    ensures written { OnOk result ((text : List ℕ)
        × Appends (W.contents writer.old) (W.contents writer.new) text
        × (settings_of text ≡ Ok (config_held table.now.state config))) }
{
    let held = held_config(alloc, config, table)?;
    if !held.fits() || held.service.as_slice().is_empty() {
        return Err(ReportFault::Write);
    }
    let text = match write_config(alloc, &held) {
        Ok(text) => text,
        Err(WriteFault::Memory) => return Err(ReportFault::Memory),
        Err(WriteFault::Unwritable) => return Err(ReportFault::Write),
    };
    match writer.write_all(text.as_bytes()) {
        Ok(()) => Ok(()),
        Err(_) => Err(ReportFault::Write),
    }
}
