//! Which of the KDC's principals are imported.
ghost use Rattle.std.specs.Prelude.{◌≡◌, IfOk, OnOk};
ghost use Rattle.chpw_import.specs.KdcChoices.{chosen_from, choice_of, nothing, reason_for, row_of, with_next};

use crate::kdc::listing::{KdcKeys, Listed};
use chpw_config_text::can_be_written;
use chpw_kdc::Reason;
use chpw_rules::{Items, KVNOS, KeyBytes, Name, NamePatterns, PRINCIPAL_COUNTS, PrincipalRow};
use std::alloc::{AllocError, Global};

/// Why a principal isn't imported, in the order of the checks.
#[derive(Clone, Copy, Drop)]
pub enum LeftReason {
    /// The agent doesn't tell its keys.
    Untold(Reason),
    /// By the patterns it isn't the service's.
    NotOurs,
    /// No configuration can have its name.
    BadName,
    /// Its version is 0.
    NoVersion,
    /// There is already the greatest number of principals.
    TooMany,
}

/// A principal that isn't imported.
#[derive(Drop)]
pub struct LeftName {
    pub name: Name,
    pub why: LeftReason,
}

/// What is imported of a list, and what isn't, each in the list's order.
#[derive(Drop)]
pub struct KdcImport {
    pub principals: Vec<PrincipalRow>,
    pub left: Vec<LeftName>,
}

/// The rows of the listed principals that are the service's by the patterns, with keys of this iteration count, at most
/// 10,000; and the others, with the reason.
pub(crate) fn chosen(
    alloc: Global,
    patterns: &NamePatterns,
    iterations: u32,
    listed: &[Listed],
) -> Result<KdcImport, AllocError>
    ensures value { IfOk result (λ import.
        choice_of import ≡ chosen_from patterns.now iterations nothing listed.now) }
{
    let mut import = KdcImport {
        principals: Vec::new(alloc),
        left: Vec::new(alloc),
    };
    for principal in listed {
        add(&mut import, patterns, iterations, principal)?;
    }
    Ok(import)
}

// One more of the list.
fn add(
    import: &mut KdcImport,
    patterns: &NamePatterns,
    iterations: u32,
    principal: &Listed,
) -> Result<(), AllocError>
    ensures value { OnOk result (choice_of import.new
        ≡ with_next patterns.now iterations (choice_of import.old) principal.now) }
{
    let name = principal.name.clone()?;
    match reason_for(patterns, import.principals.len(), principal) {
        Ok(keys) => {
            let row = row_of(*import.principals.allocator(), name, keys, iterations)?;
            import.principals.push(row)?;
        }
        Err(why) => import.left.push(LeftName { name, why })?,
    }
    Ok(())
}

// The keys of a principal that is imported after so many others, or why it isn't.
fn reason_for(
    patterns: &NamePatterns,
    count: usize,
    principal: &Listed,
) -> Result<KdcKeys, LeftReason>
    ensures value { result ≡ reason_for patterns.now count principal.now }
{
    let keys = match &principal.found {
        Ok(keys) => *keys,
        Err(reason) => return Err(LeftReason::Untold(*reason)),
    };
    if !patterns.is_ours(&principal.name) {
        return Err(LeftReason::NotOurs);
    }
    if !principal.name.fits() || !can_be_written(&principal.name) {
        return Err(LeftReason::BadName);
    }
    if !KVNOS.allow(keys.kvno as usize) {
        return Err(LeftReason::NoVersion);
    }
    if count >= PRINCIPAL_COUNTS.high {
        return Err(LeftReason::TooMany);
    }
    Ok(keys)
}

// The principal of this name with these keys.
fn row_of(
    alloc: Global,
    name: Name,
    keys: KdcKeys,
    iterations: u32,
) -> Result<PrincipalRow, AllocError>
    ensures value { IfOk result (λ row. row ≡ row_of name keys iterations) }
{
    let key = KeyBytes {
        kvno: keys.kvno,
        iterations,
        aes128: keys.keys.aes128,
        aes256: keys.keys.aes256,
    };
    Ok(PrincipalRow {
        name,
        keys: Items::of(Vec::from_slice(alloc, &[key])?),
    })
}
