//! The keys of a keytab.
ghost use Rattle.std.specs.Prelude.{◌≡◌, true, IfErr, IfOk, map};
ghost use Rattle.std.specs.List.Sorted.{IsStrictlySortedBy};
ghost use Rattle.chpw_rules.specs.Fitting.{principals_fit, service_fits};
ghost use Rattle.chpw_rules.specs.Limits.{is_in, iteration_counts};
ghost use Rattle.chpw_rules.specs.Names.{name_cmp};
ghost use Rattle.chpw_import.specs.Keytabs.{ArePrincipals, AreServiceKeys, IsBrought, IsOfKeytab};
ghost use Rattle.chpw_import.specs.LeftOut.{left_out};

use crate::left::SkippedEntry;
use crate::left_out::{UsableKeys, left_of};
use crate::rows::{principals_of, service_of};
use crate::table::table_of;
use chpw_rules::{PrincipalRow, ServiceRow};
use krb_keytab::{KeytabEntry, KeytabError, KeytabFault, read_keytab};
use std::alloc::{AllocError, Global};

/// The keys that a keytab has of a realm.
#[derive(Drop)]
pub struct KeytabImport {
    /// The entries of the file, in its order.
    pub entries: Vec<KeytabEntry>,
    /// The keys of kadmin/changepw, newest first and of one version etype 18 first; at most 16.
    pub service: Vec<ServiceRow>,
    /// The others, in the order of their names.
    pub principals: Vec<PrincipalRow>,
    /// The skipped entries, in the order of the file.
    pub left: Vec<SkippedEntry>,
}

/// Why nothing is imported.
#[derive(Clone, Copy, Drop)]
pub enum ImportFault {
    /// The keytab has this fault.
    Keytab(KeytabFault),
    /// A growth was refused.
    Memory,
}

/// The keys of a realm in a keytab, as a configuration has them.
///
/// Of two entries with one name, kvno and encryption type the later one counts: the one with the greater timestamp, or,
/// if these are equal, the one that follows in the file. The keys of a principal are those of its newest kvno in the
/// realm and of each one below it, as long as that has a key of both encryption types; older ones are skipped.
///
/// A configuration can have the result: the service's keys fit, and so do the principals if the iteration count is
/// within 1 to 16,777,216.
pub fn bring_in(
    alloc: Global,
    bytes: &[u8],
    realm: &[u8],
    iterations: u32,
) -> Result<KeytabImport, ImportFault>
    ensures fault { IfErr result (IsOfKeytab bytes.now) }
    ensures brought { IfOk result (IsBrought bytes.now realm.now iterations) }
    ensures service_fits { IfOk result (λ b. service_fits b.service.items ≡ true) }
    ensures principals_fit { is_in iteration_counts iterations ≡ true
        → IfOk result (λ b. principals_fit b.principals.items ≡ true) }
{
    match read_keytab(alloc, bytes) {
        Err(KeytabError::Fault(fault)) => Err(ImportFault::Keytab(fault)),
        Err(KeytabError::Memory) => Err(ImportFault::Memory),
        Ok(entries) => match brought_of(alloc, entries, realm, iterations) {
            Ok(brought) => Ok(brought),
            Err(_) => Err(ImportFault::Memory),
        },
    }
}

// The keys that these entries have of a realm.
fn brought_of(
    alloc: Global,
    entries: Vec<KeytabEntry>,
    realm: &[u8],
    iterations: u32,
) -> Result<KeytabImport, AllocError>
    ensures entries { IfOk result (λ b. b.entries.items ≡ entries.items) }
    ensures service { IfOk result (λ b.
        AreServiceKeys realm.now b.entries.items b.service.items) }
    ensures principals { IfOk result (λ b.
        ArePrincipals realm.now iterations b.entries.items b.principals.items) }
    ensures sorted { IfOk result (λ b.
        IsStrictlySortedBy name_cmp (map (λ row. row.name) b.principals.items)) }
    ensures left { IfOk result (λ b.
        b.left.items ≡ left_out realm.now b.entries.items b.service.items b.principals.items) }
    ensures service_fits { IfOk result (λ b. service_fits b.service.items ≡ true) }
    ensures principals_fit { is_in iteration_counts iterations ≡ true
        → IfOk result (λ b. principals_fit b.principals.items ≡ true) }
{
    let table = table_of(alloc, realm, entries.as_slice())?;
    let service = service_of(alloc, &table.found)?;
    let principals = principals_of(alloc, &table, iterations)?;
    let used = UsableKeys {
        table: &table,
        service: service.as_slice(),
        principals: principals.as_slice(),
    };
    let left = left_of(alloc, realm, entries.as_slice(), &used)?;
    Ok(KeytabImport {
        entries,
        service,
        principals,
        left,
    })
}
