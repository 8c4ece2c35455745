//! The command `import`: the keys of a keytab.
ghost use Rattle.std.specs.Prelude.{◌≡◌, ◌⊎◌, false, true, IfOk, IfErr, OnOk, List, ℕ};
ghost use Rattle.std.specs.Io.KnownBytes.{Appends};
ghost use Rattle.chpw_rules.specs.Fitting.{principals_fit, service_fits};
ghost use Rattle.chpw_import.specs.Keytabs.{IsBrought};
ghost use Rattle.chpw_import.specs.Faults.{BringsNone, IsEarly, IsLate, IsNone, IsOfBytes, IsOfImport, brings_none};
ghost use Rattle.chpw_import.specs.LeftLines.{told};
ghost use Rattle.chpw_import.specs.Stanzas.{AppendsRows, Imports};

use crate::fault::KeysFault;
use crate::keytab::{ImportFault, KeytabImport, bring_in};
use crate::left::told_of;
use crate::output::{ErrorWriter, read_file, stanzas, write_text};
use chpw_invocation::ImportOptions;
use std::alloc::Global;
use std::fs::Files;
use std::io::{self, Write};

/// `import` with standard output and standard error.
pub fn tell_keytab<'a, R: Files + Print + Eprint + AllocGlobal>(
    rt: &R,
    options: ImportOptions<'a>,
) -> Result<(), KeysFault<'a>>
    ensures fault { IfErr result (IsOfImport options.entry) }
{
    import(rt, options, &mut io::writer(rt), &mut ErrorWriter { rt })
}

/// Writes the stanzas for the keys that a keytab has of the realm, and then a line for each skipped entry and one with
/// both numbers to `left`. If the file can't be read, or has a fault, nothing is written. If no key is imported, that is
/// a fault once the lines are written.
#[tactic(auto, using(crate::proofs::ImportLemmas::import_fault))]
pub fn import<'a, R: Files + AllocGlobal, W: Write, E: Write>(
    rt: &R,
    options: ImportOptions<'a>,
    writer: &mut W,
    left: &mut E,
) -> Result<(), KeysFault<'a>>
    ensures written { OnOk result ((bytes : List ℕ) × Imports options.entry bytes
        (W.contents writer.old) (W.contents writer.new) (E.contents left.old) (E.contents left.new)) }
    ensures fault { IfErr result (IsOfImport options.entry) }
    ensures unchanged { IfErr result (λ fault. IsEarly fault → (writer.new ≡ writer.old) × (left.new ≡ left.old)) }
{
    let bytes = read_file(rt, options.keytab)?;
    write_keytab(rt.alloc(), options, bytes.as_slice(), writer, left)
}

/// Writes the stanzas for the keys that a keytab with these bytes has of the realm, and then a line for each skipped
/// entry and one with both numbers to `left`. If the keytab has a fault nothing is written. If no key is imported, that
/// is a fault once the lines are written.
pub fn write_keytab<'a, W: Write, E: Write>(
    alloc: Global,
    options: ImportOptions<'a>,
    bytes: &[u8],
    writer: &mut W,
    left: &mut E,
) -> Result<(), KeysFault<'a>>
    ensures written { OnOk result (Imports options.entry bytes.now
        (W.contents writer.old) (W.contents writer.new) (E.contents left.old) (E.contents left.new)) }
    ensures fault { IfErr result (λ fault. IsOfBytes options.entry.keytab.now bytes.now fault
        ⊎ (BringsNone options.entry bytes.now fault ⊎ IsLate fault)) }
    ensures unchanged { IfErr result (λ fault. IsEarly fault → (writer.new ≡ writer.old) × (left.new ≡ left.old)) }
{
    let brought = brought_in(alloc, bytes, options)?;
    match write_brought(alloc, options.keytab, &brought, writer, left) {
        Ok(()) => Ok(()),
        Err(fault) => Err(fault),
    }
}

// Writes what is imported, and the lines about the rest.
fn write_brought<'a, W: Write, E: Write>(
    alloc: Global,
    file: &'a str,
    brought: &KeytabImport,
    writer: &mut W,
    left: &mut E,
) -> Result<(), KeysFault<'a>>
    ensures written { OnOk result (AppendsRows (W.contents writer.old) (W.contents writer.new)
        brought.now.service.items brought.now.principals.items) }
    ensures told { OnOk result (Appends (E.contents left.old) (E.contents left.new) (told file.entry.now brought.now)) }
    ensures some { OnOk result (brings_none brought.now ≡ false) }
    ensures fault { IfErr result (λ fault. IsNone file.entry.now brought.now fault ⊎ IsLate fault) }
    ensures unchanged { IfErr result (λ fault. IsEarly fault → (writer.new ≡ writer.old) × (left.new ≡ left.old)) }
{
    let text = stanzas(
        alloc,
        brought.service.as_slice(),
        brought.principals.as_slice(),
    )?;
    let Ok(lines) = told_of(alloc, file, brought) else {
        return Err(KeysFault::Memory);
    };
    write_text(text.as_bytes(), writer)?;
    write_text(lines.as_slice(), left)?;
    if brings_none(brought) {
        return Err(KeysFault::NoKey(file));
    }
    Ok(())
}

// Whether neither a key of the service nor one of a principal is imported.
fn brings_none(brought: &KeytabImport) -> bool
    ensures value { result ≡ brings_none brought.now }
{
    brought.service.is_empty() && brought.principals.is_empty()
}

fn brought_in<'a>(
    alloc: Global,
    bytes: &[u8],
    options: ImportOptions<'a>,
) -> Result<KeytabImport, KeysFault<'a>>
    ensures brought { IfOk result (IsBrought bytes.now options.entry.realm.now options.entry.iterations) }
    ensures fits { IfOk result (λ b.
        (service_fits b.service.items ≡ true) × (principals_fit b.principals.items ≡ true)) }
    ensures fault { IfErr result (IsOfBytes options.entry.keytab.now bytes.now) }
{
    match bring_in(alloc, bytes, options.realm.as_bytes(), options.iterations) {
        Ok(brought) => Ok(brought),
        Err(ImportFault::Keytab(fault)) => Err(KeysFault::Keytab(options.keytab, fault)),
        Err(ImportFault::Memory) => Err(KeysFault::Memory),
    }
}
