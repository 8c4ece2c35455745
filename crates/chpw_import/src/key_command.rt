//! The command `key`: a principal's keys of a password.
ghost use Rattle.std.specs.Prelude.{◌≡◌, ◌⊎◌, List, ℕ, true, IfOk, IfErr, OnOk, Some};
ghost use Rattle.std.specs.Io.KnownBytes.{Appends};
ghost use Rattle.chpw_rules.specs.Fitting.{principal_fits};
ghost use Rattle.chpw_rules.specs.Names.{is_name, name_of as name_in};
ghost use Rattle.chpw_import.specs.Faults.{IsEarly, IsLate, IsOfKey, IsOfName, IsOfPassword, IsUnread};
ghost use Rattle.chpw_import.specs.Stanzas.{Keys, WritesKey, key_row, note_of};

use crate::fault::KeysFault;
use crate::numbers::KeyNumbers;
use crate::output::{ErrorWriter, read_file, stanzas, write_text};
use crate::password::{has_carriage_return, password_in, password_row};
use chpw_invocation::KeyOptions;
use chpw_rules::{Name, PrincipalRow};
use std::alloc::Global;
use std::fs::Files;
use std::io::{self, Write};

/// `key` with standard output and standard error.
pub fn tell_password<'a, R: Files + Print + Eprint + AllocGlobal>(
    rt: &R,
    options: KeyOptions<'a>,
) -> Result<(), KeysFault<'a>>
    ensures fault { IfErr result (IsOfKey options.entry) }
{
    key(rt, options, &mut io::writer(rt), &mut ErrorWriter { rt })
}

/// Writes the stanza of the principal with the keys of the password in a file, and a line to `notes` if a carriage
/// return at its end was ignored. The name is checked first, and then the file is read; if either has a fault nothing
/// is written.
pub fn key<'a, R: Files + AllocGlobal, W: Write, E: Write>(
    rt: &R,
    options: KeyOptions<'a>,
    writer: &mut W,
    notes: &mut E,
) -> Result<(), KeysFault<'a>>
    ensures written { OnOk result ((bytes : List ℕ) × Keys options.entry bytes
        (W.contents writer.old) (W.contents writer.new) (E.contents notes.old) (E.contents notes.new)) }
    ensures fault { IfErr result (IsOfKey options.entry) }
    ensures unchanged { IfErr result (λ fault. IsEarly fault → (writer.new ≡ writer.old) × (notes.new ≡ notes.old)) }
{
    let name = name_of(rt.alloc(), options.name)?;
    let bytes = read_file(rt, options.password_file)?;
    write_password(rt.alloc(), options, name, bytes.as_slice(), writer, notes)
}

/// Writes the stanza of the principal with this name whose keys are those of the password in the bytes of its file, and
/// a line to `notes` if they end with a carriage return and a newline. If they have no password nothing is written.
pub fn write_password<'a, W: Write, E: Write>(
    alloc: Global,
    options: KeyOptions<'a>,
    name: Name,
    bytes: &[u8],
    writer: &mut W,
    notes: &mut E,
) -> Result<(), KeysFault<'a>>
    ensures written { OnOk result (WritesKey options.entry name bytes.now
        (W.contents writer.old) (W.contents writer.new) (E.contents notes.old) (E.contents notes.new)) }
    ensures fault { IfErr result (λ fault. IsOfPassword options.entry.password_file.now bytes.now fault ⊎ IsLate fault) }
    ensures unchanged { IfErr result (λ fault. IsEarly fault → (writer.new ≡ writer.old) × (notes.new ≡ notes.old)) }
{
    let Some(password) = password_in(bytes) else {
        return Err(KeysFault::EmptyPassword(options.password_file));
    };
    let row = row_of(alloc, options, name, password)?;
    let text = stanzas(alloc, &[], &[row])?;
    write_text(text.as_bytes(), writer)?;
    write_note(alloc, options.password_file, bytes, notes)
}

// Writes a line if a carriage return at the end of the file's bytes was ignored.
fn write_note<'a, E: Write>(
    alloc: Global,
    file: &str,
    bytes: &[u8],
    notes: &mut E,
) -> Result<(), KeysFault<'a>>
    ensures written { OnOk result (Appends (E.contents notes.old) (E.contents notes.new) (note_of file.now bytes.now)) }
    ensures fault { IfErr result IsLate }
    ensures late { IfErr result (λ fault. ¬ (IsEarly fault)) }
{
    if !has_carriage_return(bytes) {
        return Ok(());
    }
    match format!(in alloc; "{file}: a carriage return at the end is ignored\n") {
        Ok(line) => write_text(line.as_bytes(), notes),
        Err(_) => Err(KeysFault::CannotPrint),
    }
}

fn name_of<'a>(alloc: Global, text: &str) -> Result<Name, KeysFault<'a>>
    ensures value { IfOk result (λ name. name_in text.now ≡ Some name) }
    ensures fits { IfOk result (λ name. is_name name ≡ true) }
    ensures fault { IfErr result (IsOfName text.now) }
{
    match Name::parse(alloc, text) {
        Ok(Some(name)) => Ok(name),
        Ok(_) => Err(KeysFault::BadName),
        Err(_) => Err(KeysFault::Memory),
    }
}

fn row_of<'a>(
    alloc: Global,
    options: KeyOptions<'a>,
    name: Name,
    password: &[u8],
) -> Result<PrincipalRow, KeysFault<'a>>
    ensures value { IfOk result (λ row. row ≡ key_row options.entry name password.now) }
    ensures fits { is_name name ≡ true → IfOk result (λ row. principal_fits row ≡ true) }
    ensures fault { IfErr result IsLate }
    ensures memory { IfErr result (λ fault. fault ≡ KeysFault.Memory) }
{
    let numbers = KeyNumbers {
        kvno: options.kvno,
        iterations: options.iterations,
    };
    match password_row(alloc, options.realm.as_bytes(), name, password, numbers) {
        Ok(row) => Ok(row),
        Err(_) => Err(KeysFault::Memory),
    }
}
