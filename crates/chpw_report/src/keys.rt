//! A principal's lines for a KDC's tools.
ghost use Rattle.std.specs.Prelude.{◌≡◌, ◌++◌, IfOk, OnOk};
ghost use Rattle.std.specs.List.{flat_map};
ghost use Rattle.chpw_printing.specs.Quoting.{principal_text, quoted};
ghost use Rattle.chpw_report.specs.Reports.{key_line, keys_lines, row_lines, salt_text};

use chpw_printing::{put_after_space, put_hex, put_principal, put_quoted};
use chpw_rules::Name;
use chpw_table::KeyRow;
use std::alloc::{AllocError, Global};

/// What all lines of a principal share, as it is printed.
#[derive(Drop)]
struct PrintedPrincipal {
    /// Its name and its realm, with `@` between them.
    principal: Vec<u8>,
    /// The default salt of its keys.
    salt: Vec<u8>,
}

/// A key as a line has it.
#[derive(Drop)]
struct Key<'a> {
    kvno: u32,
    etype: u32,
    count: u32,
    bytes: &'a [u8],
}

/// Adds the lines of a principal's keys, newest first; for each version the key of etype 18 and then that of etype 17
/// (RFC 3962 section 7).
pub(crate) fn put_keys(
    text: &mut Vec<u8>,
    realm: &[u8],
    name: &Name,
    rows: &[KeyRow],
) -> Result<(), AllocError>
    ensures value { OnOk result (text.new.items ≡ text.old.items ++ keys_lines realm.now name.now rows.now) }
{
    let printed = make_printed(*text.allocator(), realm, name)?;
    let mut others = rows;
    while let [row, rest @ ..] = others {
        put_row(text, &printed, row)?;
        others = rest;
    }
    Ok(())
}

fn make_printed(alloc: Global, realm: &[u8], name: &Name) -> Result<PrintedPrincipal, AllocError>
    ensures principal { IfOk result (λ p. p.principal.items ≡ principal_text realm.now name.now) }
    ensures salt { IfOk result (λ p. p.salt.items ≡ salt_text realm.now name.now) }
{
    let mut principal = Vec::new(alloc);
    put_principal(&mut principal, realm, name)?;
    let mut salt = Vec::new(alloc);
    put_quoted(&mut salt, realm)?;
    put_parts(&mut salt, name)?;
    Ok(PrintedPrincipal { principal, salt })
}

// Adds the components, with nothing between them.
fn put_parts(text: &mut Vec<u8>, name: &Name) -> Result<(), AllocError>
    ensures value { OnOk result (text.new.items
        ≡ text.old.items ++ quoted (flat_map (λ part. part) name.now.parts)) }
{
    let mut parts = name.parts.as_slice();
    while let [part, rest @ ..] = parts {
        put_quoted(text, part.as_slice())?;
        parts = rest;
    }
    Ok(())
}

// Adds both keys of a version.
fn put_row(text: &mut Vec<u8>, printed: &PrintedPrincipal, row: &KeyRow) -> Result<(), AllocError>
    ensures value { OnOk result (text.new.items ≡ text.old.items
        ++ row_lines printed.now.principal.items printed.now.salt.items row.now) }
{
    let newer = Key {
        kvno: row.kvno,
        etype: 18,
        count: row.count,
        bytes: &row.aes256,
    };
    let older = Key {
        kvno: row.kvno,
        etype: 17,
        count: row.count,
        bytes: &row.aes128,
    };
    put_key(text, printed, &newer)?;
    put_key(text, printed, &older)
}

fn put_key(text: &mut Vec<u8>, printed: &PrintedPrincipal, key: &Key) -> Result<(), AllocError>
    ensures value { OnOk result (text.new.items ≡ text.old.items
        ++ key_line printed.now.principal.items printed.now.salt.items
        key.now.kvno key.now.etype key.now.count key.now.bytes.now) }
{
    text.extend_from_slice(&printed.principal)?;
    put_after_space(text, key.kvno)?;
    put_after_space(text, key.etype)?;
    put_after_space(text, key.count)?;
    text.push(b' ')?;
    put_hex(text, key.bytes)?;
    text.push(b' ')?;
    text.extend_from_slice(&printed.salt)?;
    text.push(b'\n')?;
    Ok(())
}
