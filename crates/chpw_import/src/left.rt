//! Skipped entries, and the lines about them.
ghost use Rattle.std.specs.Prelude.{◌≡◌, ◌++◌, IfOk, OnOk};
ghost use Rattle.std.specs.Option.{option_copied};
ghost use Rattle.chpw_import.specs.LeftLines.{entry_text, left_lines, left_text, length_text, line_of, reason_text, told, unpaired_text, words_of};

use crate::counts::put_counts;
use crate::entries::name_of;
use crate::keytab::KeytabImport;
use chpw_printing::{put_number, put_principal, put_signed};
use krb_keytab::KeytabEntry;
use std::alloc::{AllocError, Global};

/// Why an entry is skipped, in the order of the checks.
#[derive(Clone, Copy, Drop)]
pub enum Reason {
    /// It is of another realm.
    OtherRealm,
    /// No configuration can have its name.
    BadName,
    /// Its kvno is 0.
    NoVersion,
    /// It is of another encryption type than 17 and 18.
    OtherType,
    /// Its key has another length than its encryption type's.
    KeyLength,
    /// A later entry has the same name, kvno and encryption type.
    Repeated,
    /// It is older than the newest version of its name that isn't used.
    BehindGap,
    /// Its version has no key of the other encryption type.
    Unpaired,
    /// There is already the greatest number of principals.
    TooManyPrincipals,
    /// Its principal, or the service, already has the greatest number of keys.
    TooManyKeys,
}

/// A skipped entry: the index-th of the file, from 0.
#[derive(Clone, Copy, Drop)]
pub struct SkippedEntry {
    pub index: usize,
    pub why: Reason,
}

/// A line for each skipped entry, after the file's name, and one with the numbers of those that are imported and of
/// those that aren't.
pub fn told_of(alloc: Global, file: &str, brought: &KeytabImport) -> Result<Vec<u8>, AllocError>
    ensures value { IfOk result (λ text. text.items ≡ told file.now brought.now) }
{
    let mut text = left_text(alloc, file, brought)?;
    let left = brought.left.len();
    put_counts(&mut text, brought.entries.len().saturating_sub(left), left)?;
    Ok(text)
}

// A line for each skipped entry, after the file's name.
fn left_text(alloc: Global, file: &str, brought: &KeytabImport) -> Result<Vec<u8>, AllocError>
    ensures value { IfOk result (λ text.
        text.items ≡ left_lines file.now brought.now.entries.items brought.now.left.items) }
{
    let mut text = Vec::new(alloc);
    let mut left = brought.left.as_slice();
    while let [first, rest @ ..] = left {
        put_line(
            &mut text,
            file,
            brought.entries.as_slice().get(first.index),
            first.why,
        )?;
        left = rest;
    }
    Ok(text)
}

// The line of this entry.
fn put_line(
    text: &mut Vec<u8>,
    file: &str,
    entry: Option<&KeytabEntry>,
    why: Reason,
) -> Result<(), AllocError>
    ensures value { OnOk result (text.new.items ≡ text.old.items ++ line_of file.now why (option_copied entry.entry)) }
{
    let Some(entry) = entry else {
        return Ok(());
    };
    text.extend_from_slice(file.as_bytes())?;
    text.extend_from_slice(b": ")?;
    put_left(text, entry, why)?;
    text.extend_from_slice(b"\n")
}

// The text about a skipped entry.
fn put_left(text: &mut Vec<u8>, entry: &KeytabEntry, why: Reason) -> Result<(), AllocError>
    ensures value { OnOk result (text.new.items ≡ text.old.items ++ left_text entry.now why) }
{
    text.extend_from_slice(b"at ")?;
    put_number(text, entry.place as u64)?;
    text.extend_from_slice(b": skipped: ")?;
    put_entry(text, entry)?;
    text.extend_from_slice(b": ")?;
    put_reason(text, entry, why)
}

// An entry's principal, version and encryption type.
fn put_entry(text: &mut Vec<u8>, entry: &KeytabEntry) -> Result<(), AllocError>
    ensures value { OnOk result (text.new.items ≡ text.old.items ++ entry_text entry.now) }
{
    let name = name_of(*text.allocator(), entry)?;
    put_principal(text, entry.realm.as_slice(), &name)?;
    text.extend_from_slice(b", kvno ")?;
    put_number(text, u64::from(entry.kvno))?;
    text.extend_from_slice(b", etype ")?;
    put_signed(text, i64::from(entry.etype))
}

fn put_reason(text: &mut Vec<u8>, entry: &KeytabEntry, why: Reason) -> Result<(), AllocError>
    ensures value { OnOk result (text.new.items ≡ text.old.items ++ reason_text entry.now why) }
{
    match why {
        Reason::KeyLength => put_length(text, entry.key.len()),
        Reason::Unpaired => text.extend_from_slice(unpaired_text(entry.etype)),
        _ => text.extend_from_slice(words_of(why)),
    }
}

fn put_length(text: &mut Vec<u8>, length: usize) -> Result<(), AllocError>
    ensures value { OnOk result (text.new.items ≡ text.old.items ++ length_text length) }
{
    text.extend_from_slice(b"its key has ")?;
    put_number(text, length as u64)?;
    text.extend_from_slice(b" bytes")
}

// What is missing beside a key of this encryption type.
fn unpaired_text(etype: i16) -> &'static [u8]
    ensures value { result.now ≡ unpaired_text etype }
{
    if etype == 17 {
        b"no key of etype 18 has its kvno"
    } else {
        b"no key of etype 17 has its kvno"
    }
}

fn words_of(why: Reason) -> &'static [u8]
    ensures value { result.now ≡ words_of why }
{
    match why {
        Reason::KeyLength | Reason::Unpaired => b"",
        Reason::OtherRealm => b"another realm",
        Reason::BadName => {
            b"a name has 1 to 8 components of 1 to 128 bytes, in UTF-8 and without a /"
        }
        Reason::NoVersion => b"a version is at least 1",
        Reason::OtherType => b"only 17 and 18 can be used",
        Reason::Repeated => b"a later entry has the same name, kvno and etype",
        Reason::BehindGap => b"older than a version that is missing or skipped",
        Reason::TooManyKeys => b"there are 16 keys already",
        Reason::TooManyPrincipals => b"there are 10000 principals already",
    }
}
