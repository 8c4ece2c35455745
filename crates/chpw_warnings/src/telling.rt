//! Warnings as they are printed.
ghost use Rattle.std.specs.Prelude.{◌≡◌, ◌++◌, OnOk};
ghost use Rattle.std.specs.Fmt.{decimal};
ghost use Rattle.chpw_warnings.specs.Lines.{doubt_words, everybody_text, file_lines, name_text, party_word, place_text, unread_text, warning_text};

use crate::warning::{Doubt, Party, Place, Warning};
use chpw_printing::{put_name, put_number, put_quoted};
use chpw_rules::Name;
use std::alloc::AllocError;

/// Adds a line for each warning, behind the file's name.
pub fn put_file_warnings(
    text: &mut Vec<u8>,
    file: &str,
    warnings: &[Warning],
) -> Result<(), AllocError>
    ensures value { OnOk result (text.new.items ≡ text.old.items ++ file_lines file.now warnings.now) }
{
    let mut others = warnings;
    while let [warning, rest @ ..] = others {
        text.extend_from_slice(file.as_bytes())?;
        text.extend_from_slice(b": ")?;
        put_warning(text, warning)?;
        text.extend_from_slice(b"\n")?;
        others = rest;
    }
    Ok(())
}

/// Adds a warning as it is printed, without the end of a line: `rule 2: actor amdin: no such principal yet`.
pub fn put_warning(text: &mut Vec<u8>, warning: &Warning) -> Result<(), AllocError>
    ensures value { OnOk result (text.new.items ≡ text.old.items ++ warning_text warning.now) }
{
    match warning {
        Warning::Unread { place, key } => put_unread(text, *place, key.as_slice()),
        Warning::Named {
            rule,
            party,
            name,
            doubt,
        } => {
            put_place(text, Place::Rule(*rule))?;
            put_doubt(text, *party, name, *doubt)
        }
        Warning::Everybody { rule, actor } => {
            put_place(text, Place::Rule(*rule))?;
            put_everybody(text, actor)
        }
    }
}

// A setting that nothing reads.
fn put_unread(text: &mut Vec<u8>, place: Place, key: &[u8]) -> Result<(), AllocError>
    ensures value { OnOk result (text.new.items ≡ text.old.items ++ unread_text place key.now) }
{
    put_place(text, place)?;
    text.extend_from_slice(b": nothing reads ")?;
    put_quoted(text, key)
}

// A rule for everybody.
fn put_everybody(text: &mut Vec<u8>, actor: &Name) -> Result<(), AllocError>
    ensures value { OnOk result (text.new.items ≡ text.old.items ++ everybody_text actor.now) }
{
    text.extend_from_slice(b": ")?;
    put_name(text, actor)?;
    text.extend_from_slice(b" may set everybody's password")?;
    Ok(())
}

// A name of a rule, and why it is in doubt.
fn put_doubt(text: &mut Vec<u8>, party: Party, name: &Name, doubt: Doubt) -> Result<(), AllocError>
    ensures value { OnOk result (text.new.items ≡ text.old.items ++ name_text party name.now doubt) }
{
    text.extend_from_slice(b": ")?;
    text.extend_from_slice(word_of(party))?;
    text.extend_from_slice(b" ")?;
    put_name(text, name)?;
    text.extend_from_slice(words_of(doubt))
}

fn word_of(party: Party) -> &'static [u8]
    ensures value { result.now ≡ party_word party }
{
    match party {
        Party::Actor => b"actor",
        Party::Target => b"target",
    }
}

fn words_of(doubt: Doubt) -> &'static [u8]
    ensures value { result.now ≡ doubt_words doubt }
{
    match doubt {
        Doubt::Realm => b" has an @: names here have no realm",
        Doubt::Unknown => b": no such principal yet",
    }
}

// Where it is, in the words of a configuration's faults.
fn put_place(text: &mut Vec<u8>, place: Place) -> Result<(), AllocError>
    ensures value { OnOk result (text.new.items ≡ text.old.items ++ place_text place) }
{
    match place {
        Place::File => text.extend_from_slice(b"the file"),
        Place::Service => text.extend_from_slice(b"[service]"),
        Place::ServiceKey(number) => put_numbered(text, b"service key ", number),
        Place::Policy => text.extend_from_slice(b"[policy]"),
        Place::Rule(number) => put_numbered(text, b"rule ", number),
        Place::Principal(number) => put_numbered(text, b"principal ", number),
        Place::PrincipalKey { principal, key } => {
            put_numbered(text, b"principal ", principal)?;
            put_numbered(text, b", key ", key)
        }
        Place::Kdc => text.extend_from_slice(b"[kdc]"),
    }
}

// Words and a number.
fn put_numbered(text: &mut Vec<u8>, words: &[u8], number: usize) -> Result<(), AllocError>
    ensures value { OnOk result (text.new.items ≡ text.old.items ++ (words.now ++ decimal number)) }
{
    text.extend_from_slice(words)?;
    put_number(text, number as u64)
}
