//! The line of what a journal says at its fault.
ghost use Rattle.std.specs.Prelude.{◌≡◌, ◌++◌, OnOk, codes};
ghost use Rattle.std.specs.Fmt.{decimal};
ghost use Rattle.chpw_journal.specs.Explaining.{explanation_text, place_text, realms_text, record_text, wanted_text};

use crate::explaining::{Expectation, Explanation, RefusedRecord};
use chpw_printing::{put_name, put_number, put_quoted};
use std::alloc::AllocError;

/// Adds what a journal says at its fault to a text, after the fault itself: `alice: version 5, wanted 4`.
pub fn put_explanation(text: &mut Vec<u8>, explanation: &Explanation) -> Result<(), AllocError>
    ensures value { OnOk result (text.new.items ≡ text.old.items ++ explanation_text explanation.now) }
{
    match explanation {
        Explanation::Record(_, refused) => put_record(text, refused),
        Explanation::Realm(found, held) => put_realms(text, found.as_slice(), held.as_slice()),
    }
}

/// Adds where that is, for a line of its own: `at 8: `. It is nothing where a realm is named.
pub fn put_place(text: &mut Vec<u8>, explanation: &Explanation) -> Result<(), AllocError>
    ensures value { OnOk result (text.new.items ≡ text.old.items ++ place_text explanation.now) }
{
    match explanation {
        Explanation::Record(number, _) => put_record_place(text, *number),
        Explanation::Realm(_, _) => Ok(()),
    }
}

fn put_record_place(text: &mut Vec<u8>, number: u64) -> Result<(), AllocError>
    ensures value { OnOk result (text.new.items ≡ text.old.items ++ (codes "at " ++ (decimal number ++ codes ": "))) }
{
    text.extend_from_slice(b"at ")?;
    put_number(text, number)?;
    text.extend_from_slice(b": ")
}

fn put_record(text: &mut Vec<u8>, refused: &RefusedRecord) -> Result<(), AllocError>
    ensures value { OnOk result (text.new.items ≡ text.old.items ++ record_text refused.now) }
{
    put_name(text, &refused.name)?;
    text.extend_from_slice(b": version ")?;
    put_number(text, u64::from(refused.kvno))?;
    put_wanted(text, refused.wanted)
}

fn put_wanted(text: &mut Vec<u8>, wanted: Expectation) -> Result<(), AllocError>
    ensures value { OnOk result (text.new.items ≡ text.old.items ++ wanted_text wanted) }
{
    match wanted {
        Expectation::Version(version) => put_version(text, b", wanted ", version),
        Expectation::Above(version) => put_version(
            text,
            b", wanted one above ",
            u64::from(version),
        ),
        Expectation::Principal => text.extend_from_slice(
            b", but no such principal in the configuration, or removed before this record",
        ),
        Expectation::Room => {
            text.extend_from_slice(b", but there are as many principals as there may be")
        }
    }
}

fn put_version(text: &mut Vec<u8>, words: &[u8], version: u64) -> Result<(), AllocError>
    ensures value { OnOk result (text.new.items ≡ text.old.items ++ (words.now ++ decimal version)) }
{
    text.extend_from_slice(words)?;
    put_number(text, version)
}

fn put_realms(text: &mut Vec<u8>, found: &[u8], held: &[u8]) -> Result<(), AllocError>
    ensures value { OnOk result (text.new.items ≡ text.old.items ++ realms_text found.now held.now) }
{
    text.extend_from_slice(b"of realm ")?;
    put_quoted(text, found)?;
    text.extend_from_slice(b", wanted ")?;
    put_quoted(text, held)
}
