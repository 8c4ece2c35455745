//! The line of an update from the KDC.
ghost use Rattle.std.specs.Prelude.{◌≡◌, ◌++◌, ◌<◌, true, IfOk, OnOk};
ghost use Rattle.chpw_printing.specs.Quoting.{are_printed};
ghost use Rattle.chpw_table.specs.Times.{IsMoment};
ghost use Rattle.chpw_log.specs.Lines.{IsRecord};
ghost use Rattle.chpw_log.specs.Updates.{name_words, refused_words, taken_words, update_line, update_words, version_words};

use crate::moment::put_moment;
use chpw_printing::{put_name, put_number, put_words};
use chpw_rules::Name;
use chpw_table::{KdcUpdate, Moment, UpdateVerdict};
use std::alloc::{AllocError, Global};

/// The line of an update from the KDC that was decided, with its newline: the moment, `service`, and `adopted NAME kvno N`,
/// `lifted NAME kvno N` or `removed NAME` if it was taken; otherwise `refused`, `adopt`, `lift` or `remove` with the same, and
/// the text of the verdict. No message's line has `service` there.
pub fn write_update(
    alloc: Global,
    moment: Moment,
    update: &KdcUpdate,
    verdict: UpdateVerdict,
) -> Result<Vec<u8>, AllocError>
    requires moment { IsMoment moment }
    requires micros { moment.micros < 1000000 }
    ensures value { IfOk result (λ text. text.items ≡ update_line moment update.now verdict) }
    ensures record { IfOk result (λ text. IsRecord text.items) }
{
    let mut text = Vec::new(alloc);
    put_moment(&mut text, moment)?;
    text.extend_from_slice(b" service ")?;
    put_update(&mut text, update, verdict)?;
    text.push(b'\n')?;
    Ok(text)
}

// Adds what came of it.
fn put_update(
    text: &mut Vec<u8>,
    update: &KdcUpdate,
    verdict: UpdateVerdict,
) -> Result<(), AllocError>
    ensures value { OnOk result (text.new.items ≡ text.old.items ++ update_words update.now verdict) }
    ensures printed { OnOk result (are_printed (update_words update.now verdict) ≡ true) }
{
    if verdict.is_taken() {
        return put_taken(text, update);
    }
    put_refused(text, update)?;
    text.extend_from_slice(b" text ")?;
    put_words(text, verdict.text(update).as_bytes())
}

fn put_taken(text: &mut Vec<u8>, update: &KdcUpdate) -> Result<(), AllocError>
    ensures value { OnOk result (text.new.items ≡ text.old.items ++ taken_words update.now) }
    ensures printed { OnOk result (are_printed (taken_words update.now) ≡ true) }
{
    match update {
        KdcUpdate::Adopt { name, key } => put_version(text, "adopted ", name, u64::from(key.kvno)),
        KdcUpdate::Lift { name, kvno } => put_version(text, "lifted ", name, u64::from(*kvno)),
        KdcUpdate::Remove { name } => put_named(text, "removed ", name),
    }
}

fn put_refused(text: &mut Vec<u8>, update: &KdcUpdate) -> Result<(), AllocError>
    ensures value { OnOk result (text.new.items ≡ text.old.items ++ refused_words update.now) }
    ensures printed { OnOk result (are_printed (refused_words update.now) ≡ true) }
{
    match update {
        KdcUpdate::Adopt { name, key } => put_version(
            text,
            "refused adopt ",
            name,
            u64::from(key.kvno),
        ),
        KdcUpdate::Lift { name, kvno } => put_version(
            text,
            "refused lift ",
            name,
            u64::from(*kvno),
        ),
        KdcUpdate::Remove { name } => put_named(text, "refused remove ", name),
    }
}

// Adds a word, a name and a version.
fn put_version(text: &mut Vec<u8>, word: &str, name: &Name, kvno: u64) -> Result<(), AllocError>
    ensures value { OnOk result (text.new.items ≡ text.old.items ++ version_words word.now name.now kvno) }
    ensures printed { OnOk result (are_printed word.now ≡ true
        → are_printed (version_words word.now name.now kvno) ≡ true) }
{
    put_named(text, word, name)?;
    text.extend_from_slice(b" kvno ")?;
    put_number(text, kvno)
}

// Adds a word and a name.
fn put_named(text: &mut Vec<u8>, word: &str, name: &Name) -> Result<(), AllocError>
    ensures value { OnOk result (text.new.items ≡ text.old.items ++ name_words word.now name.now) }
    ensures printed { OnOk result (are_printed word.now ≡ true
        → are_printed (name_words word.now name.now) ≡ true) }
{
    text.extend_from_slice(word.as_bytes())?;
    put_name(text, name)
}
