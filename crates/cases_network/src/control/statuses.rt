//! Statuses: the whole answer.

ghost use Rattle.std.specs.Prelude.{◌≡◌, ◌<◌, true, IfOk};
ghost use Rattle.std.specs.Option.{ForSome};
ghost use Rattle.chpw_control.specs.Statuses.{AreTold, IsTold};

use crate::control::words::{escaped_text, repeated_bytes};
use crate::words::parsed;
use chpw_control::{JournalState, KdcState, NameState, Status, Time, status_answer};
use std::alloc::Global;
use support_cases::{Fault, text_of};

/// The first second and the last that can be printed.
const FIRST: i64 = -62_167_219_200;

const LAST: i64 = 253_402_300_799;

/// How many numbers a status has beside its times.
const COUNTS: usize = 19;

/// The answer to VERSION SINCE QUIET FAILURE JOURNAL-NAME LOG-NAME KDC KDC-SINCE REFUSED NUMBER ..
pub fn status_text(alloc: Global, values: &[&str]) -> Result<String, Fault> {
    let [
        version,
        since,
        quiet,
        failure,
        journal_name,
        log_name,
        kdc,
        kdc_since,
        refused,
        counts @ ..,
    ] = values
    else {
        return Err(Fault::NoSuchCase);
    };
    let status = Status {
        since: time(since)?,
        quiet_until: time_if_any(quiet)?,
        journal_name: name_state(journal_name)?,
        log_name: name_state(log_name)?,
        kdc: kdc_state(kdc)?,
        kdc_since: time_if_any(kdc_since)?,
        ..status_of(&numbers(counts)?)
    };
    with_texts(alloc, &status, version, failure, refused)
}

/// The answer with the texts of these words, `-` for no failure and for no refusal.
fn with_texts(
    alloc: Global,
    status: &Status<'_>,
    version: &str,
    failure: &str,
    refused: &str,
) -> Result<String, Fault>
    requires times { AreTold status.now }
{
    let version = repeated_bytes(alloc, version)?;
    let why = repeated_bytes(alloc, failure)?;
    let name = repeated_bytes(alloc, refused)?;
    let journal = match failure {
        "-" => JournalState::Good,
        _ => JournalState::Failed(text_of(&why)),
    };
    let status = Status {
        version: text_of(&version),
        journal,
        kdc_refused: (refused != "-").then_some(name.as_slice()),
        ..*status
    };
    let answer = status_answer(alloc, &status)?;
    Ok(escaped_text(alloc, &answer)?)
}

/// A status with these numbers, in the order of its fields.
fn status_of(counts: &[u64; COUNTS]) -> Status<'static> {
    Status {
        version: "",
        since: Time {
            seconds: 0,
            micros: 0,
        },
        quiet_until: None,
        principals: counts[0],
        iterations: counts[1],
        entries: counts[2],
        changes: counts[3],
        all_entries: counts[4],
        all_changes: counts[5],
        connections: counts[6],
        reading: counts[7],
        waiting: counts[8],
        answering: counts[9],
        confirming: counts[10],
        writing: counts[11],
        ending: counts[12],
        workers: counts[13],
        busy: counts[14],
        queue: counts[15],
        journal_bytes: counts[16],
        journal: JournalState::Good,
        journal_name: NameState::Absent,
        log_lost: counts[17],
        log_name: NameState::Absent,
        kdc: KdcState::Absent,
        kdc_since: None,
        kdc_behind: counts[18],
        kdc_refused: None,
    }
}

fn numbers(words: &[&str]) -> Result<[u64; COUNTS], Fault> {
    let mut numbers = [0; COUNTS];
    if words.len() != COUNTS {
        return Err(Fault::NoSuchCase);
    }
    for (slot, word) in numbers.iter_mut().zip(words) {
        *slot = parsed(word)?;
    }
    Ok(numbers)
}

// SECONDS.MICROS
fn time(word: &str) -> Result<Time, Fault>
    ensures told { IfOk result IsTold }
{
    let (seconds, micros) = word.split_once('.').unwrap_or((word, ""));
    let (seconds, micros) = (parsed(seconds)?, parsed(micros)?);
    if seconds < FIRST || seconds > LAST || micros >= 1_000_000 {
        return Err(Fault::NoSuchCase);
    }
    Ok(Time { seconds, micros })
}

fn time_if_any(word: &str) -> Result<Option<Time>, Fault>
    ensures told { IfOk result (λ time. ForSome time IsTold) }
{
    if word == "-" {
        return Ok(None);
    }
    Ok(Some(time(word)?))
}

fn name_state(word: &str) -> Result<NameState, Fault> {
    match word {
        "Absent" => Ok(NameState::Absent),
        "Kept" => Ok(NameState::Kept),
        "Gone" => Ok(NameState::Gone),
        "Elsewhere" => Ok(NameState::Elsewhere),
        _ => Err(Fault::NoSuchCase),
    }
}

fn kdc_state(word: &str) -> Result<KdcState, Fault> {
    match word {
        "Absent" => Ok(KdcState::Absent),
        "Connected" => Ok(KdcState::Connected),
        "Down" => Ok(KdcState::Down),
        _ => Err(Fault::NoSuchCase),
    }
}
