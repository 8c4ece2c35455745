//! The lines of the answer to `status`.
ghost use Rattle.std.specs.Prelude.{◌≡◌, ◌++◌, ◌∷◌, [], codes, true, false, IfOk, OnOk, option_map};
ghost use Rattle.std.specs.Fmt.{decimal};
ghost use Rattle.std.specs.Option.{ForSome, option_map_or};
ghost use Rattle.chpw_printing.specs.Quoting.{words_text};
ghost use Rattle.chpw_control.specs.Answers.{lines_text, ok_line};
ghost use Rattle.chpw_control.specs.Dialogs.{is_whole};
ghost use Rattle.chpw_control.specs.Endings.{are_lines};
ghost use Rattle.chpw_control.specs.Statuses.{AreTold, IsTold, connection_lines, history_lines, kdc_lines, keeping_lines};
ghost use Rattle.chpw_control.specs.Statuses.{journal_text, quiet_words, refused_text, row, service_lines, status_lines, text_of, worker_lines};

use crate::answer::put_ok;
use crate::status::{JournalState, Status};
use crate::time::Time;
use chpw_printing::{put_number, put_time, put_words};
use std::alloc::{AllocError, Global};

/// The whole answer to `status`: the lines of the status, and `ok`.
pub fn status_answer(alloc: Global, status: &Status<'_>) -> Result<Vec<u8>, AllocError>
    requires times { AreTold status.now }
    ensures value { IfOk result (λ text. text.items ≡ lines_text (status_lines status.now ++ ok_line ∷ [])) }
    ensures lines { IfOk result (λ _. are_lines (status_lines status.now) ≡ true) }
{
    let mut text = Vec::new(alloc);
    put_service(&mut text, status)?;
    put_history(&mut text, status)?;
    put_connections(&mut text, status)?;
    put_workers(&mut text, status)?;
    put_keeping(&mut text, status)?;
    put_kdc(&mut text, status)?;
    put_ok(&mut text)?;
    Ok(text)
}

fn put_service(text: &mut Vec<u8>, status: &Status<'_>) -> Result<(), AllocError>
    requires times { AreTold status.now }
    ensures value { OnOk result (text.new.items ≡ text.old.items ++ lines_text (service_lines status.now)) }
    ensures lines { OnOk result (are_lines (service_lines status.now) ≡ true) }
{
    put_version(text, status.version)?;
    put_since(text, status.since)?;
    put_moment(text, "quiet-until", status.quiet_until)?;
    put_word(text, "quiet-reason", quiet_words(status.quiet_until))?;
    put_count(text, "principals", status.principals)?;
    put_count(text, "iterations", status.iterations)
}

fn put_history(text: &mut Vec<u8>, status: &Status<'_>) -> Result<(), AllocError>
    ensures value { OnOk result (text.new.items ≡ text.old.items ++ lines_text (history_lines status.now)) }
    ensures lines { OnOk result (are_lines (history_lines status.now) ≡ true) }
{
    put_count(text, "entries", status.entries)?;
    put_count(text, "changes", status.changes)?;
    put_count(text, "all-entries", status.all_entries)?;
    put_count(text, "all-changes", status.all_changes)
}

fn put_connections(text: &mut Vec<u8>, status: &Status<'_>) -> Result<(), AllocError>
    ensures value { OnOk result (text.new.items ≡ text.old.items ++ lines_text (connection_lines status.now)) }
    ensures lines { OnOk result (are_lines (connection_lines status.now) ≡ true) }
{
    put_count(text, "connections", status.connections)?;
    put_count(text, "reading", status.reading)?;
    put_count(text, "waiting", status.waiting)?;
    put_count(text, "answering", status.answering)?;
    put_count(text, "confirming", status.confirming)?;
    put_count(text, "writing", status.writing)?;
    put_count(text, "ending", status.ending)
}

fn put_workers(text: &mut Vec<u8>, status: &Status<'_>) -> Result<(), AllocError>
    ensures value { OnOk result (text.new.items ≡ text.old.items ++ lines_text (worker_lines status.now)) }
    ensures lines { OnOk result (are_lines (worker_lines status.now) ≡ true) }
{
    put_count(text, "workers", status.workers)?;
    put_count(text, "busy", status.busy)?;
    put_count(text, "queue", status.queue)
}

fn put_keeping(text: &mut Vec<u8>, status: &Status<'_>) -> Result<(), AllocError>
    ensures value { OnOk result (text.new.items ≡ text.old.items ++ lines_text (keeping_lines status.now)) }
    ensures lines { OnOk result (are_lines (keeping_lines status.now) ≡ true) }
{
    put_count(text, "journal-bytes", status.journal_bytes)?;
    put_journal(text, status.journal)?;
    put_word(text, "journal-name", status.journal_name.word())?;
    put_count(text, "log-lost", status.log_lost)?;
    put_word(text, "log-name", status.log_name.word())
}

fn put_kdc(text: &mut Vec<u8>, status: &Status<'_>) -> Result<(), AllocError>
    requires times { AreTold status.now }
    ensures value { OnOk result (text.new.items ≡ text.old.items ++ lines_text (kdc_lines status.now)) }
    ensures lines { OnOk result (are_lines (kdc_lines status.now) ≡ true) }
{
    put_word(text, "kdc", status.kdc.word())?;
    put_moment(text, "kdc-since", status.kdc_since)?;
    put_count(text, "kdc-behind", status.kdc_behind)?;
    put_refused(text, status.kdc_refused)
}

fn put_version(text: &mut Vec<u8>, version: &str) -> Result<(), AllocError>
    ensures value { OnOk result (text.new.items
        ≡ text.old.items ++ lines_text (row (codes "version") (words_text version.now) ∷ [])) }
    ensures plain { OnOk result (is_whole (words_text version.now) ≡ false) }
{
    text.extend_from_slice(b"version ")?;
    put_words(text, version.as_bytes())?;
    text.push(b'\n')?;
    Ok(())
}

// Puts the line of the start at the end.
fn put_since(text: &mut Vec<u8>, time: Time) -> Result<(), AllocError>
    requires time { IsTold time }
    ensures value { OnOk result (text.new.items
        ≡ text.old.items ++ lines_text (row (codes "since") (text_of time) ∷ [])) }
    ensures plain { OnOk result (is_whole (text_of time) ≡ false) }
{
    text.extend_from_slice(b"since ")?;
    put_told(text, time)?;
    text.push(b'\n')?;
    Ok(())
}

// Puts the line of a time at the end, or of `-`.
fn put_moment(text: &mut Vec<u8>, name: &str, time: Option<Time>) -> Result<(), AllocError>
    requires time { ForSome time IsTold }
    ensures value { OnOk result (text.new.items
        ≡ text.old.items ++ lines_text (row name.now (option_map_or text_of time (codes "-")) ∷ [])) }
    ensures plain { OnOk result (is_whole (option_map_or text_of time (codes "-")) ≡ false) }
{
    text.extend_from_slice(name.as_bytes())?;
    text.push(b' ')?;
    put_until(text, time)?;
    text.push(b'\n')?;
    Ok(())
}

// Why requests are refused while a quiet time lasts, up to this moment; `-` without one.
fn quiet_words(until: Option<Time>) -> &'static str
    ensures value { result.now ≡ quiet_words until }
{
    match until {
        None => "-",
        Some(_) => "requests are refused after a start; the clients' clocks are not at fault",
    }
}

// Puts the line of the journal's state at the end.
fn put_journal(text: &mut Vec<u8>, journal: JournalState<'_>) -> Result<(), AllocError>
    ensures value { OnOk result (text.new.items
        ≡ text.old.items ++ lines_text (row (codes "journal") (journal_text journal.entry) ∷ [])) }
    ensures plain { OnOk result (is_whole (journal_text journal.entry) ≡ false) }
{
    text.extend_from_slice(b"journal ")?;
    put_journal_state(text, journal)?;
    text.push(b'\n')?;
    Ok(())
}

// Puts the journal's state at the end.
fn put_journal_state(text: &mut Vec<u8>, journal: JournalState<'_>) -> Result<(), AllocError>
    ensures value { OnOk result (text.new.items ≡ text.old.items ++ journal_text journal.entry) }
    ensures plain { OnOk result (is_whole (journal_text journal.entry) ≡ false) }
{
    match journal {
        JournalState::Good => text.extend_from_slice(b"good"),
        JournalState::Failed(why) => put_failure(text, why),
    }
}

// Puts `failed` and the reason at the end.
fn put_failure(text: &mut Vec<u8>, why: &str) -> Result<(), AllocError>
    ensures value { OnOk result (text.new.items ≡ text.old.items ++ (codes "failed: " ++ words_text why.now)) }
    ensures plain { OnOk result (is_whole (words_text why.now) ≡ false) }
{
    text.extend_from_slice(b"failed: ")?;
    put_words(text, why.as_bytes())
}

// Puts the line of the last refusal at the end, or of `-`.
fn put_refused(text: &mut Vec<u8>, refused: Option<&[u8]>) -> Result<(), AllocError>
    ensures value { OnOk result (text.new.items
        ≡ text.old.items ++ lines_text (row (codes "kdc-refused") (refused_text (option_map (λ text. text.now) refused.entry)) ∷ [])) }
    ensures plain { OnOk result (is_whole (refused_text (option_map (λ text. text.now) refused.entry)) ≡ false) }
{
    text.extend_from_slice(b"kdc-refused ")?;
    put_words_or_none(text, refused)?;
    text.push(b'\n')?;
    Ok(())
}

// Puts some words at the end, or `-`.
fn put_words_or_none(text: &mut Vec<u8>, words: Option<&[u8]>) -> Result<(), AllocError>
    ensures value { OnOk result (text.new.items ≡ text.old.items ++ refused_text (option_map (λ text. text.now) words.entry)) }
    ensures plain { OnOk result (is_whole (refused_text (option_map (λ text. text.now) words.entry)) ≡ false) }
{
    match words {
        Some(words) => put_words(text, words),
        None => text.extend_from_slice(b"-"),
    }
}

// Puts a time at the end, or `-`.
fn put_until(text: &mut Vec<u8>, time: Option<Time>) -> Result<(), AllocError>
    requires time { ForSome time IsTold }
    ensures value { OnOk result (text.new.items ≡ text.old.items ++ option_map_or text_of time (codes "-")) }
    ensures plain { OnOk result (is_whole (option_map_or text_of time (codes "-")) ≡ false) }
{
    match time {
        Some(time) => put_told(text, time),
        None => text.extend_from_slice(b"-"),
    }
}

// Puts a time at the end.
fn put_told(text: &mut Vec<u8>, time: Time) -> Result<(), AllocError>
    requires time { IsTold time }
    ensures value { OnOk result (text.new.items ≡ text.old.items ++ text_of time) }
    ensures plain { OnOk result (is_whole (text_of time) ≡ false) }
{
    put_time(text, time.seconds, time.micros)
}

// Puts the line of a number at the end.
fn put_count(text: &mut Vec<u8>, name: &str, number: u64) -> Result<(), AllocError>
    ensures value { OnOk result (text.new.items
        ≡ text.old.items ++ lines_text (row name.now (decimal number) ∷ [])) }
    ensures plain { OnOk result (is_whole (decimal number) ≡ false) }
{
    text.extend_from_slice(name.as_bytes())?;
    text.push(b' ')?;
    put_number(text, number)?;
    text.push(b'\n')?;
    Ok(())
}

// Puts the line of a word at the end.
fn put_word(text: &mut Vec<u8>, name: &str, word: &str) -> Result<(), AllocError>
    ensures value { OnOk result (text.new.items
        ≡ text.old.items ++ lines_text (row name.now word.now ∷ [])) }
{
    text.extend_from_slice(name.as_bytes())?;
    text.push(b' ')?;
    text.extend_from_slice(word.as_bytes())?;
    text.push(b'\n')?;
    Ok(())
}
