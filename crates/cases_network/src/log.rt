//! Cases of chpw_log, a line each; the line of the log that each makes is printed. README.md lists their kinds.

mod events;
mod making;
mod messages;
mod updates;
mod words;

use std::alloc::Global;
use support_cases::{Fault, text_of};

/// The line of the log that a case makes, without its newline.
pub fn answer(alloc: Global, case: &str) -> Result<String, Fault> {
    let words: Vec<&str> = case.split(' ').collect(alloc)?;
    let line = match words.as_slice() {
        ["event", rest @ ..] => events::event_line(alloc, rest),
        ["update", rest @ ..] => updates::update_line(alloc, rest),
        words => messages::message_line(alloc, words),
    }?;
    let text = match line.split_last() {
        Some((b'\n', text)) => text_of(text),
        _ => "(no newline)",
    };
    Ok(String::from_str(alloc, text)?)
}
