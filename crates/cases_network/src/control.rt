//! Cases of chpw_control, a line each; what each gives is printed. README.md lists their kinds.

mod answers;
mod dialogs;
mod statuses;
mod words;

use std::alloc::Global;
use support_cases::Fault;

/// The answer to a case.
pub fn answer(alloc: Global, case: &str) -> Result<String, Fault> {
    let words: Vec<&str> = case.split(' ').collect(alloc)?;
    match words.as_slice() {
        ["hear", events @ ..] => dialogs::dialog_text(alloc, events),
        ["status", values @ ..] => statuses::status_text(alloc, values),
        [kind, text] => answers::answer(alloc, kind, text),
        _ => Err(Fault::NoSuchCase),
    }
}
