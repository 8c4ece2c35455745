//! Cases of the command line, a line each: its words, the program's name first, with a space between two of them.
//!
//! The answer is what they ask for; or the first lines of the text that says why they ask for no command, as a text in
//! quotes.

mod showing;

use crate::invocation::showing::invocation_text;
use chpw_invocation::command_of;
use std::alloc::{AllocError, Global};
use std::io;

/// The answer to a case.
pub fn answer(alloc: Global, case: &str) -> io::Result<String> {
    let words = words_of(alloc, case)?;
    let asked = command_of(alloc, &words);
    let text = match &asked {
        Ok(invocation) => invocation_text(alloc, invocation),
        Err(error) => {
            let said = error.to_string(alloc)?;
            let (lines, _) = said
                .as_str()
                .split_once("\n\n")
                .unwrap_or((said.as_str(), ""));
            format!(in alloc; "{:?}", lines.trim_end())
        }
    };
    drop(asked);
    Ok(text?)
}

fn words_of(alloc: Global, line: &str) -> Result<Vec<String>, AllocError> {
    let mut words = Vec::new(alloc);
    for word in line.split(' ') {
        words.push(String::from_str(alloc, word)?)?;
    }
    Ok(words)
}
