//! What a journal says at the fault with which a command ended: a second line after the fault's.
ghost use Rattle.std.specs.Prelude.{◌≡◌};
ghost use Rattle.chpw_endings.specs.Reasons.{journal_fault, journal_files};

use crate::ending::Ending;
use crate::reasons::Reason;
use chpw_invocation::{Invocation, command_of};
use chpw_journal::RestoreFault;
use chpw_start::{ServeFault, explain_journal, explanation_line, read_configuration};
use std::alloc::Global;
use std::fs::{File, Files};
use std::str;

/// The configuration and the journal that a command reads.
#[derive(Drop)]
struct JournalFiles<'a> {
    config: &'a str,
    journal: &'a str,
}

/// What the journal says, if a run with these words ended with a fault of it and more can be told. Both files are read once
/// more, and nothing is locked.
pub fn journal_reason<'a, R: Files<File = File> + AllocGlobal>(
    rt: &R,
    words: &'a [String],
    ending: &Ending<'a>,
) -> Option<Reason<'a>> {
    let fault = journal_fault(ending)?;
    let JournalFiles { config, journal } = files_of(rt.alloc(), words)?;
    let line = line_of(rt, config, journal, fault)?;
    Some(Reason::InWords(journal, line))
}

// What the journal says at this fault under the configuration in a file, if more can be told.
fn line_of<R: Files<File = File> + AllocGlobal>(
    rt: &R,
    config: &str,
    journal: &str,
    fault: RestoreFault,
) -> Option<String> {
    let text = read_configuration(rt, config).ok()?;
    let explanation = explain_journal(rt, &text, journal, fault)?;
    let line = explanation_line(rt.alloc(), &explanation).ok()?;
    text_of(rt.alloc(), &line)
}

// The text of these bytes, if they are one and there is memory for it.
fn text_of(alloc: Global, bytes: &[u8]) -> Option<String> {
    String::from_str(alloc, str::from_utf8(bytes).ok()?).ok()
}

// The fault of a journal with which a run ended, if it did.
fn journal_fault(ending: &Ending<'_>) -> Option<RestoreFault>
    ensures value { result ≡ journal_fault ending.now }
{
    match ending {
        Ending::Unserved(ServeFault::Journal(fault)) => Some(*fault),
        _ => None,
    }
}

// The files that these words name.
fn files_of<'a>(alloc: Global, words: &'a [String]) -> Option<JournalFiles<'a>> {
    match command_of(alloc, words) {
        Ok(invocation) => named_in(&invocation),
        Err(_) => None,
    }
}

// The files that a command reads which restores a journal.
fn named_in<'a>(invocation: &Invocation<'a>) -> Option<JournalFiles<'a>>
    ensures value { result ≡ journal_files invocation.now }
{
    match invocation {
        Invocation::Serve(options) => Some(JournalFiles {
            config: options.config,
            journal: options.journal,
        }),
        Invocation::Table(options) => Some(JournalFiles {
            config: options.config,
            journal: options.journal,
        }),
        _ => None,
    }
}
