//! Answers to orders.
ghost use Rattle.std.specs.Prelude.{◌≡◌, ◌++◌, ◌∷◌, [], codes, map, IfOk, IfErr, OnOk, OnErr};
ghost use Rattle.std.specs.Option.{option_copied};
ghost use Rattle.chpw_control.specs.Answers.{lines_text};
ghost use Rattle.chpw_reload.specs.Reasons.{fault_text};
ghost use Rattle.chpw_orders.specs.Answers.{compact_words, done_lines, exposed_words, lacked_line, prepare_words};
ghost use Rattle.chpw_orders.specs.Answers.{refused_lines, reloaded_lines, replaced_lines, told_text, unwritten, warning_line};
ghost use Rattle.chpw_start.specs.Faults.{line_of};

use crate::compacting::CompactFault;
use crate::replacing::NotReplaced;
use crate::rereading::PrepareFault;
use chpw_control::{put_error, put_ok};
use chpw_printing::put_name;
use chpw_reload::{ReloadFault, put_fault};
use chpw_rules::{Items, Name};
use chpw_start::{Exposure, ServeFault};
use chpw_warnings::{Warning, put_warning};
use std::alloc::{AllocError, Global};

/// Why no compact journal is made while the configuration's file isn't the one in force.
const CHANGED: &str = "the configuration has changed: reload it first";

/// The answer to a reload that was refused before the desk was closed.
pub fn prepare_refusal(alloc: Global, fault: &PrepareFault<'_>) -> Result<Vec<u8>, AllocError>
    ensures value { IfOk result (λ text. text.items ≡ lines_text (refused_lines (prepare_words fault.now))) }
{
    match fault {
        PrepareFault::Start(fault) => refusal(alloc, fault.to_string(alloc)?.as_str()),
        PrepareFault::Config(words) => refusal(alloc, words.as_str()),
        PrepareFault::Reload(fault, told) => told_refusal(alloc, fault, told.as_ref()),
    }
}

/// The answer to a reload that was refused.
pub fn reload_refusal(alloc: Global, fault: &ReloadFault) -> Result<Vec<u8>, AllocError>
    ensures value { IfOk result (λ text. text.items ≡ lines_text (refused_lines (fault_text fault.now))) }
{
    let mut words = Vec::new(alloc);
    put_fault(&mut words, fault)?;
    refusal_in(alloc, words.as_slice())
}

// The answer to a reload that was refused, with what the journal says there.
fn told_refusal(
    alloc: Global,
    fault: &ReloadFault,
    told: Option<&Items<u8>>,
) -> Result<Vec<u8>, AllocError>
    ensures value { IfOk result (λ text. text.items
        ≡ lines_text (refused_lines (fault_text fault.now ++ told_text (option_copied told.entry)))) }
{
    let mut words = Vec::new(alloc);
    put_fault(&mut words, fault)?;
    put_told(&mut words, told)?;
    refusal_in(alloc, words.as_slice())
}

// The answer where a file can't be read, or the journal has a fault, with what it says there.
fn unread_refusal(
    alloc: Global,
    fault: &ServeFault<'_>,
    told: Option<&Items<u8>>,
) -> Result<Vec<u8>, AllocError>
    ensures value { IfOk result (λ text. text.items
        ≡ lines_text (refused_lines (line_of fault.now ++ told_text (option_copied told.entry)))) }
{
    let mut words = Vec::from_slice(alloc, fault.to_string(alloc)?.as_bytes())?;
    put_told(&mut words, told)?;
    refusal_in(alloc, words.as_slice())
}

// Adds what a journal says at its fault, behind that.
fn put_told(text: &mut Vec<u8>, told: Option<&Items<u8>>) -> Result<(), AllocError>
    ensures value { OnOk result (text.new.items ≡ text.old.items ++ told_text (option_copied told.entry)) }
{
    match told {
        None => Ok(()),
        Some(words) => put_behind(text, words.as_slice()),
    }
}

fn put_behind(text: &mut Vec<u8>, words: &[u8]) -> Result<(), AllocError>
    ensures value { OnOk result (text.new.items ≡ text.old.items ++ (codes ": " ++ words.now)) }
{
    text.extend_from_slice(b": ")?;
    text.extend_from_slice(words)
}

/// The answer to a reload: a line for each warning about the configuration, one for each principal that it lacks, and
/// `ok`.
pub fn reload_answer(
    alloc: Global,
    warnings: &[Warning],
    lacked: &[Name],
) -> Result<Vec<u8>, AllocError>
    ensures value { IfOk result (λ text. text.items ≡ lines_text (reloaded_lines warnings.now lacked.now)) }
{
    let mut text = Vec::new(alloc);
    put_warnings(&mut text, warnings)?;
    put_all_lacked(&mut text, lacked)?;
    put_ok(&mut text)?;
    Ok(text)
}

// A line for each warning.
fn put_warnings(text: &mut Vec<u8>, warnings: &[Warning]) -> Result<(), AllocError>
    ensures value { OnOk result (text.new.items
        ≡ text.old.items ++ lines_text (map warning_line warnings.now)) }
{
    let mut others = warnings;
    while let [warning, rest @ ..] = others {
        put_warning_line(text, warning)?;
        others = rest;
    }
    Ok(())
}

// A line for each principal that is lacked.
fn put_all_lacked(text: &mut Vec<u8>, lacked: &[Name]) -> Result<(), AllocError>
    ensures value { OnOk result (text.new.items
        ≡ text.old.items ++ lines_text (map lacked_line lacked.now)) }
{
    let mut others = lacked;
    while let [name, rest @ ..] = others {
        put_lacked(text, name)?;
        others = rest;
    }
    Ok(())
}

fn put_warning_line(text: &mut Vec<u8>, warning: &Warning) -> Result<(), AllocError>
    ensures value { OnOk result (text.new.items ≡ text.old.items ++ lines_text (warning_line warning.now ∷ [])) }
{
    text.extend_from_slice(b"warning: ")?;
    put_warning(text, warning)?;
    text.push(b'\n')?;
    Ok(())
}

fn put_lacked(text: &mut Vec<u8>, name: &Name) -> Result<(), AllocError>
    ensures value { OnOk result (text.new.items ≡ text.old.items ++ lines_text (lacked_line name.now ∷ [])) }
{
    text.extend_from_slice(b"lacked ")?;
    put_name(text, name)?;
    text.push(b'\n')?;
    Ok(())
}

/// The answer when the log was reopened.
pub fn reopen_answer(
    alloc: Global,
    opened: Result<(), ServeFault<'_>>,
) -> Result<Vec<u8>, AllocError>
    ensures done { OnOk opened.entry (IfOk result (λ text. text.items ≡ lines_text done_lines)) }
    ensures refused { IfErr opened.entry (λ fault. IfOk result (λ text. text.items ≡ lines_text (refused_lines (line_of fault)))) }
{
    match opened {
        Ok(()) => ok_answer(alloc),
        Err(fault) => refusal(alloc, fault.to_string(alloc)?.as_str()),
    }
}

// The answer when an order was carried out.
fn ok_answer(alloc: Global) -> Result<Vec<u8>, AllocError>
    ensures value { IfOk result (λ text. text.items ≡ lines_text done_lines) }
{
    let mut text = Vec::new(alloc);
    put_ok(&mut text)?;
    Ok(text)
}

// The answer when a file can't be written.
fn write_refusal(alloc: Global, path: &str) -> Result<Vec<u8>, AllocError>
    ensures value { IfOk result (λ text. text.items ≡ lines_text (refused_lines (unwritten path.now))) }
{
    refusal(
        alloc,
        ServeFault::CannotWrite(path).to_string(alloc)?.as_str(),
    )
}

/// The answer to a compact journal that was refused before the desk was closed.
pub fn compact_refusal(alloc: Global, fault: &CompactFault<'_>) -> Result<Vec<u8>, AllocError>
    ensures value { IfOk result (λ text. text.items ≡ lines_text (refused_lines (compact_words fault.now))) }
{
    match fault {
        CompactFault::Unread(fault, told) => unread_refusal(alloc, fault, told.as_ref()),
        CompactFault::Changed => refusal(alloc, CHANGED),
        CompactFault::NoCopy(copy) => write_refusal(alloc, copy.as_str()),
    }
}

/// The answer to a compact journal once the desk was closed: whether it has replaced the one at this path.
pub fn compact_answer(
    alloc: Global,
    path: &str,
    replaced: Result<(), NotReplaced>,
) -> Result<Vec<u8>, AllocError>
    ensures value { IfOk result (λ text. text.items ≡ lines_text (replaced_lines path.now replaced)) }
{
    match replaced {
        Ok(()) => ok_answer(alloc),
        Err(NotReplaced::Failed) => refusal(alloc, "journal failed"),
        Err(NotReplaced::Changed) => refusal(alloc, CHANGED),
        Err(NotReplaced::NoGain) => refusal(alloc, "nothing to gain"),
        Err(NotReplaced::Unwritten | NotReplaced::Unsafe) => write_refusal(alloc, path),
        Err(NotReplaced::Memory) => refusal(alloc, "memory"),
    }
}

/// The answer where strict modes refuse the file at a path.
pub fn exposed_refusal(alloc: Global, file: &str, why: Exposure) -> Result<Vec<u8>, AllocError>
    ensures value { IfOk result (λ text. text.items ≡ lines_text (refused_lines (exposed_words file.now why))) }
{
    refusal(alloc, format!(in alloc; "{file}: {why}")?.as_str())
}

/// The answer when it is refused, for this reason.
pub fn refusal(alloc: Global, words: &str) -> Result<Vec<u8>, AllocError>
    ensures value { IfOk result (λ text. text.items ≡ lines_text (refused_lines words.now)) }
{
    refusal_in(alloc, words.as_bytes())
}

// The answer when it is refused, for the reason in these bytes.
fn refusal_in(alloc: Global, words: &[u8]) -> Result<Vec<u8>, AllocError>
    ensures value { IfOk result (λ text. text.items ≡ lines_text (refused_lines words.now)) }
{
    let mut text = Vec::new(alloc);
    put_error(&mut text, words)?;
    Ok(text)
}

/// An answer; if there is no memory for it, it is cut off, which means failure.
pub fn answer_or_empty(alloc: Global, answer: Result<Vec<u8>, AllocError>) -> Vec<u8>
    ensures some { IfOk answer (λ text. result.items ≡ text.items) }
    ensures none { OnErr answer (result.items ≡ []) }
{
    match answer {
        Ok(text) => text,
        Err(_) => Vec::new(alloc),
    }
}
