//! What replaces a journal, and where the sink goes on then.
ghost use Rattle.std.specs.Prelude.{◌≡◌, ◌≤◌, ◌<◌, ◌++◌, List, ℕ, Ok, Err, OnOk, IfOk, IfErr, IfNone, IfSome};
ghost use Rattle.std.specs.Prelude.{false, not, if◌then◌else◌, length};
ghost use Rattle.chpw_journal.specs.Compact.{AreWholeRecords, compacted};
ghost use Rattle.chpw_reload.specs.Compacting.{GoesWith};
ghost use Rattle.chpw_orders.specs.Replacing.{IsNoText, text_behind};
ghost use Rattle.chpw_orders.specs.declared.replacing.NotReplaced.TheVariants.{NoGain, Unsafe};

use chpw_journal::{FileSink, Replacement, compact_journal, replace_journal};
use chpw_reload::goes_with;
use chpw_table::{JournalSink, Table};
use std::alloc::{AllocError, Global};
use std::fs::{File, Files};
use std::io;

/// Why there is no compact journal once the desk was closed.
#[derive(Clone, Copy, Drop)]
pub enum NotReplaced {
    /// An append to the present one has failed.
    Failed,
    /// The configuration doesn't go with what is held.
    Changed,
    /// The compact one would be as long as the present one, or longer.
    NoGain,
    /// The new one can't be written.
    Unwritten,
    /// It has replaced the former one, but may not be on the disk: nothing more is written to either.
    Unsafe,
    Memory,
}

/// Where the journal is.
pub trait JournalPlace {
    /// Replacing it by one of this text leads from the first state to the second.
    ghost takes: { Self → List ℕ → Self → Type 0 };

    /// Replaces it by one of this text. After an error the former one is still there.
    fn replace(&mut self, text: &[u8]) -> io::Result<Replacement>
        ensures taken { OnOk result (takes self.old text.now self.new) };
}

/// The journal at a path. No clause says what a file holds.
#[derive(Clone, Copy, Drop)]
pub struct JournalAt<'s, R> {
    pub rt: &'s R,
    pub path: &'s str,
}

impl<R: Files<File = File> + AllocGlobal> JournalPlace for JournalAt<'_, R> {
    ghost takes = { λ before text after. Unit {0} };

    fn replace(&mut self, text: &[u8]) -> io::Result<Replacement> {
        replace_journal(self.rt, self.rt.alloc(), self.path, text)
    }
}

/// The text of the journal that replaces the present one of this many bytes: a compact one, unless an append to that has
/// failed, the base doesn't go with the held table, or it would be no shorter. It begins with the heading that the present
/// one has.
pub fn text_to_write(
    alloc: Global,
    has_failed: bool,
    present: u64,
    heading: &[u8],
    base: &Table,
    held: &Table,
) -> Result<Vec<u8>, NotReplaced>
    ensures text { IfOk result (λ text. text.items ≡ text_behind heading.now base.now.state held.now.state) }
    ensures goes_with { OnOk result (GoesWith base.now.state held.now.state) }
    ensures good { OnOk result (has_failed ≡ false) }
    ensures shorter { IfOk result (λ text. length text.items < present) }
    ensures why { IfErr result (IsNoText has_failed present heading.now base.now.state held.now.state) }
{
    if has_failed {
        return Err(NotReplaced::Failed);
    }
    match compact_text(alloc, heading, base, held) {
        Ok(Some(text)) => shorter_text(text, present),
        Ok(None) => Err(NotReplaced::Changed),
        Err(_) => Err(NotReplaced::Memory),
    }
}

// The text, if it has fewer bytes than the present journal.
fn shorter_text(text: Vec<u8>, present: u64) -> Result<Vec<u8>, NotReplaced>
    ensures shorter { IfOk result (λ same. (same ≡ text) × (length text.items < present)) }
    ensures longer { IfErr result (λ why. (why ≡ NoGain) × (present ≤ length text.items)) }
{
    if (text.len() as u64) < present {
        Ok(text)
    } else {
        Err(NotReplaced::NoGain)
    }
}

/// The sink goes on in the journal that has replaced the former one, of this length.
pub fn go_on_in(
    sink: &mut FileSink<File>,
    replacement: Replacement,
    length: u64,
) -> Result<(), NotReplaced>
    ensures value { result ≡ (if replacement.is_kept then Ok tt else Err Unsafe) }
    ensures file { sink.new.file ≡ replacement.file }
    ensures named { sink.new.is_unsafe ≡ not replacement.is_kept }
    ensures failed { ⟦<FileSink<File> as JournalSink>⟧.failed sink.new ≡ ⟦<FileSink<File> as JournalSink>⟧.failed sink.old }
{
    let Replacement { file, is_kept } = replacement;
    sink.go_on_in(file, length, is_kept);
    if is_kept {
        Ok(())
    } else {
        Err(NotReplaced::Unsafe)
    }
}

// The text of a compact journal with this heading for the held table, if the base goes with it.
fn compact_text(
    alloc: Global,
    heading: &[u8],
    base: &Table,
    held: &Table,
) -> Result<Option<Vec<u8>>, AllocError>
    ensures text { IfOk result (λ found. IfSome found (λ text. GoesWith base.now.state held.now.state
        × (text.items ≡ text_behind heading.now base.now.state held.now.state))) }
    ensures whole { IfOk result (λ found. IfSome found (λ _. AreWholeRecords (compacted base.now.state held.now.state))) }
    ensures none { IfOk result (λ found. IfNone found (GoesWith base.now.state held.now.state → ⊥)) }
{
    if !goes_with(base, held) {
        return Ok(None);
    }
    let records = compact_journal(alloc, base, held)?;
    Ok(Some(behind(alloc, heading, &records)?))
}

// A heading, and the text behind it.
fn behind(alloc: Global, heading: &[u8], text: &[u8]) -> Result<Vec<u8>, AllocError>
    ensures value { IfOk result (λ whole. whole.items ≡ heading.now ++ text.now) }
{
    let mut whole = Vec::from_slice(alloc, heading)?;
    whole.extend_from_slice(text)?;
    Ok(whole)
}
