//! Beginning a compact journal, while the workers of a desk answer messages.
ghost use Rattle.std.specs.Prelude.{◌≡◌, ◌↔◌, ℕ, Ok, Option, IfOk, IfErr, IfSome, IsTrue};
ghost use Rattle.chpw_rules.specs.declared.config.Config.{Config as Settings};
ghost use Rattle.chpw_journal.specs.Headings.{heading};
ghost use Rattle.chpw_start.specs.Faults.{IsOfBytes, Sets};
ghost use Rattle.chpw_orders.specs.Rereading.{IsBase, IsHeadingIn, IsNotBegun, IsToldAt};
ghost use Rattle.chpw_start.specs.Telling.{IsOfText, TellsOf};

use crate::telling::told_of;
use chpw_control::FileName;
use chpw_invocation::{ServeOptions, TableForm};
use chpw_journal::{heading_bytes, is_headed, remove_unfinished, write_new};
use chpw_rules::Items;
use chpw_start::{ServeFault, configuration_text, open_file, settings, write_table_of};
use chpw_table::Table;
use std::alloc::Global;
use std::fs::{File, Files};

/// A compact journal that is due: it is made once the desk is closed.
#[derive(Drop)]
pub struct Compaction {
    /// What the configuration in force opens with.
    pub base: Table,
    /// What the journal in use begins with: the record of the realm, or nothing. The compact one begins so, too.
    pub heading: Vec<u8>,
    /// The copy of it, with what is held.
    pub copy: FileName,
}

/// Why there is no compact journal.
#[derive(Drop)]
pub enum CompactFault<'a> {
    /// The configuration or the journal can't be read, or memory ran out; and what the journal says at its fault, if more can be
    /// told.
    Unread(ServeFault<'a>, Option<Items<u8>>),
    /// The configuration's file isn't the one in force any more.
    Changed,
    /// The copy can't be made, or something is at its path.
    NoCopy(FileName),
}

/// Copies the configuration in force, with what is held, to a new file, as `table --as configuration` prints it. The
/// configuration's file has to have its very bytes; else it was changed, and is to be reloaded first. What an earlier,
/// unfinished replacement left beside the journal is removed. A copy at that very path is in the way of the new journal,
/// which is then refused.
pub fn begin_compaction<'a, R: Files<File = File> + AllocGlobal>(
    rt: &R,
    options: &ServeOptions<'a>,
    in_force: &[u8],
    copy: &FileName,
) -> Result<Compaction, CompactFault<'a>>
    ensures base { IfOk result (λ compaction. IsBase in_force.now compaction.base) }
    ensures heading { IfOk result (λ compaction. IsHeadingIn in_force.now compaction.heading.items) }
    ensures copy { IfOk result (λ compaction. compaction.copy ≡ copy.now) }
    ensures fault { IfErr result (IsNotBegun options.now in_force.now copy.now) }
{
    let present = match configuration_text(rt, options.config) {
        Ok(present) => present,
        Err(fault) => return Err(CompactFault::Unread(fault, None)),
    };
    if !are_same_bytes(&present, in_force) {
        return Err(CompactFault::Changed);
    }
    let (base, text) = match base_and_copy(rt, options, in_force) {
        Ok(both) => both,
        Err(fault) => {
            let told = told_at(rt, options, in_force, &fault);
            return Err(CompactFault::Unread(fault, told));
        }
    };
    let heading = match heading_of(rt, options.journal, in_force) {
        Ok(heading) => heading,
        Err(fault) => return Err(CompactFault::Unread(fault, None)),
    };
    if remove_unfinished(rt, rt.alloc(), options.journal).is_err() {
        return Err(CompactFault::Unread(ServeFault::Memory, None));
    }
    let Ok(name) = FileName::of(rt.alloc(), copy.as_str()) else {
        return Err(CompactFault::Unread(ServeFault::Memory, None));
    };
    match write_new(rt, name.as_str(), &text) {
        Ok(_) => Ok(Compaction {
            base,
            heading,
            copy: name,
        }),
        Err(_) => Err(CompactFault::NoCopy(name)),
    }
}

// Whether two texts have the same bytes.
fn are_same_bytes(text: &[u8], other: &[u8]) -> bool
    ensures value { IsTrue result ↔ text.now ≡ other.now }
{
    text == other
}

// What the configuration with this text opens with; and the configuration with what is held, as text.
fn base_and_copy<'a, R: Files<File = File> + AllocGlobal>(
    rt: &R,
    options: &ServeOptions<'a>,
    in_force: &[u8],
) -> Result<(Table, Vec<u8>), ServeFault<'a>>
    ensures base { IfOk result (λ both. IsBase in_force.now both.0) }
    ensures text { IfOk result (λ both. (torn : Option ℕ)
        × TellsOf in_force.now TableForm.Configuration torn both.1.items) }
    ensures fault { IfErr result (IsOfText in_force.now options.now.journal.now) }
{
    let base = base_of(rt.alloc(), in_force)?;
    let mut text = Vec::new(rt.alloc());
    write_table_of(
        rt,
        in_force,
        TableForm::Configuration,
        options.journal,
        &mut text,
    )?;
    Ok((base, text))
}

// What the journal says where it has a fault over the configuration with this text, if more can be told.
fn told_at<R: Files<File = File> + AllocGlobal>(
    rt: &R,
    options: &ServeOptions<'_>,
    in_force: &[u8],
    fault: &ServeFault<'_>,
) -> Option<Items<u8>>
    ensures told { IfSome result (λ words. IsToldAt in_force.now fault.now words) }
{
    match fault {
        ServeFault::Journal(fault) => told_of(rt, in_force, options.journal, *fault),
        _ => None,
    }
}

// What the journal at a path begins with: the record of the realm that this text of a configuration sets, or nothing.
fn heading_of<'a, R: Files<File = File> + AllocGlobal>(
    rt: &R,
    journal: &'a str,
    in_force: &[u8],
) -> Result<Vec<u8>, ServeFault<'a>>
    ensures heading { IfOk result (λ heading. IsHeadingIn in_force.now heading.items) }
    ensures fault { IfErr result (IsOfText in_force.now journal.now) }
{
    let mut file = open_file(rt, journal)?;
    match is_headed(&mut file) {
        Some(is_named) => heading_in(rt.alloc(), in_force, is_named),
        None => Err(ServeFault::CannotRead(journal)),
    }
}

// The record of the realm that this text of a configuration sets, if it is wanted.
#[tactic(auto, using(chpw_start::proofs::FittingLemmas::realm_fits))]
fn heading_in<'a>(alloc: Global, in_force: &[u8], is_named: bool) -> Result<Vec<u8>, ServeFault<'a>>
    ensures heading { IfOk result (λ text. (config : Settings) × Sets in_force.now (Ok config)
        × (text.items ≡ heading is_named config.realm)) }
    ensures fault { IfErr result (IsOfBytes in_force.now) }
{
    let config = settings(alloc, in_force)?;
    if !is_named {
        return Ok(Vec::new(alloc));
    }
    match heading_bytes(alloc, config.realm.as_slice()) {
        Ok(text) => Ok(text),
        Err(_) => Err(ServeFault::Memory),
    }
}

// What the configuration with this text opens with.
fn base_of<'a>(alloc: Global, text: &[u8]) -> Result<Table, ServeFault<'a>>
    ensures base { IfOk result (IsBase text.now) }
    ensures fault { IfErr result (IsOfBytes text.now) }
{
    match Table::start(alloc, settings(alloc, text)?, -1) {
        Ok(base) => Ok(base),
        Err(_) => Err(ServeFault::Memory),
    }
}
