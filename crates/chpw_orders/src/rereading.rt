//! A configuration that is read anew while the service runs.
ghost use Rattle.std.specs.Prelude.{◌≡◌, IfErr, IfOk, IfSome, Ok, true};
ghost use Rattle.chpw_rules.specs.Fitting.{config_fits};
ghost use Rattle.chpw_start.specs.Faults.{IsUnread, Sets, SetsNames};
ghost use Rattle.chpw_orders.specs.Rereading.{IsNotReadAnew, IsOfText, IsReadAnew, IsToldOf, IsUnset, reload_warnings, settings_in};

use crate::checked_reload::CheckedReload;
use crate::telling::told_of;
use chpw_config::explain;
use chpw_invocation::ServeOptions;
use chpw_reload::{PreparedReload, ReloadFault, prepare};
use chpw_rules::{Config, Items, Name, NamePatterns};
use chpw_start::{
    Rules, ServeFault, configuration_text, kdc_names, open_file, rules_of, settings, unread_fault,
};
use chpw_table::Table;
use chpw_warnings::{PrincipalNames, Warning, put_rule_warnings, setting_warnings};
use std::alloc::{AllocError, Global};
use std::fs::{File, Files};
use std::io::{Seek, SeekFrom};
use std::str;

/// A reload under way: the table that a start would open with now, the journal's file, read up to what that table has
/// of it, and what the next desk is to serve by; and which of the KDC's names are the service's then.
#[derive(Drop)]
pub struct PendingReload {
    pub renewed: CheckedReload,
    pub rest: File,
    pub rules: Rules,
    pub names: NamePatterns,
    /// What the configuration may not mean.
    pub warnings: Vec<Warning>,
}

/// Why a configuration can't be reloaded.
#[derive(Drop)]
pub enum PrepareFault<'a> {
    /// A file can't be read, or memory ran out.
    Start(ServeFault<'a>),
    /// The configuration has a fault, in the words of `check`.
    Config(String),
    /// The journal can't be replayed over it; and what the journal says there, if more can be told.
    Reload(ReloadFault, Option<Items<u8>>),
}

/// The configuration read again, with the journal so far replayed. Refused if a file can't be read, the configuration has a
/// fault, or the journal can't be replayed over it, and where memory runs out.
pub fn read_anew<'a, R: Files<File = File> + AllocGlobal>(
    rt: &R,
    options: &ServeOptions<'a>,
) -> Result<PendingReload, PrepareFault<'a>>
    ensures read { IfOk result (IsReadAnew options.now) }
    ensures fault { IfErr result (IsNotReadAnew options.now) }
{
    let text = match configuration_text(rt, options.config) {
        Ok(text) => text,
        Err(fault) => return Err(PrepareFault::Start(fault)),
    };
    let (config, names) = configured(rt.alloc(), &text)?;
    let Ok(rules) = rules_of(rt.alloc(), &config, text, options) else {
        return Err(PrepareFault::Start(ServeFault::Memory));
    };
    let journal = match open_file(rt, options.journal) {
        Ok(journal) => journal,
        Err(fault) => return Err(PrepareFault::Start(fault)),
    };
    let renewal = match prepare(rt.alloc(), config, journal) {
        Ok(renewal) => renewal,
        Err(fault) => {
            let told = told_at(rt, &rules.text, options.journal, &fault);
            return Err(PrepareFault::Reload(fault, told));
        }
    };
    let rest = match rest_of(rt, options.journal, renewal.kept) {
        Ok(rest) => rest,
        Err(fault) => return Err(PrepareFault::Start(fault)),
    };
    let Ok(warnings) = warnings_of(rt.alloc(), rules.text.as_slice(), &renewal) else {
        return Err(PrepareFault::Start(ServeFault::Memory));
    };
    Ok(PendingReload {
        renewed: CheckedReload::of(renewal),
        rest,
        rules,
        names,
        warnings,
    })
}

// What the journal at a path says where it can't be replayed over the configuration with this text, if more can be told.
fn told_at<R: Files<File = File> + AllocGlobal>(
    rt: &R,
    text: &[u8],
    journal: &str,
    fault: &ReloadFault,
) -> Option<Items<u8>>
    ensures told { IfSome result (λ words. IsToldOf text.now fault.now words) }
{
    match fault {
        ReloadFault::Journal(fault) => told_of(rt, text, journal, *fault),
        _ => None,
    }
}

// The warnings of a configuration with this text, where the principals are those of the configuration and the journal.
fn warnings_of(
    alloc: Global,
    text: &[u8],
    renewal: &PreparedReload,
) -> Result<Vec<Warning>, AllocError>
    ensures value { IfOk result (λ warnings. warnings.items
        ≡ reload_warnings text.now renewal.now.settings renewal.now.table.state) }
{
    let mut warnings = settings_of(alloc, text)?;
    let names = TableNames {
        table: &renewal.table,
    };
    put_rule_warnings(
        &mut warnings,
        &names,
        renewal.settings.rules.list.as_slice(),
    )?;
    Ok(warnings)
}

// The settings that nothing reads; bytes that aren't UTF-8 have none.
fn settings_of(alloc: Global, text: &[u8]) -> Result<Vec<Warning>, AllocError>
    ensures value { IfOk result (λ warnings. warnings.items ≡ settings_in text.now) }
{
    match str::from_utf8(text) {
        Ok(text) => setting_warnings(alloc, text),
        Err(_) => Ok(Vec::new(alloc)),
    }
}

// The names of a table.
#[derive(Clone, Copy, Drop)]
struct TableNames<'t> {
    table: &'t Table,
}

impl PrincipalNames for TableNames<'_> {
    ghost use Rattle.chpw_orders.specs.Rereading.{is_held};

    ghost has = { λ n. is_held n.table.now.state };

    fn has(&self, name: &Name) -> bool {
        self.table.number_of(name).is_some()
    }
}

// The configuration of a text, and which of the KDC's names it says are the service's.
fn configured<'a>(alloc: Global, text: &[u8]) -> Result<(Config, NamePatterns), PrepareFault<'a>>
    ensures fits { IfOk result (λ both. config_fits both.0 ≡ true) }
    ensures sets { IfOk result (λ both. Sets text.now (Ok both.0)) }
    ensures names { IfOk result (λ both. SetsNames text.now (Ok both.1)) }
    ensures fault { IfErr result (IsUnset text.now) }
{
    let config = match settings(alloc, text) {
        Ok(config) => config,
        Err(fault) => return Err(unset_fault(alloc, text, fault)),
    };
    match kdc_names(alloc, text) {
        Ok(names) => Ok((config, names)),
        Err(fault) => Err(unset_fault(alloc, text, fault)),
    }
}

// The file at a path, to be read from after this many bytes.
fn rest_of<'a, R: Files<File = File>>(
    rt: &R,
    path: &'a str,
    kept: u64,
) -> Result<File, ServeFault<'a>>
    ensures fault { IfErr result (IsUnread path.now) }
{
    let mut file = open_file(rt, path)?;
    match file.seek(SeekFrom::Start(kept)) {
        Ok(_) => Ok(file),
        Err(error) => Err(unread_fault(path, error)),
    }
}

// A fault of the configuration with this text.
fn unset_fault<'a>(alloc: Global, text: &[u8], fault: ServeFault<'a>) -> PrepareFault<'a>
    requires fault { IsOfText text.now fault }
    ensures fault { IsUnset text.now result }
{
    match (fault, str::from_utf8(text)) {
        (ServeFault::Config(fault), Ok(text)) => match explain(alloc, text, fault) {
            Ok(words) => PrepareFault::Config(words),
            Err(_) => PrepareFault::Start(ServeFault::Memory),
        },
        (fault, _) => PrepareFault::Start(fault),
    }
}
