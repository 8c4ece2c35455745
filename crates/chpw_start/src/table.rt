//! `table`: the report of the table that is held.
ghost use Rattle.std.specs.Prelude.{◌≡◌, ◌≢◌, ◌⊎◌, List, ℕ, Option, IfOk, IfErr, OnOk, Ok, true};
ghost use Rattle.std.specs.Io.KnownBytes.{Appends};
ghost use Rattle.chpw_config.specs.Settings.{settings_of};
ghost use Rattle.chpw_rules.specs.declared.config.Config.{Config as Settings};
ghost use Rattle.chpw_rules.specs.Fitting.{config_fits};
ghost use Rattle.chpw_report.specs.Reports.{report as report_text};
ghost use Rattle.chpw_report.specs.Configurations.{config_held};
ghost use Rattle.chpw_report.specs.Held.{IsHeld};
ghost use Rattle.chpw_journal.specs.declared.fault.RestoreFault.TheVariants.{Memory as NoMemory};
ghost use Rattle.chpw_start.specs.Faults.{IsLate, IsOfBytes, IsOfJournal, IsOfRecords, Sets, report_fault, restore_fault};
ghost use Rattle.chpw_start.specs.Telling.{IsOfTable, IsOfText, IsTold, Tells, TellsOf};

use crate::fault::ServeFault;
use crate::files::{configuration_text, open_file, settings};
use chpw_invocation::{TableForm, TableOptions};
use chpw_journal::RestoreFault;
use chpw_report::{Form, HeldTable, ReportFault, held_from, write_configuration, write_report};
use chpw_rules::Config;
use std::alloc::Global;
use std::fs::{File, Files};
use std::io::{self, Write};

/// Writes the report of the table that these files hold on standard output, and on standard error after how many bytes
/// of the journal a torn record stands. They are only read, the journal even while a service has it.
pub fn tell_table<'a, R: Files<File = File> + Print + Eprint + AllocGlobal>(
    rt: &R,
    options: TableOptions<'a>,
) -> Result<(), ServeFault<'a>>
    ensures fault { IfErr result (IsOfTable options.entry) }
{
    if let Some(behind) = write_table(rt, options, &mut io::writer(rt))? {
        let _ = eprintln!(rt;
            "{}: a torn record begins after {behind} bytes",
            options.journal
        );
    }
    Ok(())
}

/// Writes the report of the table that these files hold; returns after how many bytes of the journal a torn record
/// stands, if there is one. What isn't a regular file can't be read, nor can a journal that doesn't exist.
pub fn write_table<'a, R: Files<File = File> + AllocGlobal, W: Write>(
    rt: &R,
    options: TableOptions<'a>,
    writer: &mut W,
) -> Result<Option<u64>, ServeFault<'a>>
    ensures written { IfOk result (λ torn. (text : List ℕ) × Tells options.entry.form torn text
        × Appends (W.contents writer.old) (W.contents writer.new) text) }
    ensures fault { IfErr result (IsOfTable options.entry) }
{
    let text = configuration_text(rt, options.config)?;
    write_table_of(rt, &text, options.form, options.journal, writer)
}

/// Writes the report of the table that a configuration with this text and the journal in a file hold, as `write_table` does.
pub fn write_table_of<'a, R: Files<File = File> + AllocGlobal, W: Write>(
    rt: &R,
    text: &[u8],
    form: TableForm,
    journal: &'a str,
    writer: &mut W,
) -> Result<Option<u64>, ServeFault<'a>>
    ensures written { IfOk result (λ torn. (report : List ℕ) × TellsOf text.now form torn report
        × Appends (W.contents writer.old) (W.contents writer.new) report) }
    ensures fault { IfErr result (IsOfText text.now journal.now) }
{
    let alloc = rt.alloc();
    let config = settings(alloc, text)?;
    let Ok(realm) = config.realm.clone() else {
        return Err(ServeFault::Memory);
    };
    let held = held_table(rt, config, journal)?;
    tell(alloc, form, text, realm.as_slice(), &held, writer)?;
    Ok(held.torn_after)
}

// The report in this form, with the bytes of the configuration and the realm that it sets.
fn tell<'a, W: Write>(
    alloc: Global,
    form: TableForm,
    bytes: &[u8],
    realm: &[u8],
    held: &HeldTable,
    writer: &mut W,
) -> Result<(), ServeFault<'a>>
    ensures written { OnOk result ((text : List ℕ) × Appends (W.contents writer.old) (W.contents writer.new) text
        × ((config : Settings) → Sets bytes.now (Ok config) → config.realm ≡ realm.now → IsTold form config held.now text)) }
    ensures fault { IfErr result (λ fault. IsOfBytes bytes.now fault ⊎ IsLate fault) }
{
    match form {
        TableForm::Lines => report(alloc, Form::Lines, realm, held, writer),
        TableForm::Keys => report(alloc, Form::Keys, realm, held, writer),
        TableForm::Configuration => {
            // The bytes are parsed again, since the first configuration became the table.
            configuration(alloc, settings(alloc, bytes)?, held, writer)
        }
    }
}

// The table with the changes of the journal in a file.
#[tactic(auto, using(crate::proofs::FaultLemmas::unheld))]
fn held_table<'a, R: Files<File = File> + AllocGlobal>(
    rt: &R,
    config: Config,
    journal: &'a str,
) -> Result<HeldTable, ServeFault<'a>>
    requires fits { config_fits config ≡ true }
    ensures held { IfOk result (λ held. (bytes : Option (List ℕ)) × IsHeld config bytes held) }
    ensures fault { IfErr result (IsOfJournal journal.now) }
{
    let file = open_file(rt, journal)?;
    match held_from(rt.alloc(), config, file) {
        Ok(held) => Ok(held),
        Err(fault) => Err(journal_fault(fault)),
    }
}

fn journal_fault<'a>(fault: RestoreFault) -> ServeFault<'a>
    requires fault { fault ≢ NoMemory → IsOfRecords fault }
    ensures fault { (path : List ℕ) → IsOfJournal path result }
    ensures value { result ≡ restore_fault fault }
{
    match fault {
        RestoreFault::Memory => ServeFault::Memory,
        fault => ServeFault::Journal(fault),
    }
}

fn report<'a, W: Write>(
    alloc: Global,
    form: Form,
    realm: &[u8],
    held: &HeldTable,
    writer: &mut W,
) -> Result<(), ServeFault<'a>>
    ensures written { OnOk result (Appends (W.contents writer.old) (W.contents writer.new)
        (report_text form realm.now held.now.table held.now.changes)) }
    ensures fault { IfErr result IsLate }
{
    match write_report(alloc, form, realm, &held.table, held.changes, writer) {
        Ok(()) => Ok(()),
        Err(fault) => Err(late(fault)),
    }
}

fn configuration<'a, W: Write>(
    alloc: Global,
    config: Config,
    held: &HeldTable,
    writer: &mut W,
) -> Result<(), ServeFault<'a>>
    ensures written { OnOk result ((text : List ℕ)
        × Appends (W.contents writer.old) (W.contents writer.new) text
        × (settings_of text ≡ Ok (config_held held.now.table.state config))) }
    ensures fault { IfErr result IsLate }
{
    match write_configuration(alloc, config, &held.table, writer) {
        Ok(()) => Ok(()),
        Err(fault) => Err(late(fault)),
    }
}

fn late<'a>(fault: ReportFault) -> ServeFault<'a>
    ensures late { IsLate result }
    ensures value { result ≡ report_fault fault }
{
    match fault {
        ReportFault::Memory => ServeFault::Memory,
        ReportFault::Write => ServeFault::CannotPrint,
    }
}
