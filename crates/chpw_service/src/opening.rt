//! What a service opens with: what its files say, and its journal.
ghost use Rattle.std.specs.Prelude.{◌≡◌, IfErr, IfOk, Ok, true};
ghost use Rattle.chpw_rules.specs.Fitting.{config_fits};
ghost use Rattle.chpw_host.specs.Faults.{IsOfService};
ghost use Rattle.chpw_service.specs.WholeRuns.{IsOpenedFrom};
ghost use Rattle.chpw_start.specs.Faults.{SetsNames};
ghost use Rattle.chpw_start.specs.Rules.{AreRulesOf};

use chpw_desks::{JournalLength, journal_length};
use chpw_invocation::ServeOptions;
use chpw_journal::{FileSink, Journal};
use chpw_logging::{Log, Notice};
use chpw_rules::{Config, NamePatterns};
use chpw_serve::Clock as _;
use chpw_start::{
    Configuration, Resumption, Rules, ServeFault, SetAside, configuration_of, kdc_names,
    open_table, read_seed, refuse_exposed, refuse_missing, resume_where_asked, rules_of,
};
use chpw_table::{JournalSink, Table};
use chpw_workers::MachineClock;
use std::fs::{File, Files};
use std::sync::Wait;
use std::time::Clock;

/// What the files of a service say, beside its journal.
#[derive(Drop)]
pub(crate) struct Settings {
    pub config: Config,
    pub rules: Rules,
    /// Which of the KDC's names are the service's.
    pub names: NamePatterns,
    pub seed: [u8; 32],
}

/// Reads the configuration, then the seed. Then the start is refused if, with strict modes, others may read, write or replace
/// one of its files, and if its journal must exist and doesn't. Last comes want of memory.
pub(crate) fn settings_of<'a, R: Files<File = File> + AllocGlobal>(
    rt: &R,
    options: &ServeOptions<'a>,
) -> Result<Settings, ServeFault<'a>>
    ensures fits { IfOk result (λ s. config_fits s.config ≡ true) }
    ensures rules { IfOk result (λ s. AreRulesOf s.config options.now s.rules) }
    ensures names { IfOk result (λ s. SetsNames s.rules.text.items (Ok s.names)) }
    ensures fault { IfErr result (IsOfService options.now) }
{
    let Configuration { config, text } = configuration_of(rt, options.config)?;
    let names = kdc_names(rt.alloc(), &text)?;
    let seed = seed_of(rt, options)?;
    match rules_of(rt.alloc(), &config, text, options) {
        Ok(rules) => Ok(Settings {
            config,
            rules,
            names,
            seed,
        }),
        Err(_) => Err(ServeFault::Memory),
    }
}

// Reads the seed. Then the start is refused, with strict modes, if others may read, write or replace one of its files, and if its
// journal must exist and doesn't.
fn seed_of<'a, R: Files<File = File> + AllocGlobal>(
    rt: &R,
    options: &ServeOptions<'a>,
) -> Result<[u8; 32], ServeFault<'a>>
    ensures fault { IfErr result (IsOfService options.now) }
{
    let seed = read_seed(rt, options.seed)?;
    refuse_exposed(rt, options)?;
    refuse_missing(rt, options)?;
    Ok(seed)
}

/// The journal that a service opens with.
#[derive(Drop)]
pub(crate) struct OpenJournal {
    /// Restored from the journal, with what a clean end left if that fits.
    pub table: Table,
    pub sink: FileSink<File>,
    pub length: JournalLength,
}

/// Opens the journal, and restores the table from it; with that what a clean end left in the resume file, if there is one that
/// fits. The log watches the journal's length from then on, and tells of a torn tail that was cut off, and why a resume file was
/// set aside.
pub(crate) fn open_journal<'a, R: Files<File = File> + Wait + Clock + Eprint + AllocGlobal>(
    rt: &R,
    log: &Log<'_, R>,
    options: &ServeOptions<'a>,
    config: Config,
    clock: &mut MachineClock<'_, R>,
) -> Result<OpenJournal, ServeFault<'a>>
    requires fits { config_fits config ≡ true }
    ensures opened { IfOk result (λ journal. IsOpenedFrom config clock.old journal.table) }
    ensures fresh { IfOk result (λ journal. ⟦<FileSink<File> as JournalSink>⟧.failed journal.sink ≡ 0) }
    ensures fault { IfErr result (IsOfService options.now) }
{
    let Journal {
        table,
        mut sink,
        found: _,
        cut_at,
    } = open_table(
        rt,
        rt.alloc(),
        config,
        options.journal,
        options.existing_journal,
        clock,
    )?;
    let start = clock.now();
    let is_cut = cut_at.is_some();
    let resumption = resume_where_asked(rt, options, start, table, sink.file(), is_cut)?;
    let Resumption { table, set_aside } = resumption;
    let length = journal_length(rt.alloc(), options.journal, &mut sink)?;
    let Ok(marks) = length.marks() else {
        return Err(ServeFault::Memory);
    };
    log.watch(marks);
    if let Some(kept) = cut_at {
        log.tell(Notice::TailCut(options.journal, kept));
    }
    tell_set_aside(log, options, set_aside);
    Ok(OpenJournal {
        table,
        sink,
        length,
    })
}

// Reports why the resume file was set aside, if it was.
fn tell_set_aside<R: Wait + Eprint>(
    log: &Log<'_, R>,
    options: &ServeOptions<'_>,
    set_aside: Option<SetAside>,
) {
    if let (Some(path), Some(why)) = (options.resume, set_aside) {
        log.tell(Notice::SetAside(path, why));
    }
}
