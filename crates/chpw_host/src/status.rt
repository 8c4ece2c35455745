//! What `status` tells of a service.
ghost use Rattle.std.specs.Prelude.{◌≡◌, ◌++◌, ◌∷◌, ◌⊎◌, [], IfOk, option_map, string_bytes};
ghost use Rattle.chpw_control.specs.Answers.{lines_text, ok_line};
ghost use Rattle.chpw_control.specs.Statuses.{AreTold, IsTold, status_lines};
ghost use Rattle.chpw_journal.specs.Causes.{cause_text};
ghost use Rattle.chpw_control.specs.declared.status.Status.{Status as TheStatus};
ghost use Rattle.chpw_host.specs.Status.{IsStatusOf, kdc_state, reason_in};

use crate::readings::{KdcReadings, Readings};
use chpw_control::{JournalState, KdcState, Status, status_answer};
use chpw_journal::SinkCause;
use chpw_logging::Counters;
use chpw_orders::answer_or_empty;
use chpw_transfers::ConnectionCounts;
use std::alloc::{AllocError, Global};

/// What a status is made of.
#[derive(Clone, Copy, Drop)]
pub struct StatusSources<'a> {
    pub version: &'a str,
    pub readings: &'a Readings,
    pub counters: &'a Counters,
    pub counts: &'a ConnectionCounts,
    /// The last refusal of the agent at the KDC's database, in words.
    pub refused: Option<&'a [u8]>,
}

/// The whole answer that tells the status of a service; empty if memory was refused.
pub fn answer_of(alloc: Global, sources: &StatusSources<'_>) -> Vec<u8>
    requires since { IsTold sources.now.readings.now.since }
    ensures value { (result.items ≡ []) ⊎ ((s : TheStatus)
        × IsStatusOf sources.now.version.now sources.now.readings.now sources.now.counters.now sources.now.counts.now s
        × (result.items ≡ lines_text (status_lines s ++ ok_line ∷ []))) }
{
    match failure_words(alloc, sources.readings.files.failure) {
        Err(_) => Vec::new(alloc),
        Ok(None) => answer_by(alloc, *sources, None),
        Ok(Some(why)) => answer_by(alloc, *sources, Some(why.as_str())),
    }
}

// The same, of a service whose journal failed for this reason, if it did.
fn answer_by<'a>(alloc: Global, sources: StatusSources<'a>, failed: Option<&'a str>) -> Vec<u8>
    requires since { IsTold sources.readings.now.since }
    requires failed { option_map (λ words. words.now) failed ≡ option_map cause_text sources.readings.now.files.failure }
    ensures value { (result.items ≡ []) ⊎ ((s : TheStatus)
        × IsStatusOf sources.entry.version.now sources.entry.readings.now sources.entry.counters.now sources.entry.counts.now s
        × (result.items ≡ lines_text (status_lines s ++ ok_line ∷ []))) }
{
    let status = status_of(&sources, failed);
    answer_with(alloc, &status)
}

// The status of a service whose journal failed for this reason, if it did.
fn status_of<'a>(sources: &StatusSources<'a>, failed: Option<&'a str>) -> Status<'a>
    requires since { IsTold sources.now.readings.now.since }
    requires failed { option_map (λ words. words.now) failed ≡ option_map cause_text sources.now.readings.now.files.failure }
    ensures value { IsStatusOf sources.now.version.now sources.now.readings.now sources.now.counters.now sources.now.counts.now result }
    ensures refused { result.kdc_refused ≡ sources.now.refused }
    ensures told { AreTold result }
{
    let StatusSources {
        version,
        readings,
        counters,
        counts,
        refused,
    } = *sources;
    Status {
        version,
        since: readings.since,
        quiet_until: counters.quiet_time(readings.moment),
        principals: readings.kdc.map_or(counters.principals, |kdc| kdc.held),
        iterations: counters.iterations,
        entries: counters.entries,
        changes: counters.changes,
        all_entries: counters.all_entries,
        all_changes: counters.all_changes,
        connections: counts.connections() as u64,
        reading: counts.reading as u64,
        waiting: counts.waiting as u64,
        answering: counts.answering as u64,
        confirming: counts.confirming as u64,
        writing: counts.writing as u64,
        ending: counts.ending as u64,
        workers: u64::from(readings.workers),
        busy: counts.answering as u64,
        queue: counts.waiting as u64,
        journal_bytes: readings.files.journal_bytes,
        journal: journal_state(failed),
        journal_name: readings.files.journal_name,
        log_lost: readings.files.log_lost,
        log_name: readings.files.log_name,
        kdc: kdc_state(readings.kdc),
        kdc_since: readings.kdc.map(|kdc| kdc.since),
        kdc_behind: readings.kdc.map_or(0, |kdc| kdc.behind),
        kdc_refused: refused,
    }
}

// The whole answer that tells a status; empty if memory was refused.
fn answer_with(alloc: Global, status: &Status<'_>) -> Vec<u8>
    requires times { AreTold status.now }
    ensures value { (result.items ≡ []) ⊎ (result.items ≡ lines_text (status_lines status.now ++ ok_line ∷ [])) }
{
    answer_or_empty(alloc, status_answer(alloc, status))
}

// The state of a journal that failed for this reason, if it did.
fn journal_state(failed: Option<&str>) -> JournalState<'_>
    ensures value { reason_in result ≡ option_map (λ words. words.now) failed.entry }
{
    match failed {
        Some(why) => JournalState::Failed(why),
        None => JournalState::Good,
    }
}

// Why an append to the journal has failed, in words, if one has.
fn failure_words(alloc: Global, failure: Option<SinkCause>) -> Result<Option<String>, AllocError>
    ensures value { IfOk result (λ words. option_map string_bytes words ≡ option_map cause_text failure) }
{
    match failure {
        Some(cause) => Ok(Some(cause.to_string(alloc)?)),
        None => Ok(None),
    }
}

fn kdc_state(kdc: Option<KdcReadings>) -> KdcState
    ensures value { result ≡ kdc_state kdc }
{
    match kdc {
        None => KdcState::Absent,
        Some(kdc) if kdc.is_connected => KdcState::Connected,
        Some(_) => KdcState::Down,
    }
}
