//! Files that strict modes refuse.
ghost use Rattle.std.specs.Prelude.{◌≡◌, IfErr, IsSome, None, OnErr, OnOk, true};
ghost use Rattle.chpw_start.specs.Faults.{IsOfModes, IsUnread};
ghost use Rattle.chpw_start.specs.Modes.{exposed_at, first_exposed, first_of};

use crate::fault::ServeFault;
use crate::line_output::{Kind, is_standard_error, kind_of};
use crate::ownership::{Exposure, exposure_of, own_ids, place_at};
use chpw_invocation::ServeOptions;
use std::fs::Files;

/// A file of a start, by its path, and what others can do to it.
#[derive(Clone, Copy, Drop)]
pub struct Exposed<'a> {
    pub file: &'a str,
    pub why: Exposure,
}

/// What others can do to the files of a start.
#[derive(Clone, Copy, Drop)]
pub(crate) struct Exposures {
    pub config: Option<Exposure>,
    pub seed: Option<Exposure>,
    pub log: Option<Exposure>,
    pub journal: Option<Exposure>,
}

/// Refuses a start with strict modes if others may read, write or replace one of its files. A file that doesn't exist yet
/// is made for its owner alone; its folder counts all the same.
pub fn refuse_exposed<'a, R: Files + AllocGlobal>(
    rt: &R,
    options: &ServeOptions<'a>,
) -> Result<(), ServeFault<'a>>
    ensures strict { OnErr result (options.now.strict_modes ≡ true) }
    ensures fault { IfErr result (IsOfModes options.now) }
{
    let exposures = Exposures {
        config: exposure_at(rt, options, options.config),
        seed: exposure_at(rt, options, options.seed),
        log: match options.log {
            Some(path) if !is_standard_error(path) => exposure_at(rt, options, path),
            _ => None,
        },
        journal: exposure_at(rt, options, options.journal),
    };
    refuse_first(options, exposures)
}

/// Refuses a start without a journal, where one must exist: before the log is made.
pub fn refuse_missing<'a, R: Files>(
    rt: &R,
    options: &ServeOptions<'a>,
) -> Result<(), ServeFault<'a>>
    ensures asked { OnErr result (options.now.existing_journal ≡ true) }
    ensures fault { IfErr result (IsUnread options.now.journal.now) }
{
    if options.existing_journal && matches!(kind_of(rt, options.journal), Kind::Missing) {
        return Err(ServeFault::CannotRead(options.journal));
    }
    Ok(())
}

// Refuses the first of these files that is exposed, with strict modes.
fn refuse_first<'a>(options: &ServeOptions<'a>, exposures: Exposures) -> Result<(), ServeFault<'a>>
    ensures strict { OnErr result (options.now.strict_modes ≡ true) }
    ensures refuses { options.now.strict_modes ≡ true → OnOk result (first_exposed options.now exposures ≡ None) }
    ensures fault { IfErr result (IsOfModes options.now) }
{
    if !options.strict_modes {
        return Ok(());
    }
    match first_exposed(options, exposures) {
        Some(exposed) => Err(ServeFault::Exposed(exposed)),
        None => Ok(()),
    }
}

/// What others can do to the file at a path, if that is asked for, by strict modes.
pub fn exposure_at<R: Files + AllocGlobal>(
    rt: &R,
    options: &ServeOptions<'_>,
    path: &str,
) -> Option<Exposure>
    ensures strict { IsSome result → options.now.strict_modes ≡ true }
{
    if options.strict_modes {
        exposure_of(own_ids(), &place_at(rt, path))
    } else {
        None
    }
}

// The first of these files that is exposed.
fn first_exposed<'a>(options: &ServeOptions<'a>, exposures: Exposures) -> Option<Exposed<'a>>
    ensures first { result ≡ first_exposed options.now exposures }
{
    let log = match options.log {
        Some(log) => exposed_at(log, exposures.log),
        None => None,
    };
    first_of(
        exposed_at(options.config, exposures.config),
        first_of(
            exposed_at(options.seed, exposures.seed),
            first_of(log, exposed_at(options.journal, exposures.journal)),
        ),
    )
}

// The file, if others can do something to it.
fn exposed_at(file: &str, why: Option<Exposure>) -> Option<Exposed<'_>>
    ensures value { result ≡ exposed_at file.entry why }
{
    match why {
        Some(why) => Some(Exposed { file, why }),
        None => None,
    }
}

// The first of two.
fn first_of<'a>(first: Option<Exposed<'a>>, second: Option<Exposed<'a>>) -> Option<Exposed<'a>>
    ensures value { result ≡ first_of first.entry second.entry }
{
    match first {
        Some(exposed) => Some(exposed),
        None => second,
    }
}
