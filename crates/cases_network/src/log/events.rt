//! Events of the service.

ghost use Rattle.std.specs.Prelude.{IfOk};
ghost use Rattle.std.specs.Option.{ForSome};
ghost use Rattle.chpw_log.specs.Events.{IsQuietTold, IsWholeMoment};

use crate::log::words::moment;
use crate::words::parsed;
use chpw_log::{ServiceEvent, write_event};
use chpw_table::Moment;
use std::alloc::Global;
use support_cases::Fault;

/// SECONDS MICROS KIND ..
pub fn event_line(alloc: Global, words: &[&str]) -> Result<Vec<u8>, Fault> {
    let [seconds, micros, kind, values @ ..] = words else {
        return Err(Fault::NoSuchCase);
    };
    let moment = moment(seconds, micros)?;
    let event = event(kind, values)?;
    Ok(write_event(alloc, moment, &event)?)
}

fn event(kind: &str, values: &[&str]) -> Result<ServiceEvent, Fault>
    ensures told { IfOk result IsQuietTold }
{
    match (kind, values) {
        ("journal-failed", []) => Ok(ServiceEvent::JournalFailed),
        ("log-reopened", []) => Ok(ServiceEvent::LogReopened),
        ("raised", [iterations]) => Ok(ServiceEvent::Raised {
            iterations: parsed(iterations)?,
        }),
        ("reloaded", [principals, iterations]) => Ok(ServiceEvent::Reloaded {
            principals: parsed(principals)?,
            iterations: parsed(iterations)?,
        }),
        ("rolled-over", [entries, changes]) => Ok(ServiceEvent::RolledOver {
            entries: parsed(entries)?,
            changes: parsed(changes)?,
        }),
        ("ended", [entries, changes]) => Ok(ServiceEvent::Ended {
            entries: parsed(entries)?,
            changes: parsed(changes)?,
        }),
        ("started", [principals, iterations, quiet]) => Ok(ServiceEvent::Started {
            principals: parsed(principals)?,
            iterations: parsed(iterations)?,
            quiet_until: quiet_moment(quiet)?,
        }),
        _ => Err(Fault::NoSuchCase),
    }
}

// SECONDS.MICROS, or `-`
fn quiet_moment(word: &str) -> Result<Option<Moment>, Fault>
    ensures told { IfOk result (λ quiet. ForSome quiet IsWholeMoment) }
{
    match word.split_once('.') {
        Some((seconds, micros)) => Ok(Some(moment(seconds, micros)?)),
        None if word == "-" => Ok(None),
        None => Err(Fault::NoSuchCase),
    }
}
