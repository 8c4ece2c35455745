//! Messages that were answered.

ghost use Rattle.chpw_log.specs.Events.{IsWholeMoment};

use crate::log::making::opened_request;
use crate::log::words::{address, moment, refusal, verdict_of};
use crate::words::parsed;
use chpw_log::{ClientAndTarget, Line, MessageEvent, write_line};
use chpw_table::Moment;
use std::alloc::Global;
use std::net::IpAddr;
use support_cases::Fault;

/// What comes before the result in a line: when, at which worker, from whom.
#[derive(Drop)]
struct Place {
    moment: Moment,
    worker: u8,
    peer: IpAddr,
    ghost range: { IsWholeMoment moment },
}

/// KIND SECONDS MICROS WORKER PEER ..
pub fn message_line(alloc: Global, words: &[&str]) -> Result<Vec<u8>, Fault> {
    let [kind, seconds, micros, worker, peer, rest @ ..] = words else {
        return Err(Fault::NoSuchCase);
    };
    let place = Place {
        moment: moment(seconds, micros)?,
        worker: parsed(worker)?,
        peer: address(alloc, peer)?,
    };
    match (*kind, rest) {
        ("decided", _) => decided_line(alloc, place, rest),
        ("full", [client, target, code, error, text]) => {
            let refusal = &refusal(code, error, text)?;
            let opened = opened_request(alloc, client, target)?;
            let asked = ClientAndTarget::of(&opened);
            place.line(alloc, MessageEvent::Full { asked, refusal })
        }
        ("unopened", [code, error, text]) => {
            let refusal = &refusal(code, error, text)?;
            place.line(alloc, MessageEvent::Unopened { refusal })
        }
        _ => Err(Fault::NoSuchCase),
    }
}

// CLIENT TARGET VERDICT KVNO, `-` for no version
fn decided_line(alloc: Global, place: Place, words: &[&str]) -> Result<Vec<u8>, Fault> {
    let [client, target, verdict, kvno] = words else {
        return Err(Fault::NoSuchCase);
    };
    let verdict = verdict_of(verdict)?;
    let kvno = if *kvno == "-" {
        None
    } else {
        Some(parsed(kvno)?)
    };
    let opened = opened_request(alloc, client, target)?;
    let asked = ClientAndTarget::of(&opened);
    place.line(
        alloc,
        MessageEvent::Decided {
            asked,
            verdict,
            kvno,
        },
    )
}

impl Place {
    fn line(self, alloc: Global, news: MessageEvent<'_>) -> Result<Vec<u8>, Fault> {
        let Place {
            moment,
            worker,
            peer,
        } = self;
        let line = Line {
            moment,
            worker,
            peer,
            news,
        };
        Ok(write_line(alloc, &line)?)
    }
}
