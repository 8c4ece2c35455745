//! Updates from the KDC.

use crate::log::making::principal;
use crate::log::words::moment;
use crate::words::parsed;
use chpw_log::write_update;
use chpw_table::{KdcUpdate, KeyRow, UpdateVerdict};
use std::alloc::Global;
use support_cases::Fault;

/// SECONDS MICROS VERDICT KIND :NAME [KVNO]
pub fn update_line(alloc: Global, words: &[&str]) -> Result<Vec<u8>, Fault> {
    let [seconds, micros, verdict, kind, name, kvno @ ..] = words else {
        return Err(Fault::NoSuchCase);
    };
    let moment = moment(seconds, micros)?;
    let verdict = verdict_of(verdict)?;
    let name = principal(alloc, name)?.name;
    let update = match (*kind, kvno) {
        ("adopt", [kvno]) => {
            let key = KeyRow {
                kvno: parsed(kvno)?,
                count: 4096,
                aes128: [0xa1; 16],
                aes256: [0xa1; 32],
            };
            KdcUpdate::Adopt { name, key }
        }
        ("lift", [kvno]) => {
            let kvno = parsed(kvno)?;
            KdcUpdate::Lift { name, kvno }
        }
        ("remove", []) => KdcUpdate::Remove { name },
        _ => return Err(Fault::NoSuchCase),
    };
    Ok(write_update(alloc, moment, &update, verdict)?)
}

fn verdict_of(word: &str) -> Result<UpdateVerdict, Fault> {
    match word {
        "NoSuchPrincipal" => Ok(UpdateVerdict::NoSuchPrincipal),
        "NotNewer" => Ok(UpdateVerdict::NotNewer),
        "Broken" => Ok(UpdateVerdict::Broken),
        "Taken" => Ok(UpdateVerdict::Taken),
        _ => Err(Fault::NoSuchCase),
    }
}
