//! Words of a case.

ghost use Rattle.std.specs.Prelude.{IfOk};
ghost use Rattle.chpw_log.specs.Events.{IsWholeMoment};

use crate::words::parsed;
use chpw_table::{LAST_SECOND, Moment, Verdict};
use krb_protocol::Refusal;
use std::alloc::Global;
use std::net::{IpAddr, Ipv6Addr};
use support_cases::{Fault, bytes};

/// A moment by its seconds and microseconds.
pub fn moment(seconds: &str, micros: &str) -> Result<Moment, Fault>
    ensures told { IfOk result IsWholeMoment }
{
    let (seconds, micros) = (parsed(seconds)?, parsed(micros)?);
    if seconds < 0 || seconds > LAST_SECOND || micros >= 1_000_000 {
        return Err(Fault::NoSuchCase);
    }
    Ok(Moment { seconds, micros })
}

/// An address: four bytes or sixteen in hexadecimal.
pub fn address(alloc: Global, word: &str) -> Result<IpAddr, Fault> {
    let bytes = bytes(alloc, word)?;
    if let [a, b, c, d] = bytes.as_slice() {
        return Ok(IpAddr::from([*a, *b, *c, *d]));
    }
    match bytes.as_slice().try_into() {
        Ok(octets) => Ok(IpAddr::V6(Ipv6Addr::from_octets(octets))),
        Err(_) => Err(Fault::NoSuchCase),
    }
}

/// What a KRB-ERROR has, with one of the texts of these cases.
pub fn refusal(code: &str, error: &str, text: &str) -> Result<Refusal, Fault> {
    let text = match text {
        "malformed" => "malformed",
        "failed" => "authentication failed",
        "version" => "bad version",
        "long" => "message too long",
        "full" => "history full",
        "none" => "",
        "strange" => " a\tb\\c\u{e9}d\ne~\u{7f}/@ ",
        _ => return Err(Fault::NoSuchCase),
    };
    Ok(Refusal {
        code: parsed(code)?,
        error: parsed(error)?,
        text,
    })
}

/// A verdict by its name.
pub fn verdict_of(word: &str) -> Result<Verdict, Fault> {
    match word {
        "Skew" => Ok(Verdict::Skew),
        "Replay" => Ok(Verdict::Replay),
        "NotYet" => Ok(Verdict::NotYet),
        "Expired" => Ok(Verdict::Expired),
        "BadPrivate" => Ok(Verdict::BadPrivate),
        "BadBody" => Ok(Verdict::BadBody),
        "Denied" => Ok(Verdict::Denied),
        "NeedInitial" => Ok(Verdict::NeedInitial),
        "Unknown" => Ok(Verdict::Unknown),
        "Short" => Ok(Verdict::Short),
        "Classes" => Ok(Verdict::Classes),
        "Reused" => Ok(Verdict::Reused),
        "LastVersion" => Ok(Verdict::LastVersion),
        "Broken" => Ok(Verdict::Broken),
        "Done" => Ok(Verdict::Done),
        _ => Err(Fault::NoSuchCase),
    }
}
