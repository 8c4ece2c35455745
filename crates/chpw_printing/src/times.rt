//! Times as they are printed.
ghost use Rattle.std.specs.Prelude.{◌≡◌, ◌++◌, ◌<◌, true, OnOk};
ghost use Rattle.krb_codec.specs.Times.{IsWritable, pair, time_octets};
ghost use Rattle.chpw_printing.specs.Quoting.{is_field};
ghost use Rattle.chpw_printing.specs.Times.{date_time, six_digits, time_text};

use krb_codec::seconds_to_time;
use std::alloc::AllocError;

/// Adds a time: `2026-11-25T06:31:50.123456Z`. It is given in seconds since 1970-01-01T00:00:00Z, of the years 0 to
/// 9999, and microseconds below 1,000,000.
#[tactic(auto, using(crate::proofs::TimeLemmas::time_field))]
pub fn put_time(text: &mut Vec<u8>, seconds: i64, micros: u32) -> Result<(), AllocError>
    requires seconds { IsWritable seconds }
    requires micros { micros < 1000000 }
    ensures value { OnOk result (text.new.items ≡ text.old.items ++ time_text seconds micros) }
    ensures field { is_field (time_text seconds micros) ≡ true }
{
    let octets = octets_of(seconds);
    put_date_time(text, &octets, micros)
}

// `YYYYMMDDHHMMSSZ` (RFC 4120 section 5.2.3).
fn octets_of(seconds: i64) -> [u8; 15]
    requires { IsWritable seconds }
    ensures value { result ≡ time_octets seconds }
{
    seconds_to_time(seconds).unwrap()
}

// The time with RFC 3339's marks, and the second's fraction.
fn put_date_time(text: &mut Vec<u8>, time: &[u8; 15], micros: u32) -> Result<(), AllocError>
    requires { micros < 1000000 }
    ensures value { OnOk result (text.new.items ≡ text.old.items ++ date_time time.now micros) }
{
    text.extend_from_slice(&time[..4])?;
    text.push(b'-')?;
    text.extend_from_slice(&time[4..6])?;
    text.push(b'-')?;
    text.extend_from_slice(&time[6..8])?;
    text.push(b'T')?;
    text.extend_from_slice(&time[8..10])?;
    text.push(b':')?;
    text.extend_from_slice(&time[10..12])?;
    text.push(b':')?;
    text.extend_from_slice(&time[12..14])?;
    text.push(b'.')?;
    put_fraction(text, micros)?;
    text.push(b'Z')?;
    Ok(())
}

// The six digits of a second's microseconds.
fn put_fraction(text: &mut Vec<u8>, micros: u32) -> Result<(), AllocError>
    requires { micros < 1000000 }
    ensures value { OnOk result (text.new.items ≡ text.old.items ++ six_digits micros) }
{
    put_pair(text, (micros / 10_000) as u8)?;
    put_pair(text, (micros / 100 % 100) as u8)?;
    put_pair(text, (micros % 100) as u8)
}

// The two digits of a number.
fn put_pair(text: &mut Vec<u8>, number: u8) -> Result<(), AllocError>
    requires { number < 100 }
    ensures value { OnOk result (text.new.items ≡ text.old.items ++ pair number) }
{
    text.push(b'0' + number / 10)?;
    text.push(b'0' + number % 10)?;
    Ok(())
}
