//! The contents of GeneralizedTimes, `YYYYMMDDHHMMSSZ` (X.690 section 11.7, RFC 4120 section 5.2.3).
//! Their element is in `kerberos_time`.

ghost use Rattle.std.specs.Prelude.{◌≡◌, ◌↔◌, ◌≤◌, ◌<◌, ◌+◌, ◌≤ℤ◌, ℕ, ℤ, List, pos, length, slice_index, IfSome, IsNone, if◌then◌else◌};
ghost use Rattle.std.specs.Int.{IsInRange};
ghost use Rattle.std.specs.Str.{all_ascii_digits};
ghost use Rattle.krb_codec.specs.CivilTimes.{IsCivilTime, civil_at, day_number, is_civil_day, is_time_of_day, second_of_day};
ghost use Rattle.krb_codec.specs.Times.{IsTime, IsWritable, civil_of, civil_text, has_time_form, pair, pair_at, seconds_of, time_in, time_of};
ghost use Rattle.jiff_core.specs.Calendar.{IsEpochDay};
ghost use Rattle.jiff_core.specs.Date.{epoch_day};

use crate::fault::{DerFault, FaultKind};
use jiff_core::civil::Date;

/// The bytes of a time's text.
const TEXT_LEN: usize = 15;

const DAY: i64 = 86_400;

/// 0000-01-01T00:00:00Z.
const FIRST_SECOND: i64 = -62_167_219_200;

/// 9999-12-31T23:59:59Z.
const LAST_SECOND: i64 = 253_402_300_799;

/// A day of the calendar and a time of that day.
#[derive(Clone, Copy)]
struct CivilTime {
    year: u16,
    month: u8,
    day: u8,
    hour: u8,
    minute: u8,
    second: u8,
}

/// The seconds since 1970-01-01T00:00:00Z of the time `YYYYMMDDHHMMSSZ` (RFC 4120 section 5.2.3).
///
/// `None` where a byte is no digit or the last isn't `Z`, where the calendar doesn't have the day,
/// and past 23 hours, 59 minutes or 59 seconds.
pub fn time_to_seconds(text: &[u8; 15]) -> Option<i64>
    ensures value { result ≡ seconds_of text.now }
    ensures exact { (seconds : ℤ) → (result ≡ Some seconds) ↔ IsTime text.now seconds }
{
    seconds_of(text)
}

/// The text `YYYYMMDDHHMMSSZ` of the seconds since 1970-01-01T00:00:00Z (RFC 4120 section 5.2.3).
///
/// `None` outside the years 0 to 9999.
pub fn seconds_to_time(seconds: i64) -> Option<[u8; 15]>
    ensures value { result ≡ time_of seconds }
    ensures exact { (text : List ℕ) → (result ≡ Some text) ↔ IsTime text seconds }
    ensures none { IsNone result ↔ ¬ (IsWritable seconds) }
{
    if seconds < FIRST_SECOND || seconds > LAST_SECOND {
        return None;
    }
    Some(civil_text(civil_at(seconds)))
}

/// The seconds that the contents of a GeneralizedTime at a place spell, as [`time_to_seconds`].
///
/// `BadTime` at the place where the contents aren't fifteen bytes or spell no time.
pub fn time_in(place: usize, content: &[u8]) -> Result<i64, DerFault>
    ensures { result ≡ time_in place content.now }
{
    match seconds_of(content) {
        Some(seconds) => Ok(seconds),
        None => Err(DerFault {
            place,
            kind: FaultKind::BadTime,
        }),
    }
}

fn seconds_of(text: &[u8]) -> Option<i64>
    ensures { result ≡ seconds_of text.now }
{
    if !has_time_form(text) {
        return None;
    }
    let time = civil_of(text);
    match day_number(time) {
        Some(day) if is_time_of_day(time) => Some(day * DAY + second_of_day(time)),
        _ => None,
    }
}

/// Whether the text is fourteen digits and a Z.
fn has_time_form(text: &[u8]) -> bool
    ensures { result ≡ has_time_form text.now }
{
    text.len() == TEXT_LEN && are_digits(&text[..14]) && text[14] == b'Z'
}

fn are_digits(bytes: &[u8]) -> bool
    ensures { result ≡ all_ascii_digits bytes.now }
{
    match bytes {
        [] => true,
        [first, rest @ ..] => first.is_ascii_digit() && are_digits(rest),
    }
}

/// The number that two digits write.
fn pair_at(text: &[u8], i: usize) -> u8
    requires within { i + 1 < length text.now }
    requires first { IsInRange 48 57 (slice_index text.now i) }
    requires second { IsInRange 48 57 (slice_index text.now (i + 1)) }
    ensures value { result ≡ pair_at text.now i }
    ensures bound { result < 100 }
{
    10 * (text[i] - b'0') + (text[i + 1] - b'0')
}

/// The parts of a text whose first fourteen bytes are digits.
fn civil_of(text: &[u8]) -> CivilTime
    requires len { length text.now ≡ 15 }
    requires digits { (i : ℕ) → i < 14 → IsInRange 48 57 (slice_index text.now i) }
    ensures value { result ≡ civil_of text.now }
    ensures year { result.year ≤ 9999 }
    ensures month { result.month ≤ 99 }
    ensures day { result.day ≤ 99 }
{
    CivilTime {
        year: 100 * u16::from(pair_at(text, 0)) + u16::from(pair_at(text, 2)),
        month: pair_at(text, 4),
        day: pair_at(text, 6),
        hour: pair_at(text, 8),
        minute: pair_at(text, 10),
        second: pair_at(text, 12),
    }
}

/// The day's number, counted from 1970-01-01, where the calendar has the day.
fn day_number(time: CivilTime) -> Option<i64>
    requires year { time.year ≤ 9999 }
    requires month { time.month ≤ 99 }
    requires day { time.day ≤ 99 }
    ensures value { result ≡ (if is_civil_day time then Some (day_number time) else None) }
    ensures bound { IfSome result IsEpochDay }
{
    match Date::new(time.year as i16, time.month as i8, time.day as i8) {
        Ok(date) => Some(i64::from(date.to_unix_epoch_day())),
        Err(_) => None,
    }
}

fn is_time_of_day(time: CivilTime) -> bool
    ensures { result ≡ is_time_of_day time }
{
    time.hour <= 23 && time.minute <= 59 && time.second <= 59
}

fn second_of_day(time: CivilTime) -> i64
    ensures value { result ≡ pos (second_of_day time) }
    ensures bound { result ≤ℤ pos 1000000 }
{
    3600 * i64::from(time.hour) + 60 * i64::from(time.minute) + i64::from(time.second)
}

/// The day and the time at some seconds since 1970-01-01T00:00:00Z, in the years 0 to 9999.
fn civil_at(seconds: i64) -> CivilTime
    requires { IsWritable seconds }
    ensures value { result ≡ civil_at seconds }
    ensures civil { IsCivilTime result }
{
    let second = seconds.rem_euclid(DAY) as u32;
    let date = date_of(seconds.div_euclid(DAY));
    CivilTime {
        year: date.year as u16,
        month: date.month,
        day: date.day,
        hour: (second / 3600) as u8,
        minute: (second / 60 % 60) as u8,
        second: (second % 60) as u8,
    }
}

/// The date of a day that is counted from 1970-01-01.
fn date_of(day: i64) -> Date
    requires { IsEpochDay day }
    ensures { epoch_day result ≡ day }
{
    Date::from_unix_epoch_day(day).unwrap()
}

fn civil_text(time: CivilTime) -> [u8; 15]
    requires { IsCivilTime time }
    ensures { result ≡ civil_text time }
{
    let [year1, year2] = pair((time.year / 100) as u8);
    let [year3, year4] = pair((time.year % 100) as u8);
    let [month1, month2] = pair(time.month);
    let [day1, day2] = pair(time.day);
    let [hour1, hour2] = pair(time.hour);
    let [minute1, minute2] = pair(time.minute);
    let [second1, second2] = pair(time.second);
    [
        year1, year2, year3, year4, month1, month2, day1, day2, hour1, hour2, minute1, minute2,
        second1, second2, b'Z',
    ]
}

/// The two decimal digits of a number.
fn pair(n: u8) -> [u8; 2]
    requires { n < 100 }
    ensures { result ≡ pair n }
{
    [b'0' + n / 10, b'0' + n % 10]
}
