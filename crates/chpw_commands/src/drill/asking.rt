//! The line `ask`.
ghost use Rattle.std.specs.Prelude.{◌≡◌, map, IfOk, IfSome};
ghost use Rattle.chpw_table.specs.Times.{IsMoment};
ghost use Rattle.chpw_commands.specs.Asking.{times_of, flags_of, target_in, derived_of, digest_of, bad_body_of, ask_of, body_of, opened_of, asked_of};

use crate::drill::words::{CountedKey, counted_keys, number, parse_target, split_first};
use chpw_rules::{Limits, MIN_CLASS_COUNTS};
use chpw_table::{Body, COUNTS_LIMIT, Digest, LAST_SECOND, Moment, Opened, Target};
use krb_keys::Key;
use std::alloc::{AllocError, Global};

/// Seconds from 1970-01-01T00:00:00Z to the end of the year 9999.
pub const SECONDS: Limits = Limits {
    low: 0,
    high: LAST_SECOND as usize,
};
/// The microseconds of a second.
const MICROSECONDS: Limits = Limits {
    low: 0,
    high: 999_999,
};
/// The length of a password in bytes.
const PASSWORD_LENGTHS: Limits = Limits {
    low: 0,
    high: 65_535,
};

/// What `ask` asks, and when.
#[derive(Drop)]
pub struct Asked {
    pub now: Moment,
    pub opened: Opened,
}

/// The authenticator's time, in seconds and microseconds, and the ticket's times.
#[derive(Clone, Copy, Drop)]
pub struct Times {
    pub ctime: i64,
    pub cusec: u32,
    pub starts: i64,
    pub ends: i64,
}

/// The ticket's flags.
#[derive(Clone, Copy, Drop)]
pub struct Flags {
    pub initial: bool,
    pub invalid: bool,
}

// CTIME.CUSEC STARTS ENDS
#[tactic(auto, unfolding(crate::specs::Asking::times_of))]
fn times_from(stamp: &str, starts: &str, ends: &str) -> Option<Times>
    ensures value { result ≡ times_of stamp.now starts.now ends.now }
{
    let (ctime, cusec) = split_first(stamp, '.')?;
    let ctime = number(ctime, SECONDS)? as i64;
    let cusec = number(cusec, MICROSECONDS)? as u32;
    let starts = number(starts, SECONDS)? as i64;
    let ends = number(ends, SECONDS)? as i64;
    Some(Times {
        ctime,
        cusec,
        starts,
        ends,
    })
}

#[tactic(auto, unfolding(crate::specs::Asking::flags_of))]
fn flags_from(word: &str) -> Option<Flags>
    ensures value { result ≡ flags_of word.now }
{
    let (initial, invalid) = match word {
        "-" => (false, false),
        "i" => (true, false),
        "v" => (false, true),
        "iv" => (true, true),
        _ => return None,
    };
    Some(Flags { initial, invalid })
}

// TARGET, or `-` for none.
#[tactic(auto, unfolding(crate::specs::Asking::target_in))]
fn target(alloc: Global, realm: &[u8], word: &str) -> Result<Option<Option<Target>>, AllocError>
    ensures value { IfOk result (λ found. found ≡ target_in realm.now word.now) }
{
    if word == "-" {
        return Ok(Some(None));
    }
    match parse_target(alloc, realm, word)? {
        None => Ok(None),
        Some(target) => Ok(Some(Some(target))),
    }
}

fn derived_from(key: &CountedKey) -> (u32, Key, Key)
    ensures value { result ≡ derived_of key.now }
{
    (
        key.count,
        Key::Aes128([key.byte; 16]),
        Key::Aes256([key.byte; 32]),
    )
}

fn derived_keys(alloc: Global, keys: &[CountedKey]) -> Result<Vec<(u32, Key, Key)>, AllocError>
    ensures value { IfOk result (λ derived. derived.items ≡ map derived_of keys.now) }
{
    keys.iter().map(|key| derived_from(key)).collect(alloc)
}

// COUNT:KEY .., at most 17, no count twice.
#[tactic(auto, unfolding(crate::specs::Asking::digest_of))]
fn digest(
    alloc: Global,
    length: u32,
    classes: u8,
    words: &[&str],
) -> Result<Option<Digest>, AllocError>
    ensures value { IfOk result (λ found.
        found ≡ digest_of length classes (map (λ w. w.now) words.now)) }
{
    let Some(keys) = counted_keys(alloc, words)? else {
        return Ok(None);
    };
    if keys.len() > COUNTS_LIMIT {
        return Ok(None);
    }
    let derived = derived_keys(alloc, keys.as_slice())?;
    Ok(Digest::of(length, classes, derived))
}

// TARGET LENGTH CLASSES COUNT:KEY ..
#[tactic(auto, unfolding(crate::specs::Asking::ask_of))]
fn ask(alloc: Global, realm: &[u8], words: &[&str]) -> Result<Option<Body>, AllocError>
    ensures value { IfOk result (λ found. found ≡ ask_of realm.now (map (λ w. w.now) words.now)) }
{
    let [word, length, classes, keys @ ..] = words else {
        return Ok(None);
    };
    let Some(length) = number(length, PASSWORD_LENGTHS) else {
        return Ok(None);
    };
    let Some(classes) = number(classes, MIN_CLASS_COUNTS) else {
        return Ok(None);
    };
    let Some(target) = target(alloc, realm, word)? else {
        return Ok(None);
    };
    let Some(digest) = digest(alloc, length as u32, classes as u8, keys)? else {
        return Ok(None);
    };
    Ok(Some(Body::Ask { target, digest }))
}

// `bad-private`, `bad-data`, or what is asked for.
#[tactic(auto, unfolding(crate::specs::Asking::body_of))]
fn body(alloc: Global, realm: &[u8], words: &[&str]) -> Result<Option<Body>, AllocError>
    ensures value { IfOk result (λ found. found ≡ body_of realm.now (map (λ w. w.now) words.now)) }
{
    match words {
        [word] => Ok(bad_body(word)),
        _ => ask(alloc, realm, words),
    }
}

#[tactic(auto, unfolding(crate::specs::Asking::bad_body_of))]
fn bad_body(word: &str) -> Option<Body>
    ensures value { result ≡ bad_body_of word.now }
{
    match word {
        "bad-private" => Some(Body::BadPrivate),
        "bad-data" => Some(Body::BadData),
        _ => None,
    }
}

/// NOW CLIENT CTIME.CUSEC STARTS ENDS FLAGS, and the body.
#[tactic(auto, unfolding(crate::specs::Asking::asked_of))]
pub fn asked_from(alloc: Global, realm: &[u8], words: &[&str]) -> Result<Option<Asked>, AllocError>
    ensures value { IfOk result (λ found. found ≡ asked_of realm.now (map (λ w. w.now) words.now)) }
    ensures moment { IfOk result (λ found. IfSome found (λ asked. IsMoment asked.now)) }
{
    let [now, client, stamp, starts, ends, flags, rest @ ..] = words else {
        return Ok(None);
    };
    let Some(now) = number(now, SECONDS) else {
        return Ok(None);
    };
    let Some(times) = times_from(stamp, starts, ends) else {
        return Ok(None);
    };
    let Some(flags) = flags_from(flags) else {
        return Ok(None);
    };
    let Some(client) = parse_target(alloc, realm, client)? else {
        return Ok(None);
    };
    let Some(body) = body(alloc, realm, rest)? else {
        return Ok(None);
    };
    let now = Moment {
        seconds: now as i64,
        micros: 0,
    };
    let opened = opened_from(client, times, flags, body);
    Ok(Some(Asked { now, opened }))
}

// The request with these parts; there is no timestamp in the KRB-PRIV.
fn opened_from(client: Target, times: Times, flags: Flags, body: Body) -> Opened
    ensures value { result ≡ opened_of client times flags body }
{
    Opened {
        crealm: client.realm,
        client: client.name,
        initial: flags.initial,
        invalid: flags.invalid,
        starts: times.starts,
        ends: times.ends,
        ctime: times.ctime,
        cusec: times.cusec,
        stamp: None,
        body,
    }
}
