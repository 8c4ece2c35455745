//! The lines of a drill script.
ghost use Rattle.std.specs.Prelude.{◌≡◌, ◌<◌, ◌^◌, map, IfOk, IfSome, option_map, pos, true};
ghost use Rattle.std.specs.Str.{is_utf8};
ghost use Rattle.chpw_table.specs.Updates.{update_fits};
ghost use Rattle.chpw_commands.specs.Words.{keep_if, words_of};
ghost use Rattle.chpw_commands.specs.Lines.{realm_of, quiet_of, open_of, fail_of, raise_of, adopt_of, adopted_of};
ghost use Rattle.chpw_commands.specs.Lines.{key_from, lift_of, remove_of, show_of, line_from, line_of};
ghost use Rattle.chpw_commands.specs.Following.{FitsLine};

use crate::drill::asking::{Asked, SECONDS, asked_from};
use crate::drill::setup::{policy, principal, rule};
use crate::drill::words::{CountedKey, counted_key, number};
use chpw_rules::{
    ENTRY_COUNTS, ITERATION_COUNTS, Items, KVNOS, Name, Policy, PrincipalRow, REALM_LENGTHS, Rule,
};
use chpw_table::{KdcUpdate, KeyRow, Moment};
use std::alloc::{AllocError, Global};

/// The most bytes of a line.
pub const LINE_LENGTH: usize = 4096;

/// A line of a drill script.
#[derive(Drop)]
pub enum Line {
    /// `realm TEXT`: 1 to 255 bytes.
    Realm(Items<u8>),
    /// `policy MIN_LENGTH MIN_CLASSES DEPTH ITERATIONS yes|no`
    Policy(Policy),
    /// `rule ACTOR TARGET|*`
    Rule(Rule),
    /// `principal NAME KVNO COUNT:KEY ..`
    Principal(PrincipalRow),
    /// `open MAX_ENTRIES QUIET_UNTIL`
    Open { max_entries: u32, quiet_until: i64 },
    /// `fail`: the next append fails.
    Fail,
    /// `ask ..`
    Ask(Asked),
    /// `raise NOW COUNT`: the iteration count of new keys, 1 to 16,777,216.
    Raise { now: Moment, count: u32 },
    /// `adopt NOW NAME KVNO COUNT:KEY`, `lift NOW NAME KVNO`, `remove NOW NAME`: what the KDC says of a principal.
    Update { now: Moment, update: KdcUpdate },
    /// `show NAME`, and the name as it was written.
    Show { name: Name, text: Items<u8> },
}

#[tactic(auto, unfolding(crate::specs::Lines::realm_of))]
fn realm_line(alloc: Global, words: &[&str]) -> Result<Option<Line>, AllocError>
    ensures value { IfOk result (λ found. found ≡ realm_of (map (λ w. w.now) words.now)) }
    ensures fits { IfOk result (λ found. IfSome found FitsLine) }
{
    let [text] = words else { return Ok(None) };
    if !REALM_LENGTHS.allow(text.len()) {
        return Ok(None);
    }
    let text = Vec::from_slice(alloc, text.as_bytes())?;
    Ok(Some(Line::Realm(Items::of(text))))
}

#[tactic(auto, unfolding(crate::specs::Lines::quiet_of))]
fn quiet_until(word: &str) -> Option<i64>
    ensures value { result ≡ quiet_of word.now }
{
    if word == "-1" {
        return Some(-1);
    }
    let seconds = number(word, SECONDS)?;
    Some(seconds as i64)
}

#[tactic(auto, unfolding(crate::specs::Lines::open_of))]
fn open(words: &[&str]) -> Option<Line>
    ensures value { result ≡ open_of (map (λ w. w.now) words.now) }
    ensures fits { IfSome result FitsLine }
{
    let [entries, quiet] = words else { return None };
    let max_entries = number(entries, ENTRY_COUNTS)? as u32;
    let quiet_until = quiet_until(quiet)?;
    Some(Line::Open {
        max_entries,
        quiet_until,
    })
}

#[tactic(auto, unfolding(crate::specs::Lines::fail_of))]
fn fail(words: &[&str]) -> Option<Line>
    ensures value { result ≡ fail_of (map (λ w. w.now) words.now) }
    ensures fits { IfSome result FitsLine }
{
    match words {
        [] => Some(Line::Fail),
        _ => None,
    }
}

#[tactic(auto, unfolding(crate::specs::Lines::raise_of))]
fn raise(words: &[&str]) -> Option<Line>
    ensures value { result ≡ raise_of (map (λ w. w.now) words.now) }
    ensures fits { IfSome result FitsLine }
{
    let [now, count] = words else { return None };
    let seconds = number(now, SECONDS)? as i64;
    let count = number(count, ITERATION_COUNTS)? as u32;
    let now = Moment { seconds, micros: 0 };
    Some(Line::Raise { now, count })
}

// Both keys of the byte, under this version.
fn key_from(kvno: u32, key: &CountedKey) -> KeyRow
    ensures value { result ≡ key_from kvno key.now }
{
    KeyRow {
        kvno,
        count: key.count,
        aes128: [key.byte; 16],
        aes256: [key.byte; 32],
    }
}

#[tactic(auto, unfolding(crate::specs::Lines::adopt_of))]
fn adopt(alloc: Global, words: &[&str]) -> Result<Option<Line>, AllocError>
    ensures value { IfOk result (λ found. found ≡ adopt_of (map (λ w. w.now) words.now)) }
    ensures fits { IfOk result (λ found. IfSome found FitsLine) }
{
    let [now, words @ ..] = words else {
        return Ok(None);
    };
    let Some(seconds) = number(now, SECONDS) else {
        return Ok(None);
    };
    let Some(update) = adopted(alloc, words)? else {
        return Ok(None);
    };
    Ok(Some(Line::Update {
        now: at(seconds),
        update,
    }))
}

// NAME KVNO COUNT:KEY
#[tactic(auto, unfolding(crate::specs::Lines::adopted_of))]
fn adopted(alloc: Global, words: &[&str]) -> Result<Option<KdcUpdate>, AllocError>
    ensures value { IfOk result (λ found. found ≡ adopted_of (map (λ w. w.now) words.now)) }
    ensures fits { IfOk result (λ found. IfSome found (λ update. update_fits update ≡ true)) }
{
    let [name, kvno, key] = words else {
        return Ok(None);
    };
    let Some(kvno) = number(kvno, KVNOS) else {
        return Ok(None);
    };
    let Some(key) = counted_key(key) else {
        return Ok(None);
    };
    let Some(name) = Name::parse(alloc, name)? else {
        return Ok(None);
    };
    let key = key_from(kvno as u32, &key);
    Ok(Some(KdcUpdate::Adopt { name, key }))
}

#[tactic(auto, unfolding(crate::specs::Lines::lift_of))]
fn lift(alloc: Global, words: &[&str]) -> Result<Option<Line>, AllocError>
    ensures value { IfOk result (λ found. found ≡ lift_of (map (λ w. w.now) words.now)) }
    ensures fits { IfOk result (λ found. IfSome found FitsLine) }
{
    let [now, name, kvno] = words else {
        return Ok(None);
    };
    let Some(seconds) = number(now, SECONDS) else {
        return Ok(None);
    };
    let Some(kvno) = number(kvno, KVNOS) else {
        return Ok(None);
    };
    let Some(name) = Name::parse(alloc, name)? else {
        return Ok(None);
    };
    Ok(Some(Line::Update {
        now: at(seconds),
        update: KdcUpdate::Lift {
            name,
            kvno: kvno as u32,
        },
    }))
}

#[tactic(auto, unfolding(crate::specs::Lines::remove_of))]
fn remove(alloc: Global, words: &[&str]) -> Result<Option<Line>, AllocError>
    ensures value { IfOk result (λ found. found ≡ remove_of (map (λ w. w.now) words.now)) }
    ensures fits { IfOk result (λ found. IfSome found FitsLine) }
{
    let [now, name] = words else {
        return Ok(None);
    };
    let Some(seconds) = number(now, SECONDS) else {
        return Ok(None);
    };
    let Some(name) = Name::parse(alloc, name)? else {
        return Ok(None);
    };
    Ok(Some(Line::Update {
        now: at(seconds),
        update: KdcUpdate::Remove { name },
    }))
}

// The moment of this second.
fn at(seconds: usize) -> Moment
    requires range { seconds < 2 ^ 60 }
    ensures value { result ≡ record { seconds = pos seconds; micros = 0 } }
{
    Moment {
        seconds: seconds as i64,
        micros: 0,
    }
}

#[tactic(auto, unfolding(crate::specs::Lines::show_of))]
fn show(alloc: Global, words: &[&str]) -> Result<Option<Line>, AllocError>
    ensures value { IfOk result (λ found. found ≡ show_of (map (λ w. w.now) words.now)) }
    ensures fits { IfOk result (λ found. IfSome found FitsLine) }
{
    let [word] = words else { return Ok(None) };
    let Some(name) = Name::parse(alloc, word)? else {
        return Ok(None);
    };
    let text = Items::of(Vec::from_slice(alloc, word.as_bytes())?);
    Ok(Some(Line::Show { name, text }))
}

// The line of these words, whose first word is its kind.
#[tactic(auto, unfolding(crate::specs::Lines::line_from))]
fn line_from(alloc: Global, realm: &[u8], words: &[&str]) -> Result<Option<Line>, AllocError>
    ensures value { IfOk result (λ found.
        found ≡ line_from realm.now (map (λ w. w.now) words.now)) }
    ensures fits { IfOk result (λ found. IfSome found FitsLine) }
{
    let [kind, words @ ..] = words else {
        return Ok(None);
    };
    match *kind {
        "realm" => realm_line(alloc, words),
        "policy" => Ok(policy(words).map(Line::Policy)),
        "rule" => Ok(rule(alloc, words)?.map(Line::Rule)),
        "principal" => Ok(principal(alloc, words)?.map(Line::Principal)),
        "open" => Ok(open(words)),
        "fail" => Ok(fail(words)),
        "ask" => Ok(asked_from(alloc, realm, words)?.map(Line::Ask)),
        "raise" => Ok(raise(words)),
        "adopt" => adopt(alloc, words),
        "lift" => lift(alloc, words),
        "remove" => remove(alloc, words),
        "show" => show(alloc, words),
        _ => Ok(None),
    }
}

// The text that bytes spell in UTF-8.
fn text_of(bytes: &[u8]) -> Option<&str>
    ensures value { option_map (λ text. text.now) result ≡ keep_if (is_utf8 bytes.now) bytes.now }
{
    str::from_utf8(bytes).ok()
}

// The words between single spaces.
fn words_of(alloc: Global, text: &str) -> Result<Vec<&str>, AllocError>
    ensures value { IfOk result (λ words. map (λ w. w.now) words.items ≡ words_of text.now) }
{
    text.split(' ').collect(alloc)
}

/// The line that these bytes spell: `None` for a bad line. `realm` is that of names without `@`.
pub fn parse_line(alloc: Global, realm: &[u8], bytes: &[u8]) -> Result<Option<Line>, AllocError>
    ensures value { IfOk result (λ found. found ≡ line_of realm.now bytes.now) }
    ensures fits { IfOk result (λ found. IfSome found FitsLine) }
{
    if bytes.len() > LINE_LENGTH {
        return Ok(None);
    }
    let Some(text) = text_of(bytes) else {
        return Ok(None);
    };
    let words = words_of(alloc, text)?;
    line_from(alloc, realm, words.as_slice())
}
