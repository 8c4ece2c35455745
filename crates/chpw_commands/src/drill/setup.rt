//! The lines before `open`.
ghost use Rattle.std.specs.Prelude.{◌≡◌, map, IfOk, IfSome, ◌≤◌, length};
ghost use Rattle.chpw_commands.specs.Setup.{choice_of, policy_of, rule_target, rule_of, key_under, numbered, principal_of};

use crate::drill::words::{CountedKey, counted_keys, number};
use chpw_rules::{
    DEPTHS, ITERATION_COUNTS, Items, KEY_COUNTS, KVNOS, KeyBytes, MIN_CLASS_COUNTS, MIN_LENGTHS,
    Name, Policy, PrincipalRow, Rule,
};
use std::alloc::{AllocError, Global};

#[tactic(auto, unfolding(crate::specs::Setup::choice_of))]
fn choice(word: &str) -> Option<bool>
    ensures value { result ≡ choice_of word.now }
{
    match word {
        "yes" => Some(true),
        "no" => Some(false),
        _ => None,
    }
}

/// MIN_LENGTH MIN_CLASSES DEPTH ITERATIONS yes|no
#[tactic(auto, unfolding(crate::specs::Setup::policy_of))]
pub fn policy(words: &[&str]) -> Option<Policy>
    ensures value { result ≡ policy_of (map (λ w. w.now) words.now) }
{
    let [min_length, min_classes, depth, iterations, set] = words else {
        return None;
    };
    Some(Policy {
        min_length: number(min_length, MIN_LENGTHS)? as u32,
        min_classes: number(min_classes, MIN_CLASS_COUNTS)? as u8,
        depth: number(depth, DEPTHS)? as u8,
        iterations: number(iterations, ITERATION_COUNTS)? as u32,
        set_needs_initial: choice(set)?,
    })
}

// TARGET, or `*` for every target.
#[tactic(auto, unfolding(crate::specs::Setup::rule_target))]
fn target(alloc: Global, word: &str) -> Result<Option<Option<Name>>, AllocError>
    ensures value { IfOk result (λ found. found ≡ rule_target word.now) }
{
    if word == "*" {
        return Ok(Some(None));
    }
    match Name::parse(alloc, word)? {
        None => Ok(None),
        Some(name) => Ok(Some(Some(name))),
    }
}

/// ACTOR TARGET|*
#[tactic(auto, unfolding(crate::specs::Setup::rule_of))]
pub fn rule(alloc: Global, words: &[&str]) -> Result<Option<Rule>, AllocError>
    ensures value { IfOk result (λ found. found ≡ rule_of (map (λ w. w.now) words.now)) }
{
    let [actor, word] = words else {
        return Ok(None);
    };
    let Some(actor) = Name::parse(alloc, actor)? else {
        return Ok(None);
    };
    let Some(target) = target(alloc, word)? else {
        return Ok(None);
    };
    Ok(Some(Rule { actor, target }))
}

// Keys whose versions go down from the newest.
fn number_keys(alloc: Global, newest: u32, keys: &[CountedKey]) -> Result<Vec<KeyBytes>, AllocError>
    requires versions { length keys.now ≤ newest }
    ensures value { IfOk result (λ rows. rows.items ≡ numbered newest keys.now) }
{
    let mut rows = Vec::new(alloc);
    let mut kvno = newest;
    for key in keys {
        rows.push(key_under(kvno, key))?;
        kvno -= 1;
    }
    Ok(rows)
}

// Both keys of one byte.
fn key_under(kvno: u32, key: &CountedKey) -> KeyBytes
    ensures value { result ≡ key_under kvno key.now }
{
    KeyBytes {
        kvno,
        iterations: key.count,
        aes128: [key.byte; 16],
        aes256: [key.byte; 32],
    }
}

/// NAME KVNO COUNT:KEY .., newest first: 1 to 16 keys, the last of version 1 or more.
#[tactic(auto, unfolding(crate::specs::Setup::principal_of))]
pub fn principal(alloc: Global, words: &[&str]) -> Result<Option<PrincipalRow>, AllocError>
    ensures value { IfOk result (λ found. found ≡ principal_of (map (λ w. w.now) words.now)) }
{
    let [name, kvno, keys @ ..] = words else {
        return Ok(None);
    };
    let Some(newest) = number(kvno, KVNOS) else {
        return Ok(None);
    };
    let Some(keys) = counted_keys(alloc, keys)? else {
        return Ok(None);
    };
    if !KEY_COUNTS.allow(keys.len()) || newest < keys.len() {
        return Ok(None);
    }
    let Some(name) = Name::parse(alloc, name)? else {
        return Ok(None);
    };
    let keys = Items::of(number_keys(alloc, newest as u32, keys.as_slice())?);
    Ok(Some(PrincipalRow { name, keys }))
}
