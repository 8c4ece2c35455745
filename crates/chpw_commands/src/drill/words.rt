//! The words of a drill script, and the numbers, keys and names that they spell.
ghost use Rattle.std.specs.Prelude.{◌≡◌, ◌<◌, ◌≤◌, ◌^◌, ◌&&◌, map, IfOk, IfSome, nat_le, true};
ghost use Rattle.std.specs.Char.{is_ascii_digit};
ghost use Rattle.std.specs.Option.{option_map};
ghost use Rattle.std.specs.List.{list_all};
ghost use Rattle.chpw_rules.specs.Limits.{is_in, iteration_counts};
ghost use Rattle.chpw_commands.specs.Words.{keep_if, split_first, split_last, value_from, is_number, number_in, key_byte, counted_key, named_in, each_of};

use chpw_rules::{ITERATION_COUNTS, Items, Limits, Name, REALM_LENGTHS};
use chpw_table::Target;
use std::alloc::{AllocError, Global};

/// An iteration count, and the byte that the keys under it are made of.
#[derive(Clone, Copy, Drop)]
pub struct CountedKey {
    pub count: u32,
    pub byte: u8,
}

/// The parts before and after the first such character.
pub fn split_first(word: &str, mark: char) -> Option<(&str, &str)>
    requires { mark < 128 }
    ensures value { option_map (λ parts. (parts.0.now, parts.1.now)) result
        ≡ split_first mark word.now }
{
    word.split_once(mark)
}

// The parts before and after the last such character.
fn split_last(word: &str, mark: char) -> Option<(&str, &str)>
    requires { mark < 128 }
    ensures value { option_map (λ parts. (parts.0.now, parts.1.now)) result
        ≡ split_last mark word.now }
{
    word.rsplit_once(mark)
}

// The number that digits spell, up to `high`.
fn digits_up_to(digits: &[u8], high: usize) -> Option<usize>
    requires { high < 2 ^ 60 }
    ensures value { result ≡ keep_if
        (list_all is_ascii_digit digits.now && nat_le (value_from 0 digits.now) high)
        (value_from 0 digits.now) }
{
    let mut value = 0;
    let mut rest = digits;
    while let [digit, after @ ..] = rest {
        if !digit.is_ascii_digit() {
            return None;
        }
        value = 10 * value + usize::from(*digit - b'0');
        if value > high {
            return None;
        }
        rest = after;
    }
    Some(value)
}

/// The decimal number, without leading zeros, within these limits.
#[tactic(auto, unfolding(crate::specs::Words::number_in))]
pub fn number(word: &str, limits: Limits) -> Option<usize>
    requires { limits.high < 2 ^ 60 }
    ensures value { result ≡ number_in limits word.now }
    ensures low { IfSome result (λ number. limits.low ≤ number) }
    ensures high { IfSome result (λ number. number ≤ limits.high) }
{
    let digits = word.as_bytes();
    match digits {
        [] | [b'0', _, ..] => return None,
        _ => {}
    }
    let value = digits_up_to(digits, limits.high)?;
    if value < limits.low {
        return None;
    }
    Some(value)
}

// KEY: two hexadecimal digits.
#[tactic(auto, unfolding(crate::specs::Words::key_byte))]
fn key_byte(word: &str) -> Option<u8>
    ensures value { result ≡ key_byte word.now }
{
    let mut key = [0];
    match hex::decode_to_slice(word, &mut key) {
        Ok(()) => Some(key[0]),
        Err(_) => None,
    }
}

/// COUNT:KEY
#[tactic(auto, unfolding(crate::specs::Words::counted_key))]
pub fn counted_key(word: &str) -> Option<CountedKey>
    ensures value { result ≡ counted_key word.now }
    ensures count { IfSome result (λ key. is_in iteration_counts key.count ≡ true) }
{
    let (count, key) = split_first(word, ':')?;
    let count = number(count, ITERATION_COUNTS)? as u32;
    let byte = key_byte(key)?;
    Some(CountedKey { count, byte })
}

/// COUNT:KEY ..
pub fn counted_keys(alloc: Global, words: &[&str]) -> Result<Option<Vec<CountedKey>>, AllocError>
    ensures value { IfOk result (λ found. option_map (λ keys. keys.items) found
        ≡ each_of counted_key (map (λ w. w.now) words.now)) }
{
    let mut keys = Vec::new(alloc);
    for word in words {
        let Some(key) = counted_key(word) else {
            return Ok(None);
        };
        keys.push(key)?;
    }
    Ok(Some(keys))
}

/// NAME, or NAME@REALM, where the realm follows the last `@`.
#[tactic(auto, unfolding(crate::specs::Words::named_in))]
pub fn parse_target(alloc: Global, realm: &[u8], word: &str) -> Result<Option<Target>, AllocError>
    ensures value { IfOk result (λ found. found ≡ named_in realm.now word.now) }
{
    let (text, realm) = match split_last(word, '@') {
        None => (word, realm),
        Some((text, own)) => (text, own.as_bytes()),
    };
    let Some(name) = Name::parse(alloc, text)? else {
        return Ok(None);
    };
    if !REALM_LENGTHS.allow(realm.len()) {
        return Ok(None);
    }
    let realm = Items::of(Vec::from_slice(alloc, realm)?);
    Ok(Some(Target { realm, name }))
}
