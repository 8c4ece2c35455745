//! Patterns of names, which say who of the KDC's principals is the service's.
ghost use Rattle.std.specs.Prelude.{◌≡◌, ◌<◌, ◌++◌, ◌∷◌, [], ℕ, List, ◌↔◌, length, true, IfOk};
ghost use Rattle.chpw_rules.specs.declared.name.Name.{Name};
ghost use Rattle.std.specs.Bool.{Decides};
ghost use Rattle.std.specs.List.{join_with_byte};
ghost use Rattle.chpw_rules.specs.Patterns.{IsOurs, Matches, any_matches, has_no_slash, is_ours, matches, of_one_component, pattern_of, spelling};
ghost use Rattle.chpw_rules.specs.Prefixes.{AreMatched, is_matched};

use crate::items::Items;
use crate::limits::PATTERN_LENGTHS;
use crate::name::Name;
use std::alloc::{AllocError, Global};
use std::marker::Model;

const STAR: u8 = b'*';

const SLASH: u8 = b'/';

// One more than the most bytes of a pattern.
const PLACES: usize = 256;

/// A pattern of 1 to 255 bytes, which is matched with a name's components, joined by `/`. A `*` stands for any run of
/// bytes without `/`, also for none; every other byte stands for itself.
#[derive(Drop)]
pub struct NamePattern {
    text: Items<u8>,
}

impl Model for NamePattern {
    ghost use Rattle.std.specs.Prelude.{◌≡◌, List, ℕ, true};
    ghost use Rattle.chpw_rules.specs.Limits.{is_in, pattern_lengths};
    ghost use Rattle.std.specs.Prelude.{length};

    ghost Value = { List ℕ };

    ghost view = { λ pattern. pattern.text };

    ghost invariant = { λ pattern. is_in pattern_lengths (length pattern.text) ≡ true };
}

impl NamePattern {
    /// The pattern with this text; none if it is empty or has more than 255 bytes.
    pub fn parse(alloc: Global, text: &str) -> Result<Option<NamePattern>, AllocError>
        ensures value { IfOk result (λ found. found ≡ pattern_of text.now) }
    {
        if !PATTERN_LENGTHS.allow(text.len()) {
            return Ok(None);
        }
        let text = Items::of(Vec::from_slice(alloc, text.as_bytes())?);
        Ok(Some(NamePattern { text }))
    }

    pub fn as_bytes(&self) -> &[u8]
        ensures value { result.now ≡ self.now }
    {
        self.text.as_slice()
    }

    /// Whether the pattern matches the name, its components joined by `/`. It takes as many steps as the pattern has
    /// bytes for each byte of the name.
    pub fn matches(&self, name: &Name) -> bool
        ensures value { Decides result (Matches self.now (spelling name.now)) }
        ensures test { result ≡ matches self.now (spelling name.now) }
    {
        let pattern = self.text.as_slice();
        let mut matched = [false; PLACES];
        begin(pattern, &mut matched);
        read_name(pattern, &mut matched, name.parts.as_slice());
        matched[pattern.len()]
    }
}

/// Who of the KDC's principals is the service's.
#[derive(Drop)]
pub struct NamePatterns {
    /// At most 64.
    pub include: Items<NamePattern>,
    /// At most 64.
    pub exclude: Items<NamePattern>,
}

impl NamePatterns {
    /// The patterns of a configuration that names none: each name of one component is the service's.
    pub fn of_one_component(alloc: Global) -> Result<NamePatterns, AllocError>
        ensures value { IfOk result (λ patterns. patterns ≡ of_one_component) }
        ensures ours { (name : Name) → IfOk result (λ patterns.
            IsOurs patterns name ↔ (has_no_slash (spelling name) ≡ true)) }
    {
        let mut include = Vec::new(alloc);
        include.push(NamePattern {
            text: Items::of(Vec::from_slice(alloc, &[STAR])?),
        })?;
        Ok(NamePatterns {
            include: Items::of(include),
            exclude: Items::of(Vec::new(alloc)),
        })
    }

    /// Whether some pattern includes the name, and none excludes it.
    pub fn is_ours(&self, name: &Name) -> bool
        ensures value { result ≡ is_ours self.now name.now }
        ensures means { Decides (is_ours self.now name.now) (IsOurs self.now name.now) }
    {
        any_matches(self.include.as_slice(), name) && !any_matches(self.exclude.as_slice(), name)
    }
}

fn any_matches(patterns: &[NamePattern], name: &Name) -> bool
    ensures value { result ≡ any_matches patterns.now name.now }
{
    patterns.iter().any(|pattern| pattern.matches(name))
}

// No byte of a text is read: a pattern's prefix matches if it has nothing but stars.
fn begin(pattern: &[u8], matched: &mut [bool])
    requires room { length pattern.now < length matched.old }
    ensures value { AreMatched pattern.now [] matched.new }
{
    matched[0] = true;
    for (k, symbol) in pattern.iter().enumerate() {
        matched[k + 1] = matched[k] && *symbol == STAR;
    }
}

// The name's bytes are read.
fn read_name(pattern: &[u8], matched: &mut [bool], parts: &[Items<u8>])
    requires room { length pattern.now < length matched.old }
    ensures value { (text : List ℕ) → AreMatched pattern.now text matched.old
        → AreMatched pattern.now (text ++ join_with_byte 47 parts.now) matched.new }
{
    for (place, part) in parts.iter().enumerate() {
        if place > 0 {
            read_byte(pattern, matched, SLASH);
        }
        read_bytes(pattern, matched, part.as_slice());
    }
}

fn read_bytes(pattern: &[u8], matched: &mut [bool], bytes: &[u8])
    requires room { length pattern.now < length matched.old }
    ensures value { (text : List ℕ) → AreMatched pattern.now text matched.old
        → AreMatched pattern.now (text ++ bytes.now) matched.new }
{
    for byte in bytes {
        read_byte(pattern, matched, *byte);
    }
}

// One more byte of a text is read. Place k says whether the pattern's first k bytes match the text without it, and then
// whether they match the text with it.
fn read_byte(pattern: &[u8], matched: &mut [bool], byte: u8)
    requires room { length pattern.now < length matched.old }
    ensures value { (text : List ℕ) → AreMatched pattern.now text matched.old
        → AreMatched pattern.now (text ++ byte ∷ []) matched.new }
{
    let mut before = matched[0];
    matched[0] = false;
    for (k, symbol) in pattern.iter().enumerate() {
        let here = matched[k + 1];
        matched[k + 1] = is_matched(*symbol, byte, matched[k], here, before);
        before = here;
    }
}

// Whether a pattern with one more byte, the symbol, matches a text with one more byte: `shorter` says whether the
// pattern without it matches the longer text, `here` whether the pattern with it matches the shorter text, and `before`
// whether the shorter one matches the shorter text.
fn is_matched(symbol: u8, byte: u8, shorter: bool, here: bool, before: bool) -> bool
    ensures value { result ≡ is_matched symbol byte shorter here before }
{
    if symbol == STAR {
        shorter || (here && byte != SLASH)
    } else {
        before && symbol == byte
    }
}
