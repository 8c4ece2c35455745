//! What the agent answers.
ghost use Rattle.std.specs.Prelude.{◌≡◌, map, IfOk, option_map, Some, None, if◌then◌else◌};
ghost use Rattle.std.specs.Str.{is_utf8};
ghost use Rattle.chpw_kdc.specs.Faults.{ReadUnlessMemory};
ghost use Rattle.chpw_kdc.specs.Lines.{answer_of, is_changed, longer_of, has_from, words_of, first_word, has_of, other_of};
ghost use Rattle.chpw_kdc.specs.Lines.{end_of, none_of, put_of, refused_of, failed_from, reason_in};

use crate::fault::LineFault;
use crate::fields::{KeyPair, read_keys, read_name, read_number, read_version};
use chpw_rules::{Items, Name};
use std::alloc::{AllocError, Global};

/// Why a name is never written, or its keys are not told.
#[derive(Clone, Copy, Drop)]
pub enum Reason {
    /// `reserved`: its first component is one that the KDC or its servers live by.
    Reserved,
    /// `components`: it has more than one component, and the agent wasn't told to let it through.
    Components,
    /// `lockdown`: the entry's keys are locked down.
    Lockdown,
    /// `keys`: one of the two keys under the default salt is missing.
    Keys,
    /// `version`: the database has no higher version.
    Version,
}

/// A line of the agent's.
#[derive(Drop)]
pub enum Answer {
    /// `has NAME KVNO AES256 AES128`
    Has {
        name: Name,
        kvno: u32,
        keys: KeyPair,
    },
    /// `other NAME REASON`
    Other {
        name: Name,
        reason: Reason,
    },
    /// `end COUNT`
    End {
        count: u32,
    },
    /// `none NAME`
    None {
        name: Name,
    },
    /// `put NAME KVNO`
    Put {
        name: Name,
        kvno: u32,
    },
    /// `refused NAME REASON`
    Refused {
        name: Name,
        reason: Reason,
    },
    /// `failed NAME TEXT`
    Failed {
        name: Name,
        text: Items<u8>,
    },
    /// `failed - TEXT`, for the list.
    ListFailed {
        text: Items<u8>,
    },
    /// `changed`
    Changed,
}

impl Answer {
    /// The answer of a line, which is given without its newline.
    pub fn of(alloc: Global, line: &[u8]) -> Result<Answer, LineFault>
        ensures value { ReadUnlessMemory result (answer_of line.now) }
    {
        let Some(text) = text_of(line) else {
            return Err(LineFault::NotText);
        };
        if text == "changed" {
            return Ok(Answer::Changed);
        }
        match first_word(text) {
            None => Err(LineFault::UnknownWord),
            Some((word, rest)) => longer(alloc, word, rest),
        }
    }

    /// Whether it is `changed`, which is said unasked.
    pub fn is_changed(&self) -> bool
        ensures value { result ≡ is_changed self.now }
    {
        matches!(self, Answer::Changed)
    }
}

// What comes before the first space, and after it.
fn first_word(text: &str) -> Option<(&str, &str)>
    ensures value { option_map (λ parts. (parts.0.now, parts.1.now)) result ≡ first_word text.now }
{
    text.split_once(' ')
}

// The text that bytes spell in UTF-8.
fn text_of(bytes: &[u8]) -> Option<&str>
    ensures value { option_map (λ text. text.now) result
        ≡ (if is_utf8 bytes.now then Some bytes.now else None) }
{
    str::from_utf8(bytes).ok()
}

// The answer that begins with this word.
fn longer(alloc: Global, word: &str, rest: &str) -> Result<Answer, LineFault>
    ensures value { ReadUnlessMemory result (longer_of word.now rest.now) }
{
    if word == "failed" {
        return failed(alloc, rest);
    }
    let words = words_of(alloc, rest)?;
    let words = words.as_slice();
    match word {
        "has" => has(alloc, words),
        "other" => other(alloc, words),
        "end" => end(words),
        "none" => none(alloc, words),
        "put" => put(alloc, words),
        "refused" => refused(alloc, words),
        _ => Err(LineFault::UnknownWord),
    }
}

// The words between single spaces.
fn words_of(alloc: Global, text: &str) -> Result<Vec<&str>, AllocError>
    ensures value { IfOk result (λ words. map (λ w. w.now) words.items ≡ words_of text.now) }
{
    text.split(' ').collect(alloc)
}

// NAME KVNO AES256 AES128
fn has(alloc: Global, words: &[&str]) -> Result<Answer, LineFault>
    ensures value { ReadUnlessMemory result (has_of (map (λ w. w.now) words.now)) }
{
    let [name, kvno, aes256, aes128] = words else {
        return Err(LineFault::WordCount);
    };
    has_from(alloc, name, kvno, aes256, aes128)
}

fn has_from(
    alloc: Global,
    name: &str,
    kvno: &str,
    aes256: &str,
    aes128: &str,
) -> Result<Answer, LineFault>
    ensures value { ReadUnlessMemory result (has_from name.now kvno.now aes256.now aes128.now) }
{
    let name = read_name(alloc, name)?;
    let kvno = read_version(kvno)?;
    let keys = read_keys(aes256, aes128)?;
    Ok(Answer::Has { name, kvno, keys })
}

// NAME REASON
fn other(alloc: Global, words: &[&str]) -> Result<Answer, LineFault>
    ensures value { ReadUnlessMemory result (other_of (map (λ w. w.now) words.now)) }
{
    let [name, reason] = words else {
        return Err(LineFault::WordCount);
    };
    Ok(Answer::Other {
        name: read_name(alloc, name)?,
        reason: read_reason(reason)?,
    })
}

// COUNT
fn end(words: &[&str]) -> Result<Answer, LineFault>
    ensures value { result ≡ end_of (map (λ w. w.now) words.now) }
{
    let [count] = words else {
        return Err(LineFault::WordCount);
    };
    match read_number(count) {
        None => Err(LineFault::Count),
        Some(count) => Ok(Answer::End { count }),
    }
}

// NAME
fn none(alloc: Global, words: &[&str]) -> Result<Answer, LineFault>
    ensures value { ReadUnlessMemory result (none_of (map (λ w. w.now) words.now)) }
{
    let [name] = words else {
        return Err(LineFault::WordCount);
    };
    Ok(Answer::None {
        name: read_name(alloc, name)?,
    })
}

// NAME KVNO
fn put(alloc: Global, words: &[&str]) -> Result<Answer, LineFault>
    ensures value { ReadUnlessMemory result (put_of (map (λ w. w.now) words.now)) }
{
    let [name, kvno] = words else {
        return Err(LineFault::WordCount);
    };
    Ok(Answer::Put {
        name: read_name(alloc, name)?,
        kvno: read_version(kvno)?,
    })
}

// NAME REASON
fn refused(alloc: Global, words: &[&str]) -> Result<Answer, LineFault>
    ensures value { ReadUnlessMemory result (refused_of (map (λ w. w.now) words.now)) }
{
    let [name, reason] = words else {
        return Err(LineFault::WordCount);
    };
    Ok(Answer::Refused {
        name: read_name(alloc, name)?,
        reason: read_reason(reason)?,
    })
}

// NAME TEXT, or - TEXT
fn failed(alloc: Global, rest: &str) -> Result<Answer, LineFault>
    ensures value { ReadUnlessMemory result (failed_from (first_word rest.now)) }
{
    let Some((word, text)) = first_word(rest) else {
        return Err(LineFault::WordCount);
    };
    let text = Items::of(Vec::from_slice(alloc, text.as_bytes())?);
    if word == "-" {
        return Ok(Answer::ListFailed { text });
    }
    let name = read_name(alloc, word)?;
    Ok(Answer::Failed { name, text })
}

// REASON
#[tactic(auto, unfolding(crate::specs::Lines::reason_in))]
fn read_reason(word: &str) -> Result<Reason, LineFault>
    ensures value { result ≡ reason_in word.now }
{
    match word {
        "reserved" => Ok(Reason::Reserved),
        "components" => Ok(Reason::Components),
        "lockdown" => Ok(Reason::Lockdown),
        "keys" => Ok(Reason::Keys),
        "version" => Ok(Reason::Version),
        _ => Err(LineFault::Reason),
    }
}
