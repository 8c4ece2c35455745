//! What `ask`, `raise`, the updates and `show` print.
ghost use Rattle.std.specs.Prelude.{◌≡◌, ◌++◌, IfOk, OnOk, option_copied, option_map, string_bytes};
ghost use Rattle.std.specs.List.{flat_map};
ghost use Rattle.chpw_commands.specs.Printed.{error_text, reply_text, count_text, row_text, rows_text, shown_text, response_text};
ghost use Rattle.chpw_commands.specs.declared.drill.printed.Response.TheVariants.{Need};

use chpw_table::{Counts, KdcUpdate, KeyRow, RaiseVerdict, UpdateVerdict, Verdict};
use std::alloc::{AllocError, Global};

/// The answer to a request, to a raise or to an update.
#[derive(Drop)]
pub enum Response {
    /// The verdict.
    Said(Verdict),
    /// The counts that its digest lacks, ascending.
    Need(Counts),
    /// The verdict on a raise.
    Told(RaiseVerdict),
    /// An update, and the verdict on it.
    Updated {
        update: KdcUpdate,
        verdict: UpdateVerdict,
    },
    /// The table has decided as many events as allowed.
    Full,
}

impl Response {
    /// Its line.
    pub fn line(&self, alloc: Global) -> Result<String, AllocError>
        ensures value { IfOk result (λ line. string_bytes line ≡ response_text self.now) }
    {
        match self {
            Response::Said(verdict) => {
                reply_line(alloc, verdict.code(), verdict.error(), verdict.text())
            }
            Response::Need(counts) => need_line(alloc, counts.as_slice()),
            Response::Told(verdict) => reply_line(alloc, verdict.code(), None, verdict.text()),
            Response::Updated { update, verdict } => {
                reply_line(alloc, verdict.code(update), None, verdict.text(update))
            }
            Response::Full => String::from_str(alloc, "full\n"),
        }
    }
}

// The error code of a KRB-ERROR, or `-`.
fn error_word(alloc: Global, error: Option<i32>) -> Result<String, AllocError>
    ensures value { IfOk result (λ word. string_bytes word ≡ error_text error) }
{
    match error {
        None => String::from_str(alloc, "-"),
        Some(error) => error.to_string(alloc),
    }
}

// Code, error and text.
fn reply_line(
    alloc: Global,
    code: u16,
    error: Option<i32>,
    text: &str,
) -> Result<String, AllocError>
    ensures value { IfOk result (λ line. string_bytes line ≡ reply_text code error text.now) }
{
    let mut line = code.to_string(alloc)?;
    let error = error_word(alloc, error)?;
    line.push_str(" ")?;
    line.push_str(error.as_str())?;
    line.push_str(" ")?;
    line.push_str(text)?;
    line.push_str("\n")?;
    Ok(line)
}

// The counts that are missing.
fn need_line(alloc: Global, counts: &[u32]) -> Result<String, AllocError>
    ensures value { IfOk result (λ line. string_bytes line ≡ response_text (Need counts.now)) }
{
    let mut line = String::from_str(alloc, "need")?;
    let mut others = counts;
    while let [count, rest @ ..] = others {
        let word = format!(in alloc; " {count}")?;
        line.push_str(word.as_str())?;
        others = rest;
    }
    line.push_str("\n")?;
    Ok(line)
}

// A space and KVNO:COUNT:KEY.
fn row_word(alloc: Global, row: &KeyRow) -> Result<String, AllocError>
    ensures value { IfOk result (λ word. string_bytes word ≡ row_text row.now) }
{
    let mut word = format!(in alloc; " {}:{}:", row.kvno, row.count)?;
    let key = hex::encode(alloc, &row.aes128[..1])?;
    word.push_str(key.as_str())?;
    Ok(word)
}

// The keys of a name, newest first.
fn rows_words(alloc: Global, rows: &[KeyRow]) -> Result<String, AllocError>
    ensures value { IfOk result (λ words. string_bytes words ≡ flat_map row_text rows.now) }
{
    let mut words = String::new(alloc);
    let mut others = rows;
    while let [row, rest @ ..] = others {
        let word = row_word(alloc, row)?;
        words.push_str(word.as_str())?;
        others = rest;
    }
    Ok(words)
}

/// The line of a name and its keys: `none` for an unknown one.
pub fn shown_line(
    alloc: Global,
    name: &[u8],
    keys: Option<&[KeyRow]>,
) -> Result<Vec<u8>, AllocError>
    ensures value { IfOk result (λ line.
        line.items ≡ shown_text name.now (option_copied keys.entry)) }
{
    let mut line = Vec::from_slice(alloc, name)?;
    match keys {
        None => line.extend_from_slice(b" none")?,
        Some(rows) => line.extend_from_slice(rows_words(alloc, rows)?.as_bytes())?,
    }
    line.push(b'\n')?;
    Ok(line)
}
