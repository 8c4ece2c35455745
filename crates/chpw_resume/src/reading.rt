//! Reading the text of a resume file.
ghost use Rattle.std.specs.Prelude.{Decides, ◌≡◌, ◌≢◌, ◌∷◌, ◌++◌, ◌<◌, ◌^◌, ℕ, List, IfOk, MatchOption, length, map};
ghost use Rattle.std.specs.Int.{to_be_bytes, w32, w64};
ghost use Rattle.std.specs.List.{AllByRecursion};
ghost use Rattle.chpw_blocks.specs.Blocks.{AreShort, IsShort};
ghost use Rattle.chpw_table.specs.declared.request.RequestId.{RequestId as Id};
ghost use Rattle.sha1.specs.Sha1.{sha1};
ghost use Rattle.chpw_resume.specs.ResumeText.{blocks_of, body_of, header, id_text, time_bytes, times_bytes, IdFits, IsOfResume, IsOfState, IsReadAs};

use crate::mark::JournalMark;
use crate::resume::{HEADER, Resume};
use chpw_blocks::read_blocks;
use chpw_rules::{Items, Name};
use chpw_table::{RequestId, ResumeState};
use sha1::Sha1;
use std::alloc::{AllocError, Global};

// How many bytes the checksum at the end has.
const SUM_BYTES: usize = 20;

// How many bytes are in the block after the realm, and in the first one of an id.
const STATE_BYTES: usize = 44;

const TIMES_BYTES: usize = 12;

/// Why a text is that of no resume file.
#[derive(Clone, Copy, Drop)]
pub enum ResumeFault {
    /// It doesn't begin as a resume file of this format does.
    Unknown,
    /// It is cut off, is longer, or has other bytes than were written.
    Damaged,
}

/// What the resume file with this text has. A text that was written (`write_resume`) is read as what it was written of, and each
/// other one has a fault.
pub fn read_resume(alloc: Global, text: &[u8]) -> Result<Result<Resume, ResumeFault>, AllocError>
    ensures value { IfOk result (IsReadAs text.now) }
{
    let Some(_) = behind_header(text) else {
        return Ok(Err(ResumeFault::Unknown));
    };
    let Some(body) = summed(text) else {
        return Ok(Err(ResumeFault::Damaged));
    };
    match read_body(alloc, body)? {
        Some(resume) => Ok(Ok(resume)),
        None => Ok(Err(ResumeFault::Damaged)),
    }
}

// What follows the first line; none if that is another one.
fn behind_header(text: &[u8]) -> Option<&[u8]>
    ensures value { MatchOption result
        ((rest : List ℕ) → text.now ≢ header ++ rest)
        (λ rest. text.now ≡ header ++ rest.now) }
{
    if text.len() < HEADER.len() {
        return None;
    }
    let (line, rest) = text.split_at(HEADER.len());
    if line == HEADER.as_slice() {
        Some(rest)
    } else {
        None
    }
}

// What precedes the checksum at the end; none if that is another one.
fn summed(text: &[u8]) -> Option<&[u8]>
    ensures value { MatchOption result
        ((body : List ℕ) → text.now ≢ body ++ sha1 body)
        (λ body. text.now ≡ body.now ++ sha1 body.now) }
{
    if text.len() < SUM_BYTES {
        return None;
    }
    let (body, sum) = text.split_at(text.len() - SUM_BYTES);
    if is_sum_of(sum, body) {
        Some(body)
    } else {
        None
    }
}

fn is_sum_of(sum: &[u8], body: &[u8]) -> bool
    ensures value { Decides result (sum.now ≡ sha1 body.now) }
{
    sum == Sha1::digest(body).as_slice()
}

// What a text without its checksum has.
fn read_body(alloc: Global, body: &[u8]) -> Result<Option<Resume>, AllocError>
    ensures value { IfOk result (λ found. IsOfResume (λ r. body.now ≡ body_of r) found) }
{
    let Some(rest) = behind_header(body) else {
        return Ok(None);
    };
    let Some(blocks) = read_blocks(alloc, rest)? else {
        return Ok(None);
    };
    match blocks.as_slice() {
        [realm, state, ids @ ..] => read_parts(alloc, realm, state.as_slice(), ids),
        _ => Ok(None),
    }
}

// What these blocks have.
fn read_parts(
    alloc: Global,
    realm: &Items<u8>,
    state: &[u8],
    ids: &[Items<u8>],
) -> Result<Option<Resume>, AllocError>
    requires realm { IsShort realm.now }
    requires ids { AreShort ids.now }
    ensures value { IfOk result (λ found. IsOfResume (λ r. blocks_of r ≡ realm.now ∷ state.now ∷ ids.now) found) }
{
    let Some(
        State {
            journal,
            clock,
            quiet_until,
        },
    ) = read_state(state)
    else {
        return Ok(None);
    };
    let Some(ids) = read_ids(alloc, ids)? else {
        return Ok(None);
    };
    Ok(Some(Resume {
        realm: realm.clone()?,
        journal,
        carried: ResumeState {
            ids: Items::of(ids),
            clock,
            quiet_until,
        },
    }))
}

/// The second block's numbers.
#[derive(Clone, Copy, Drop)]
pub(crate) struct State {
    pub journal: JournalMark,
    pub clock: i64,
    pub quiet_until: i64,
}

// The numbers in the second block; none if it has another length.
fn read_state(bytes: &[u8]) -> Option<State>
    ensures value { IsOfState bytes.now result }
{
    if bytes.len() != STATE_BYTES {
        return None;
    }
    let (length, behind_length) = bytes.split_at(8);
    let (summed, times) = behind_length.split_at(SUM_BYTES);
    let (clock, quiet_until) = times.split_at(8);
    let mut sum = [0; SUM_BYTES];
    sum.copy_from_slice(summed);
    Some(State {
        journal: JournalMark {
            length: long_in(length),
            sum,
        },
        clock: signed_in(clock),
        quiet_until: signed_in(quiet_until),
    })
}

// The number in eight bytes.
fn long_in(bytes: &[u8]) -> u64
    requires eight { length bytes.now ≡ 8 }
    ensures bytes { bytes.now ≡ to_be_bytes w64 result }
{
    let mut number = [0; 8];
    number.copy_from_slice(bytes);
    u64::from_be_bytes(number)
}

// The same with a sign.
fn signed_in(bytes: &[u8]) -> i64
    requires eight { length bytes.now ≡ 8 }
    ensures bytes { bytes.now ≡ time_bytes result }
{
    let mut number = [0; 8];
    number.copy_from_slice(bytes);
    i64::from_be_bytes(number)
}

// The number in four bytes.
fn short_in(bytes: &[u8]) -> u32
    requires four { length bytes.now ≡ 4 }
    ensures bytes { bytes.now ≡ to_be_bytes w32 result }
{
    let mut number = [0; 4];
    number.copy_from_slice(bytes);
    u32::from_be_bytes(number)
}

// The ids with these texts; none if one is that of no id.
fn read_ids(alloc: Global, texts: &[Items<u8>]) -> Result<Option<Vec<RequestId>>, AllocError>
    requires short { AreShort texts.now }
    ensures value { IfOk result (λ found. MatchOption found
        ((ids : List Id) → AllByRecursion IdFits ids → texts.now ≢ map id_text ids)
        (λ ids. AllByRecursion IdFits ids.items × (texts.now ≡ map id_text ids.items))) }
{
    let mut ids = Vec::with_capacity(alloc, texts.len())?;
    for text in texts {
        match read_id(alloc, text.as_slice())? {
            Some(id) => ids.push(id)?,
            None => return Ok(None),
        }
    }
    Ok(Some(ids))
}

// The id with this text, if it is that of one.
fn read_id(alloc: Global, text: &[u8]) -> Result<Option<RequestId>, AllocError>
    ensures value { IfOk result (λ found. MatchOption found
        ((id : Id) → IdFits id → text.now ≢ id_text id)
        (λ id. (text.now ≡ id_text id) × AreShort (id.crealm ∷ id.client.parts))) }
{
    let Some(blocks) = read_blocks(alloc, text)? else {
        return Ok(None);
    };
    match blocks.as_slice() {
        [times, crealm, parts @ ..] => id_with(alloc, times.as_slice(), crealm, parts),
        _ => Ok(None),
    }
}

// The id with these blocks.
fn id_with(
    alloc: Global,
    times: &[u8],
    crealm: &Items<u8>,
    parts: &[Items<u8>],
) -> Result<Option<RequestId>, AllocError>
    ensures value { IfOk result (λ found. MatchOption found
        (length times.now ≢ 12)
        (λ id. (times.now ≡ times_bytes id.ctime id.cusec) × (id.crealm ≡ crealm.now) × (id.client.parts ≡ parts.now))) }
{
    let Some((ctime, cusec)) = read_times(times) else {
        return Ok(None);
    };
    Ok(Some(RequestId {
        ctime,
        cusec,
        crealm: crealm.clone()?,
        client: Name {
            parts: Items::of(copied(alloc, parts)?),
        },
    }))
}

fn copied(alloc: Global, parts: &[Items<u8>]) -> Result<Vec<Items<u8>>, AllocError>
    ensures value { IfOk result (λ copies. copies.items ≡ parts.now) }
{
    let mut copies = Vec::with_capacity(alloc, parts.len())?;
    for part in parts {
        copies.push(part.clone()?)?;
    }
    Ok(copies)
}

// An id's ctime and cusec.
fn read_times(bytes: &[u8]) -> Option<(i64, u32)>
    ensures value { MatchOption result
        (length bytes.now ≢ 12)
        (λ times. bytes.now ≡ times_bytes times.0 times.1) }
{
    if bytes.len() != TIMES_BYTES {
        return None;
    }
    let (ctime, cusec) = bytes.split_at(8);
    Some((signed_in(ctime), short_in(cusec)))
}
