//! Writing the text of a resume file.
ghost use Rattle.std.specs.Prelude.{◌≡◌, ◌≤◌, ◌<◌, ◌++◌, OnOk, IfOk, Err, length};
ghost use Rattle.chpw_blocks.specs.Blocks.{block, IsShort};
ghost use Rattle.chpw_resume.specs.ResumeText.{id_text, resume_text, state_text, times_bytes};
ghost use Rattle.chpw_resume.specs.declared.writing.WriteFault.TheVariants.{Memory, TooLong};

use crate::resume::{HEADER, LONGEST_RESUME, Resume};
use chpw_blocks::put_block;
use chpw_table::RequestId;
use sha1::Sha1;
use std::alloc::{AllocError, Global};

/// Why no text is written.
#[derive(Clone, Copy, Drop)]
pub enum WriteFault {
    /// It would be longer than `LONGEST_RESUME`.
    TooLong,
    /// A growth was refused.
    Memory,
}

impl From<AllocError> for WriteFault {
    ghost from_gives = { λ _ fault. fault ≡ Memory };

    fn from(_: AllocError) -> WriteFault {
        WriteFault::Memory
    }
}

/// The text of the resume file that has this. `TooLong` where that is longer than a resume file may be.
pub fn write_resume(alloc: Global, resume: &Resume) -> Result<Vec<u8>, WriteFault>
    ensures value { IfOk result (λ text. text.items ≡ resume_text resume.now) }
    ensures short { IfOk result (λ text. length text.items ≤ LONGEST_RESUME) }
    ensures long { result ≡ Err TooLong → LONGEST_RESUME < length (resume_text resume.now) }
{
    let mut text = Vec::from_slice(alloc, &HEADER)?;
    put(&mut text, resume.realm.as_slice())?;
    put_state(alloc, &mut text, resume)?;
    for id in resume.carried.ids.as_slice() {
        put_id(alloc, &mut text, id)?;
    }
    let sum = Sha1::digest(&text);
    text.extend_from_slice(&sum)?;
    if text.len() > LONGEST_RESUME {
        return Err(WriteFault::TooLong);
    }
    Ok(text)
}

// Adds a block, if it isn't too long for any resume file.
fn put(text: &mut Vec<u8>, bytes: &[u8]) -> Result<(), WriteFault>
    ensures value { OnOk result (text.new.items ≡ text.old.items ++ block bytes.now) }
    ensures short { OnOk result (IsShort bytes.now) }
    ensures long { result ≡ Err TooLong → LONGEST_RESUME < length bytes.now }
{
    if bytes.len() > LONGEST_RESUME {
        return Err(WriteFault::TooLong);
    }
    put_block(text, bytes)?;
    Ok(())
}

// Adds what follows the realm.
fn put_state(alloc: Global, text: &mut Vec<u8>, resume: &Resume) -> Result<(), WriteFault>
    ensures value { OnOk result (text.new.items ≡ text.old.items ++ block (state_text resume.now)) }
    ensures long { result ≡ Err TooLong → LONGEST_RESUME < length (state_text resume.now) }
{
    let state = state_of(alloc, resume)?;
    put(text, &state)
}

fn state_of(alloc: Global, resume: &Resume) -> Result<Vec<u8>, AllocError>
    ensures value { IfOk result (λ state. state.items ≡ state_text resume.now) }
{
    let length = resume.journal.length.to_be_bytes();
    let clock = resume.carried.clock.to_be_bytes();
    let quiet_until = resume.carried.quiet_until.to_be_bytes();
    let mut state = Vec::from_slice(alloc, &length)?;
    state.extend_from_slice(&resume.journal.sum)?;
    state.extend_from_slice(&clock)?;
    state.extend_from_slice(&quiet_until)?;
    Ok(state)
}

// Adds a used id.
fn put_id(alloc: Global, text: &mut Vec<u8>, id: &RequestId) -> Result<(), WriteFault>
    ensures value { OnOk result (text.new.items ≡ text.old.items ++ block (id_text id.now)) }
    ensures long { result ≡ Err TooLong → LONGEST_RESUME < length (id_text id.now) }
{
    let blocks = id_of(alloc, id)?;
    put(text, &blocks)
}

fn id_of(alloc: Global, id: &RequestId) -> Result<Vec<u8>, WriteFault>
    ensures value { IfOk result (λ text. text.items ≡ id_text id.now) }
    ensures long { result ≡ Err TooLong → LONGEST_RESUME < length (id_text id.now) }
{
    let times = times_of(alloc, id)?;
    let mut blocks = Vec::new(alloc);
    put(&mut blocks, &times)?;
    put(&mut blocks, id.crealm.as_slice())?;
    for part in id.client.parts.as_slice() {
        put(&mut blocks, part.as_slice())?;
    }
    Ok(blocks)
}

fn times_of(alloc: Global, id: &RequestId) -> Result<Vec<u8>, AllocError>
    ensures value { IfOk result (λ times. times.items ≡ times_bytes id.now.ctime id.now.cusec) }
{
    let ctime = id.ctime.to_be_bytes();
    let cusec = id.cusec.to_be_bytes();
    let mut times = Vec::from_slice(alloc, &ctime)?;
    times.extend_from_slice(&cusec)?;
    Ok(times)
}
