//! What binds a resume file to a journal.
ghost use Rattle.std.specs.Prelude.{◌≡◌, min};
ghost use Rattle.chpw_resume.specs.ResumeText.{mark_of as mark_spec};

use sha1::Sha1;
use std::alloc::Global;
use std::fs::OpenFile;
use std::io;
use std::os::unix::fs::FileExt;

/// How many bytes of a journal's end are summed.
pub const MARKED: u64 = 65_536;

/// What tells a journal from others: its length, and the SHA-1 (FIPS 180-4) of its last 65,536 bytes, or of all if it has fewer.
/// Each record of a change has keys that no other one has, so that journals which differ have other ends.
#[derive(Clone, Copy, Drop)]
pub struct JournalMark {
    pub length: u64,
    pub sum: [u8; 20],
}

pub fn mark_of(length: u64, end: &[u8]) -> JournalMark
    ensures value { result ≡ mark_spec length end.now }
{
    JournalMark {
        length,
        sum: Sha1::digest(end),
    }
}

/// The mark of the journal in an open file.
pub fn mark_in<F: OpenFile + FileExt>(alloc: Global, file: &F) -> io::Result<JournalMark> {
    let length = file.metadata()?.len();
    let marked = length.min(MARKED);
    let mut end = vec![in alloc; 0; marked as usize]?;
    file.read_exact_at(&mut end, length - marked)?;
    Ok(mark_of(length, &end))
}
