//! `new-journal`: an empty journal of a realm, and the resume file with which its first start isn't quiet.
ghost use Rattle.std.specs.Prelude.{◌≡◌, IfErr, IfOk, List, OnErr, OnOk, Ok, Option, option_map, ℕ};
ghost use Rattle.chpw_rules.specs.declared.config.Config.{Config as Settings};
ghost use Rattle.chpw_journal.specs.Headings.{realm_record};
ghost use Rattle.chpw_resume.specs.ResumeText.{resume_text};
ghost use Rattle.chpw_start.specs.Faults.{IsOfNewJournal, IsOfSettings, IsUnmade, Sets};
ghost use Rattle.chpw_start.specs.FirstResume.{OpensAtOnce, first_resume};

use crate::fault::ServeFault;
use crate::file_ids::keep_from;
use crate::files::read_settings;
use chpw_invocation::NewJournalOptions;
use chpw_journal::{heading_bytes, write_new};
use chpw_resume::{Resume, WriteFault, mark_of, write_resume};
use chpw_rules::Items;
use chpw_table::ResumeState;
use std::alloc::Global;
use std::fs::{self, File, Files};
use std::io::ErrorKind;

/// Which file isn't made, and what kind of error that was.
#[derive(Clone, Copy, Drop)]
pub enum Unmade {
    /// The journal.
    Journal(ErrorKind),
    /// The resume file.
    Resume(ErrorKind),
}

/// Where a journal is made, and the resume file beside it.
pub trait JournalMaker {
    /// Making a journal of the first text, and a resume file of the second if there is one, leads from the first state to the
    /// second.
    ghost makes: { Self → List ℕ → Option (List ℕ) → Self → Type 0 };

    /// Makes a journal of this text where nothing is, and syncs it with its name; then a resume file in the same way, if its text
    /// is given. After an error neither is left there.
    fn make(&mut self, journal: &[u8], resume: Option<&[u8]>) -> Result<(), Unmade>
        ensures made { OnOk result (makes self.old journal.now (option_map (λ text. text.now) resume.entry) self.new) };
}

/// A journal at a path, and its resume file, readable and writable by their owner alone. No clause says what a file holds.
#[derive(Clone, Copy, Drop)]
pub struct NewJournal<'s, R> {
    pub rt: &'s R,
    pub path: &'s str,
    pub resume: Option<&'s str>,
}

impl<R: Files<File = File>> JournalMaker for NewJournal<'_, R> {
    ghost makes = { λ before text resume after. Unit {0} };

    // The journal stays locked until its resume file is there, so that no service starts from it before.
    fn make(&mut self, journal: &[u8], resume: Option<&[u8]>) -> Result<(), Unmade> {
        let _locked = match write_new(self.rt, self.path, journal) {
            Ok(file) => file,
            Err(error) => return Err(Unmade::Journal(error.kind())),
        };
        let (Some(path), Some(text)) = (self.resume, resume) else {
            return Ok(());
        };
        match write_new(self.rt, path, text) {
            Ok(_) => Ok(()),
            Err(error) => {
                let _ = fs::remove_file(self.rt, self.path);
                Err(Unmade::Resume(error.kind()))
            }
        }
    }
}

/// Makes a journal with the record of the configuration's realm alone; then, if it is asked for, the resume file of a run with that
/// journal that answered no request. Refused if the configuration can't be read or has a fault; if the resume file would be the
/// configuration or the journal; if anything is at the journal's path; and if anything is at the resume file's. Then nothing is
/// made.
pub fn make_journal<'a, R: Files<File = File> + AllocGlobal>(
    rt: &R,
    options: NewJournalOptions<'a>,
) -> Result<(), ServeFault<'a>>
    ensures fault { IfErr result (IsOfNewJournal options.entry) }
{
    let mut place = NewJournal {
        rt,
        path: options.journal,
        resume: options.resume,
    };
    make_journal_at(rt, options, &mut place)
}

/// Makes it as `make_journal` does, at a place that stands for the two paths.
#[tactic(auto, using(crate::proofs::FittingLemmas::realm_fits))]
pub fn make_journal_at<'a, R: Files<File = File> + AllocGlobal, P: JournalMaker>(
    rt: &R,
    options: NewJournalOptions<'a>,
    place: &mut P,
) -> Result<(), ServeFault<'a>>
    ensures made { OnOk result ((config : Settings) × (bytes : List ℕ) × Sets bytes (Ok config)
        × P.makes place.old (realm_record config.realm)
        (option_map (λ path. resume_text (first_resume config.realm)) options.entry.resume) place.new) }
    ensures fault { IfErr result (IsOfNewJournal options.entry) }
{
    let config = read_settings(rt, options.config)?;
    let realm = config.realm.as_slice();
    let Ok(journal) = heading_bytes(rt.alloc(), realm) else {
        return Err(ServeFault::Memory);
    };
    let Some(path) = options.resume else {
        return ending(&options, place.make(&journal, None));
    };
    keep_from(rt, path, &[options.config, options.journal])?;
    match first_resume(rt.alloc(), realm, &journal) {
        Ok(resume) => ending(&options, place.make(&journal, Some(&resume))),
        Err(WriteFault::Memory) => Err(ServeFault::Memory),
        Err(WriteFault::TooLong) => Err(ServeFault::CannotWrite(path)),
    }
}

// The text of the resume file of a run that answered no request, with the new journal of this realm, which has this text: it fits
// each start, and leaves it open to each request.
fn first_resume(alloc: Global, realm: &[u8], journal: &[u8]) -> Result<Vec<u8>, WriteFault>
    requires journal { journal.now ≡ realm_record realm.now }
    ensures value { IfOk result (λ text. text.items ≡ resume_text (first_resume realm.now)) }
    ensures opens { OpensAtOnce (first_resume realm.now) }
{
    let resume = Resume {
        realm: Items::of(Vec::from_slice(alloc, realm)?),
        journal: mark_of(journal.len() as u64, journal),
        carried: ResumeState {
            ids: Items::of(Vec::new(alloc)),
            clock: 0,
            quiet_until: -1,
        },
    };
    write_resume(alloc, &resume)
}

// The end of making them.
fn ending<'a>(
    options: &NewJournalOptions<'a>,
    made: Result<(), Unmade>,
) -> Result<(), ServeFault<'a>>
    ensures made { OnOk result (made ≡ Ok tt) }
    ensures fault { IfErr result (IsOfNewJournal options.now) }
{
    match (made, options.resume) {
        (Ok(()), _) => Ok(()),
        (Err(Unmade::Resume(kind)), Some(path)) => Err(fault_at(path, kind)),
        (Err(Unmade::Journal(kind) | Unmade::Resume(kind)), _) => Err(fault_at(
            options.journal,
            kind,
        )),
    }
}

// The fault of a file that can't be made at a path.
fn fault_at(path: &str, kind: ErrorKind) -> ServeFault<'_>
    ensures fault { IsUnmade path.now result }
{
    match kind {
        ErrorKind::AlreadyExists => ServeFault::Present(path),
        ErrorKind::OutOfMemory => ServeFault::Memory,
        _ => ServeFault::CannotWrite(path),
    }
}
