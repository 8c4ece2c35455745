//! What a start takes over of the run before it: the resume file that a clean end left.
ghost use Rattle.std.specs.Prelude.{◌≡◌, ℕ, ℤ, List, IfErr, IfOk, None, Option};
ghost use Rattle.chpw_start.specs.Faults.{IsUnread};
ghost use Rattle.chpw_start.specs.Resuming.{IsAtResume, IsFound, IsOfResumption, IsTakenOver};
ghost use Rattle.chpw_table.specs.declared.table.resuming.ResumeState.{ResumeState as Left};

use crate::bounded::read_at_most;
use crate::fault::ServeFault;
use crate::file_ids::{folder_of, keep_from};
use crate::files::{open_file, unread_fault};
use crate::line_output::{Kind, kind_of};
use crate::ownership::{Exposure, exposure_of, own_ids, place_at};
use chpw_invocation::ServeOptions;
use chpw_resume::{
    JournalMark, LONGEST_RESUME, Misfit, ResumeFault, first_misfit, mark_in, read_resume,
};
use chpw_table::{Moment, ResumeState, Table};
use std::alloc::{AllocError, Global};
use std::fs::{self, File, Files};
use std::{fmt, io};

/// Why a resume file is set aside, as if it weren't there; displayed in words.
#[derive(Clone, Copy, Drop)]
pub enum SetAside {
    /// Others may read, write or replace it.
    Exposed(Exposure),
    /// It can't be read.
    Unread,
    /// It is longer than any resume file.
    TooLong,
    /// It is none.
    Fault(ResumeFault),
    /// It doesn't fit this start.
    Misfit(Misfit),
}

impl fmt::Display for SetAside {
    ghost use Rattle.std.specs.Prelude.{Some};
    ghost use Rattle.chpw_start.specs.Resuming.{reason_words};

    ghost output = { λ why. Some (reason_words why) };

    fn fmt<W: fmt::Write>(&self, f: &mut fmt::Formatter<W>) -> fmt::Result {
        match self {
            SetAside::Exposed(why) => write!(f, "{why}"),
            SetAside::Unread => f.write_str("it can't be read"),
            SetAside::TooLong => f.write_str("it is too long"),
            SetAside::Fault(ResumeFault::Unknown) => f.write_str(
                "it is no resume file of this version",
            ),
            SetAside::Fault(ResumeFault::Damaged) => f.write_str("it is damaged"),
            SetAside::Misfit(Misfit::Realm) => f.write_str("it is of another realm"),
            SetAside::Misfit(Misfit::Journal) => f.write_str("the journal is not as it was left"),
            SetAside::Misfit(Misfit::Future) => f.write_str("its time is later than the clock"),
        }
    }
}

/// The table that a service opens with, and why its resume file was set aside, if it was.
#[derive(Drop)]
pub struct Resumption {
    pub table: Table,
    pub set_aside: Option<SetAside>,
}

/// What is at the path of a resume file.
#[derive(Drop)]
pub(crate) enum Found {
    Nothing,
    Unfit(SetAside),
    Fit(ResumeState),
}

/// The table that a service opens with: the one restored from this journal, or that one with what the run before it left in the
/// resume file, if that is asked for and fits. The file is removed, whatever it has, and its folder synced, before anything is
/// taken over; if that fails, or something else than a regular file is there, the start is refused. The journal is locked. A
/// torn tail was cut off it, or not.
pub fn resume_where_asked<'a, R: Files<File = File> + AllocGlobal>(
    rt: &R,
    options: &ServeOptions<'a>,
    start: Moment,
    table: Table,
    journal: &File,
    is_cut: bool,
) -> Result<Resumption, ServeFault<'a>>
    ensures taken { IfOk result (λ r. (left : Option Left) × IsTakenOver start.seconds table left r.table) }
    ensures unasked { options.now.resume ≡ None → IfOk result (λ r. (r.table ≡ table) × (r.set_aside ≡ None)) }
    ensures fault { IfErr result (IsOfResumption options.now) }
{
    let Some(path) = options.resume else {
        return Ok(Resumption {
            table,
            set_aside: None,
        });
    };
    keep_from(
        rt,
        path,
        &[
            options.config,
            options.seed,
            options.journal,
            options.log.unwrap_or("-"),
        ],
    )?;
    let mark = match mark_in(rt.alloc(), journal) {
        Ok(mark) => mark,
        Err(error) => return Err(unread_fault(options.journal, error)),
    };
    let found = found_at(rt, path, table.realm(), &mark, start)?;
    let found = if is_cut { as_cut(found) } else { found };
    take_over(rt, path, table, found, start)
}

// A journal with a torn record is longer than the one that was left.
fn as_cut(found: Found) -> Found
    ensures found { (realm : List ℕ) → (start : ℤ) → IsFound realm start result }
{
    match found {
        Found::Fit(_) => Found::Unfit(SetAside::Misfit(Misfit::Journal)),
        found => found,
    }
}

// Removes what was found, and then takes it over if it fits.
fn take_over<'a, R: Files<File = File> + AllocGlobal>(
    rt: &R,
    path: &'a str,
    table: Table,
    found: Found,
    start: Moment,
) -> Result<Resumption, ServeFault<'a>>
    requires found { IsFound table.state.fixed.realm start.seconds found }
    ensures taken { IfOk result (λ r. (left : Option Left) × IsTakenOver start.seconds table left r.table) }
    ensures fault { IfErr result (IsAtResume path.now) }
{
    match found {
        Found::Nothing => Ok(Resumption {
            table,
            set_aside: None,
        }),
        Found::Unfit(why) => {
            remove(rt, path)?;
            Ok(Resumption {
                table,
                set_aside: Some(why),
            })
        }
        Found::Fit(carried) => {
            remove(rt, path)?;
            match table.resume(rt.alloc(), carried) {
                Ok(table) => Ok(Resumption {
                    table,
                    set_aside: None,
                }),
                Err(_) => Err(ServeFault::Memory),
            }
        }
    }
}

// Removes the file at a path, and syncs its folder.
fn remove<'a, R: Files<File = File>>(rt: &R, path: &'a str) -> Result<(), ServeFault<'a>>
    ensures fault { IfErr result (IsAtResume path.now) }
{
    let removed = match fs::remove_file(rt, path) {
        Ok(()) => synced_folder(rt, path),
        Err(error) => Err(error),
    };
    match removed {
        Ok(()) => Ok(()),
        Err(_) => Err(ServeFault::CannotWrite(path)),
    }
}

fn synced_folder<R: Files<File = File>>(rt: &R, path: &str) -> io::Result<()> {
    File::open(rt, folder_of(path))?.sync_all()
}

// What is at a path, for a start of this realm with this journal.
fn found_at<'a, R: Files<File = File> + AllocGlobal>(
    rt: &R,
    path: &'a str,
    realm: &[u8],
    journal: &JournalMark,
    start: Moment,
) -> Result<Found, ServeFault<'a>>
    ensures found { IfOk result (IsFound realm.now start.seconds) }
    ensures fault { IfErr result (IsAtResume path.now) }
{
    match kind_of(rt, path) {
        Kind::Missing => return Ok(Found::Nothing),
        Kind::File => {}
        Kind::Device | Kind::Other => return Err(ServeFault::CannotRead(path)),
    }
    if let Some(why) = exposure_of(own_ids(), &place_at(rt, path)) {
        return Ok(Found::Unfit(SetAside::Exposed(why)));
    }
    let text = match text_at(rt, path) {
        Ok(Some(text)) => text,
        Ok(None) => return Ok(Found::Unfit(SetAside::TooLong)),
        Err(ServeFault::Memory) => return Err(ServeFault::Memory),
        Err(_) => return Ok(Found::Unfit(SetAside::Unread)),
    };
    match judged(rt.alloc(), &text, realm, journal, start) {
        Ok(found) => Ok(found),
        Err(_) => Err(ServeFault::Memory),
    }
}

// The bytes of a file, if they are no more than a resume file may have.
fn text_at<'a, R: Files<File = File> + AllocGlobal>(
    rt: &R,
    path: &'a str,
) -> Result<Option<Vec<u8>>, ServeFault<'a>>
    ensures fault { IfErr result (IsUnread path.now) }
{
    let mut file = open_file(rt, path)?;
    match read_at_most(rt.alloc(), &mut file, LONGEST_RESUME) {
        Ok(found) => Ok(found),
        Err(error) => Err(unread_fault(path, error)),
    }
}

// Whether a text is that of a resume file that fits.
fn judged(
    alloc: Global,
    text: &[u8],
    realm: &[u8],
    journal: &JournalMark,
    start: Moment,
) -> Result<Found, AllocError>
    ensures found { IfOk result (IsFound realm.now start.seconds) }
{
    match read_resume(alloc, text)? {
        Err(fault) => Ok(Found::Unfit(SetAside::Fault(fault))),
        Ok(resume) => match first_misfit(&resume, realm, journal, start.seconds) {
            Some(why) => Ok(Found::Unfit(SetAside::Misfit(why))),
            None => Ok(Found::Fit(resume.carried)),
        },
    }
}
