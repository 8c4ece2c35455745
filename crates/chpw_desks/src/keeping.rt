//! What a service leaves at a clean end for its next start.
ghost use Rattle.std.specs.Prelude.{◌≡◌, ◌≤◌, IfOk, length};
ghost use Rattle.chpw_resume.specs.ResumeText.{resume_text};
ghost use Rattle.chpw_desks.specs.Keeping.{left_of};

use crate::context::ServiceContext;
use chpw_journal::{FileSink, Replacement, remove_unfinished, replace_journal};
use chpw_logging::Notice;
use chpw_resume::{JournalMark, LONGEST_RESUME, Resume, WriteFault, mark_in, write_resume};
use chpw_rules::Items;
use chpw_table::{JournalSink, Table};
use std::alloc::Global;
use std::fs::{File, Files};
use std::io::{self, ErrorKind};
use std::sync::Wait;

/// Leaves what the next start takes over of this table in the resume file, if one was asked for, while the journal is still locked.
/// Nothing is left if an append to the journal failed. A file that can't be written is reported.
pub(crate) fn keep_where_asked<'l, R: Files<File = File> + Wait + Eprint + AllocGlobal>(
    context: &ServiceContext<'l, R>,
    table: &Table,
    journal: &FileSink<File>,
) {
    if let Some(path) = context.options.resume {
        if journal.failures() > 0 || keep(context.rt, path, table, journal.file()).is_err() {
            context.log.tell(Notice::NotKept(path));
        }
    }
}

// Writes the resume file of a table and its journal, by one rename, and syncs both and the name.
fn keep<R: Files<File = File> + AllocGlobal>(
    rt: &R,
    path: &str,
    table: &Table,
    journal: &File,
) -> io::Result<()> {
    journal.sync_all()?;
    let mark = mark_in(rt.alloc(), journal)?;
    let Ok(text) = text_left(rt.alloc(), table, mark) else {
        return Err(io::Error::from(ErrorKind::OutOfMemory));
    };
    if remove_unfinished(rt, rt.alloc(), path).is_err() {
        return Err(io::Error::from(ErrorKind::OutOfMemory));
    }
    let Replacement { is_kept, .. } = replace_journal(rt, rt.alloc(), path, text.as_slice())?;
    if is_kept {
        Ok(())
    } else {
        Err(io::Error::from(ErrorKind::Other))
    }
}

// The text of the resume file of a table whose journal has this mark.
fn text_left(alloc: Global, table: &Table, journal: JournalMark) -> Result<Vec<u8>, WriteFault>
    ensures value { IfOk result (λ text. text.items ≡ resume_text (left_of table.now.state journal)) }
    ensures short { IfOk result (λ text. length text.items ≤ LONGEST_RESUME) }
{
    let resume = Resume {
        realm: Items::of(Vec::from_slice(alloc, table.realm())?),
        journal,
        carried: table.carried(alloc)?,
    };
    write_resume(alloc, &resume)
}
