//! A new list.
ghost use Rattle.std.specs.Prelude.{◌≡◌, []};
ghost use Rattle.logbook.specs.Pages.{may_write};
ghost use Rattle.chpw_changelog.specs.Pens.{first_pen, opening_table, changes_in, pen_after};
ghost use Rattle.chpw_changelog.specs.Rules.{head_of};

use crate::change::NumberedChange;
use crate::change_log::ChangeLog;
use crate::entry::LogPrefix;
use crate::log_name::LogName;
use crate::steps::{Head, start_log};
use chpw_table::Table;
use logbook::{Pen, Seen, Start, Word};

/// A list that was started at this moment, is empty, and has no name yet.
#[derive(Drop)]
pub struct StartedLog {
    head: Head,
    pen: Pen,
    root: LogPrefix,
    ghost head_is: { head ≡ head_of root.book },
    ghost pen_is: { (pen.book ≡ root.book) × (pen.nib.right ≡ may_write)
        × (pen.nib.key ≡ first_pen root.log) },
    ghost empty: { changes_in root.log root.log ≡ [] },
    ghost ready: { pen_after (first_pen root.log) root.log ≡ first_pen root.log },
}

impl StartedLog {
    /// A list that opens with this table.
    pub fn of(table: &Table) -> StartedLog
        ensures opening { opening_table result.root.log ≡ table.now }
    {
        let (mut root, mut first, _second) = Seen::open(Start::alone(), 0, 0);
        let head = Word::tracked(0, &mut first);
        let pen = start_log(&head, &mut root, table);
        StartedLog { head, pen, root }
    }

    /// Knows the log as it was when the list was started.
    pub fn root(&self) -> LogPrefix
        ensures value { result ≡ self.now.root }
    {
        self.root.again()
    }

    /// The one keeper of the list, under a name for it.
    pub fn with_name<D: LogName>(self) -> ChangeLog<D>
        requires name { (self.root.book ≡ D.book) × (self.root.log ≡ D.root) }
        ensures value { result ≡ [] }
    {
        let StartedLog { head, pen, root } = self;
        ChangeLog::of(head, pen, root)
    }
}
