//! The name of a list.

use std::marker::Brand;

/// Names a list of accepted changes: the logbook that it is in, and the log as it was when the list was started. The
/// starter of a list picks it. ChangeLog and fronts carry the name in their types, so that those of different lists can't
/// be confused.
pub trait LogName {
    ghost use Rattle.std.specs.Prelude.{List};
    ghost use Rattle.logbook.specs.Pages.{Book as LogbookName};
    ghost use Rattle.chpw_changelog.specs.declared.entry.LogEntry.{LogEntry as entry_spec};

    ghost book: { LogbookName };

    ghost root: { List entry_spec };
}

/// Each call that starts a list may take this name.
impl LogName for Brand {
    ghost use Rattle.std.specs.Prelude.{[]};

    ghost book = { record { number = 0; log_name = 0; cells_name = 0 } };

    ghost root = { [] };
}
