//! The rule of the log, and what its steps show.

use crate::change::NumberedChange;
use crate::entry::LogEntry;
use crate::log_name::LogName;
use chpw_table::Table;
use logbook::{Gain, Pen, Plain, Play, Rule};
use std::marker::PhantomData;

/// The rule of the log: the pen of each entry is spent.
pub struct LogRule;

impl Rule<LogEntry, u64> for LogRule {
    ghost use Rattle.std.specs.Prelude.{[]};
    ghost use base.Fml.{ftrue};
    ghost use Rattle.chpw_changelog.specs.Rules.{IsKept};

    ghost holds = { λ cells log. IsKept cells log };

    ghost first = { [] };

    ghost hinted = { λ n log. Unit {0} };

    ghost shows = { λ log. [] };

    ghost keeps = { λ names log. ftrue };

    ghost moves = { λ ask before after answer. Unit {0} };
}

// Callers exchange nothing.
pub(crate) struct Nothing;

impl Gain<LogEntry, u64> for Nothing {
    ghost use base.Fml.{ftrue};

    ghost after = { λ names about answer. ftrue };
}

// A step that makes a pen.
pub(crate) struct Make;

impl Play<LogEntry, u64> for Make {
    ghost use Rattle.chpw_changelog.specs.Rules.{Makes};

    ghost then = { Makes };
}

impl Plain<(), LogEntry, u64> for Make {
    ghost use Rattle.std.specs.Prelude.{None};
    ghost use Rattle.chpw_changelog.specs.Pens.{no_entry};

    ghost ask = { λ x. no_entry };

    ghost state = { λ x. None };
}

// A step that reads, with a pen in hand.
pub(crate) struct Check;

impl Play<LogEntry, u64> for Check {
    ghost use Rattle.chpw_changelog.specs.Rules.{Checks};

    ghost then = { Checks };
}

// A step that starts a list.
pub(crate) struct Found;

impl Play<LogEntry, u64> for Found {
    ghost use Rattle.chpw_changelog.specs.Rules.{Founds};

    ghost then = { Founds };
}

impl Plain<Table, LogEntry, u64> for Found {
    ghost use Rattle.std.specs.Prelude.{None};
    ghost use Rattle.chpw_changelog.specs.Pens.{no_entry};

    ghost ask = { λ table. record no_entry { opening = table } };

    ghost state = { λ table. None };
}

// What an entry is made of.
#[derive(Drop)]
pub(crate) struct Turn<'a, D: LogName> {
    pub(crate) change: NumberedChange,
    pub(crate) by: &'a Pen,
    pub(crate) next: &'a Pen,
    pub(crate) of: PhantomData<D>,
}

// A step that adds a change.
pub(crate) struct Append;

impl Play<LogEntry, u64> for Append {
    ghost use Rattle.chpw_changelog.specs.Rules.{Appends};

    ghost then = { Appends };
}

impl<'a, D: LogName> Plain<Turn<'a, D>, LogEntry, u64> for Append {
    ghost use Rattle.std.specs.Prelude.{None};
    ghost use Rattle.chpw_changelog.specs.Pens.{no_entry, opening_state};
    ghost use Rattle.chpw_changelog.specs.Changes.{named};

    ghost ask = { λ t. record no_entry {
      change = named (opening_state D.root) t.change;
      by = t.by.now.nib.key;
      next = t.next.now.nib.key;
    } };

    ghost state = { λ t. None };
}
