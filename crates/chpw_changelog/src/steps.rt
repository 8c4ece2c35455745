//! The steps on the log.
ghost use Rattle.std.specs.Prelude.{◌≡◌, ◌++◌, ◌∷◌, [], List};
ghost use mathlib.Core.List.{IsPrefix};
ghost use Rattle.logbook.specs.Pages.{may_write};
ghost use Rattle.chpw_changelog.specs.declared.entry.LogEntry.{LogEntry as entry_spec};
ghost use Rattle.chpw_changelog.specs.Changes.{named};
ghost use Rattle.chpw_changelog.specs.Pens.{IsUnspent, first_pen, opening_state, opening_table, changes_in, pen_after, no_entry};
ghost use Rattle.chpw_changelog.specs.Rules.{head_of};

use crate::change::NumberedChange;
use crate::entry::{LogEntry, LogPrefix};
use crate::log_name::LogName;
use crate::rule::{Append, Check, Found, LogRule, Make, Nothing, Turn};
use chpw_table::Table;
use logbook::{Offer, Pen, Word};
use std::marker::PhantomData;

/// The word that each step on the log uses.
pub(crate) type Head = Word<LogEntry, u64, LogRule>;

type LogOffer = Offer<LogEntry, u64, LogRule, Nothing>;

// A new pen.
pub(crate) fn make_pen(head: &Head, seen: &LogPrefix) -> Pen
    requires head { head.now ≡ head_of seen.now.book }
    ensures pen { (result.book ≡ seen.now.book) × (result.nib.right ≡ may_write) }
{
    let mut later = seen.again();
    let mut offer: LogOffer = later.plain::<Nothing, (), Make>(&());
    let mut pen = later.no_pen();
    head.compare_exchange::<Make, Nothing>(0, 0, &mut later, &mut offer, &mut pen);
    let _word: Head = Word::tracked(0, &mut pen);
    pen
}

// A new list that opens with this table, and its first pen.
pub(crate) fn start_log(head: &Head, seen: &mut LogPrefix, table: &Table) -> Pen
    requires head { head.now ≡ head_of seen.old.book }
    ensures book { (result.book ≡ seen.old.book) × (seen.new.book ≡ seen.old.book) }
    ensures pen { (result.nib.right ≡ may_write) × (result.nib.key ≡ first_pen seen.new.log) }
    ensures opening { opening_table seen.new.log ≡ table.now }
    ensures empty { changes_in seen.new.log seen.new.log ≡ [] }
    ensures ready { pen_after (first_pen seen.new.log) seen.new.log ≡ first_pen seen.new.log }
{
    let mut offer: LogOffer = seen.plain::<Nothing, Table, Found>(table);
    let mut pen = seen.no_pen();
    head.compare_exchange::<Found, Nothing>(0, 0, seen, &mut offer, &mut pen);
    let _word: Head = Word::tracked(0, &mut pen);
    pen
}

// The change is written with this pen, which is spent then.
pub(crate) fn spend_pen<D: LogName>(
    head: &Head,
    seen: &mut LogPrefix,
    mut pen: Pen,
    next: &Pen,
    change: NumberedChange,
)
    requires book { (head.now ≡ head_of seen.old.book) × (pen.book ≡ seen.old.book) }
    requires pen { pen.nib.right ≡ may_write }
    ensures book { seen.new.book ≡ seen.old.book }
    ensures added { (log : List entry_spec) × IsPrefix seen.old.log log × IsUnspent pen.nib.key log
        × (seen.new.log ≡ log ++ (record no_entry {
          change = named (opening_state D.root) change;
          by = pen.nib.key;
          next = next.now.nib.key;
        }) ∷ []) }
{
    let turn: Turn<'_, D> = Turn {
        change,
        by: &pen,
        next,
        of: PhantomData,
    };
    let mut offer: LogOffer = seen.plain::<Nothing, Turn<'_, D>, Append>(&turn);
    head.compare_exchange::<Append, Nothing>(0, 0, seen, &mut offer, &mut pen);
}

// The pen isn't spent yet.
pub(crate) fn check_pen(head: &Head, seen: &mut LogPrefix, pen: &mut Pen)
    requires book { (head.now ≡ head_of seen.old.book) × (pen.old.book ≡ seen.old.book) }
    requires pen { pen.old.nib.right ≡ may_write }
    ensures book { (seen.new.book ≡ seen.old.book) × (pen.new.book ≡ pen.old.book)
        × (pen.new.nib ≡ pen.old.nib) }
    ensures unspent { IsPrefix seen.old.log seen.new.log
        × IsUnspent pen.old.nib.key seen.new.log }
{
    let mut offer: LogOffer = seen.plain::<Nothing, (), Make>(&());
    head.compare_exchange::<Check, Nothing>(0, 0, seen, &mut offer, pen);
}
