//! The steps on the log.
ghost use Rattle.std.specs.Prelude.{◌≡◌};
ghost use mathlib.Core.List.{IsPrefix};
ghost use Rattle.logbook.specs.Pages.{may_write};
ghost use Rattle.ghost_list.specs.Pens.{IsUnspent, line_of};
ghost use Rattle.ghost_list.specs.Rules.{IsAdded, head_of};

use crate::line::{Line, Log, LogWord};
use crate::rule::{Append, LineRule, Make, Nothing, Turn};
use logbook::{Offer, Pen, Word};

type LogOffer<E> = Offer<Line<E>, u64, LineRule, Nothing>;

// A new pen, and the word that it may write.
pub(crate) fn make_pen<E>(head: &LogWord<E>, seen: &mut Log<E>) -> (LogWord<E>, Pen)
    requires head { head.now ≡ head_of seen.old.book }
    ensures book { (seen.new.book ≡ seen.old.book) × (result.1.book ≡ seen.old.book) }
    ensures pen { (result.1.nib.right ≡ may_write) × (result.0.key ≡ result.1.nib.key) }
    ensures unspent { IsPrefix seen.old.log seen.new.log × IsUnspent result.1.nib.key seen.new.log }
{
    let mut offer: LogOffer<E> = seen.plain::<Nothing, (), Make>(&());
    let mut pen = seen.no_pen();
    head.compare_exchange::<Make, Nothing>(0, 0, seen, &mut offer, &mut pen);
    let word: LogWord<E> = Word::tracked(0, &mut pen);
    (word, pen)
}

// The entry is written with this pen, which is spent then.
pub(crate) fn spend_pen<E>(
    head: &LogWord<E>,
    seen: &mut Log<E>,
    mut pen: Pen,
    next: &Pen,
    entry: &E,
)
    requires book { (head.now ≡ head_of seen.old.book) × (pen.book ≡ seen.old.book) }
    requires pen { pen.nib.right ≡ may_write }
    ensures book { seen.new.book ≡ seen.old.book }
    ensures added { IsAdded (line_of entry.now pen.nib.key next.now.nib.key) seen.old.log seen.new.log }
{
    let turn = Turn {
        entry,
        by: &pen,
        next,
    };
    let mut offer: LogOffer<E> = seen.plain::<Nothing, Turn<'_, E>, Append>(&turn);
    head.compare_exchange::<Append, Nothing>(0, 0, seen, &mut offer, &mut pen);
}
