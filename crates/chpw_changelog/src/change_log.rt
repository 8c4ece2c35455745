//! The owner of the list.
ghost use Rattle.std.specs.Prelude.{◌≡◌, ◌+◌, ◌<◌, ◌^◌, ◌++◌, ◌∷◌, [], length};
ghost use mathlib.Core.List.{IsPrefix};
ghost use Rattle.logbook.specs.Pages.{may_write};
ghost use Rattle.chpw_changelog.specs.Changes.{named};
ghost use Rattle.chpw_changelog.specs.Pens.{first_pen, opening_state, changes_in, pen_after};
ghost use Rattle.chpw_changelog.specs.Rules.{head_of};

use crate::change::NumberedChange;
use crate::entry::LogPrefix;
use crate::front::Front;
use crate::log_name::LogName;
use crate::steps::{Head, check_pen, make_pen, spend_pen};
use logbook::Pen;
use std::marker::{Model, PhantomData};
use std::mem;

/// The only one that extends the list of accepted changes. Contracts see it as that list.
#[derive(Drop)]
pub struct ChangeLog<D: LogName> {
    head: Head,
    pen: Pen,
    seen: LogPrefix,
    len: u32,
    last: NumberedChange,
    of: PhantomData<D>,
}

impl<D: LogName> Model for ChangeLog<D> {
    ghost use Rattle.std.specs.Prelude.{◌≡◌, List, length};
    ghost use Rattle.logbook.specs.Pages.{may_write};
    ghost use Rattle.chpw_table.specs.declared.change.AcceptedChange.{AcceptedChange};
    ghost use Rattle.chpw_changelog.specs.Changes.{EndsWith};
    ghost use Rattle.chpw_changelog.specs.Pens.{first_pen, opening_state, changes_in, pen_after};
    ghost use Rattle.chpw_changelog.specs.Rules.{head_of};

    ghost Value = { List AcceptedChange };

    ghost view = { λ k. changes_in D.root k.seen.log };

    ghost invariant = { λ k. (k.len ≡ length (changes_in D.root k.seen.log)) × (k.seen.book ≡ D.book)
        × (k.head ≡ head_of D.book) × (k.pen.book ≡ D.book) × (k.pen.nib.right ≡ may_write)
        × (k.pen.nib.key ≡ pen_after (first_pen D.root) k.seen.log)
        × EndsWith (opening_state D.root) (changes_in D.root k.seen.log) k.last };
}

impl<D: LogName> ChangeLog<D> {
    // The keeper of a list that was started at this moment.
    pub(crate) fn of(head: Head, pen: Pen, root: LogPrefix) -> ChangeLog<D>
        requires name { (root.book ≡ D.book) × (root.log ≡ D.root) }
        requires head { head ≡ head_of root.book }
        requires pen { (pen.book ≡ root.book) × (pen.nib.right ≡ may_write)
            × (pen.nib.key ≡ first_pen root.log) }
        requires empty { changes_in root.log root.log ≡ [] }
        requires ready { pen_after (first_pen root.log) root.log ≡ first_pen root.log }
        ensures value { result ≡ [] }
    {
        ChangeLog {
            head,
            pen,
            seen: root,
            len: 0,
            last: NumberedChange::none(),
            of: PhantomData,
        }
    }

    /// How long the list is.
    pub fn len(&self) -> u32
        ensures value { result ≡ length self.now }
    {
        self.len
    }

    /// Adds a change to the list. It takes no memory and doesn't fail.
    pub fn append(&mut self, change: NumberedChange)
        requires room { length self.old + 1 < 2 ^ 32 }
        ensures value { self.new ≡ self.old ++ named (opening_state D.root) change ∷ [] }
    {
        let fresh = make_pen(&self.head, &self.seen);
        let pen = mem::replace(&mut self.pen, fresh);
        spend_pen::<D>(&self.head, &mut self.seen, pen, &self.pen, change);
        self.len += 1;
        self.last = change;
    }

    /// The whole list as a front.
    pub fn front(&self) -> Front<D>
        ensures value { result ≡ self.now }
    {
        Front::of(self.seen.again(), self.len, self.last)
    }

    /// Each front of the list is a beginning of it.
    pub fn has(&mut self, front: &Front<D>)
        ensures same { self.new ≡ self.old }
        ensures begins { IsPrefix front.now self.new }
    {
        let mut both = self.seen.again();
        let theirs = front.mark();
        both.learn(&theirs);
        check_pen(&self.head, &mut both, &mut self.pen);
    }
}
