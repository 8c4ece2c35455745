//! Lookups beside the lock.
ghost use Rattle.std.specs.Prelude.{None, Some, IfSome, IfNone, ◌≡◌, ◌⊎◌, IfOk, OnErr, IsTrue};
ghost use mathlib.Core.List.{IsPrefix};
ghost use Rattle.left_right.specs.Sides.{view};
ghost use Rattle.chpw_changelog.specs.Pens.{opening_table};
ghost use Rattle.chpw_snapshots.specs.Following.{IsOf, IsKnown, list_of};
ghost use Rattle.chpw_snapshots.specs.Looking.{LooksUp};

use crate::snapshot::ShownPrefix;
use crate::view::{Enters, LeftRightReader};
use chpw_changelog::{Front, LogName};
use chpw_rules::Name;
use chpw_table::Lookup;
use std::marker::Model;

/// A reader of the versions, with what was seen through it and what it has learnt. Contracts see these as lists of
/// accepted changes.
#[derive(Drop)]
pub struct SnapshotReader<D: LogName> {
    reader: Option<LeftRightReader>,
    shown: ShownPrefix,
    told: Front<D>,
    own: Option<Front<D>>,
}

impl<D: LogName> Model for SnapshotReader<D> {
    ghost use Rattle.std.specs.Prelude.{IsSomeAnd, IfSome};
    ghost use mathlib.Core.List.{IsPrefix};
    ghost use Rattle.left_right.specs.Sides.{view as view_of};
    ghost use Rattle.chpw_snapshots.specs.Known.{Known};
    ghost use Rattle.chpw_snapshots.specs.Following.{IsOf, IsKnown, front_by, list_of};

    ghost Value = { Known };

    ghost view = { λ p. record { seen = list_of D.root p.shown; told = p.told; own = p.own } };

    ghost invariant = { λ p. IsSomeAnd p.reader (λ r. IsOf D.book D.root (view_of r.place))
        × IsPrefix (list_of D.root p.shown) (front_by p.reader (λ r. view_of r.place))
        × IfSome p.own (λ f. IsPrefix f p.told)
        × IsKnown D.book D.root p.shown };
}

/// `left_right` refused the entry, or the version is older than what was learnt.
#[derive(Clone, Copy, Drop)]
pub struct NotEntered;

impl<D: LogName> SnapshotReader<D> {
    /// What a table shows of a name after the accepted changes of some legal history from the opening, which begin with
    /// all that this place has seen and with all that it has learnt; none for an unknown name. Each change was accepted
    /// before it was published, so that this holds at the lookup. No lookup shows an older version than one before it.
    /// It takes no lock, waits for nobody, and takes no memory of its own. After `NotEntered` the place is unchanged.
    pub fn lookup(&mut self, name: &Name) -> Result<Option<Lookup>, NotEntered>
        ensures found { IfOk result (λ found.
            LooksUp (opening_table D.root) self.old self.new name.now found) }
        ensures unchanged { OnErr result (self.new ≡ self.old) }
    {
        let Some(reader) = self.reader.take() else {
            unreachable!()
        };
        match reader.enter_as::<Enters>() {
            Ok(reading) => {
                let version = reading.get();
                let found = version.rows.lookup(name);
                let begins = self.told.begins(&version.seen, version.last, version.len);
                let shown = version.shown_prefix();
                self.reader = Some(reading.leave());
                if !begins {
                    return Err(NotEntered);
                }
                self.shown = shown;
                Ok(found)
            }
            Err(reader) => {
                self.reader = Some(reader);
                Err(NotEntered)
            }
        }
    }

    /// Whether what the last lookup showed is a beginning of this front, which is the whole list. If others' changes
    /// have joined the list since, it reads what is shown now, and takes no lock. False is no certain answer: with the
    /// whole list it comes only where the reader can't enter.
    pub fn was_shown(&mut self, whole: &Front<D>) -> bool
        ensures same { self.new ≡ self.old }
        ensures begins { IsTrue result → IsPrefix self.old.seen whole.now }
    {
        if self.shown.is(whole) {
            return true;
        }
        match self.shown_now() {
            Some(shown) => shown.is(whole),
            None => false,
        }
    }

    // The list that is shown now; none if the reader can't enter.
    fn shown_now(&mut self) -> Option<ShownPrefix>
        ensures same { self.new ≡ self.old }
        ensures later { IfSome result (λ s. IsPrefix self.old.seen (list_of D.root s)) }
        ensures known { IfSome result (λ s. IsKnown D.book D.root s) }
    {
        let Some(reader) = self.reader.take() else {
            unreachable!()
        };
        match reader.enter_as::<Enters>() {
            Ok(reading) => {
                let shown = reading.get().shown_prefix();
                self.reader = Some(reading.leave());
                Some(shown)
            }
            Err(reader) => {
                self.reader = Some(reader);
                None
            }
        }
    }

    /// A place over a reader that knows the whole list, which this is.
    pub(crate) fn over(
        reader: LeftRightReader,
        shown: ShownPrefix,
        told: Front<D>,
    ) -> SnapshotReader<D>
        requires reader { IsOf D.book D.root (view reader.place) }
        requires shown { list_of D.root shown ≡ (view reader.place).front }
        requires known { IsKnown D.book D.root shown }
        ensures value { result
            ≡ record { seen = (view reader.place).front; told = told; own = None } }
    {
        SnapshotReader {
            reader: Some(reader),
            shown,
            told,
            own: None,
        }
    }

    /// Learns another's front: what the place knows becomes the longer of both.
    pub fn learn(&mut self, other: &Front<D>)
        ensures longer { (self.new.told ≡ self.old.told) ⊎ (self.new.told ≡ other.now) }
        ensures this { IsPrefix self.old.told self.new.told }
        ensures that { IsPrefix other.now self.new.told }
        ensures rest { (self.new.seen ≡ self.old.seen) × (self.new.own ≡ self.old.own) }
    {
        self.told = self.told.longer(other);
    }

    /// Learns the front that the writer gave after a change of its own.
    pub fn tell(&mut self, front: Front<D>)
        requires longer { IsPrefix self.old.told front }
        ensures value { self.new ≡ record self.old { told = front; own = Some front } }
    {
        self.own = Some(front.again());
        self.told = front;
    }

    /// The front that the writer gave after the newest change of its own; none before the first.
    pub fn front(&self) -> Option<&Front<D>>
        ensures some { IfSome result (λ f. (self.now.own ≡ Some f.now)
            × IsPrefix f.now self.now.told) }
        ensures none { IfNone result (self.now.own ≡ None) }
    {
        self.own.as_ref()
    }

    /// The longest front that it has learnt.
    pub fn known_front(&self) -> &Front<D>
        ensures value { result.now ≡ self.now.told }
    {
        &self.told
    }
}
