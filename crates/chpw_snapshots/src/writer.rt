//! The writer of the versions, under the lock, with the keeper of the list.
ghost use Rattle.std.specs.Prelude.{◌≡◌, ◌+◌, ◌<◌, ◌^◌, ◌++◌, ◌∷◌, [], length, nat_lt, true, false, None, Some};
ghost use Rattle.std.specs.Prelude.{IsSome, IfOk, IfErr, IfSome, IfNone, IsTrue, OnOk, OnErr};
ghost use mathlib.Core.List.{IsPrefix};
ghost use Rattle.chpw_table.specs.declared.change.AcceptedChange.TheVariants.{Key, Count};
ghost use Rattle.chpw_table.specs.Updates.{name_in};
ghost use Rattle.chpw_table.specs.Versions.{Shown, shown, change_in};
ghost use Rattle.chpw_changelog.specs.Changes.{change_of_name, named};
ghost use Rattle.chpw_changelog.specs.Pens.{opening_state, opening_table};
ghost use Rattle.chpw_snapshots.specs.Rows.{ShowsOpening, added_limit};
ghost use Rattle.chpw_snapshots.specs.Rising.{IsNextVersion};
ghost use Rattle.chpw_snapshots.specs.Preparing.{IsNotPrepared, MayHaveRow, added_names, has_row};
ghost use Rattle.chpw_snapshots.specs.Histories.{AreAccepted};
ghost use Rattle.chpw_snapshots.specs.Following.{CanBeShown, IsPlaceOf};

use crate::not_prepared::NotPrepared;
use crate::reader::SnapshotReader;
use crate::rows::Rows;
use crate::snapshot::{Operation, Snapshot};
use crate::view::{HandsOn, Learns, LeftRightWriter, Publishes, Settles};
use chpw_changelog::{
    ChangeLog, Front, KeysChange, LogName, LogPrefix, NumberedChange, ShortName, Whose,
};
use chpw_rules::Name;
use chpw_table::KdcUpdate;
use left_right::writer::Writer;
use std::alloc::{AllocError, Global};
use std::marker::Model;
use std::sync::Wait;

/// The writer of the versions. It is ended by `end` and never dropped. Contracts see the list that readers see, which
/// is all that was accepted, and the prepared change.
pub struct SnapshotWriter<D: LogName> {
    writer: Option<LeftRightWriter>,
    keeper: ChangeLog<D>,
    waiting: Option<NumberedChange>,
}

impl<D: LogName> Model for SnapshotWriter<D> {
    ghost use Rattle.std.specs.Prelude.{IsSomeAnd, drop, option_map};
    ghost use Rattle.left_right.specs.Sides.{view as view_of};
    ghost use Rattle.chpw_changelog.specs.Changes.{named};
    ghost use Rattle.chpw_changelog.specs.Pens.{opening_state};
    ghost use Rattle.chpw_snapshots.specs.Known.{PublishedList};
    ghost use Rattle.chpw_snapshots.specs.Following.{Publishes, IsWaiting};

    ghost Value = { PublishedList };

    ghost view = { λ s. record {
      list = s.keeper;
      waiting = option_map (named (opening_state D.root)) s.waiting;
    } };

    ghost invariant = { λ s. IsSomeAnd s.writer (λ w.
        Publishes D.book D.root (view_of w.desk.place) w.desk.shown.value s.keeper
        × IsWaiting D.book D.root s.keeper (drop w.behind w.log.items) s.waiting) };
}

impl<D: LogName> SnapshotWriter<D> {
    /// A writer with an empty list and room for this many places, which shows these rows; `again` is a copy of them.
    /// They show the list's opening: a row for each principal, in its order, with counts of at least 1, and the changes
    /// that its table had accepted before. It may wait, as a publication does.
    pub fn start<R: Wait>(
        rt: &R,
        alloc: Global,
        keeper: ChangeLog<D>,
        root: &LogPrefix,
        rows: Rows,
        again: Rows,
        places: usize,
    ) -> Result<SnapshotWriter<D>, AllocError>
        requires places { (0 < places) × (places < 2 ^ 32) }
        requires root { (root.now.book ≡ D.book) × (root.now.log ≡ D.root) }
        requires rows { ShowsOpening (opening_table D.root) rows × (again ≡ rows) }
        requires keeper { keeper ≡ [] }
        ensures value { IfOk result (λ s. s ≡ record { list = []; waiting = None }) }
    {
        let first = Snapshot::of(rows, root);
        let second = Snapshot::of(again, root);
        let writer: LeftRightWriter = Writer::new(alloc, first, second, places)?;
        let (writer, _) = writer.publish_as::<Settles, R>(rt);
        Ok(SnapshotWriter {
            writer: Some(writer),
            keeper,
            waiting: None,
        })
    }

    /// A new place, which knows the whole list; `AllocError` if each is in use.
    pub fn place(&mut self) -> Result<SnapshotReader<D>, AllocError>
        ensures same { self.new ≡ self.old }
        ensures known { IfOk result (λ p.
            p ≡ record { seen = self.old.list; told = self.old.list; own = None }) }
    {
        let Some(mut writer) = self.writer.take() else {
            unreachable!()
        };
        match writer.factory().reader() {
            Ok(mut reader) => {
                reader.learn::<Learns>(writer.tell::<HandsOn>());
                let shown = writer.published().shown_prefix();
                put_back(&mut self.writer, writer);
                Ok(SnapshotReader::over(reader, shown, self.keeper.front()))
            }
            Err(_) => {
                put_back(&mut self.writer, writer);
                Err(AllocError)
            }
        }
    }

    /// Prepares a change of a name's keys, with the last memory that it takes; it then waits to be published. `kvno` is
    /// one more than the version that the list shows of the name, and `count` the iteration count of new keys that it
    /// shows.
    pub fn prepare(&mut self, name: &Name, kvno: u32, count: u32) -> Result<(), AllocError>
        requires free { self.old.waiting ≡ None }
        requires next { IsNextVersion (opening_state D.root) self.old.list
            (Key (record { name = name.now; kvno = kvno; count = count })) }
        ensures ok { OnOk result (self.new ≡ record {
          list = self.old.list;
          waiting = Some (Key (record { name = name.now; kvno = kvno; count = count }));
        }) }
        ensures err { OnErr result (self.new ≡ self.old) }
    {
        let Some(whose) = self.whose(name) else {
            unreachable!()
        };
        self.wait(NumberedChange::Keys(whose, KeysChange::Key { kvno, count }))
    }

    /// Prepares a raise of the iteration count of new keys, to a count above the one that the list shows.
    pub fn prepare_count(&mut self, count: u32) -> Result<(), AllocError>
        requires free { self.old.waiting ≡ None }
        requires next { IsNextVersion (opening_state D.root) self.old.list (Count count) }
        ensures ok { OnOk result (self.new
            ≡ record { list = self.old.list; waiting = Some (Count count) }) }
        ensures err { OnErr result (self.new ≡ self.old) }
    {
        self.wait(NumberedChange::Count(count))
    }

    /// Prepares what an update from the KDC changes, with the last memory that it takes; it then waits to be published.
    /// It may come next: a key that is adopted has a version above the one that the list shows of its name, if it shows
    /// one; another update's name is shown. Refused, with nothing changed: a name that the opening lacks and that wasn't
    /// adopted since, with other than one component of at most 128 bytes (`Composite`), or once 10,000 such names were
    /// adopted (`NoRoom`); or for want of memory.
    pub fn prepare_update(&mut self, update: &KdcUpdate) -> Result<(), NotPrepared>
        requires free { self.old.waiting ≡ None }
        requires next { IsNextVersion (opening_state D.root) self.old.list (change_in update.now) }
        ensures ok { OnOk result (self.new ≡ record {
          list = self.old.list;
          waiting = Some (change_in update.now);
        }) }
        ensures err { OnErr result (self.new ≡ self.old) }
        ensures refused { IfErr result (λ fault.
            IsNotPrepared (opening_state D.root) self.old.list (name_in update.now) fault) }
        ensures room { OnOk result (has_row (opening_state D.root) self.old.list (name_in update.now) ≡ false
            → MayHaveRow (opening_state D.root) self.old.list (name_in update.now)) }
    {
        let whose = self.place_for(update.name())?;
        match self.wait(NumberedChange::Keys(whose, keys_change(update))) {
            Ok(()) => Ok(()),
            Err(_) => Err(NotPrepared::Memory),
        }
    }

    // Whose row a name has; none if it has none.
    fn whose(&self, name: &Name) -> Option<Whose>
        ensures some { IfSome result (λ whose. IsPlaceOf (opening_state D.root) self.now.list name.now whose
            × (has_row (opening_state D.root) self.now.list name.now ≡ true)) }
        ensures none { IfNone result (has_row (opening_state D.root) self.now.list name.now ≡ false) }
        ensures shown { (row : Shown) → shown (opening_state D.root) self.now.list name.now ≡ Some row → IsSome result }
    {
        let Some(writer) = &self.writer else {
            unreachable!()
        };
        writer.published().rows.whose(name)
    }

    // Whether another row can be added.
    fn has_room(&self) -> bool
        ensures value { result ≡ nat_lt (length (added_names (opening_state D.root) self.now.list)) added_limit }
    {
        let Some(writer) = &self.writer else {
            unreachable!()
        };
        writer.published().rows.has_room()
    }

    // Whose row a name has, or will have once it is adopted.
    fn place_for(&self, name: &Name) -> Result<Whose, NotPrepared>
        ensures ok { IfOk result (λ whose. IsPlaceOf (opening_state D.root) self.now.list name.now whose
            × (has_row (opening_state D.root) self.now.list name.now ≡ false → MayHaveRow (opening_state D.root) self.now.list name.now)) }
        ensures err { IfErr result (λ fault. IsNotPrepared (opening_state D.root) self.now.list name.now fault) }
    {
        if let Some(whose) = self.whose(name) {
            return Ok(whose);
        }
        let Some(short) = ShortName::of(name) else {
            return Err(NotPrepared::Composite);
        };
        if !self.has_room() {
            return Err(NotPrepared::NoRoom);
        }
        Ok(Whose::Short(short))
    }

    // Prepares the change.
    fn wait(&mut self, change: NumberedChange) -> Result<(), AllocError>
        requires free { self.old.waiting ≡ None }
        requires shown { CanBeShown (opening_state D.root) self.old.list change }
        ensures ok { OnOk result (self.new ≡ record {
          list = self.old.list;
          waiting = Some (named (opening_state D.root) change);
        }) }
        ensures err { OnErr result (self.new ≡ self.old) }
    {
        let Some(mut writer) = self.writer.take() else {
            unreachable!()
        };
        let operation = Operation {
            change,
            seen: self.keeper.front().mark(),
        };
        match writer.append(operation) {
            Err(_) => {
                put_back(&mut self.writer, writer);
                Err(AllocError)
            }
            Ok(()) => {
                put_back(&mut self.writer, writer);
                self.waiting = Some(change);
                Ok(())
            }
        }
    }

    /// Publishes the prepared change: it joins the list. It takes no memory and doesn't fail, but waits for readers of
    /// the copy that it changes. If none is prepared, nothing changes. The change was accepted by now: the list with it
    /// is the accepted changes of a legal history, which each lookup says of what it shows.
    pub fn publish<R: Wait>(&mut self, rt: &R) -> Front<D>
        requires room { length self.old.list + 1 < 2 ^ 31 }
        requires accepted { IfSome self.old.waiting (λ change.
            AreAccepted (opening_state D.root) (self.old.list ++ change ∷ [])) }
        ensures list { IfSome self.old.waiting (λ change.
            self.new ≡ record { list = self.old.list ++ change ∷ []; waiting = None }) }
        ensures unchanged { IfNone self.old.waiting (self.new ≡ self.old) }
        ensures front { result ≡ self.new.list }
    {
        let Some(change) = self.waiting else {
            return self.keeper.front();
        };
        let Some(writer) = self.writer.take() else {
            unreachable!()
        };
        let (writer, _) = writer.publish_as::<Publishes, R>(rt);
        put_back(&mut self.writer, writer);
        self.keeper.append(change);
        self.waiting = None;
        self.keeper.front()
    }

    /// Each front of the list is a beginning of the published one.
    pub fn has(&mut self, front: &Front<D>)
        ensures same { self.new ≡ self.old }
        ensures begins { IsPrefix front.now self.new.list }
    {
        self.keeper.has(front);
    }

    /// Whether what a place's last lookup showed is a beginning of the published list. False is no certain
    /// answer: it comes only where the place's reader can't enter.
    pub fn has_shown(&self, place: &mut SnapshotReader<D>) -> bool
        ensures same { place.new ≡ place.old }
        ensures begins { IsTrue result → IsPrefix place.old.seen self.now.list }
    {
        place.was_shown(&self.keeper.front())
    }

    /// How long the published list is.
    pub fn len(&self) -> u32
        ensures value { result ≡ length self.now.list }
    {
        self.keeper.len()
    }

    /// Ends the writer, after the last reader has left.
    pub fn end(self, rt: &impl Wait) {
        let Self {
            writer,
            keeper: _,
            waiting: _,
        } = self;
        if let Some(writer) = writer {
            writer.take(rt);
        }
    }
}

// What the update does to the keys of its name.
fn keys_change(update: &KdcUpdate) -> KeysChange
    ensures value { change_of_name (name_in update.now) result ≡ change_in update.now }
{
    match update {
        KdcUpdate::Adopt { key, .. } => KeysChange::Adopted {
            kvno: key.kvno,
            count: key.count,
        },
        KdcUpdate::Lift { kvno, .. } => KeysChange::Lifted(*kvno),
        KdcUpdate::Remove { .. } => KeysChange::Removed,
    }
}

fn put_back(place: &mut Option<LeftRightWriter>, writer: LeftRightWriter)
    requires empty { place.old ≡ None }
    ensures value { place.new ≡ Some writer }
{
    match place.replace(writer) {
        None => {}
        Some(_) => unreachable!(),
    }
}
