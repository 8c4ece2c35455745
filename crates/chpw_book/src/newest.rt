//! The keys of a name.
ghost use Rattle.std.specs.Prelude.{◌≡◌, find};
ghost use Rattle.std.specs.Option.{option_copied};
ghost use Rattle.chpw_changelog.specs.Pens.{opening_state};
ghost use Rattle.chpw_table.specs.Digests.{is_derived_in};
ghost use Rattle.chpw_table.specs.State.{keys_held};
ghost use Rattle.chpw_book.specs.Newest.{AreHeldAfter, IsMadeHeld, IsNewestHeld, made_by, newest_of};

use crate::book::Book;
use crate::desk::Desk;
use crate::naming::DeskName;
use crate::recorded::RecordedTable;
use chpw_record::KeyRow;
use chpw_rules::Name;
use chpw_table::{Digest, JournalSink, Table};
use std::sync::{MutexGuard, Wait};

impl<D: DeskName, S: JournalSink> Desk<D, S> {
    /// The newest key that is held of a name, after all that was decided before the call; none for an unknown name. It
    /// takes the lock.
    pub fn newest_key<R: Wait>(&self, rt: &R, name: &Name) -> Option<KeyRow>
        ensures held { IsNewestHeld (AreHeldAfter (opening_state D.root)) name.now result }
    {
        let book = self.book.lock(rt);
        let key = book.newest_key(name);
        MutexGuard::unlock(book);
        key
    }

    /// The newest of the keys that are held of a name, after all that was decided before the call, that is this password's;
    /// none if none of them is. It takes the lock.
    pub fn made_key<R: Wait>(&self, rt: &R, name: &Name, digest: &Digest) -> Option<KeyRow>
        ensures held { IsMadeHeld (AreHeldAfter (opening_state D.root)) name.now digest.now result }
    {
        let book = self.book.lock(rt);
        let key = book.made_key(name, digest);
        MutexGuard::unlock(book);
        key
    }
}

impl<D: DeskName, S: JournalSink> Book<D, S> {
    fn newest_key(&self, name: &Name) -> Option<KeyRow>
        ensures held { IsNewestHeld (AreHeldAfter (opening_state D.root)) name.now result }
    {
        self.recorded.newest_key(name)
    }

    fn made_key(&self, name: &Name, digest: &Digest) -> Option<KeyRow>
        ensures held { IsMadeHeld (AreHeldAfter (opening_state D.root)) name.now digest.now result }
    {
        self.recorded.made_key(name, digest)
    }
}

impl<D: DeskName, S: JournalSink> RecordedTable<D, S> {
    #[tactic(auto, using(crate::proofs::NewestLemmas::newest_held))]
    fn newest_key(&self, name: &Name) -> Option<KeyRow>
        ensures held { IsNewestHeld (AreHeldAfter (opening_state D.root)) name.now result }
    {
        // A field is read, so that the type's invariant is known.
        let _ = &self.history;
        newest_in(&self.table, name)
    }

    #[tactic(auto, using(crate::proofs::NewestLemmas::made_held))]
    fn made_key(&self, name: &Name, digest: &Digest) -> Option<KeyRow>
        ensures held { IsMadeHeld (AreHeldAfter (opening_state D.root)) name.now digest.now result }
    {
        // A field is read, so that the type's invariant is known.
        let _ = &self.history;
        made_in(&self.table, name, digest)
    }
}

fn newest_in(table: &Table, name: &Name) -> Option<KeyRow>
    ensures value { result ≡ newest_of (keys_held table.now.state name.now) }
{
    match table.keys_of(name) {
        None => None,
        Some(keys) => keys.first().copied(),
    }
}

fn made_in(table: &Table, name: &Name, digest: &Digest) -> Option<KeyRow>
    ensures value { result ≡ made_by digest.now (keys_held table.now.state name.now) }
{
    match table.keys_of(name) {
        None => None,
        Some(keys) => first_made(keys, digest).copied(),
    }
}

// The first of these keys that is the password's.
fn first_made<'k>(keys: &'k [KeyRow], digest: &Digest) -> Option<&'k KeyRow>
    ensures value { option_copied result ≡ find (is_derived_in digest.now.derived) keys.now }
{
    keys.iter().find(|key| digest.has_key(key))
}
