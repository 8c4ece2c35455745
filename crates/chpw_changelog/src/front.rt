//! A beginning of the list.
ghost use Rattle.std.specs.Prelude.{◌≡◌, ◌<◌, ◌⊎◌, ◌++◌, ◌∷◌, [], IsTrue, length};
ghost use mathlib.Core.List.{IsPrefix};
ghost use Rattle.chpw_changelog.specs.Changes.{named, EndsWith};
ghost use Rattle.chpw_changelog.specs.Pens.{opening_state, changes_in};

use crate::change::NumberedChange;
use crate::entry::LogPrefix;
use crate::log_name::LogName;
use std::marker::{Model, PhantomData};

/// A beginning of the list that someone is known to have seen. Contracts see it as its changes.
#[derive(Drop)]
pub struct Front<D: LogName> {
    seen: LogPrefix,
    len: u32,
    last: NumberedChange,
    of: PhantomData<D>,
}

impl<D: LogName> Model for Front<D> {
    ghost use Rattle.std.specs.Prelude.{◌≡◌, List, length};
    ghost use Rattle.chpw_table.specs.declared.change.AcceptedChange.{AcceptedChange};
    ghost use Rattle.chpw_changelog.specs.Changes.{EndsWith};
    ghost use Rattle.chpw_changelog.specs.Pens.{opening_state, changes_in};

    ghost Value = { List AcceptedChange };

    ghost view = { λ f. changes_in D.root f.seen.log };

    ghost invariant = { λ f. (f.len ≡ length (changes_in D.root f.seen.log)) × (f.seen.book ≡ D.book)
        × EndsWith (opening_state D.root) (changes_in D.root f.seen.log) f.last };
}

impl<D: LogName> Front<D> {
    // The front of this many changes with this last one, which `seen` knows.
    pub(crate) fn of(seen: LogPrefix, len: u32, last: NumberedChange) -> Front<D>
        requires book { seen.book ≡ D.book }
        requires len { len ≡ length (changes_in D.root seen.log) }
        requires last { EndsWith (opening_state D.root) (changes_in D.root seen.log) last }
        ensures value { result ≡ changes_in D.root seen.log }
    {
        Front {
            seen,
            len,
            last,
            of: PhantomData,
        }
    }

    /// What the front knows, without the list's name.
    pub fn mark(&self) -> LogPrefix
        ensures value { (result.book ≡ D.book) × (changes_in D.root result.log ≡ self.now) }
    {
        self.seen.again()
    }

    /// How many changes there are.
    pub fn len(&self) -> u32
        ensures value { result ≡ length self.now }
    {
        self.len
    }

    /// The last of its changes; of a front without any it says nothing.
    pub fn last(&self) -> NumberedChange
        ensures value { EndsWith (opening_state D.root) self.now result }
    {
        self.last
    }

    /// A copy of the front.
    pub fn again(&self) -> Front<D>
        ensures value { result ≡ self.now }
    {
        Front {
            seen: self.seen.again(),
            len: self.len,
            last: self.last,
            of: PhantomData,
        }
    }

    /// Whether it begins the list of `len` changes that are those which `seen` knows and then `last`; for no changes at
    /// all, whether it is empty. False is no certain answer.
    pub fn begins(&self, seen: &LogPrefix, last: NumberedChange, len: u32) -> bool
        requires book { seen.now.book ≡ D.book }
        ensures some { IsTrue result
            → len ≡ length (changes_in D.root seen.now.log ++ named (opening_state D.root) last ∷ [])
            → IsPrefix self.now (changes_in D.root seen.now.log ++ named (opening_state D.root) last ∷ []) }
        ensures none { IsTrue result → len ≡ 0 → self.now ≡ [] }
        ensures shorter { length self.now < len → IsTrue result }
        ensures start { self.now ≡ [] → IsTrue result }
    {
        let mut both = self.seen.again();
        both.learn(seen);
        if self.len < len {
            return true;
        }
        if self.len > len {
            return false;
        }
        if len == 0 {
            return true;
        }
        if self.last.is_same(last) {
            return true;
        }
        false
    }

    /// The longer of two, which the other begins.
    pub fn longer(&self, other: &Front<D>) -> Front<D>
        ensures one { (result ≡ self.now) ⊎ (result ≡ other.now) }
        ensures this { IsPrefix self.now result }
        ensures that { IsPrefix other.now result }
    {
        let mut both = self.seen.again();
        both.learn(&other.seen);
        if self.len < other.len {
            other.again()
        } else {
            self.again()
        }
    }
}
