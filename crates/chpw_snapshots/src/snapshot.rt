//! The published value.
ghost use Rattle.std.specs.Prelude.{◌≡◌, IsTrue};
ghost use Rattle.chpw_changelog.specs.declared.change.NumberedChange.TheVariants.{Count};
ghost use Rattle.chpw_snapshots.specs.Following.{list_of, list_shown, IsKnown};

use crate::rows::Rows;
use chpw_changelog::{Front, LogName, LogPrefix, NumberedChange};
use left_right::Absorb;
use std::alloc::AllocError;

/// The rows after a list of changes, with its length and its last change. `seen` knows the list without the last, and
/// `root` says whose list it is; neither has bytes.
#[derive(Drop)]
pub struct Snapshot {
    pub rows: Rows,
    pub len: u32,
    pub last: NumberedChange,
    pub seen: LogPrefix,
    pub root: LogPrefix,
}

/// Which list a version shows, without its rows: the number of changes, the last of them, and what knows the list
/// without the last.
#[derive(Drop)]
pub struct ShownPrefix {
    pub len: u32,
    pub last: NumberedChange,
    pub seen: LogPrefix,
}

/// A change, with what knows the list before it.
#[derive(Drop)]
pub struct Operation {
    pub change: NumberedChange,
    pub seen: LogPrefix,
}

impl Snapshot {
    /// The list that it shows.
    pub(crate) fn shown_prefix(&self) -> ShownPrefix
        ensures value { (root : _) → list_of root result ≡ list_shown root self.now }
        ensures parts { (result.len ≡ self.now.len) × (result.seen ≡ self.now.seen) }
    {
        ShownPrefix {
            len: self.len,
            last: self.last,
            seen: self.seen.again(),
        }
    }

    /// The version after no change.
    pub(crate) fn of(rows: Rows, root: &LogPrefix) -> Snapshot
        ensures value { (result.rows ≡ rows) × (result.len ≡ 0) × (result.seen ≡ root.now)
            × (result.root ≡ root.now) }
        ensures last { result.last ≡ Count 0 }
    {
        Snapshot {
            rows,
            len: 0,
            last: NumberedChange::none(),
            seen: root.again(),
            root: root.again(),
        }
    }
}

impl ShownPrefix {
    /// Whether the front is this list. False is no certain answer.
    pub(crate) fn is<D: LogName>(&self, front: &Front<D>) -> bool
        requires known { IsKnown D.book D.root self.now }
        ensures same { IsTrue result → list_of D.root self.now ≡ front.now }
    {
        front.len() == self.len && front.begins(&self.seen, self.last, self.len)
    }
}

impl Absorb<Operation> for Snapshot {
    ghost use Rattle.chpw_snapshots.specs.Following.{applied as applied_to};

    type State = Snapshot;

    ghost state = { λ s. s };

    ghost applied = { applied_to };

    ghost never_fails = { Unit {0} };

    fn absorb_first(&mut self, operation: &Operation, _other: &Snapshot) -> Result<(), AllocError> {
        self.rows.change(operation.change);
        self.len = self.len.wrapping_add(1);
        self.last = operation.change;
        self.seen = operation.seen.again();
        Ok(())
    }
}
