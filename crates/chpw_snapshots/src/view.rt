//! The rule of the versions.

use crate::snapshot::{Operation, Snapshot};
use atomic_table::{Join, Split};
use chpw_changelog::LogEntry;
use chpw_table::AcceptedChange;
use crossbeam_utils::rule::{Outcome, Protocol};
use left_right::reader::Reader;
use left_right::writer::Writer;
use std::collections::LinkedList;

/// What a reader or the writer knows: whose list it is, and a beginning of the published one. It exists in proofs
/// alone.
pub struct View {
    pub known: bool,
    pub number: u64,
    pub log_name: u64,
    pub cells_name: u64,
    pub root: LinkedList<LogEntry>,
    pub front: LinkedList<AcceptedChange>,
}

/// The rule: the version shows a list, and each view that knows whose it is has a beginning of it.
pub struct ViewRule;

impl Protocol<Snapshot, View> for ViewRule {
    ghost use Rattle.chpw_snapshots.specs.Following.{IsRuled, unknown};

    ghost holds = { IsRuled };

    ghost first = { unknown };
}

pub(crate) type LeftRightReader = Reader<Snapshot, View, ViewRule>;

pub(crate) type LeftRightWriter = Writer<Snapshot, Operation, View, ViewRule>;

// A reader enters.
pub(crate) struct Enters;

impl Outcome<Snapshot, View> for Enters {
    ghost use Rattle.chpw_snapshots.specs.Following.{Looked};

    ghost then = { Looked };
}

// The writer publishes.
pub(crate) struct Publishes;

impl Outcome<Snapshot, View> for Publishes {
    ghost use Rattle.chpw_snapshots.specs.Following.{Published};

    ghost then = { Published };
}

// The writer learns whose list it is.
pub(crate) struct Settles;

impl Outcome<Snapshot, View> for Settles {
    ghost use Rattle.chpw_snapshots.specs.Following.{Settled};

    ghost then = { Settled };
}

// The writer passes its view on.
pub(crate) struct HandsOn;

impl Split<View> for HandsOn {
    ghost left = { λ v. v };

    ghost right = { λ v. v };
}

// A reader takes it over.
pub(crate) struct Learns;

impl Join<View> for Learns {
    ghost use Rattle.chpw_snapshots.specs.Following.{unknown};

    ghost both = { λ v w. w };

    ghost spent = { unknown };
}
