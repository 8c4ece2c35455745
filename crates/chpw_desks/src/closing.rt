//! Closing a service's desk.
ghost use Rattle.std.specs.Prelude.{◌≡◌, ◌<◌, ◌-◌, ◌^◌, false};
ghost use Rattle.chpw_desks.specs.Tallies.{IsTally, changes_a_password, password_changes};
ghost use Rattle.chpw_start.specs.declared.fault.ServeFault.TheVariants.{CannotClose};

use chpw_book::{CloseRefused, Closed, DeskName};
use chpw_start::ServeFault;
use chpw_table::{Entry, Event, JournalSink, Table, Verdict};
use std::fmt;
use std::sync::Wait;

/// What a service did: its entries, and how many of them are changes of passwords; displayed as its line.
#[derive(Clone, Copy, Drop)]
pub(crate) struct Tally {
    pub entries: usize,
    pub changes: usize,
}

impl fmt::Display for Tally {
    ghost use Rattle.std.specs.Prelude.{Some};
    ghost use Rattle.chpw_desks.specs.Tallies.{tally_line};

    ghost output = { λ tally. Some (tally_line tally) };

    fn fmt<W: fmt::Write>(&self, f: &mut fmt::Formatter<W>) -> fmt::Result {
        let Tally { entries, changes } = self;
        write!(f, "entries {entries} changes {changes}")
    }
}

/// What a closed desk leaves. The sink has room for one more failure, or the table is broken.
#[derive(Drop)]
pub(crate) struct Left<S: JournalSink> {
    pub tally: Tally,
    pub table: Table,
    pub sink: S,
    ghost room: { table.state.broken ≡ false → S.failed sink < 2 ^ 64 - 1 },
}

/// What a closed desk leaves, with its history counted.
pub(crate) fn left_by<S: JournalSink>(closed: Closed<S>) -> Left<S>
    ensures tally { IsTally closed.history.items result.tally }
    ensures table { result.table ≡ closed.table }
    ensures sink { result.sink ≡ closed.sink }
{
    let Closed {
        history,
        table,
        sink,
    } = closed;
    Left {
        tally: Tally {
            entries: history.len(),
            changes: changes(history.as_slice()),
        },
        table,
        sink,
    }
}

/// A desk that refused to be closed is abandoned.
pub(crate) fn abandon_refused<'a, D: DeskName, S: JournalSink + Drop, R: Wait>(
    rt: &R,
    refused: CloseRefused<D, S>,
) -> ServeFault<'a>
    ensures value { result ≡ CannotClose }
{
    let CloseRefused {
        fault: _,
        desk,
        passes: _,
    } = refused;
    desk.abandon(rt);
    ServeFault::CannotClose
}

// How many of the entries are changes of passwords.
fn changes(history: &[Entry]) -> usize
    ensures value { result ≡ password_changes history.now }
{
    let mut count = 0;
    for entry in history {
        if is_password_change(&entry.event) {
            count += 1;
        }
    }
    count
}

fn is_password_change(event: &Event) -> bool
    ensures value { result ≡ changes_a_password event.now }
{
    match event {
        Event::Ask { verdict, .. } => *verdict == Verdict::Done,
        Event::Raise { .. } | Event::Update { .. } => false,
    }
}
