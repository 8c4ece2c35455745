//! What a worker is given to do, and what is noted of it.
ghost use Rattle.std.specs.Prelude.{◌≡◌, Bool, IfSome, Some};
ghost use Rattle.chpw_table.specs.Updates.{name_in};
ghost use Rattle.chpw_transfers.specs.Kdc.{IsDecided, has_update, is_deciding};
ghost use Rattle.chpw_reactor.specs.Tasks.{IsTaskOf, durability_with, end_of, table_update, update_for};

use chpw_book::DeskUpdateFault;
use chpw_rules::Name;
use chpw_table::{Durability, KdcUpdate, UpdateVerdict};
use chpw_transfers::{State, UpdateEnd};
use chpw_workers::{FittingUpdate, Task, UpdateTurn};

/// The next task of a worker. The clerk takes what the KDC says and messages in turn. While the KDC has to be in reach and
/// isn't, no message is decided. Of several updates that wait only the last one's record has to be on the disk at once, with
/// those of the others: a record that is lost before is said again, since the KDC has what it says.
pub(crate) fn next_task(state: &mut State, worker: usize, now: u64) -> Option<Task>
    ensures task { IfSome result (IsTaskOf (update_for worker state.old) (has_update state.new.kdc)
        (is_deciding now state.old.reach state.old.kdc)) }
{
    if let Some(update) = state.take_update(worker) {
        return update_task(update, state.has_update());
    }
    match state.take(worker, now) {
        Some(taken) if state.is_deciding(now) => Some(Task::Message(taken)),
        Some(taken) => Some(Task::Undecided(taken)),
        None => None,
    }
}

// An update as a task, with others behind it or not; none if it isn't within the limits, which the agent's lines are.
fn update_task(update: chpw_kdc::KdcUpdate, has_more: bool) -> Option<Task>
    ensures update { (decides : Bool) → IfSome result (IsTaskOf (Some update) has_more decides) }
{
    let durability = durability_with(has_more);
    match FittingUpdate::of(table_update(update)) {
        Some(update) => Some(Task::Update(update, durability)),
        None => None,
    }
}

// When the record of an update has to be on the disk, with others behind it or not.
fn durability_with(has_more: bool) -> Durability
    ensures value { result ≡ durability_with has_more }
{
    if has_more {
        Durability::Eventual
    } else {
        Durability::Immediate
    }
}

// The same, as the table knows it.
fn table_update(update: chpw_kdc::KdcUpdate) -> KdcUpdate
    ensures value { result ≡ table_update update }
{
    match update {
        chpw_kdc::KdcUpdate::Adopt { name, key } => KdcUpdate::Adopt { name, key },
        chpw_kdc::KdcUpdate::Lift { name, kvno } => KdcUpdate::Lift { name, kvno },
        chpw_kdc::KdcUpdate::Remove { name } => KdcUpdate::Remove { name },
    }
}

/// A worker has decided what the KDC said, or it was refused. If another try may take it, table and KDC are compared anew; that
/// the table has no room for a name is told once.
pub(crate) fn note_update(state: &mut State, turn: UpdateTurn)
    ensures decided { IsDecided (name_in turn.update) turn.newest (end_of turn.outcome) state.old.kdc state.new.kdc }
    ensures rest { state.new ≡ record state.old { kdc = state.new.kdc } }
{
    let UpdateTurn {
        update,
        outcome,
        newest,
    } = turn;
    state.updated(name_of(update), newest, end_of(outcome));
}

// What came of it. Another try may take what the next history has room for, or memory that there is then; and what wasn't newer
// than what the table has is judged again by that.
fn end_of(outcome: Result<UpdateVerdict, DeskUpdateFault>) -> UpdateEnd
    ensures value { result ≡ end_of outcome }
{
    match outcome {
        Ok(UpdateVerdict::NotNewer)
        | Err(DeskUpdateFault::Full | DeskUpdateFault::NoRoom | DeskUpdateFault::Memory) =>
            UpdateEnd::Postponed,
        Ok(_) | Err(DeskUpdateFault::Composite) => UpdateEnd::Over,
        Err(DeskUpdateFault::TooMany) => UpdateEnd::TableFull,
    }
}

// Its name.
fn name_of(update: KdcUpdate) -> Name
    ensures value { result ≡ name_in update }
{
    match update {
        KdcUpdate::Adopt { name, .. } | KdcUpdate::Lift { name, .. } | KdcUpdate::Remove { name } =>
            name,
    }
}
