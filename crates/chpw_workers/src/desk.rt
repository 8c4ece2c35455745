//! A desk that workers serve, from its start to its close.
ghost use Rattle.std.specs.Prelude.{◌≡◌, IfOk, IfErr};
ghost use Rattle.chpw_changelog.specs.Pens.{opening_state};
ghost use Rattle.chpw_book.specs.Newest.{AreHeldAfter};
ghost use Rattle.chpw_book.specs.Closing.{is_full, IsRefusal};
ghost use Rattle.chpw_book.specs.Recorded.{IsLinearized};
ghost use Rattle.chpw_workers.specs.Desks.{AreInOrder, ServedDesk};
ghost use Rattle.chpw_workers.specs.Shifts.{AreShifts};

use crate::context::Context;
use crate::inbox::{Crew, Inbox};
use crate::shift::{BackgroundTask, NotStarted, Shift, Staff, run_shift};
use crate::worker::Worker;
use chpw_book::{CloseRefused, Closed, Desk, DeskName};
use chpw_serve::{Clock, Gate, Messages, Observer, UpdateObserver, Words};
use chpw_table::JournalSink;
use std::sync::Wait;
use std::thread::Threads;

/// What is left of a desk: its history, table and sink if it was closed, and the desk and its passes if it refused that; and its
/// workers, who can go on to another desk.
pub struct AfterDesk<D: DeskName, S: JournalSink, I, G, C, X> {
    pub closed: Result<Closed<S>, CloseRefused<D, S>>,
    pub workers: Vec<Worker<I, G, C, X>>,
}

/// Answers the messages of these workers' inboxes at a desk (`run_shift`), and closes it once they have ended (`Desk::close`). The
/// passes are those of the desk's workers, in order; they may have receipts already. The desk is closed after `NotStarted` too.
pub fn serve_desk<
    R: Threads + Wait + Sync,
    M: Messages + Sync,
    D: DeskName + Send + Sync,
    S: JournalSink + Send,
    I: Inbox + Send + Drop,
    G: Gate + Observer + UpdateObserver + Send + Drop,
    C: Clock + Send + Drop,
    X: Words + Send + Drop,
    T: Crew + Sync,
    W: BackgroundTask + Drop,
>(
    rt: &R,
    context: &Context<'_, M, T>,
    desk: Desk<D, S>,
    staff: Staff<D, I, G, C, X>,
    meanwhile: W,
) -> (AfterDesk<D, S, I, G, C, X>, Result<W::Done, NotStarted>)
    requires passes { AreInOrder D.workers staff.passes.items }
    ensures served { IfOk result.0.closed (λ c. ServedDesk C.gives X.gives I.turns (M.error_frame context.now.service.now)
        (M.private_frame context.now.service.now) (M.opens context.now.service.now) (AreHeldAfter (opening_state D.root)) context.now.has_kdc
        (opening_state D.root) D.workers staff.passes.items staff.workers.items result.0.workers.items
        c.history.items c.table D.prior (S.told c.sink)) }
    ensures refusal { IfErr result.0.closed (λ r. (b : _) × IsLinearized (opening_state D.root) D.workers D.prior b
        × IsRefusal b.history (is_full b.table) D.workers r.passes.items r.fault) }
    ensures turns { IfErr result.0.closed (λ r. AreShifts C.gives X.gives I.turns (M.error_frame context.now.service.now)
        (M.private_frame context.now.service.now) (M.opens context.now.service.now) (AreHeldAfter (opening_state D.root)) context.now.has_kdc
        staff.passes.items staff.workers.items r.passes.items result.0.workers.items) }
    ensures done { IfOk result.1 (W.gives meanwhile) }
{
    let Shift { staff, done } = run_shift(rt, context, &desk, staff, meanwhile);
    let Staff { passes, workers } = staff;
    let closed = desk.close(rt, passes);
    (AfterDesk { closed, workers }, done)
}

/// Closes a desk at which no worker took a message.
pub fn close_desk<
    R: Wait,
    M: Messages,
    D: DeskName,
    S: JournalSink,
    I: Inbox,
    G,
    C: Clock,
    X: Words,
    T,
>(
    rt: &R,
    context: &Context<'_, M, T>,
    desk: Desk<D, S>,
    staff: Staff<D, I, G, C, X>,
) -> AfterDesk<D, S, I, G, C, X>
    requires passes { AreInOrder D.workers staff.passes.items }
    ensures served { IfOk result.closed (λ c. ServedDesk C.gives X.gives I.turns (M.error_frame context.now.service.now)
        (M.private_frame context.now.service.now) (M.opens context.now.service.now) (AreHeldAfter (opening_state D.root)) context.now.has_kdc
        (opening_state D.root) D.workers staff.passes.items staff.workers.items result.workers.items
        c.history.items c.table D.prior (S.told c.sink)) }
    ensures refusal { IfErr result.closed (λ r. (b : _) × IsLinearized (opening_state D.root) D.workers D.prior b
        × IsRefusal b.history (is_full b.table) D.workers r.passes.items r.fault) }
    ensures unchanged { result.workers ≡ staff.workers }
    ensures passes { IfErr result.closed (λ r. r.passes.items ≡ staff.passes.items) }
{
    let Staff { passes, workers } = staff;
    let closed = desk.close(rt, passes);
    AfterDesk { closed, workers }
}
