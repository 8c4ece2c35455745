//! Orders of callers at the control socket.
ghost use Rattle.chpw_desks.specs.Orders.{BeginsCompaction, BeginsReload, IsCarriedOut, RefusesAtOnce, ReopensLog, TellsExposed};

use crate::context::ServiceContext;
use chpw_control::{Command, FileName, TakenOrder};
use chpw_orders::{
    Compaction, PendingReload, answer_or_empty, begin_compaction, compact_refusal, exposed_refusal,
    prepare_refusal, read_anew, refusal, reopen_answer,
};
use chpw_reactor::Engine;
use chpw_serve::Clock as _;
use chpw_start::{Exposure, exposure_at};
use chpw_workers::{BackgroundTask, MachineClock};
use std::alloc::Global;
use std::fs::{File, Files};
use std::net::Net;
use std::sync::Wait;
use std::time::Clock;

/// What is due once a desk is closed, and the order that is answered then. It can't be dropped, since an order can't.
pub(crate) enum AfterClose {
    /// The next desk opens with the reloaded configuration.
    Reload(TakenOrder, PendingReload),
    /// It goes on with a compact journal.
    Compact(TakenOrder, Compaction),
}

impl AfterClose {
    /// It is not done. The order's caller gets an empty answer, which means failure.
    pub fn give_up<R: Wait>(self, rt: &R, engine: &Engine) {
        match self {
            AfterClose::Reload(order, _) => engine.give_up_order(rt, order),
            AfterClose::Compact(order, _) => engine.give_up_order(rt, order),
        }
    }
}

/// Carries out the orders of callers at the control socket, while the workers of a desk answer messages.
#[derive(Drop)]
pub(crate) struct Orders<'s, 'l, R: Wait + Eprint> {
    pub context: &'s ServiceContext<'l, R>,
    /// The text of the configuration in force: the one that was read last, by the start or a reload.
    pub in_force: &'s [u8],
}

impl<R: Files<File = File> + Net + Wait + Clock + Eprint + AllocGlobal> BackgroundTask
    for Orders<'_, '_, R> {
    ghost use Rattle.std.specs.Prelude.{IfSome};
    ghost use Rattle.chpw_desks.specs.Orders.{IsDueBy};

    ghost gives = { λ orders due. IfSome due (IsDueBy orders.context.now.options.now orders.in_force.now) };

    /// What is due once the desk is closed.
    type Done = Option<AfterClose>;

    /// Carries out one order after the other, until the workers are to take no more messages. If something is due after
    /// the desk, that is at once; the thread that opens the next desk then answers the caller.
    fn run(self) -> Option<AfterClose> {
        let engine = &self.context.engine;
        for _ in self.context.rt.forever() {
            let order = engine.next_order(self.context.rt)?;
            match self.carry_out(order.command()) {
                Carried::Answered(answer) => engine.answer_order(self.context.rt, order, answer),
                Carried::Reload(anew) => {
                    engine.stop(self.context.rt);
                    return Some(AfterClose::Reload(order, anew));
                }
                Carried::Compact(compaction) => {
                    engine.stop(self.context.rt);
                    return Some(AfterClose::Compact(order, compaction));
                }
            }
        }
        None
    }
}

// The result of an order.
#[derive(Drop)]
enum Carried {
    // It was carried out, or refused: the answer.
    Answered(Vec<u8>),
    // The rest of it is due once the desk is closed: the next one opens with the reloaded configuration.
    Reload(PendingReload),
    // It is due then: the next desk goes on with a compact journal.
    Compact(Compaction),
}

impl<R: Files<File = File> + Net + Wait + Clock + Eprint + AllocGlobal> Orders<'_, '_, R> {
    fn carry_out(&self, command: &Command) -> Carried
        ensures carried { IsCarriedOut self.now.context.now.options.now self.now.in_force.now command.now result }
    {
        match command {
            Command::Reload => self.begin_reload(),
            Command::ReopenLog => self.reopen_log(),
            Command::Compact(copy) => self.begin_compaction(copy),
            Command::Status | Command::Stop => not_an_order(self.context.rt.alloc()),
        }
    }

    fn begin_reload(&self) -> Carried
        ensures begins { BeginsReload self.now.context.now.options.now result }
    {
        let rt = self.context.rt;
        let options = self.context.options;
        if let Some(why) = exposure_at(rt, options, options.config) {
            return exposed_answer(rt.alloc(), options.config, why);
        }
        match read_anew(rt, options) {
            Ok(anew) => Carried::Reload(anew),
            Err(fault) => {
                let answer = prepare_refusal(rt.alloc(), &fault);
                Carried::Answered(answer_or_empty(rt.alloc(), answer))
            }
        }
    }

    fn reopen_log(&self) -> Carried
        ensures reopens { ReopensLog self.now.context.now.options.now result }
    {
        let rt = self.context.rt;
        let options = self.context.options;
        if let Some(log) = options.log {
            if let Some(why) = exposure_at(rt, options, log) {
                return exposed_answer(rt.alloc(), log, why);
            }
        }
        let now = MachineClock::new(self.context.rt).now();
        let answer = reopen_answer(rt.alloc(), self.context.log.reopen(options, now));
        Carried::Answered(answer_or_empty(rt.alloc(), answer))
    }

    fn begin_compaction(&self, copy: &FileName) -> Carried
        ensures begins { BeginsCompaction self.now.context.now.options.now self.now.in_force.now copy.now result }
    {
        let rt = self.context.rt;
        match begin_compaction(rt, self.context.options, self.in_force, copy) {
            Ok(compaction) => Carried::Compact(compaction),
            Err(fault) => {
                let answer = compact_refusal(rt.alloc(), &fault);
                Carried::Answered(answer_or_empty(rt.alloc(), answer))
            }
        }
    }
}

// The answer where strict modes refuse the file at a path.
fn exposed_answer(alloc: Global, file: &str, why: Exposure) -> Carried
    ensures refuses { TellsExposed file.now why result }
{
    let answer = exposed_refusal(alloc, file, why);
    Carried::Answered(answer_or_empty(alloc, answer))
}

// The answer to what is no order.
fn not_an_order(alloc: Global) -> Carried
    ensures refuses { RefusesAtOnce result }
{
    Carried::Answered(answer_or_empty(alloc, refusal(alloc, "not an order")))
}
