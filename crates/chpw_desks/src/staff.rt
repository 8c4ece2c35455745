//! The workers of a service. They are made once, before its first desk, and go from each desk to the next.
ghost use Rattle.std.specs.Prelude.{◌≡◌, IfOk, length};
ghost use Rattle.rand_chacha.specs.ChaCha.{key_of};
ghost use Rattle.chpw_desks.specs.Staff.{AreStaff};

use crate::context::ServiceContext;
use chpw_logging::{LogLines, Logging};
use chpw_reactor::Seat;
use chpw_serve::WorkerWords;
use chpw_workers::{MachineClock, Worker};
use std::alloc::AllocError;
use std::sync::Wait;
use std::time::Clock;

/// A worker of a service: its seat at the engine, what writes what came of its messages into the log, the machine's clock, and
/// its random words.
pub type ServiceWorker<'h, 'l, R> = Worker<
    Seat<'h, R>,
    Logging<LogLines<'l, R>>,
    MachineClock<'l, R>,
    WorkerWords,
>;

// Where a worker writes what came of its messages.
fn lines_of<'l, R: Wait + Eprint>(context: &ServiceContext<'l, R>) -> LogLines<'l, R> {
    LogLines {
        log: context.log,
        counters: context.counters,
    }
}

/// The workers of a service before its first desk. Each has the seat of its number, of which no turn was taken; its lines in the
/// log have that number; and its words are the seed's stream of that number, from the first one on.
#[tactic(auto, using(crate::proofs::StaffLemmas::staff_more))]
pub fn make_staff<'h, 'l, R: Wait + Clock + Eprint + AllocGlobal>(
    context: &'h ServiceContext<'l, R>,
    seed: [u8; 32],
) -> Result<Vec<ServiceWorker<'h, 'l, R>>, AllocError>
    ensures staff { IfOk result (λ staff. AreStaff (key_of seed) 0 staff.items) }
    ensures count { IfOk result (λ staff. length staff.items ≡ context.now.workers) }
{
    let mut staff = Vec::with_capacity(context.rt.alloc(), usize::from(context.workers))?;
    for number in 0..context.workers {
        staff.push(Worker {
            inbox: Seat::new(context.rt, &context.engine, usize::from(number)),
            gate: Logging::new(lines_of(context), number),
            clock: MachineClock::new(context.rt),
            words: WorkerWords::new(seed, u64::from(number)),
        })?;
    }
    Ok(staff)
}
