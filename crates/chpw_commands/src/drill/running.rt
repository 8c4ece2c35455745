//! The machine that a script runs.
ghost use Rattle.std.specs.Prelude.{◌≡◌, IfOk, true, ◌&&◌, not};
ghost use Rattle.chpw_rules.specs.Fitting.{config_fits};
ghost use Rattle.chpw_rules.specs.Limits.{is_in, iteration_counts};
ghost use Rattle.chpw_table.specs.Times.{IsMoment};
ghost use Rattle.chpw_table.specs.Updates.{update_fits};
ghost use Rattle.chpw_commands.specs.Stages.{Machine, opened_with, response_to, machine_after, response_to_raise};
ghost use Rattle.chpw_commands.specs.Stages.{machine_raised, response_to_update, machine_updated};
ghost use Rattle.chpw_commands.specs.Following.{Runs, refusal_of};

use crate::drill::asking::Asked;
use crate::drill::printed::Response;
use crate::drill::sink::RequestSink;
use chpw_rules::{Config, Items};
use chpw_table::{DecideFault, KdcUpdate, Moment, Table, UpdateFault};
use std::alloc::{AllocError, Global};

/// The table, and what the lines set beside it.
#[derive(Drop)]
pub struct Drill {
    pub table: Table,
    /// The realm of names without `@`.
    pub realm: Items<u8>,
    /// Whether the next append fails.
    pub fails: bool,
}

/// Why a line's turn isn't taken.
#[derive(Clone, Copy, Drop)]
pub enum TurnFault {
    /// It would add a principal to the 10,000 that there are.
    TooMany,
    /// A growth was refused.
    Memory,
}

impl From<AllocError> for TurnFault {
    fn from(_error: AllocError) -> TurnFault {
        TurnFault::Memory
    }
}

/// The machine that a configuration opens with.
pub fn open_drill(alloc: Global, config: Config, quiet_until: i64) -> Result<Drill, AllocError>
    requires fits { config_fits config ≡ true }
    ensures opening { IfOk result (λ drill. Runs drill (opened_with config quiet_until)) }
{
    let realm = Items::of(Vec::from_slice(alloc, config.realm.as_slice())?);
    let table = Table::start(alloc, config, quiet_until)?;
    Ok(Drill {
        table,
        realm,
        fails: false,
    })
}

impl Drill {
    /// The answer to a request, and one step if that is a verdict. A pending failure is over once it met an append.
    pub fn respond(&mut self, asked: Asked) -> Result<Response, AllocError>
        requires moment { IsMoment asked.now }
        ensures response { IfOk result (λ r. (m : Machine) → Runs self.old m
            → r ≡ response_to m asked) }
        ensures step { IfOk result (λ r. (m : Machine) → Runs self.old m
            → Runs self.new (machine_after (response_to m asked) m asked)) }
    {
        let mut sink = RequestSink::new(self.fails);
        match self.table.decide(asked.now, asked.opened, &mut sink) {
            Ok(outcome) => {
                self.fails = still_fails(self.fails, outcome.io_failed);
                Ok(Response::Said(outcome.verdict))
            }
            Err(refused) => match refusal(refused.fault) {
                Some(response) => Ok(response),
                None => Err(AllocError),
            },
        }
    }

    /// The answer to a raise, and one step unless the table is full. A pending failure is over once it met an append.
    pub fn raise(&mut self, now: Moment, count: u32) -> Response
        requires moment { IsMoment now }
        requires count { is_in iteration_counts count ≡ true }
        ensures response { (m : Machine) → Runs self.old m → result ≡ response_to_raise m count }
        ensures step { (m : Machine) → Runs self.old m
            → Runs self.new (machine_raised m now count) }
    {
        let mut sink = RequestSink::new(self.fails);
        match self.table.raise(now, count, &mut sink) {
            Ok(raise) => {
                self.fails = still_fails(self.fails, raise.io_failed);
                Response::Told(raise.verdict)
            }
            Err(_) => Response::Full,
        }
    }

    /// The answer to an update from the KDC, and one step unless the table is full. A pending failure is over once it met
    /// an append.
    pub fn update(&mut self, now: Moment, update: KdcUpdate) -> Result<Response, TurnFault>
        requires moment { IsMoment now }
        requires fits { update_fits update ≡ true }
        ensures response { IfOk result (λ r. (m : Machine) → Runs self.old m
            → r ≡ response_to_update m update) }
        ensures step { IfOk result (λ r. (m : Machine) → Runs self.old m
            → Runs self.new (machine_updated m now update)) }
    {
        let mut sink = RequestSink::new(self.fails);
        match self.table.update(now, update, &mut sink) {
            Ok(outcome) => {
                self.fails = still_fails(self.fails, outcome.io_failed);
                Ok(Response::Updated {
                    update: outcome.update,
                    verdict: outcome.verdict,
                })
            }
            Err(refused) => match refused.fault {
                UpdateFault::Full => Ok(Response::Full),
                UpdateFault::TooMany => Err(TurnFault::TooMany),
                UpdateFault::Memory => Err(TurnFault::Memory),
            },
        }
    }
}

// A failure is pending until it meets an append.
fn still_fails(fails: bool, met: bool) -> bool
    ensures value { result ≡ (fails && not met) }
{
    fails && !met
}

// The answer if nothing is decided; none for want of memory.
fn refusal(fault: DecideFault) -> Option<Response>
    ensures value { result ≡ refusal_of fault }
{
    match fault {
        DecideFault::Full => Some(Response::Full),
        DecideFault::NeedKeys(counts) => Some(Response::Need(counts)),
        DecideFault::Memory => None,
    }
}
