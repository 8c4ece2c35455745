//! A worker's place at an engine.
ghost use Rattle.std.specs.Prelude.{◌≡◌, []};
ghost use Rattle.chpw_reactor.specs.Engines.{seat_number, seat_turns};

use crate::engine::Engine;
use chpw_workers::{Crew, Inbox, Task, WorkerTurn};
use ghost_list::GhostList;
use std::sync::Wait;
use std::time::Clock;

/// A worker's place at an engine: the queue of its number, and the turns that were taken there. Of these the program
/// keeps nothing. Only `answer` adds to them, the turn that it then hands to the engine. So they are what the engine was
/// given from here, in order; each message among them is one that an engine handed out, since nothing else makes one, and
/// none stands there twice, since `answer` uses it up.
#[derive(Drop)]
pub struct Seat<'a, R> {
    rt: &'a R,
    engine: &'a Engine,
    number: usize,
    turns: GhostList<WorkerTurn>,
}

impl<'a, R> Seat<'a, R> {
    /// The place of the worker of this number, from 0, at which no turn was taken yet. There are messages for the numbers
    /// that the engine has queues for.
    pub fn new(rt: &'a R, engine: &'a Engine, number: usize) -> Seat<'a, R>
        ensures number { seat_number result ≡ number }
        ensures turns { seat_turns result ≡ [] }
    {
        Seat {
            rt,
            engine,
            number,
            turns: GhostList::new(),
        }
    }
}

impl<'a, R: Wait + Clock> Inbox for Seat<'a, R> {
    ghost use Rattle.chpw_reactor.specs.Engines.{seat_turns};

    ghost turns = { seat_turns };

    fn next(&mut self) -> Option<Task> {
        self.engine.next(self.rt, self.number)
    }

    fn answer(&mut self, turn: WorkerTurn) {
        self.turns.append(&turn);
        self.engine.answer(self.rt, turn);
    }
}

/// All workers of an engine.
#[derive(Drop)]
pub struct EngineCrew<'a, R> {
    pub rt: &'a R,
    pub engine: &'a Engine,
}

impl<'a, R: Wait> Crew for EngineCrew<'a, R> {
    fn stop(&self) {
        self.engine.stop(self.rt);
    }
}
