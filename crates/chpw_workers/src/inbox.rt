//! Where a worker's tasks come from.
ghost use Rattle.std.specs.Prelude.{◌≡◌, ◌++◌, ◌∷◌, [], List};
ghost use Rattle.chpw_workers.specs.declared.inbox.WorkerTurn.{WorkerTurn as turn_spec};

use crate::updates::{FittingUpdate, UpdateTurn};
use chpw_connections::{TakenMessage, Turn};
use chpw_table::Durability;

/// What a worker is given to do.
pub enum Task {
    /// A message, which it answers.
    Message(TakenMessage),
    /// A message whose request isn't decided, since the KDC is out of reach.
    Undecided(TakenMessage),
    /// What the KDC says of a principal, which it takes into the table, and when the journal's record of it has to be on
    /// the disk.
    Update(FittingUpdate, Durability),
}

/// What a worker did.
pub enum WorkerTurn {
    Message(Turn),
    Undecided(Turn),
    Update(UpdateTurn),
}

/// Where a worker's tasks come from, and where its turns go.
pub trait Inbox {
    /// The turns that were taken here so far: each task that was handed out and done, with what came of it, in order.
    ghost turns: { Self → List turn_spec };

    /// The next task, as soon as there is one; none if none will come any more, or none is to be taken for now.
    fn next(&mut self) -> Option<Task>
        ensures turns { turns self.new ≡ turns self.old };

    /// What came of a task that was handed out here.
    fn answer(&mut self, turn: WorkerTurn)
        ensures turns { turns self.new ≡ turns self.old ++ turn ∷ [] };
}

/// All workers of a service together.
pub trait Crew {
    /// Until they are to begin again, no worker is to take another task.
    fn stop(&self);
}
