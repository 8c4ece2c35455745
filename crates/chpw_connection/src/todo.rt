//! What the caller is to do for a connection.
ghost use Rattle.std.specs.Prelude.{◌≡◌};
ghost use Rattle.chpw_connection.specs.Stages.{stage};
ghost use Rattle.chpw_connection.specs.Todos.{todo_at};

use crate::connection::{Connection, Phase};

#[derive(Clone, Copy, Drop, PartialEq, Eq)]
pub enum Todo {
    /// Read at most this many bytes.
    Read(usize),
    /// Write what is left of its reply.
    Write,
    /// Shut its writing side, and discard what still comes.
    Linger,
    /// Close its socket, and then remove it.
    Close,
    /// Nothing, until its message is answered, or its reply released.
    Wait,
}

impl Connection {
    pub fn todo(&self) -> Todo
        ensures value { result ≡ todo_at (stage self.now) }
    {
        match &self.phase {
            Phase::Reading(_) => Todo::Read(self.bytes_to_read()),
            Phase::Writing(_) => Todo::Write,
            Phase::Lingering => Todo::Linger,
            Phase::Ended => Todo::Close,
            Phase::Queued(_) | Phase::Answering(_) | Phase::Confirming(_) | Phase::Abandoned => {
                Todo::Wait
            }
        }
    }
}
