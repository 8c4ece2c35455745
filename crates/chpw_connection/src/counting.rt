//! In which stage a connection is counted.
ghost use Rattle.std.specs.Prelude.{◌≡◌};
ghost use Rattle.chpw_connection.specs.Counting.{is_counted as is_counted_in};
ghost use Rattle.chpw_connection.specs.Stages.{stage};

use crate::connection::{Connection, Phase};

/// The stages of connections that are counted separately. Each connection is in one of them.
#[derive(Clone, Copy, Drop)]
pub enum CountedStage {
    /// It reads its next message.
    Reading,
    /// Its message waits for a worker.
    Waiting,
    /// A worker answers its message.
    Answering,
    /// Its reply waits until its change is confirmed.
    Confirming,
    /// Its reply is being written.
    Writing,
    /// Its last reply is out, or it has ended.
    Ending,
}

impl Connection {
    /// Whether it is counted in this stage.
    pub fn is_counted(&self, which: CountedStage) -> bool
        ensures value { result ≡ is_counted_in which (stage self.now) }
    {
        match &self.phase {
            Phase::Reading(_) => which == CountedStage::Reading,
            Phase::Queued(_) => which == CountedStage::Waiting,
            Phase::Answering(_) | Phase::Abandoned => which == CountedStage::Answering,
            Phase::Confirming(_) => which == CountedStage::Confirming,
            Phase::Writing(_) => which == CountedStage::Writing,
            Phase::Lingering | Phase::Ended => which == CountedStage::Ending,
        }
    }
}
