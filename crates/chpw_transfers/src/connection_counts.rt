//! How many connections are in each stage.
ghost use Rattle.std.specs.Prelude.{◌≡◌, ◌-◌, ◌^◌, min};
ghost use Rattle.chpw_transfers.specs.Controlling.{sum_of};

/// How many connections there are, by their stages, and whether the KDC is behind.
#[derive(Clone, Copy, Drop)]
pub struct ConnectionCounts {
    /// Those whose message is being read.
    pub reading: usize,
    /// Those whose message waits for a worker.
    pub waiting: usize,
    /// Those whose message a worker answers.
    pub answering: usize,
    /// Those whose reply waits for the KDC.
    pub confirming: usize,
    /// Those whose reply is being written.
    pub writing: usize,
    /// Those that are ending.
    pub ending: usize,
    /// Whether keys are on their way to the KDC.
    pub is_behind: bool,
}

impl ConnectionCounts {
    /// Those of all stages.
    pub fn connections(&self) -> usize
        ensures value { result ≡ min (sum_of self.now) (2 ^ 64 - 1) }
    {
        let coming = self
            .reading
            .saturating_add(self.waiting)
            .saturating_add(self.answering);
        let going = self
            .confirming
            .saturating_add(self.writing)
            .saturating_add(self.ending);
        coming.saturating_add(going)
    }
}
