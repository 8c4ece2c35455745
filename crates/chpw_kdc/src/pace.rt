//! When the agent is called, asked and asked again.
ghost use Rattle.std.specs.Prelude.{◌≡◌};
ghost use Rattle.chpw_kdc.specs.Paces.{pace_at_start, pace_connected, pace_lost, pace_at_fault, pace_awaiting, pace_begun, pace_failed};
ghost use Rattle.chpw_kdc.specs.Paces.{pace_postponed, pace_succeeded, pace_ended, pause_now, may_ask};

/// The first pause before another try, in milliseconds.
pub const FIRST_PAUSE: u64 = 100;

/// The longest pause before the agent is called again.
pub const LONGEST_CALL_PAUSE: u64 = 30_000;

/// The longest pause before a request that failed is made again.
pub const LONGEST_RETRY_PAUSE: u64 = 5_000;

/// The shortest time from the end of one comparison to the next.
pub const COMPARISON_PAUSE: u64 = 1_000;

/// How long the next line of an answer may take.
pub const ANSWER_TIME: u64 = 30_000;

/// When the agent is called, asked and asked again. All times are milliseconds of a clock that doesn't go back.
#[derive(Clone, Copy, Drop)]
pub struct Pace {
    pub connected: bool,
    /// Since when there is one, or none.
    pub since: u64,
    /// When the agent is called next, if there is no connection.
    pub call_at: u64,
    /// How long to wait after the next connection that isn't made, or that ends before a list was heard or by the agent's fault.
    pub call_pause: u64,
    /// Whether a list was heard to its end over the connection that there is.
    pub has_listed: bool,
    /// When the next request may be made.
    pub ask_at: u64,
    /// How long to wait after the next request that fails.
    pub retry_pause: u64,
    /// When the next line of the answer under way is late.
    pub late_at: u64,
    /// Whether table and KDC are to be compared.
    pub is_due: bool,
    /// When the next comparison may begin.
    pub compare_at: u64,
    /// When the last list was asked for.
    pub began: u64,
}

impl Pace {
    /// There has been no connection, and the agent may be called.
    pub fn at_start(now: u64) -> Pace
        ensures value { result ≡ pace_at_start now }
    {
        Pace {
            connected: false,
            since: now,
            call_at: now,
            call_pause: FIRST_PAUSE,
            has_listed: false,
            ask_at: now,
            retry_pause: FIRST_PAUSE,
            late_at: now,
            is_due: true,
            compare_at: now,
            began: now,
        }
    }

    /// A connection was made: a comparison is due, at once.
    pub fn connect(&mut self, now: u64)
        ensures value { self.new ≡ pace_connected now self.old }
    {
        self.connected = true;
        self.since = now;
        self.has_listed = false;
        self.ask_at = now;
        self.retry_pause = FIRST_PAUSE;
        self.is_due = true;
        self.compare_at = now;
    }

    /// The connection has ended, or couldn't be made: the agent is called again after a pause. The next pause is twice as long,
    /// up to thirty seconds.
    pub fn lose(&mut self, now: u64)
        ensures value { self.new ≡ pace_lost now self.old }
    {
        let pause = self.pause_now();
        self.has_listed = false;
        if self.connected {
            self.since = now;
        }
        self.connected = false;
        self.call_at = now.saturating_add(pause);
        self.call_pause = pause.saturating_mul(2).min(LONGEST_CALL_PAUSE);
        self.late_at = now;
        self.is_due = true;
    }

    // The pause before the next call: the first one again after a connection over which a list was heard to its end.
    fn pause_now(&self) -> u64
        ensures value { result ≡ pause_now self.now }
    {
        if self.has_listed {
            FIRST_PAUSE
        } else {
            self.call_pause
        }
    }

    /// The agent is at fault, and the connection is to end: whatever list was heard, the pauses grow.
    pub fn blame(&mut self)
        ensures value { self.new ≡ pace_at_fault self.old }
    {
        self.has_listed = false;
    }

    /// A request is made.
    pub fn ask(&mut self, now: u64)
        ensures value { self.new ≡ pace_awaiting now self.old }
    {
        self.late_at = now.saturating_add(ANSWER_TIME);
    }

    /// A list is asked for.
    pub fn begin(&mut self, now: u64)
        ensures value { self.new ≡ pace_begun now self.old }
    {
        self.is_due = false;
        self.began = now;
    }

    /// A line of the answer under way came.
    pub fn hear(&mut self, now: u64)
        ensures value { self.new ≡ pace_awaiting now self.old }
    {
        self.late_at = now.saturating_add(ANSWER_TIME);
    }

    /// A put failed: nothing is asked before it is put again, after a pause. The next pause is twice as long, up to five seconds.
    pub fn fail(&mut self, now: u64)
        ensures value { self.new ≡ pace_failed now self.old }
    {
        self.ask_at = now.saturating_add(self.retry_pause);
        self.retry_pause = self.retry_pause.saturating_mul(2).min(LONGEST_RETRY_PAUSE);
    }

    /// A list failed, or a look at one name: the next list begins after a pause. The next pause is twice as long, up to five
    /// seconds.
    pub fn postpone(&mut self, now: u64)
        ensures value { self.new ≡ pace_postponed now self.old }
    {
        let again = now.saturating_add(self.retry_pause);
        self.compare_at = self.compare_at.max(again);
        self.retry_pause = self.retry_pause.saturating_mul(2).min(LONGEST_RETRY_PAUSE);
        self.is_due = true;
    }

    /// The request was answered.
    pub fn succeed(&mut self)
        ensures value { self.new ≡ pace_succeeded self.old }
    {
        self.retry_pause = FIRST_PAUSE;
    }

    /// A list was heard to its end. The next one may begin after a second, and after ten times as long as it took.
    pub fn end(&mut self, now: u64)
        ensures value { self.new ≡ pace_ended now self.old }
    {
        let took = now.saturating_sub(self.began);
        let pause = took.saturating_mul(10).max(COMPARISON_PAUSE);
        self.compare_at = now.saturating_add(pause);
        self.has_listed = true;
    }

    /// Whether a request may be made now, if there is one.
    pub fn may_ask(&self, now: u64) -> bool
        ensures value { result ≡ may_ask now self.now }
    {
        self.connected && self.ask_at <= now
    }
}
