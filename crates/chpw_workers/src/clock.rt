//! The machine's clock, as a worker reads it.
ghost use Rattle.std.specs.Prelude.{◌≡◌, ◌<◌, pos, IfSome, IfNone};
ghost use Rattle.std.specs.Duration.{as_nanos};
ghost use Rattle.std.specs.Time.{system_time_nanos};
ghost use Rattle.chpw_table.specs.Times.{IsMoment};
ghost use Rattle.chpw_workers.specs.Clocks.{moment_after, IsPast};

use chpw_serve::Clock;
use chpw_table::{LAST_SECOND, Moment};
use std::marker::Model;
use std::time;
use std::time::{Duration, SystemTime, UNIX_EPOCH};

/// The machine's moment; none where its clock fails, or is past the year 9999.
pub fn machine_moment<R: time::Clock>(rt: &R) -> Option<Moment>
    ensures range { IfSome result (λ m. IsMoment m × (m.micros < 1000000)) }
{
    let now = SystemTime::now(rt).ok()?;
    moment_at(now)
}

// The moment of a machine's time; none past the year 9999.
fn moment_at(now: SystemTime) -> Option<Moment>
    ensures range { IfSome result (λ m. IsMoment m × (m.micros < 1000000)) }
    ensures value { IfSome result (λ m. m ≡ moment_after (system_time_nanos now)) }
    ensures none { IfNone result (IsPast (system_time_nanos now)) }
{
    match now.duration_since(UNIX_EPOCH) {
        Ok(since) => moment(since),
        Err(_) => None,
    }
}

// The moment this long after 1970-01-01T00:00:00Z; none past the year 9999.
fn moment(since: Duration) -> Option<Moment>
    ensures range { IfSome result (λ m. IsMoment m × (m.micros < 1000000)) }
    ensures value { IfSome result (λ m. m ≡ moment_after (as_nanos since)) }
    ensures none { IfNone result (IsPast (as_nanos since)) }
{
    let seconds = since.as_secs();
    if seconds > LAST_SECOND as u64 {
        return None;
    }
    Some(Moment {
        seconds: seconds as i64,
        micros: since.subsec_micros(),
    })
}

/// The machine's clock, seen as the last moment that it gave: at first 1970-01-01T00:00:00Z. If the machine gives none,
/// it gives that one again. If the machine's clock goes back, so does this one.
#[derive(Drop)]
pub struct MachineClock<'a, R: time::Clock> {
    rt: &'a R,
    last: Moment,
}

impl<'a, R: time::Clock> Model for MachineClock<'a, R> {
    ghost use Rattle.std.specs.Prelude.{◌<◌};
    ghost use Rattle.chpw_table.specs.Times.{IsMoment};
    ghost use Rattle.chpw_table.specs.declared.times.Moment.{Moment};

    ghost Value = { Moment };

    ghost view = { λ c. c.last };

    ghost invariant = { λ c. IsMoment c.last × (c.last.micros < 1000000) };
}

impl<'a, R: time::Clock> MachineClock<'a, R> {
    /// A clock that has given no moment yet.
    pub fn new(rt: &'a R) -> MachineClock<'a, R>
        ensures start { result ≡ moment_after 0 }
    {
        MachineClock {
            rt,
            last: Moment {
                seconds: 0,
                micros: 0,
            },
        }
    }
}

impl<'a, R: time::Clock> Clock for MachineClock<'a, R> {
    ghost use Rattle.std.specs.Prelude.{◌≡◌};

    ghost gives = { λ _ moment after. after ≡ moment };

    fn now(&mut self) -> Moment {
        if let Some(moment) = machine_moment(self.rt) {
            self.last = moment;
        }
        self.last
    }
}
