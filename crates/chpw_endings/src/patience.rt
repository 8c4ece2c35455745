//! How long the program waits for a service that it calls.
ghost use Rattle.std.specs.Prelude.{◌≡◌, ◌<◌, ◌+◌, ◌↔◌, IfSome, IsSome};
ghost use Rattle.std.specs.Duration.{as_nanos};
ghost use Rattle.std.specs.Time.{instant_nanos};
ghost use Rattle.std.specs.Io.{ReadsAtMost, WritesAtMost};
ghost use Rattle.chpw_endings.specs.Asking.{IsUnasked};
ghost use Rattle.chpw_endings.specs.Patience.{is_unanswered, left_nanos, longest_wait, when_late};

use crate::ending::Ending;
use std::io::{self, ErrorKind, Read, Write};
use std::net::TcpStream;
use std::os::unix::net::UnixStream;
use std::time::{Clock, Duration, Instant};

/// For how many seconds `client` and `control` wait for a service. They are for the whole of an exchange: a service that
/// says a byte at a time is given up, too.
const PATIENCE: u64 = 30;

/// When an exchange is given up. A clock that can't be read sets no end; then each read and each write waits as long.
#[derive(Clone, Copy, Drop)]
pub(crate) struct Patience {
    end: Option<Instant>,
}

/// How long an exchange may take.
pub(crate) fn longest_wait() -> Duration
    ensures value { as_nanos result ≡ longest_wait }
{
    Duration::from_secs(PATIENCE)
}

impl Patience {
    /// From now on.
    pub fn start<R: Clock>(rt: &R) -> Patience {
        Patience {
            end: end_after(Instant::now(rt).ok()),
        }
    }

    /// The time that is left, if there is any.
    pub fn left<R: Clock>(&self, rt: &R) -> Option<Duration>
        ensures some { IfSome result (λ left. 0 < as_nanos left) }
    {
        left_at(self.end, Instant::now(rt).ok())
    }
}

// When it is over that began now.
fn end_after(now: Option<Instant>) -> Option<Instant>
    ensures value { IfSome result (λ end. IfSome now (λ now. instant_nanos end ≡ instant_nanos now + longest_wait)) }
{
    now?.checked_add(longest_wait())
}

// The time that is left until the end, if there is any.
fn left_at(end: Option<Instant>, now: Option<Instant>) -> Option<Duration>
    ensures value { IfSome result (λ left. as_nanos left ≡ left_nanos end now) }
    ensures over { IsSome result ↔ (0 < left_nanos end now) }
    ensures some { IfSome result (λ left. 0 < as_nanos left) }
{
    let left = time_between(end, now);
    if left.is_zero() { None } else { Some(left) }
}

fn time_between(end: Option<Instant>, now: Option<Instant>) -> Duration
    ensures value { as_nanos result ≡ left_nanos end now }
{
    match (end, now) {
        (Some(end), Some(now)) => end.saturating_duration_since(now),
        _ => longest_wait(),
    }
}

/// The ending of an exchange that ended so, once its time was over or before.
pub(crate) fn ending_of<'a>(ending: Ending<'a>, is_late: bool) -> Ending<'a>
    ensures value { result ≡ when_late is_late ending.entry }
    ensures early { IsUnasked ending.entry → IsUnasked result }
{
    if is_late && is_unanswered(&ending) {
        Ending::TimedOut
    } else {
        ending
    }
}

fn is_unanswered(ending: &Ending<'_>) -> bool
    ensures value { result ≡ is_unanswered ending.now }
{
    matches!(ending, Ending::Unanswered)
}

/// A connection on which a read or a write waits for some time at most, and fails then.
pub(crate) trait Connection {
    fn read_within(&self, buf: &mut [u8], time: Duration) -> io::Result<usize>
        ensures bound { ReadsAtMost result buf.new };

    fn write_within(&self, buf: &[u8], time: Duration) -> io::Result<usize>
        ensures bound { WritesAtMost result buf.now };
}

impl Connection for TcpStream {
    fn read_within(&self, buf: &mut [u8], time: Duration) -> io::Result<usize> {
        self.set_read_timeout(Some(time))?;
        let mut stream = self;
        stream.read(buf)
    }

    fn write_within(&self, buf: &[u8], time: Duration) -> io::Result<usize> {
        self.set_write_timeout(Some(time))?;
        let mut stream = self;
        stream.write(buf)
    }
}

impl Connection for UnixStream {
    fn read_within(&self, buf: &mut [u8], time: Duration) -> io::Result<usize> {
        self.set_read_timeout(Some(time))?;
        let mut stream = self;
        stream.read(buf)
    }

    fn write_within(&self, buf: &[u8], time: Duration) -> io::Result<usize> {
        self.set_write_timeout(Some(time))?;
        let mut stream = self;
        stream.write(buf)
    }
}

/// A connection until its exchange is given up.
#[derive(Drop)]
pub(crate) struct Timed<'a, R, C> {
    pub rt: &'a R,
    pub connection: &'a C,
    pub patience: Patience,
}

impl<R: Clock, C: Connection> Read for Timed<'_, R, C> {
    fn read(&mut self, buf: &mut [u8]) -> io::Result<usize> {
        match self.patience.left(self.rt) {
            Some(left) => self.connection.read_within(buf, rounded_up(left)),
            None => Err(io::Error::from(ErrorKind::TimedOut)),
        }
    }
}

impl<R: Clock, C: Connection> Write for Timed<'_, R, C> {
    fn write(&mut self, buf: &[u8]) -> io::Result<usize> {
        match self.patience.left(self.rt) {
            Some(left) => self.connection.write_within(buf, rounded_up(left)),
            None => Err(io::Error::from(ErrorKind::TimedOut)),
        }
    }

    fn flush(&mut self) -> io::Result<()> {
        Ok(())
    }
}

// A little longer, so that the time is over once a wait has failed: the system waits in whole microseconds.
fn rounded_up(time: Duration) -> Duration {
    time.saturating_add(Duration::from_millis(1))
}
