//! Whether an output takes a line without blocking.
ghost use Rattle.std.specs.Prelude.{◌≡◌, not, false, IfOk, IfSome, if◌then◌else◌};

use mio::unix::SourceFd;
use mio::{Events, Interest, Poll, Token};
use std::alloc::{AllocError, Global};
use std::net::Net;
use std::os::fd::RawFd;
use std::time::Duration;

/// How many milliseconds a line waits for an output that takes none.
const PATIENCE: u64 = 500;

/// An output that the system can watch: a terminal, a pipe or a socket. It may take no line for a while.
#[derive(Drop)]
pub(crate) struct Readiness {
    poll: Poll,
    events: Events,
    output: RawFd,
    /// Whether it took none last time.
    is_stalled: bool,
}

impl Readiness {
    /// The readiness of the output with this descriptor. None if the system can't watch it: a regular file and most
    /// devices take each line, if they don't refuse it.
    pub fn of<R: Net>(rt: &R, alloc: Global, output: RawFd) -> Result<Option<Readiness>, AllocError>
        ensures fresh { IfOk result (λ found. IfSome found (λ r. r.is_stalled ≡ false)) }
    {
        let events = Events::with_capacity(alloc, 1)?;
        let Ok(poll) = Poll::new(rt) else {
            return Ok(None);
        };
        let mut source = SourceFd(&output);
        let registered = poll
            .registry()
            .register(&mut source, Token(0), Interest::WRITABLE);
        match registered {
            Err(_) => Ok(None),
            Ok(()) => Ok(Some(Readiness {
                poll,
                events,
                output,
                is_stalled: false,
            })),
        }
    }

    /// Whether the output takes a line: it is waited for half a second, and not at all if it took none last time.
    pub fn is_ready(&mut self) -> bool
        ensures stalled { self.new.is_stalled ≡ not result }
    {
        let patience = Duration::from_millis(patience(self.is_stalled));
        // Registered again, it is reported if it is ready now.
        let mut source = SourceFd(&self.output);
        let registered = self
            .poll
            .registry()
            .reregister(&mut source, Token(0), Interest::WRITABLE);
        let is_ready = registered.is_ok()
            && self.poll.poll(&mut self.events, Some(patience)).is_ok()
            && !self.events.is_empty();
        self.is_stalled = !is_ready;
        is_ready
    }

    /// Whether it took no line last time.
    pub fn is_stalled(&self) -> bool
        ensures value { result ≡ self.now.is_stalled }
    {
        self.is_stalled
    }
}

// How many milliseconds to wait for an output.
fn patience(is_stalled: bool) -> u64
    ensures value { result ≡ (if is_stalled then 0 else 500) }
{
    if is_stalled { 0 } else { PATIENCE }
}
