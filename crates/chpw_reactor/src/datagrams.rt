//! What the reactor does for messages that come in datagrams.
ghost use Rattle.std.specs.Prelude.{◌≡◌, ◌&&◌};
ghost use Rattle.chpw_transfers.specs.Datagrams.{may_have_more as may_follow};

use crate::engine::milliseconds;
use crate::kdc::KdcTerms;
use crate::reactor::Reactor;
use crate::status_reporter::StatusReporter;
use chpw_transfers::Progress;
use std::net::{OpenListener, TcpStream};
use std::os::fd::AsRawFd;
use std::sync::Wait;
use std::time::Clock;

/// How many datagrams are read before the other sockets get their turn again.
const DATAGRAMS_AT_ONCE: u32 = 64;

impl<
    'a,
    R: Wait + Clock,
    L: OpenListener<Stream = TcpStream> + AsRawFd,
    F: KdcTerms + StatusReporter + Drop,
> Reactor<'a, R, L, F> {
    /// Reads the datagrams that have come. Each that waits for a worker is a connection, and no more are read than
    /// connections are to be accepted.
    pub fn take_datagrams(&mut self) {
        for _ in 0..DATAGRAMS_AT_ONCE {
            let accepted = self.engine.accepted_count(self.rt);
            if !self.can_take_datagram(accepted) {
                return;
            }
            let progress = self.take_datagram();
            self.note_datagram(progress);
            if let Progress::Queued(worker) = progress {
                self.engine.call(worker);
            }
        }
    }

    // A read of the next one did this. Only where none was there are no more, whether or not one got a place: what waits
    // behind one that was dropped isn't left behind.
    fn note_datagram(&mut self, progress: Progress)
        ensures value { self.new.has_datagrams ≡ (self.old.has_datagrams && may_follow progress) }
        ensures rest { (self.new.entrance ≡ self.old.entrance) × (self.new.is_stopping ≡ self.old.is_stopping) }
    {
        self.has_datagrams = self.has_datagrams && may_have_more(progress);
    }

    // Reads the next one.
    fn take_datagram(&self) -> Progress {
        let now = milliseconds(self.rt);
        self.engine.hub.lock(self.rt).take_datagram(now)
    }
}

// Whether more may have come, behind a read that did this.
fn may_have_more(progress: Progress) -> bool
    ensures value { result ≡ may_follow progress }
{
    progress != Progress::Idle
}
