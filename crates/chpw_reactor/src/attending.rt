//! What the reactor does at the control socket.
ghost use Rattle.std.specs.Prelude.{◌≡◌, ◌≢◌, ◌&&◌, is_some, false, true, None};
ghost use Rattle.chpw_reactor.specs.Attending.{patience_with};

use crate::engine::milliseconds;
use crate::kdc::KdcTerms;
use crate::reactor::Reactor;
use crate::status_reporter::StatusReporter;
use chpw_control::Command;
use chpw_transfers::{CALLERS, CONTROL, TICK};
use mio::net::{UnixListener, UnixStream};
use mio::{Interest, Registry};
use std::mem;
use std::net::{OpenListener, TcpStream};
use std::os::fd::AsRawFd;
use std::sync::{MutexGuard, Wait};
use std::time::Clock;

/// How many bytes of a line are read at once.
const BUFFER: usize = 1_024;

/// The control socket, if there is one.
#[derive(Drop)]
pub(crate) struct ControlPort {
    pub listener: Option<UnixListener>,
    /// Whether there may be something to do at it.
    pub is_due: bool,
}

impl ControlPort {
    /// Registers the listener. One that can't be registered is dropped.
    pub fn open(listener: Option<UnixListener>, registry: &Registry) -> ControlPort
        ensures none { listener ≡ None → result.listener ≡ None }
        ensures due { result.is_due ≡ true }
    {
        let watched = match listener {
            None => None,
            Some(mut listener) => match registry.register(
                &mut listener,
                CONTROL,
                Interest::READABLE,
            ) {
                Ok(()) => Some(listener),
                Err(_) => None,
            },
        };
        ControlPort {
            listener: watched,
            is_due: true,
        }
    }

    /// Whether there may be something to do at it; there is nothing then until more is reported.
    pub fn take_due(&mut self) -> bool
        ensures value { result ≡ (is_some self.old.listener && self.old.is_due) }
        ensures taken { result ≡ true → self.new.is_due ≡ false }
        ensures listener { self.new.listener ≡ self.old.listener }
    {
        self.listener.is_some() && mem::take(&mut self.is_due)
    }

    // The next caller to be accepted.
    fn next(&self) -> Option<UnixStream> {
        match self.listener.as_ref()?.accept() {
            Ok((stream, _)) => Some(stream),
            Err(_) => None,
        }
    }
}

impl<
    'a,
    R: Wait + Clock,
    L: OpenListener<Stream = TcpStream> + AsRawFd,
    F: KdcTerms + StatusReporter + Drop,
> Reactor<'a, R, L, F> {
    /// Callers at the control socket are accepted, read and answered, as far as their sockets allow without blocking;
    /// the thread for orders is woken. New ones are asked for only if the socket was reported, once a tick, and behind
    /// connections for which something was done: a report may come after those of many connections.
    pub fn attend(&mut self, registry: &Registry) {
        if self.port.take_due() {
            self.admit_callers(registry);
        }
        if self.has_callers() {
            self.hear_callers();
            self.answer_questions();
            self.engine.call_for_order();
            self.let_callers_go();
        }
    }

    /// If the service is to stop, ends the connections that would wait for their clients.
    pub fn end_idle_where_stopping(&mut self) {
        if self.is_stopping {
            self.end_idle();
        }
    }

    /// How long to wait for the next event, if it would be this long without callers at the control socket.
    pub fn port_patience(&self, patience: u64) -> u64 {
        if self.port.listener.is_none() {
            return patience;
        }
        patience_with(patience, self.port.is_due, self.has_callers())
    }

    // Whether there are callers.
    fn has_callers(&self) -> bool {
        !self.engine.control.lock(self.rt).callers.is_empty()
    }

    // Accepts new callers, as long as there is room.
    fn admit_callers(&mut self, registry: &Registry) {
        for _ in 0..CALLERS {
            let mut control = self.engine.control.lock(self.rt);
            if control.callers.is_full() {
                return;
            }
            let Some(stream) = self.port.next() else {
                return;
            };
            let now = milliseconds(self.rt);
            control.admit(self.engine.alloc, registry, stream, self.clients, now);
        }
    }

    // Reads what callers send, and ends the time for it.
    fn hear_callers(&mut self) {
        let now = milliseconds(self.rt);
        let mut buffer = [0; BUFFER];
        for slot in 0..CALLERS {
            let mut control = self.engine.control.lock(self.rt);
            control.serve(self.engine.alloc, slot, &mut buffer);
            control.callers.pass(slot, now);
        }
    }

    // Answers `status`, and begins to stop if that is asked for.
    fn answer_questions(&mut self) {
        for _ in 0..CALLERS {
            let question = self.engine.control.lock(self.rt).callers.next_question();
            match question {
                None => return,
                Some((slot, question)) => self.answer_question(slot, question),
            }
        }
    }

    // Answers `status`; at any other question it begins to stop.
    fn answer_question(&mut self, slot: usize, question: Command)
        ensures status { question ≡ Command.Status → (self.new.is_stopping ≡ self.old.is_stopping) × (self.new.entrance ≡ self.old.entrance) }
        ensures stop { question ≢ Command.Status → (self.new.is_stopping ≡ true) × (self.new.entrance.pending ≡ None) }
    {
        match question {
            Command::Status => self.tell_status(slot),
            Command::Stop | Command::Reload | Command::ReopenLog | Command::Compact(_) =>
                self.stop(),
        }
    }

    fn tell_status(&mut self, slot: usize)
        ensures stopping { self.new.is_stopping ≡ self.old.is_stopping }
        ensures entrance { self.new.entrance ≡ self.old.entrance }
    {
        let files = self.link.terms.file_readings();
        let hub = self.engine.hub.lock(self.rt);
        let standing = hub.state.standing();
        let text = self.link.terms.status(
            self.engine.alloc,
            files,
            &standing,
            hub.state.kdc.as_ref(),
        );
        MutexGuard::unlock(hub);
        self.engine.control.lock(self.rt).callers.answer(slot, text);
    }

    // Accepts no more connections and datagrams. The caller that asked is answered at the end.
    fn stop(&mut self)
        ensures stopping { self.new.is_stopping ≡ true }
        ensures nobody { self.new.entrance.pending ≡ None }
    {
        self.is_stopping = true;
        self.engine.control.lock(self.rt).is_stopping = true;
        let accepted = self.engine.hub.lock(self.rt).state.close();
        self.entrance.close(accepted);
    }

    // Ends the connections that would wait for their clients' next messages.
    fn end_idle(&mut self) {
        for slot in 0..self.clients {
            self.drive(slot);
            self.engine.hub.lock(self.rt).state.end_if_reading(slot);
        }
    }

    // Writes what is left of the answers, and closes the sockets of callers that are finished.
    fn let_callers_go(&mut self) {
        let mut buffer = [0; BUFFER];
        for slot in 0..CALLERS {
            let mut control = self.engine.control.lock(self.rt);
            control.serve(self.engine.alloc, slot, &mut buffer);
            if control.let_go(slot) {
                self.port.is_due = true;
            }
        }
    }

    /// Answers `ok` to those who asked for a stop, and writes what is left to the others. Their sockets are closed with
    /// the engine.
    pub fn tell_last(&mut self) {
        let is_deserted = self.engine.hub.lock(self.rt).state.is_deserted;
        let mut buffer = [0; BUFFER];
        for slot in 0..CALLERS {
            let mut control = self.engine.control.lock(self.rt);
            control.tell_last(self.engine.alloc, slot, is_deserted, &mut buffer);
        }
    }
}

// How long to wait, if it would be this long without callers: no time if something is to be done for them, and at most
// a tenth of a second while there are any.
fn patience_with(patience: u64, is_due: bool, has_callers: bool) -> u64
    ensures value { result ≡ patience_with patience is_due has_callers }
{
    if is_due {
        0
    } else if has_callers {
        patience.min(TICK)
    } else {
        patience
    }
}
