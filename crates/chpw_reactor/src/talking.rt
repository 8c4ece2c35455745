//! What the reactor says to the agent at the KDC's database, and hears from it.
ghost use Rattle.std.specs.Prelude.{◌≡◌, true, is_some, None, IfSome, OnErr, OnOk};
ghost use Rattle.std.specs.Io.KnownBytes.{Appends};
ghost use Rattle.chpw_kdc.specs.Dialogs.{after_ask};
ghost use Rattle.chpw_transfers.specs.Transfers.{IsWithin, is_passed, is_over};
ghost use Rattle.chpw_reactor.specs.Tasks.{IsAskedBy};

use crate::engine::milliseconds;
use crate::kdc::KdcTerms;
use crate::reactor::Reactor;
use chpw_kdc::{KdcDialog, ProtocolFault};
use chpw_transfers::{CLERK, KDC, Transfer};
use mio::net::UnixStream;
use mio::{Interest, Registry};
use std::io::{Read, Write};
use std::net::{OpenListener, TcpStream};
use std::os::fd::AsRawFd;
use std::sync::Wait;
use std::time::Clock;

/// How many bytes of an answer are read at once.
const BUFFER: usize = 4_096;

/// How often the socket is read before the others get their turn again.
const READS: u32 = 16;

/// The connection to the agent.
#[derive(Drop)]
pub(crate) struct KdcLink<F> {
    pub terms: F,
    pub stream: Option<UnixStream>,
    /// Whether something may be read there.
    pub is_reported: bool,
    /// Whether the agent has answered over this connection.
    pub has_answered: bool,
}

impl<F: KdcTerms + Drop> KdcLink<F> {
    /// A link that isn't open yet.
    pub fn new(terms: F) -> KdcLink<F>
        ensures closed { result.stream ≡ None }
    {
        KdcLink {
            terms,
            stream: None,
            is_reported: false,
            has_answered: false,
        }
    }

    // Opens it anew; whether it is open.
    fn open(&mut self, registry: &Registry) -> bool
        ensures open { result ≡ is_some self.new.stream }
    {
        self.stream = None;
        self.has_answered = false;
        if let Some(mut stream) = self.terms.connect() {
            let both = Interest::READABLE | Interest::WRITABLE;
            if registry.register(&mut stream, KDC, both).is_ok() {
                self.stream = Some(stream);
            }
        }
        self.stream.is_some()
    }

    // Sends a line; whether all of it was sent.
    fn send(&mut self, line: &[u8]) -> bool
        ensures open { result ≡ true → is_some self.new.stream ≡ true }
    {
        match &mut self.stream {
            None => false,
            Some(stream) => send_line(stream, line),
        }
    }
}

// Sends a line; whether all of it was sent.
fn send_line<W: Write>(stream: &mut W, line: &[u8]) -> bool
    ensures whole { result ≡ true → Appends (W.contents stream.old) (W.contents stream.new) line.now }
{
    matches!(stream.write(line), Ok(count) if count == line.len())
}

impl<
    'a,
    R: Wait + Clock,
    L: OpenListener<Stream = TcpStream> + AsRawFd,
    F: KdcTerms + Drop,
> Reactor<'a, R, L, F> {
    /// Reads what the agent sent, calls it if there is no connection, asks it what is to be asked, tells what is to be told,
    /// wakes the worker for which there is something, and ends the wait of replies that have waited long enough.
    pub fn talk(&mut self, registry: &Registry) {
        if self.link.is_reported {
            self.link.is_reported = false;
            self.hear();
        }
        if self.is_to_call() {
            self.call(registry);
        }
        self.check_time();
        self.ask();
        self.tell_notices();
        self.wake_clerk();
        if self.engine.hub.lock(self.rt).state.has_waiting() {
            self.end_overdue();
        }
    }

    /// Ends the wait of the replies that have waited as long as they may, and reports that they are unconfirmed.
    pub fn end_overdue(&mut self)
        ensures kept { self.new.link.stream ≡ self.old.link.stream }
    {
        let wait = self.link.terms.wait();
        let now = milliseconds(self.rt);
        for _ in 0..self.clients {
            let ended = self.engine.hub.lock(self.rt).state.end_overdue(wait, now);
            match ended {
                None => return,
                Some(change) => self.link.terms.unconfirmed(change),
            }
        }
    }

    // Whether the agent is to be called.
    fn is_to_call(&self) -> bool {
        let now = milliseconds(self.rt);
        match &self.engine.hub.lock(self.rt).state.kdc {
            None => false,
            Some(kdc) => kdc.is_to_call(now),
        }
    }

    // Calls it.
    fn call(&mut self, registry: &Registry) {
        if self.link.open(registry) {
            let now = milliseconds(self.rt);
            if let Some(kdc) = &mut self.engine.hub.lock(self.rt).state.kdc {
                kdc.connect(now);
            }
        } else {
            self.lose(None);
        }
    }

    // Reads what the agent sent, as far as it is this service's turn.
    fn hear(&mut self) {
        let mut buffer = [0; BUFFER];
        for _ in 0..READS {
            let Some(stream) = &mut self.link.stream else {
                return;
            };
            let read = Transfer::of(stream.read(&mut buffer));
            if matches!(read, Transfer::Later) {
                return;
            }
            self.note_read(read, &buffer);
        }
        self.link.is_reported = true;
    }

    // A read of what the agent sent into this buffer did this.
    fn note_read(&mut self, read: Transfer, buffer: &[u8])
        requires within { IsWithin read buffer.now }
        ensures lost { is_over read ≡ true → self.new.link.stream ≡ None }
        ensures same { is_passed read ≡ true → self.new ≡ self.old }
    {
        match read {
            Transfer::Bytes(count) => self.hear_bytes(&buffer[..count]),
            Transfer::End | Transfer::Fault => self.lose(None),
            Transfer::Later | Transfer::Again => {}
        }
    }

    // The agent sent these bytes. One that says what it may not is disconnected.
    fn hear_bytes(&mut self, bytes: &[u8]) {
        let now = milliseconds(self.rt);
        let before = self.confirmed();
        let heard = self.engine.hub.lock(self.rt).state.hear(bytes, now);
        if heard.is_ok() && !self.link.has_answered {
            self.link.has_answered = true;
            self.link.terms.connected();
        }
        self.note_heard(heard);
        if before < self.confirmed() {
            self.link.terms.confirmed();
        }
    }

    // The last ticket that is confirmed. Only this thread confirms any.
    fn confirmed(&self) -> u64 {
        self.engine.hub.lock(self.rt).state.confirmed()
    }

    // What the agent said meant this.
    fn note_heard(&mut self, heard: Result<(), ProtocolFault>)
        ensures lost { OnErr heard (self.new.link.stream ≡ None) }
        ensures kept { OnOk heard (self.new.link.stream ≡ self.old.link.stream) }
    {
        if let Err(fault) = heard {
            self.lose(Some(fault));
        }
    }

    // Ends the connection if an answer is late.
    fn check_time(&mut self) {
        let now = milliseconds(self.rt);
        let on_time = match &mut self.engine.hub.lock(self.rt).state.kdc {
            None => Ok(()),
            Some(kdc) => kdc.tick(now),
        };
        self.note_heard(on_time);
    }

    // Asks what is to be asked. Without memory for the line it is asked later.
    fn ask(&mut self) {
        let now = milliseconds(self.rt);
        let line = match &mut self.engine.hub.lock(self.rt).state.kdc {
            None => None,
            Some(kdc) => line_of(kdc, now),
        };
        if let Some(line) = line {
            if !self.link.send(&line) {
                self.lose(None);
            }
        }
    }

    // Tells what is to be told once.
    fn tell_notices(&mut self) {
        for _ in self.rt.forever() {
            let notice = match &mut self.engine.hub.lock(self.rt).state.kdc {
                None => None,
                Some(kdc) => kdc.take_notice(),
            };
            match notice {
                None => return,
                Some(notice) => self.link.terms.tell(notice),
            }
        }
    }

    // Wakes the worker that takes what the KDC says into the table, if there is something.
    fn wake_clerk(&self) {
        let has_update = self.engine.hub.lock(self.rt).state.has_update();
        if has_update {
            self.engine.call(CLERK);
        }
    }

    // The connection has ended, or there was none. Replies go on waiting, as long as they may: what was asked is asked again
    // over the next connection.
    fn lose(&mut self, fault: Option<ProtocolFault>)
        ensures closed { self.new.link.stream ≡ None }
    {
        self.link.stream = None;
        if fault.is_none() {
            let now = milliseconds(self.rt);
            if let Some(kdc) = &mut self.engine.hub.lock(self.rt).state.kdc {
                kdc.lose(now);
            }
        }
        self.link.terms.lost(fault);
    }
}

// The line to be sent now. Without memory for it nothing has changed.
fn line_of(kdc: &mut KdcDialog, now: u64) -> Option<Vec<u8>>
    ensures line { IfSome result (λ line. IsAskedBy now kdc.old line.items) }
    ensures step { IfSome result (λ line. kdc.new ≡ after_ask now kdc.old) }
    ensures none { result ≡ None → (kdc.new ≡ kdc.old) }
{
    match kdc.ask(now) {
        Ok(line) => line,
        Err(_) => None,
    }
}
