//! The service's side of the agent at the KDC's database, and of its control socket.
ghost use Rattle.std.specs.Prelude.{◌≡◌, ◌||◌, ◌⊎◌, ◌++◌, [], codes, is_some, None, OnOk};
ghost use Rattle.std.specs.Str.{IsUtf8};
ghost use Rattle.std.specs.Option.{option_copied};
ghost use Rattle.chpw_control.specs.Statuses.{IsTold};
ghost use Rattle.chpw_printing.specs.Quoting.{name_text as printed_name};
ghost use Rattle.chpw_host.specs.Status.{IsReadOf, IsStatusAnswer, refusal_words};

use chpw_connections::Unconfirmed;
use chpw_control::Time;
use chpw_desks::{JournalLength, KdcPlace, ServiceContext};
use chpw_host::{FileReadings, KdcReadings, Readings, StatusSources, answer_of};
use chpw_invocation::VERSION;
use chpw_kdc::{KdcDialog, Notice as KdcNotice, ProtocolFault, RefusedName};
use chpw_logging::{Counters, Log, Notice, is_first, time_of};
use chpw_printing::put_name;
use chpw_reactor::{KdcTerms, StatusReporter};
use chpw_rules::Name;
use chpw_serve::Clock as _;
use chpw_transfers::ConnectionCounts;
use chpw_workers::MachineClock;
use mio::net::{UnixListener, UnixStream};
use std::alloc::{AllocError, Global};
use std::fs::Files;
use std::net::{Net, TcpListener, TcpStream};
use std::sync::{Mutex, Wait};
use std::time::Clock;

/// The service's side of its control socket.
#[derive(Drop)]
pub(crate) struct ControlTerms {
    /// The socket, until the reactor has it; none without one.
    pub listener: Option<UnixListener>,
    /// When the service started.
    pub since: Time,
    pub workers: u8,
    ghost told: { IsTold since },
}

/// The agent at a socket, if there is one, and the control socket. Each change that the agent doesn't confirm has a line of its
/// own in the log, and a notice on standard error once until it confirms one again.
#[derive(Drop)]
pub(crate) struct SocketKdc<'l, R: Clock> {
    rt: &'l R,
    alloc: Global,
    place: KdcPlace<'l>,
    log: &'l Log<'l, R>,
    counters: &'l Mutex<Counters>,
    clock: MachineClock<'l, R>,
    /// Whether it was reported that a change isn't confirmed.
    is_late_told: bool,
    /// Whether it was reported that there is no connection.
    is_down_told: bool,
    /// Since when there is a connection, or none.
    changed: Time,
    journal: &'l JournalLength,
    /// The control socket, until the reactor has it.
    listener: Option<UnixListener>,
    since: Time,
    workers: u8,
    ghost told: { IsTold since × IsTold changed },
}

impl<'l, R: Wait + Clock + Eprint + AllocGlobal> SocketKdc<'l, R> {
    /// The agent and the control socket of a service.
    pub fn of(context: &'l ServiceContext<'l, R>, control: ControlTerms) -> SocketKdc<'l, R>
        ensures place { result.place ≡ context.now.kdc }
        ensures listener { result.listener ≡ control.listener }
        ensures since { result.since ≡ control.since }
        ensures workers { result.workers ≡ control.workers }
    {
        let ControlTerms {
            listener,
            since,
            workers,
            ..
        } = control;
        SocketKdc {
            rt: context.rt,
            alloc: context.rt.alloc(),
            place: context.kdc,
            log: context.log,
            counters: context.counters,
            clock: MachineClock::new(context.rt),
            is_late_told: false,
            is_down_told: false,
            changed: since,
            journal: &context.journal,
            listener,
            since,
            workers,
        }
    }
}

impl<R: Net<Listener = TcpListener, Stream = TcpStream> + Wait + Clock + Eprint> KdcTerms
    for SocketKdc<'_, R> {
    fn wait(&self) -> u64
        ensures value { result ≡ self.now.place.wait }
    {
        u64::from(self.place.wait)
    }

    fn connect(&mut self) -> Option<UnixStream> {
        UnixStream::connect(self.rt, self.place.socket?).ok()
    }

    fn connected(&mut self) {
        self.is_down_told = false;
        self.changed = time_of(self.clock.now());
    }

    fn confirmed(&mut self) {
        self.is_late_told = false;
    }

    fn lost(&mut self, fault: Option<ProtocolFault>) {
        let Some(socket) = self.place.socket else {
            return;
        };
        if fault.is_some() {
            self.log.tell(Notice::KdcMisspoken(socket));
        }
        if is_first(&mut self.is_down_told) {
            self.changed = time_of(self.clock.now());
            self.log.tell(Notice::KdcDown(socket));
        }
    }

    fn tell(&mut self, notice: KdcNotice) {
        let Some(socket) = self.place.socket else {
            return;
        };
        match notice {
            KdcNotice::Lost => self.log.tell(Notice::KdcLost(socket)),
            KdcNotice::Refused { name, reason } => {
                let words = words_of(self.alloc, &RefusedName { name, reason });
                self.log.tell(Notice::KdcRefused(socket, text_of(&words)));
            }
            KdcNotice::TooManyGone { gone, of } => {
                self.log
                    .tell(Notice::KdcLacks(socket, gone as u64, of as u64));
            }
            KdcNotice::TableFull { name } => {
                let name = name_text(self.alloc, &name);
                self.log.tell(Notice::KdcTableFull(socket, text_of(&name)));
            }
            KdcNotice::Failed { text } => {
                self.log
                    .tell(Notice::KdcFailed(socket, text_of(text.as_slice())));
            }
        }
    }

    fn unconfirmed(&mut self, change: Unconfirmed)
        ensures told { self.new.is_late_told ≡ (self.old.is_late_told || is_some self.old.place.socket) }
        ensures place { self.new.place ≡ self.old.place }
    {
        let Unconfirmed { peer, ticket } = change;
        self.log.put_unconfirmed(self.clock.now(), peer, ticket);
        if let Some(socket) = self.place.socket {
            if is_first(&mut self.is_late_told) {
                self.log.tell(Notice::Unconfirmed(socket));
            }
        }
    }
}

impl<
    R: Files + Net<Listener = TcpListener, Stream = TcpStream> + Wait + Clock + Eprint,
> StatusReporter for SocketKdc<'_, R> {
    type FileReadings = FileReadings;

    fn listener(&mut self) -> Option<UnixListener>
        ensures given { result ≡ self.old.listener }
        ensures none { self.new.listener ≡ None }
    {
        self.listener.take()
    }

    fn file_readings(&self) -> FileReadings {
        FileReadings {
            journal_bytes: self.journal.bytes(),
            failure: self.log.failure(),
            journal_name: self.log.journal_name(),
            log_name: self.log.log_name(),
            log_lost: self.log.lost_count(),
        }
    }

    fn status(
        &mut self,
        alloc: Global,
        files: FileReadings,
        standing: &ConnectionCounts,
        kdc: Option<&KdcDialog>,
    ) -> Vec<u8>
        ensures told { (result.items ≡ [])
            ⊎ IsStatusAnswer VERSION.now self.old.since self.old.workers standing.now (option_copied kdc.entry) self.old.changed
            result.items }
        ensures unchanged { self.new.place ≡ self.old.place }
    {
        let moment = self.clock.now();
        let counters = *self.counters.lock(self.rt);
        let refused = kdc.and_then(|kdc| kdc
            .status()
            .refusal
            .map(|refusal| words_of(alloc, refusal)));
        let readings = Readings {
            since: self.since,
            moment,
            workers: self.workers,
            files,
            kdc: readings_of(kdc, self.changed),
        };
        let refused = refused.as_ref().map(|words| words.as_slice());
        let sources = StatusSources {
            version: VERSION,
            readings: &readings,
            counters: &counters,
            counts: standing,
            refused,
        };
        answer_of(alloc, &sources)
    }
}

// What is read of the KDC, if there is one.
fn readings_of(kdc: Option<&KdcDialog>, changed: Time) -> Option<KdcReadings>
    requires told { IsTold changed }
    ensures read { IsReadOf (option_copied kdc.entry) changed result }
{
    let kdc = kdc?;
    Some(KdcReadings {
        is_connected: kdc.is_connected(),
        since: changed,
        behind: kdc.behind() as u64,
        held: kdc.held() as u64,
    })
}

// A name that the agent refused, and why; empty if memory is refused.
fn words_of(alloc: Global, refusal: &RefusedName) -> Vec<u8>
    ensures value { (result.items ≡ []) ⊎ (result.items ≡ refusal_words refusal.now) }
{
    let mut words = Vec::new(alloc);
    match put_refusal(&mut words, refusal) {
        Ok(()) => words,
        Err(_) => Vec::new(alloc),
    }
}

// A name as it is printed; empty if memory is refused.
fn name_text(alloc: Global, name: &Name) -> Vec<u8>
    ensures value { (result.items ≡ []) ⊎ (result.items ≡ printed_name name.now) }
{
    let mut text = Vec::new(alloc);
    match put_name(&mut text, name) {
        Ok(()) => text,
        Err(_) => Vec::new(alloc),
    }
}

fn put_refusal(words: &mut Vec<u8>, refusal: &RefusedName) -> Result<(), AllocError>
    ensures value { OnOk result (words.new.items ≡ words.old.items ++ refusal_words refusal.now) }
{
    put_name(words, &refusal.name)?;
    words.push(b' ')?;
    words.extend_from_slice(refusal.reason.word().as_bytes())?;
    Ok(())
}

// These bytes as a text, if they are one.
fn text_of(bytes: &[u8]) -> &str
    ensures text { IsUtf8 bytes.now → result.now ≡ bytes.now }
    ensures mark { ¬ (IsUtf8 bytes.now) → result.now ≡ codes "?" }
{
    match str::from_utf8(bytes) {
        Ok(text) => text,
        Err(_) => "?",
    }
}
