//! The log of a service: a line for the result of each message.
ghost use Rattle.std.specs.Prelude.{◌≡◌, ◌≢◌, ◌<◌, IfErr, IfSome};
ghost use Rattle.std.specs.IoError.{error_kind};
ghost use Rattle.chpw_table.specs.Times.{IsMoment};
ghost use Rattle.chpw_log.specs.Events.{IsQuietTold};
ghost use Rattle.chpw_log.specs.Kinds.{AreFew, IsFew};
ghost use Rattle.chpw_start.specs.Faults.{IsOfClash, IsOfLog, IsUnlogged};
ghost use Rattle.chpw_start.specs.declared.fault.ServeFault.TheVariants.{Memory};

use crate::counters::Counters;
use crate::names::name_state;
use crate::notices::{Losses, Notice, is_first};
use crate::observers::Lines;
use chpw_control::NameState;
use chpw_invocation::ServeOptions;
use chpw_journal::{FileNumber, JournalMarks, SinkCause};
use chpw_log::{
    HeldCount, HeldCounts, HeldKind, Line, LineLimits, ServiceEvent, micros_of, write_event,
    write_held, write_line, write_unconfirmed, write_update,
};
use chpw_start::{LineOutput, ServeFault, is_standard_error, keep_apart};
use chpw_table::{KdcUpdate, Moment, UpdateVerdict};
use std::alloc::{AllocError, Global};
use std::fs::{File, Files};
use std::io::{self, ErrorKind};
use std::net::{IpAddr, Net};
use std::sync::{Mutex, Wait};

/// The reports of a running service: in its log, if there is one, a line for each message, but of those that anybody can
/// send without end for ten a second of a kind, by the worker that answers it and before it is answered. The desk's lock
/// is free then.
///
/// A line that can't be written, or not within half a second, is lost, and the service goes on: the part that is
/// written, or an empty line, shows where. The first lost line is also reported on standard error, and so is the first
/// change that the journal did not take.
#[derive(Drop)]
pub struct Log<'l, R> {
    rt: &'l R,
    alloc: Global,
    journal: &'l str,
    /// Whether it was reported that the journal failed.
    failed: Mutex<bool>,
    /// What is read of the journal that is open, once it is.
    marks: Mutex<Option<JournalMarks>>,
    file: Option<LogFile<'l>>,
}

// The log at a path.
#[derive(Drop)]
struct LogFile<'l> {
    path: &'l str,
    // Which file it is, if it is one.
    number: Mutex<Option<FileNumber>>,
    end: Mutex<End>,
}

// Where the next line is appended.
#[derive(Drop)]
struct End {
    sheet: LineOutput,
    limits: LineLimits,
    losses: Losses,
}

/// The log of a service with these options. A log or a journal that is another file of the start is refused before
/// anything is opened for writing; then a log that can't be made or appended to.
pub fn log_of<'l, 'a: 'l, R: Files<File = File> + Net>(
    rt: &'l R,
    alloc: Global,
    options: &ServeOptions<'a>,
) -> Result<Log<'l, R>, ServeFault<'a>>
    ensures fault { IfErr result (IsOfClash options.now) }
{
    keep_apart(rt, options)?;
    let file = file_at(rt, alloc, options.log)?;
    // A log that was just made may be the journal by another name.
    keep_apart(rt, options)?;
    Ok(Log {
        rt,
        alloc,
        journal: options.journal,
        failed: Mutex::new(false),
        marks: Mutex::new(None),
        file,
    })
}

fn file_at<'l, 'a: 'l, R: Files<File = File> + Net>(
    rt: &R,
    alloc: Global,
    path: Option<&'a str>,
) -> Result<Option<LogFile<'l>>, ServeFault<'a>>
    ensures fault { IfErr result (IsOfLog path.entry) }
{
    match path {
        None => Ok(None),
        Some(path) => match LineOutput::at(rt, alloc, path) {
            Ok(sheet) => Ok(Some(LogFile {
                path,
                number: Mutex::new(sheet.number()),
                end: Mutex::new(End {
                    sheet,
                    limits: LineLimits::new(),
                    losses: Losses::default(),
                }),
            })),
            Err(error) => Err(unlogged_fault(path, error)),
        },
    }
}

fn unlogged_fault(path: &str, error: io::Error) -> ServeFault<'_>
    ensures fault { IsUnlogged path.now result }
    ensures memory { error_kind error ≡ ErrorKind.OutOfMemory → result ≡ Memory }
    ensures other { error_kind error ≢ ErrorKind.OutOfMemory → result ≢ Memory }
{
    if error.kind() == ErrorKind::OutOfMemory {
        ServeFault::Memory
    } else {
        ServeFault::CannotWrite(path)
    }
}

impl<R: Wait + Eprint> Log<'_, R> {
    // Appends the line of an update from the KDC that was decided so.
    fn put_update(&self, now: Moment, update: &KdcUpdate, verdict: UpdateVerdict)
        requires moment { IsMoment now }
        requires micros { now.micros < 1000000 }
    {
        if let Some(file) = &self.file {
            self.put_text(file, write_update(self.alloc, now, update, verdict));
        }
        if matches!(verdict, UpdateVerdict::Broken) {
            self.tell_failed(now);
        }
    }

    /// Appends the summaries that are still due, and the line of the event that ends the service. They are the last ones.
    pub fn end(&self, now: Moment, event: &ServiceEvent)
        requires moment { IsMoment now }
        requires micros { now.micros < 1000000 }
        requires quiet { IsQuietTold event.now }
    {
        if let Some(file) = &self.file {
            let held = file.end.lock(self.rt).limits.rest();
            self.put_counts(file, now, held);
        }
        self.put_event(now, event);
    }

    /// How many of its lines couldn't be written.
    pub fn lost_count(&self) -> u64 {
        match &self.file {
            Some(file) => file.end.lock(self.rt).losses.count,
            None => 0,
        }
    }

    /// From now on these are the marks of the journal that is open.
    pub fn watch(&self, marks: JournalMarks) {
        *self.marks.lock(self.rt) = Some(marks);
    }

    /// Whether it was reported that the journal failed.
    pub fn has_failed(&self) -> bool {
        *self.failed.lock(self.rt)
    }

    /// Why the journal failed, if it was reported that it did.
    pub fn failure(&self) -> Option<SinkCause> {
        if self.has_failed() {
            Some(self.cause())
        } else {
            None
        }
    }

    // Why an append failed, as far as the journal's marks show it.
    fn cause(&self) -> SinkCause {
        let marks = self.marks.lock(self.rt);
        match &*marks {
            Some(marks) => marks.cause().unwrap_or(SinkCause::Unknown),
            None => SinkCause::Unknown,
        }
    }

    // Which file the journal is that is open.
    fn journal_number(&self) -> Option<FileNumber> {
        let marks = self.marks.lock(self.rt);
        match &*marks {
            Some(marks) => Some(marks.file()),
            None => None,
        }
    }

    /// Appends the line of an event of the service.
    pub fn put_event(&self, now: Moment, event: &ServiceEvent)
        requires moment { IsMoment now }
        requires micros { now.micros < 1000000 }
        requires quiet { IsQuietTold event.now }
    {
        if let Some(file) = &self.file {
            self.put_text(file, write_event(self.alloc, now, event));
        }
    }

    // Appends the line of a message whose kind has no limit.
    fn put(&self, line: &Line<'_>) {
        if let Some(file) = &self.file {
            let held = file.end.lock(self.rt).limits.due(micros_of(line.moment));
            self.put_counts(file, line.moment, held);
            self.put_line(file, line);
        }
    }

    // Appends the line of a message of this kind, if it has one of its own.
    fn put_limited(&self, kind: HeldKind, line: &Line<'_>) {
        if let Some(file) = &self.file {
            let now = micros_of(line.moment);
            let leave = file.end.lock(self.rt).limits.ask(kind, now, line.peer);
            self.put_counts(file, line.moment, leave.told);
            if leave.line {
                self.put_line(file, line);
            }
        }
    }

    /// Appends the line of a change that was answered, to this peer, before the KDC had confirmed it: the `ticket`-th since the
    /// service started.
    pub fn put_unconfirmed(&self, now: Moment, peer: IpAddr, ticket: u64)
        requires moment { IsMoment now }
        requires micros { now.micros < 1000000 }
    {
        if let Some(file) = &self.file {
            self.put_text(file, write_unconfirmed(self.alloc, now, peer, ticket));
        }
    }

    // Appends the summaries of how many were held back, those that are due.
    fn put_counts(&self, file: &LogFile<'_>, now: Moment, held: HeldCounts)
        requires moment { IsMoment now }
        requires micros { now.micros < 1000000 }
        requires few { AreFew held }
    {
        self.put_held(file, now, HeldKind::Unopened, held.unopened);
        self.put_held(file, now, HeldKind::Skewed, held.skewed);
        self.put_held(file, now, HeldKind::Replayed, held.replayed);
    }

    fn put_held(&self, file: &LogFile<'_>, now: Moment, kind: HeldKind, held: Option<HeldCount>)
        requires moment { IsMoment now }
        requires micros { now.micros < 1000000 }
        requires few { IfSome held IsFew }
    {
        if let Some(held) = held {
            self.put_text(file, write_held(self.alloc, now, kind, &held));
        }
    }

    fn put_line(&self, file: &LogFile<'_>, line: &Line<'_>) {
        self.put_text(file, write_line(self.alloc, line));
    }

    // Appends the text of a line. If there is none, because memory was refused, the line is lost.
    fn put_text(&self, file: &LogFile<'_>, text: Result<Vec<u8>, AllocError>) {
        if file.append(self.rt, text) {
            self.tell(Notice::LogLost(file.path));
        }
    }

    /// Reports that the journal failed, the first time.
    pub fn tell_failed(&self, now: Moment)
        requires moment { IsMoment now }
        requires micros { now.micros < 1000000 }
    {
        let first = is_first(&mut *self.failed.lock(self.rt));
        if first {
            self.put_event(now, &ServiceEvent::JournalFailed);
            self.tell(Notice::JournalFailed(self.journal, self.cause()));
        }
    }

    /// Writes a line on standard error. If the log goes there too, it waits for it no longer than a line of the log
    /// does.
    pub fn tell(&self, notice: Notice<'_>) {
        match &self.file {
            Some(file) if is_standard_error(file.path) => {
                if let Ok(text) = format!(in self.alloc; "{notice}\n") {
                    let _ = file
                        .end
                        .lock(self.rt)
                        .sheet
                        .append(self.rt, text.as_bytes());
                }
            }
            _ => {
                let _ = eprintln!(self.rt; "{notice}");
            }
        }
    }
}

impl<R: Files + Wait + Eprint> Log<'_, R> {
    /// Whether the journal's name leads to the journal that is open.
    pub fn journal_name(&self) -> NameState {
        match self.journal_number() {
            Some(open) => name_state(open, FileNumber::at(self.rt, self.journal)),
            None => NameState::Absent,
        }
    }

    /// Whether the log's name leads to the log; none has one if there is no log, or it is no file.
    pub fn log_name(&self) -> NameState {
        match &self.file {
            Some(file) => file.name_state(self.rt),
            None => NameState::Absent,
        }
    }
}

impl<R: Files<File = File> + Net + Wait + Eprint> Log<'_, R> {
    /// Reopens the log's file, and goes on there with a line that says so. If it can't be opened the log goes on as
    /// before. A service without a log has nothing to reopen.
    pub fn reopen<'a>(&self, options: &ServeOptions<'a>, now: Moment) -> Result<(), ServeFault<'a>>
        requires moment { IsMoment now }
        requires micros { now.micros < 1000000 }
        ensures fault { IfErr result (IsOfClash options.now) }
    {
        let (Some(file), Some(path)) = (&self.file, options.log) else {
            return Ok(());
        };
        keep_apart(self.rt, options)?;
        match LineOutput::at(self.rt, self.alloc, path) {
            Ok(sheet) => file.go_on_in(self.rt, sheet),
            Err(error) => return Err(unlogged_fault(path, error)),
        }
        self.put_event(now, &ServiceEvent::LogReopened);
        Ok(())
    }
}

impl LogFile<'_> {
    // The lines go there from now on.
    fn go_on_in<R: Wait>(&self, rt: &R, sheet: LineOutput) {
        *self.number.lock(rt) = sheet.number();
        self.end.lock(rt).sheet = sheet;
    }

    // Whether its name leads to it.
    fn name_state<R: Files + Wait>(&self, rt: &R) -> NameState {
        let number = *self.number.lock(rt);
        match number {
            Some(open) => name_state(open, FileNumber::at(rt, self.path)),
            None => NameState::Absent,
        }
    }

    // Appends this line. Whether a first loss is to be reported.
    fn append<R: Wait + Eprint>(&self, rt: &R, line: Result<Vec<u8>, AllocError>) -> bool {
        let mut end = self.end.lock(rt);
        let whole = match line {
            Ok(line) => end.sheet.append(rt, line.as_slice()),
            Err(_) => false,
        };
        let can_tell = end.sheet.can_tell();
        end.losses.note(whole, can_tell)
    }
}

/// The lines of a log, as a worker's observer writes them. They go to a file or a terminal that the others share, so no
/// clause says what they hold.
#[derive(Drop)]
pub struct LogLines<'l, R> {
    /// The log and the counters, which all workers share.
    pub log: &'l Log<'l, R>,
    pub counters: &'l Mutex<Counters>,
}

impl<R: Wait + Eprint> Lines for LogLines<'_, R> {
    ghost takes = { λ a n b. Unit {0} };

    fn put(&mut self, line: &Line<'_>) {
        self.counters.lock(self.log.rt).count_line(line);
        self.log.put(line);
    }

    fn put_limited(&mut self, kind: HeldKind, line: &Line<'_>) {
        self.counters.lock(self.log.rt).count_line(line);
        self.log.put_limited(kind, line);
    }

    fn tell_failed(&mut self, now: Moment) {
        self.log.tell_failed(now);
    }

    fn put_update(&mut self, now: Moment, update: &KdcUpdate, verdict: UpdateVerdict) {
        self.counters.lock(self.log.rt).count_update();
        self.log.put_update(now, update, verdict);
    }
}
