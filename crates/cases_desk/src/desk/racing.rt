//! What all workers do side by side, each in a thread of its own.

use crate::desk::scene::Scene;
use crate::desk::words::first_word;
use chpw_book::{Desk, DeskName, Pass};
use chpw_journal::MemorySink;
use chpw_messages::Service;
use chpw_serve::{Gate, NoGate, Observer, Spot};
use chpw_table::{Moment, Opened, Receipt};
use krb_protocol::Refusal;
use std::alloc::Global;
use std::net::IpAddr;
use std::sync::atomic::{AtomicU32, Ordering};
use std::sync::{Barrier, Wait};
use std::thread::Threads;
use std::{io, thread};
use support_cases::no_case;

/// What a client prints for a change, and for a replay.
const CHANGED: &str = "code 0 password changed";

const REPLAYED: &str = "code 3 error 34 request replayed";

/// What a worker says that saw what it had to.
const SEEN: &str = "seen";

/// How often one password is changed, and how often each other worker looks meanwhile.
const CHANGES: u32 = 40;

const LOOKS: u32 = 500;

/// How many workers changed a password, answered a replay, and saw what they had to. The pass of one that changed one is the
/// first then.
///
/// - `meet NAME MICROS PASSWORD`: all workers answer that message, each held until all have opened it.
/// - `own NAME ..`: each changes the password of the name in its place, raises the count to 5 and its own number, and
///   changes the password again.
/// - `crowd NAME`: the first worker changes the password often, and looks after each change; the others look.
pub fn together<D: DeskName + Send + Sync, R: Threads + Wait + Sync>(
    scene: &Scene<'_, D, R>,
    passes: &mut [Pass<D>],
    task: &str,
) -> io::Result<String> {
    let told = Told {
        task: String::from_str(scene.alloc, task)?,
        changed: AtomicU32::new(0),
        replayed: AtomicU32::new(0),
        seen: AtomicU32::new(0),
    };
    let barrier = Barrier::new(passes.len());
    race(
        scene.rt,
        &barrier,
        &told,
        scene.alloc,
        scene.service,
        scene.desk,
        passes,
    );
    let changer = passes.iter().position(|pass| pass.front().is_some());
    if let Some(changer) = changer {
        passes.swap(0, changer);
    }
    told.text(scene.alloc)
}

fn race<D: DeskName + Send + Sync, R: Threads + Wait + Sync>(
    rt: &R,
    barrier: &Barrier,
    told: &Told,
    alloc: Global,
    service: &Service,
    desk: &Desk<D, MemorySink>,
    passes: &mut [Pass<D>],
) {
    thread::for_each_mut(
        rt,
        passes,
        16,
        &|_, pass| {
            let mut gate = Meeting { rt, barrier };
            let scene = Scene {
                rt,
                alloc,
                service,
                desk,
            };
            told.note(scene.race(pass, &mut gate, told.task.as_str()));
        },
    );
}

impl<D: DeskName, R: Wait> Scene<'_, D, R> {
    /// What a worker says of its task.
    fn race<G: Gate + Observer>(
        &self,
        pass: &mut Pass<D>,
        gate: &mut G,
        task: &str,
    ) -> io::Result<String> {
        let (word, text) = first_word(task);
        match word {
            "meet" => self.ask(pass, gate, text),
            "own" => self.change_own(pass, text),
            "crowd" if pass.worker() == 0 => self.change_often(pass, text),
            "crowd" => self.look_often(pass, text),
            _ => Err(no_case()),
        }
    }

    /// What the client prints in the end whose name has the worker's number among these, from 0.
    fn change_own(&self, pass: &mut Pass<D>, names: &str) -> io::Result<String> {
        let worker = pass.worker();
        let name = names.split(' ').nth(usize::from(worker)).unwrap_or("");
        let first = format!(in self.alloc; "{name} 1 New-pass2")?;
        let said = self.ask(pass, &mut NoGate, first.as_str())?;
        let raised = self.raise(pass, 5 + u32::from(worker))?;
        if said.as_str() != CHANGED || !raised.as_str().starts_with("count ") {
            return Ok(raised);
        }
        let second = format!(in self.alloc; "{name} 2 New-pass3")?;
        self.ask(pass, &mut NoGate, second.as_str())
    }

    /// What the client prints in the end; each change is shown to its own worker at once.
    fn change_often(&self, pass: &mut Pass<D>, name: &str) -> io::Result<String> {
        for number in 0..CHANGES {
            let text = format!(in self.alloc; "{name} {number} New-pass{}", number % 4)?;
            let said = self.ask(pass, &mut NoGate, text.as_str())?;
            let shown = self.versions(pass, name)?;
            if said.as_str() != CHANGED || shown != (number + 2, number + 1) {
                return Err(no_case());
            }
        }
        Ok(String::from_str(self.alloc, CHANGED)?)
    }

    /// No lookup shows less than one before it, and each shows as many versions as changes.
    fn look_often(&self, pass: &mut Pass<D>, name: &str) -> io::Result<String> {
        let mut seen = 0;
        for _ in 0..LOOKS {
            let (kvno, changes) = self.versions(pass, name)?;
            if changes < seen || changes > CHANGES || kvno != changes + 1 {
                return Err(no_case());
            }
            seen = changes;
        }
        Ok(String::from_str(self.alloc, SEEN)?)
    }

    /// The name's newest version, and how many changes the lookup saw.
    fn versions(&self, pass: &mut Pass<D>, name: &str) -> io::Result<(u32, u32)> {
        match self.found(pass, name)? {
            Some(found) => Ok((found.kvno, found.seen)),
            None => Err(no_case()),
        }
    }
}

/// What the workers are to do, and how many of them said what.
#[derive(Drop)]
struct Told {
    task: String,
    changed: AtomicU32,
    replayed: AtomicU32,
    seen: AtomicU32,
}

impl Told {
    fn note(&self, said: io::Result<String>) {
        let Ok(said) = said else {
            return;
        };
        match said.as_str() {
            CHANGED => self.changed.fetch_add(1, Ordering::SeqCst),
            REPLAYED => self.replayed.fetch_add(1, Ordering::SeqCst),
            SEEN => self.seen.fetch_add(1, Ordering::SeqCst),
            _ => 0,
        };
    }

    fn text(&self, alloc: Global) -> io::Result<String> {
        let changed = self.changed.load(Ordering::SeqCst);
        let replayed = self.replayed.load(Ordering::SeqCst);
        let seen = self.seen.load(Ordering::SeqCst);
        Ok(format!(in alloc; "{changed} changed, {replayed} replayed, {seen} seen")?)
    }
}

/// Holds each worker before its decision until all workers of the barrier have arrived.
#[derive(Drop)]
struct Meeting<'a, R: Wait> {
    rt: &'a R,
    barrier: &'a Barrier,
}

impl<R: Wait> Gate for Meeting<'_, R> {
    ghost use Rattle.chpw_serve.specs.Hearing.{HoldsNobody};

    ghost passes = { HoldsNobody };

    fn at(&mut self, spot: Spot) {
        match spot {
            Spot::Opened => {
                self.barrier.wait(self.rt);
            }
            Spot::Answered => {}
        }
    }
}

impl<R: Wait> Observer for Meeting<'_, R> {
    ghost use Rattle.chpw_serve.specs.Hearing.{NotesNothing};

    ghost hears = { NotesNothing };

    fn decided(&mut self, _peer: IpAddr, _now: Moment, _receipt: &Receipt, _kvno: Option<u32>) {}

    fn refused(
        &mut self,
        _peer: IpAddr,
        _now: Moment,
        _opened: Option<&Opened>,
        _refusal: &Refusal,
    ) {}
}
