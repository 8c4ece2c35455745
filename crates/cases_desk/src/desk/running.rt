//! A desk, from its start to its close.
ghost use Rattle.std.specs.Prelude.{◌≡◌, []};
ghost use Rattle.chpw_book.specs.Starting.{IsNamed};

use crate::desk::closing::{closed_text, finish};
use crate::desk::opening::Opening;
use crate::desk::scene::Scene;
use crate::desk::several::answers_text;
use crate::machine::Machine;
use chpw_book::{Desk, DeskName, Pass, UnnamedDesk};
use chpw_journal::MemorySink;
use chpw_messages::Service;
use std::alloc::Global;
use std::io::{self, Error, ErrorKind};
use std::marker::Brand;
use std::sync::Wait;
use support_cases::no_case;

/// How many bytes the journal has room for.
pub const ROOM: usize = 4000;

/// How a desk ends.
#[derive(Clone, Copy, Drop)]
pub enum End {
    /// Closed, with its history and journal.
    History,
    /// Closed, with its journal; the history's order differs from run to run.
    Journal,
    /// Closed; its journal differs from run to run.
    Counts,
    /// Abandoned.
    Abandoned,
}

impl End {
    /// That of a block of this kind.
    pub fn of(kind: &str) -> Option<End> {
        match kind {
            "desk" => Some(End::History),
            "race" => Some(End::Journal),
            "crowd" => Some(End::Counts),
            "left" => Some(End::Abandoned),
            _ => None,
        }
    }
}

/// A block: what its desk opens with, what is done at it, and how it ends.
#[derive(Clone, Copy, Drop)]
pub struct Block<'a> {
    pub opening: Opening<'a>,
    pub lines: &'a str,
    pub end: End,
}

/// The answer to each line of a block, in which workers decide at a desk, and what the desk leaves.
pub fn run<R: Machine>(rt: &R, alloc: Global, block: Block<'_>) -> io::Result<String> {
    let workers = match u8::try_from(block.opening.workers) {
        Ok(workers) if 1 <= workers && workers <= 16 => workers,
        _ => return Err(no_case()),
    };
    let service = service_of(alloc, block.opening)?;
    let unnamed = UnnamedDesk::of(block.opening.table(alloc)?, workers);
    run_at::<Brand, R>(rt, alloc, unnamed, &service, block)
}

fn service_of(alloc: Global, opening: Opening<'_>) -> io::Result<Service> {
    let config = opening.config(alloc)?;
    Ok(Service::of(alloc, &config)?)
}

fn run_at<D: DeskName + Send + Sync, R: Machine>(
    rt: &R,
    alloc: Global,
    unnamed: UnnamedDesk,
    service: &Service,
    block: Block<'_>,
) -> io::Result<String>
    requires name { IsNamed unnamed D.name D.parts D.book D.root D.workers }
    requires prior { D.prior ≡ [] }
{
    let mut sink = MemorySink::new(alloc, ROOM)?;
    sink.fail_at(block.opening.append, block.opening.kept as usize);
    let Ok((desk, mut passes)) = Desk::<D, MemorySink>::start(rt, alloc, unnamed, sink) else {
        return Err(Error::from(ErrorKind::OutOfMemory));
    };
    let scene = Scene {
        rt,
        alloc,
        service,
        desk: &desk,
    };
    let said = answers_text(&scene, &mut passes, block.lines);
    end_with(rt, alloc, desk, passes, block, said)
}

/// What was said, and after it what the desk leaves.
fn end_with<D: DeskName, R: Wait>(
    rt: &R,
    alloc: Global,
    desk: Desk<D, MemorySink>,
    passes: Vec<Pass<D>>,
    block: Block<'_>,
    said: io::Result<String>,
) -> io::Result<String> {
    if said.is_err() || matches!(block.end, End::Abandoned) {
        desk.abandon(rt);
        return said;
    }
    let closed = finish(rt, desk, passes)?;
    closed_text(alloc, said?, &closed, block)
}
