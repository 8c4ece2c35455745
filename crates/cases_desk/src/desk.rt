//! Workers at one desk, and what the KDC says of principals meanwhile.
//!
//! A block has its kind and a title, and below them `WORKERS ENTRIES: NAME ..` or `WORKERS ENTRIES APPEND KEPT: NAME ..`: the
//! workers, how many entries the history may have, the append that the journal fails at and what it keeps of it, and the
//! principals. At its close `desk` shows history and journal, `race` the journal, `crowd` numbers alone; `left` is abandoned.
//! `alone` has updates of a table that one thread owns. The lines of the others, W being a worker:
//!
//! - `W ask NAME MICROS PASSWORD`: what the client prints for the worker's answer.
//! - `W look NAME`: what a lookup shows.
//! - `W raise COUNT`
//! - `W adopt NAME KVNO`, `W adopt NAME KVNO KEYS`, `W lift NAME KVNO`, `W remove NAME`: what the KDC says.
//! - `W pass`: its receipts, how many changes its front has, the version that it made, whether the history was full.
//! - `W held NAME PASSWORD`: the versions of the newest key, and of this password's.
//! - `W lacks NAME LENGTH TARGET STARTS ENDS`: whether that request is refused anyway, and which keys it lacks.
//! - `learn W`: from the first worker.
//! - `overtaken RAISES NAME MICROS PASSWORD`: the first worker answers, and the second raises the count meanwhile.
//! - `together meet NAME MICROS PASSWORD`, `together own NAME ..`, `together crowd NAME`: all workers, each in a thread.
//! - `pool NAME PASSWORD, NAME PASSWORD`: a pool of all workers, over sockets: how many connections it served, and changes it made.

mod alone;
mod asking;
mod closing;
mod lacking;
mod opening;
mod overtaken;
mod pool;
mod racing;
mod running;
mod scene;
mod several;
mod updates;
mod words;

use crate::desk::alone::alone_text;
use crate::desk::opening::Opening;
use crate::desk::running::{Block, End, run};
use crate::desk::words::first_word;
use crate::machine::Machine;
use std::alloc::Global;
use std::io;
use support_cases::no_case;

/// The answer to a block with this title, whose first word is the kind.
pub fn answer<R: Machine>(rt: &R, alloc: Global, title: &str, body: &str) -> io::Result<String> {
    let (kind, _) = first_word(title);
    let (first, lines) = body.split_once('\n').unwrap_or((body, ""));
    let opening = Opening::of(first);
    match End::of(kind) {
        Some(end) => run(
            rt,
            alloc,
            Block {
                opening,
                lines,
                end,
            },
        ),
        None if kind == "alone" => alone_text(alloc, opening, lines),
        None => Err(no_case()),
    }
}
