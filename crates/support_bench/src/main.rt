//! Layer: tests. Touches: threads and the clock. Called by: nobody, it is run.
//!
//! Does one thing many times, to be measured from outside (the scripts of `bench/`).
//!
//! The first word of the command line names a part of the program, the next what it does, the third how often: `keys`,
//! `der`, `open`, `stream` and `lookup`. Each is a module, which says more. Without words each is run once, or a few times.
#![tactic(auto)]

ghost use Rattle.std.specs.Prelude.{◌≤◌};

mod der;
mod keys;
mod lookup;
mod open;
mod reading;
mod stream;

use reading::{Given, read_given};
use std::env;
use std::io::{self, BufReader};
use std::rt::Env;
use std::sync::Wait;
use std::thread::Threads;
use std::time::Clock;

/// The error for words or an input that this program doesn't know.
fn no_such() -> io::Error {
    io::Error::from(io::ErrorKind::InvalidInput)
}

/// What is asked for on the command line.
#[derive(Drop)]
struct Task {
    part: String,
    what: String,
    count: u32,
}

fn task_of<R: Env + AllocGlobal>(rt: &R) -> io::Result<Option<Task>> {
    let mut words = env::args(rt)?.skip(1);
    let (Some(part), Some(what)) = (words.next(), words.next()) else {
        return Ok(None);
    };
    Ok(Some(Task {
        part,
        what,
        count: number_of(words.next()),
    }))
}

// The number that a word spells, 1 if it spells none or there is none.
fn number_of(word: Option<String>) -> u32 {
    match word {
        Some(word) => word.as_str().parse().unwrap_or(1),
        None => 1,
    }
}

// Each part, as the gate does.
fn once<R>(rt: &R) -> io::Result<()>
where
    R: Input + Threads + Wait + Clock + Print + AllocGlobal + Sync,
{
    let given = read_stdin(rt, 5)?;
    once_of(rt, &given)
}

fn once_of<R>(rt: &R, given: &Given) -> io::Result<()>
where
    R: Threads + Wait + Clock + Print + AllocGlobal + Sync,
{
    keys::measure(rt, "both", 1)?;
    der::measure(rt, "read", 1)?;
    open::measure(rt, &given.messages, 1)?;
    let others = given.messages.get(2..).unwrap_or(&[]);
    stream::measure(rt, "serve", given.config.as_str(), others)?;
    lookup::measure(rt, "count", 16)
}

fn read_stdin<R: Input + AllocGlobal>(rt: &R, count: u32) -> io::Result<Given> {
    let alloc = rt.alloc();
    read_given(alloc, BufReader::new(alloc, rt.reader())?, count as usize)
}

fn main(rt: HostRuntime) -> io::Result<()> {
    match task_of(&rt)? {
        Some(task) => measure(&rt, &task),
        None => once(&rt),
    }
}

fn measure<R>(rt: &R, task: &Task) -> io::Result<()>
where
    R: Input + Threads + Wait + Clock + Print + AllocGlobal + Sync,
{
    let (what, count) = (task.what.as_str(), task.count);
    match task.part.as_str() {
        "keys" => keys::measure(rt, what, count.max(1)),
        "der" => der::measure(rt, what, count),
        "open" => measure_open(rt, count),
        "stream" => measure_stream(rt, what, count),
        "lookup" => measure_lookup(rt, what, count),
        _ => Err(no_such()),
    }
}

fn measure_lookup<R>(rt: &R, what: &str, count: u32) -> io::Result<()>
where
    R: Threads + Wait + Clock + Print + AllocGlobal + Sync,
{
    match u16::try_from(count) {
        Ok(principals) => lookup::measure(rt, what, principals),
        Err(_) => Err(no_such()),
    }
}

fn measure_open<R: Input + Print + AllocGlobal>(rt: &R, count: u32) -> io::Result<()> {
    let given = read_stdin(rt, 2)?;
    open::measure(rt, &given.messages, count)
}

fn measure_stream<R: Input + Print + AllocGlobal>(
    rt: &R,
    what: &str,
    count: u32,
) -> io::Result<()> {
    let given = read_stdin(rt, count)?;
    stream::measure(rt, what, given.config.as_str(), &given.messages)
}
