//! `stream serve N` serves the first N messages of standard input in memory, at the second 1,000,100, by a table that
//! one thread owns; `stream read N` reads them and no more. The bytes read and written are printed, and the count of
//! changes.

use crate::no_such;
use chpw_decider::Decider;
use chpw_endpoints::Endpoints;
use chpw_frame::{LONGEST_MESSAGE, write_tcp};
use chpw_serve::serve_alone;
use std::alloc::Global;
use std::io;
use support_realm::{Counting, Standing, World};

// Each message after its length.
fn stream_of(alloc: Global, messages: &[Vec<u8>]) -> io::Result<Vec<u8>> {
    let mut stream = Vec::new(alloc);
    for message in messages {
        if message.len() > LONGEST_MESSAGE || write_tcp(&mut stream, message).is_err() {
            return Err(no_such());
        }
    }
    Ok(stream)
}

// Serves the stream; the bytes written.
fn serve(alloc: Global, world: &mut World, stream: &[u8]) -> usize {
    let mut reader = stream;
    let mut written = Vec::new(alloc);
    serve_alone(
        alloc,
        &world.service,
        Endpoints::LOOPBACK,
        &mut reader,
        &mut written,
        &mut world.alone,
        &mut Standing::at(1_000_100),
        &mut Counting::new(),
    );
    written.len()
}

// How many passwords were changed.
fn changes(world: &World) -> usize {
    let receipts = world.alone.receipts().iter();
    receipts.filter(|r| r.entry.event.is_accepted()).count()
}

/// Reads them, and serves them where that is asked for.
pub fn measure(
    rt: &(impl Print + AllocGlobal),
    what: &str,
    config: &str,
    messages: &[Vec<u8>],
) -> io::Result<()> {
    let stream = stream_of(rt.alloc(), messages)?;
    let mut world = World::start(rt.alloc(), config, -1)?;
    let measured = measure_of(rt, what, &mut world, &stream);
    drop(world);
    measured
}

fn measure_of(
    rt: &(impl Print + AllocGlobal),
    what: &str,
    world: &mut World,
    stream: &[u8],
) -> io::Result<()> {
    let written = match what {
        "serve" => serve(rt.alloc(), world, stream),
        _ => 0,
    };
    let (read, changes) = (stream.len(), changes(world));
    println!(rt; "{read} bytes read, {written} written, {changes} changes")
}
