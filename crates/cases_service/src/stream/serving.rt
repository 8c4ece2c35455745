//! Serving streams.

use crate::stream::messages::{Message, shown_replies};
use crate::stream::setting::Setting;
use chpw_decider::Decider;
use chpw_endpoints::Endpoints;
use chpw_serve::{Ended, serve_alone};
use hex::encode;
use std::alloc::Global;
use std::io;
use support_realm::{Counting, Standing, World, newest_kvno};
use support_streams::{Course, Giver, Way};

/// How a stream is served: at which second, and how its reader behaves.
#[derive(Clone, Copy, Drop)]
pub struct How {
    clock: Standing,
    reader: Way,
}

impl How {
    /// `at N`, and how the reader behaves.
    pub fn of(text: &str) -> How {
        let mut second = 0;
        for word in text.split(',') {
            if let Some(("at", number)) = word.trim().split_once(' ') {
                second = number.parse().unwrap_or(0);
            }
        }
        How {
            clock: Standing::at(second),
            reader: Way::of(text),
        }
    }
}

/// The result of a stream.
#[derive(Drop)]
struct Outcome {
    written: Vec<u8>,
    /// How it ended, how many events the table then has, and the kvno of alice and of bob in it.
    end: String,
}

/// What the replies to a stream say, each to one of these messages, and its end.
pub fn served_text(
    alloc: Global,
    setting: &Setting,
    how: &How,
    messages: &[&Message],
    stream: &[u8],
) -> io::Result<String> {
    let outcome = serve(alloc, setting, how, stream)?;
    let mut shown = shown_replies(alloc, messages, &outcome.written)?;
    shown.push_str(outcome.end.as_str())?;
    Ok(shown)
}

/// What is written to a stream, and its end.
pub fn written_text(
    alloc: Global,
    setting: &Setting,
    how: &How,
    stream: &[u8],
) -> io::Result<String> {
    let Outcome { written, end } = serve(alloc, setting, how, stream)?;
    let written = encode(alloc, &written)?;
    Ok(format!(in alloc; "[{written}] {end}")?)
}

/// Serves a stream in a world of its own.
fn serve(alloc: Global, setting: &Setting, how: &How, stream: &[u8]) -> io::Result<Outcome> {
    let mut world = setting.start(alloc)?;
    let outcome = serve_in(alloc, &mut world, how, stream);
    drop(world);
    outcome
}

/// Serves a stream in this world.
fn serve_in(alloc: Global, world: &mut World, how: &How, stream: &[u8]) -> io::Result<Outcome> {
    let World { service, alone } = world;
    let mut reader = Giver {
        left: stream,
        course: Course::start(how.reader),
    };
    let mut clock = how.clock;
    let mut written = Vec::new(alloc);
    let ended = serve_alone(
        alloc,
        service,
        Endpoints::LOOPBACK,
        &mut reader,
        &mut written,
        alone,
        &mut clock,
        &mut Counting::new(),
    );
    let (ended, events) = (ended_text(ended), alone.receipts().len());
    let alice = newest_kvno(alloc, alone.table(), "alice")?;
    let bob = newest_kvno(alloc, alone.table(), "bob")?;
    let end = format!(in alloc; "{ended}, {events} events, alice {alice}, bob {bob}")?;
    Ok(Outcome { written, end })
}

/// How a stream ended.
fn ended_text(ended: Ended) -> &'static str {
    match ended {
        Ended::Input => "input ended",
        Ended::CutOff => "cut off",
        Ended::TooLong => "too long",
        Ended::ReadFault => "read fault",
        Ended::WriteFault => "write fault",
        Ended::Count => "count",
        Ended::Memory => "memory",
    }
}
