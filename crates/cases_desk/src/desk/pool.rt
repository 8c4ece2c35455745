//! A pool of two workers or more at a desk, and two clients, each over a connection of its own.

use crate::desk::asking::request_at;
use crate::desk::scene::Scene;
use crate::desk::words::first_word;
use crate::machine::Machine;
use chpw_book::{Desk, DeskName, Pass};
use chpw_client::{SentRequest, client_line};
use chpw_journal::MemorySink;
use chpw_messages::Service;
use chpw_pool::{machine_moment, run_pool};
use chpw_table::Moment;
use std::alloc::Global;
use std::io::{self, Read, Write};
use std::net::{Shutdown, TcpListener, TcpStream};
use std::thread::join;
use std::time::Duration;
use support_cases::no_case;

/// How many connections the pool serves.
const CONNECTIONS: u32 = 2;

/// How long a client waits for its reply, in seconds.
const PATIENCE: u64 = 10;

/// What a client prints for a change.
const CHANGED: &str = "code 0 password changed";

/// Where the pool listens, and what the clients ask.
#[derive(Clone, Copy, Drop)]
struct Site<'a> {
    port: u16,
    first: &'a SentRequest,
    second: &'a SentRequest,
}

/// `NAME PASSWORD, NAME PASSWORD`: how many connections a pool served without a fault, and how many of the clients that ask for
/// these changes, one after the other, were told that theirs is made.
pub fn pool<D: DeskName + Send + Sync, R: Machine>(
    scene: &Scene<'_, D, R>,
    passes: &mut Vec<Pass<D>>,
    text: &str,
) -> io::Result<String> {
    let (Some((first, second)), Some(now)) = (text.split_once(", "), machine_moment(scene.rt))
    else {
        return Err(no_case());
    };
    let (first, second) = (
        sent(scene.alloc, now, first)?,
        sent(scene.alloc, now, second)?,
    );
    let listener = TcpListener::bind(scene.rt, ("127.0.0.1", 0u16))?;
    let site = Site {
        port: listener.local_addr()?.port(),
        first: &first,
        second: &second,
    };
    let (served, changed) = at_once(
        scene.rt,
        scene.alloc,
        &listener,
        scene.service,
        scene.desk,
        passes,
        site,
    );
    Ok(format!(in scene.alloc; "served {served}, changed {changed}")?)
}

fn sent(alloc: Global, now: Moment, text: &str) -> io::Result<SentRequest> {
    let (client, password) = first_word(text);
    request_at(alloc, now, client, password)
}

/// The pool together with its clients.
fn at_once<D: DeskName + Send + Sync, R: Machine>(
    rt: &R,
    alloc: Global,
    listener: &TcpListener,
    service: &Service,
    desk: &Desk<D, MemorySink>,
    passes: &mut Vec<Pass<D>>,
    site: Site<'_>,
) -> (u64, u32) {
    let (served, changed) = join(
        rt,
        || served(rt, alloc, listener, service, desk, passes),
        || changed(rt, alloc, site),
    );
    (served, changed)
}

/// How many connections the pool served; none after a fault.
fn served<D: DeskName + Send + Sync, R: Machine>(
    rt: &R,
    alloc: Global,
    listener: &TcpListener,
    service: &Service,
    desk: &Desk<D, MemorySink>,
    passes: &mut [Pass<D>],
) -> u64 {
    if passes.is_empty() {
        return 0;
    }
    let pool = run_pool(
        rt,
        alloc,
        listener,
        service,
        desk,
        passes,
        [7; 32],
        CONNECTIONS,
    );
    match pool.fault {
        None => pool.served,
        Some(_) => 0,
    }
}

/// How many clients are told that their change is made.
fn changed<R: Machine>(rt: &R, alloc: Global, site: Site<'_>) -> u32 {
    let first = is_changed(rt, alloc, site.port, site.first);
    let second = is_changed(rt, alloc, site.port, site.second);
    u32::from(first) + u32::from(second)
}

fn is_changed<R: Machine>(rt: &R, alloc: Global, port: u16, sent: &SentRequest) -> bool {
    match reply(rt, alloc, port, sent.message.as_slice()) {
        Ok(reply) => match client_line(alloc, sent, reply.get(4..).unwrap_or(&[])) {
            Ok(Some((line, _))) => line.as_slice() == CHANGED.as_bytes(),
            _ => false,
        },
        Err(_) => false,
    }
}

/// What is written for a message, up to the end of the stream.
fn reply<R: Machine>(rt: &R, alloc: Global, port: u16, message: &[u8]) -> io::Result<Vec<u8>> {
    let stream = TcpStream::connect(rt, ("127.0.0.1", port))?;
    stream.set_read_timeout(Some(Duration::from_secs(PATIENCE)))?;
    let length = u32::try_from(message.len()).unwrap_or(0);
    let mut writer = &stream;
    writer.write_all(&length.to_be_bytes())?;
    writer.write_all(message)?;
    stream.shutdown(Shutdown::Write)?;
    let mut reply = Vec::new(alloc);
    let mut reader = &stream;
    reader.read_to_end(&mut reply)?;
    Ok(reply)
}
