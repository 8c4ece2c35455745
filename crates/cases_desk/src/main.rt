//! Layer: tests. Touches: standard input and output, threads, sockets. Called by: nobody, it is run.
//!
//! Answers cases of workers at one desk, and of what the KDC says of principals meanwhile. They stand on standard input in
//! blocks, each below a line that begins with `== `; desk.rt lists their kinds.
#![tactic(auto)]

mod desk;
mod machine;

use desk::answer;
use std::io;
use std::net::{Net, TcpListener, TcpStream};
use std::sync::Wait;
use std::thread::Threads;
use std::time::Clock;

fn main(rt: HostRuntime) -> io::Result<()> {
    print_blocks(&rt)
}

/// Copies what stands before the first block, and then each block's first line, with the block's answer below it.
//
// The bounds of `Machine` are written out, since a caller of one type has to name what they speak of.
fn print_blocks<R>(rt: &R) -> io::Result<()>
where
    R: Threads
        + Wait
        + Clock
        + Sync
        + Net<Listener = TcpListener, Stream = TcpStream>
        + Input
        + Print
        + AllocGlobal,
{
    let alloc = rt.alloc();
    let text = io::read_to_string(alloc, rt.reader())?;
    let mut blocks = text.as_str().split("\n== ");
    let head = blocks.next().unwrap_or("");
    println!(rt; "{head}")?;
    for block in blocks {
        let (title, body) = block.split_once('\n').unwrap_or((block, ""));
        let said = answer(rt, alloc, title, body)?;
        print!(rt; "== {title}\n{said}")?;
    }
    Ok(())
}
