//! The machine that a service runs on.

use std::fs::{File, Files};
use std::net::{Net, TcpListener, TcpStream};
use std::rt::Env;
use std::sync::Wait;
use std::thread::Threads;
use std::time::Clock;

/// What a service may touch: files, sockets, threads and the locks that they share, the clock, the environment, both
/// outputs, and memory. A function that needs less asks for less.
pub trait Machine: Files<File = File>
    + Net<Listener = TcpListener, Stream = TcpStream>
    + Threads
    + Wait
    + Clock
    + Env
    + Print
    + Eprint
    + AllocGlobal
    + Sync {}

impl<
    R: Files<File = File>
        + Net<Listener = TcpListener, Stream = TcpStream>
        + Threads
        + Wait
        + Clock
        + Env
        + Print
        + Eprint
        + AllocGlobal
        + Sync,
> Machine for R {}
