//! What the cases need of the machine.

use std::net::{Net, TcpListener, TcpStream};
use std::sync::Wait;
use std::thread::Threads;
use std::time::Clock;

/// What a desk, a pool and its clients need of the machine.
pub trait Machine: Threads
    + Wait
    + Clock
    + Sync
    + Net<Listener = TcpListener, Stream = TcpStream> {}

impl<R: Threads + Wait + Clock + Sync + Net<Listener = TcpListener, Stream = TcpStream>> Machine
    for R {}
