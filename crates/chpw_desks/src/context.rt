//! What a service's desks are served with.
ghost use Rattle.std.specs.Prelude.{◌≡◌, ◌≤◌};
ghost use Rattle.chpw_reactor.specs.Engines.{workers_at};

use crate::journals::JournalLength;
use chpw_invocation::ServeOptions;
use chpw_logging::{Counters, Log};
use chpw_reactor::Engine;
use std::sync::{Mutex, Wait};

/// What all desks are served with.
#[derive(Drop)]
pub struct ServiceContext<'l, R: Wait + Eprint> {
    /// The machine that the service runs on, whose clock gives its moments.
    pub rt: &'l R,
    pub engine: Engine,
    pub workers: u8,
    pub log: &'l Log<'l, R>,
    pub counters: &'l Mutex<Counters>,
    /// How long the journal is.
    pub journal: JournalLength,
    pub kdc: KdcPlace<'l>,
    pub options: &'l ServeOptions<'l>,
    ghost some_workers: { (1 ≤ workers) × (workers ≤ 16) },
    ghost queues: { workers_at engine ≡ workers },
}

/// Where the agent at the KDC's database is, and how long replies wait for it.
#[derive(Clone, Copy, Drop)]
pub struct KdcPlace<'l> {
    /// Its socket; none without a KDC.
    pub socket: Option<&'l str>,
    /// In milliseconds.
    pub wait: u32,
}
