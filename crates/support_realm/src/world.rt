//! The service and its table, started from a configuration.

use chpw_config::read_config;
use chpw_decider::Alone;
use chpw_journal::MemorySink;
use chpw_messages::Service;
use chpw_rules::Name;
use chpw_table::Table;
use std::alloc::{AllocError, Global};
use std::io::{self, Error, ErrorKind};

/// The most bytes of a world's journal.
const JOURNAL: usize = 10_000_000;

/// The service and its table, whose journal is in memory.
///
/// A world is freed by `drop`, which takes the prover one step in place of one for each part of a table.
#[derive(Drop)]
pub struct World {
    pub service: Service,
    pub alone: Alone<MemorySink>,
}

impl World {
    /// A configuration's service, which refuses requests up to this second, and its table with no event yet.
    pub fn start(alloc: Global, config: &str, quiet_until: i64) -> io::Result<World> {
        let Ok(config) = read_config(alloc, config) else {
            return Err(Error::from(ErrorKind::InvalidInput));
        };
        let sink = MemorySink::new(alloc, JOURNAL)?;
        let service = Service::of(alloc, &config)?;
        let table = Table::start(alloc, config, quiet_until)?;
        Ok(World {
            service,
            alone: Alone::new(alloc, table, sink),
        })
    }
}

/// The newest kvno of a name in a table, 0 if it is no principal's.
pub fn newest_kvno(alloc: Global, table: &Table, name: &str) -> Result<u32, AllocError> {
    let Some(name) = Name::parse(alloc, name)? else {
        return Ok(0);
    };
    match table.lookup(&name) {
        Some(shown) => Ok(shown.kvno),
        None => Ok(0),
    }
}
