//! What a desk opens with.
ghost use Rattle.std.specs.Prelude.{◌≡◌, true, IfOk};
ghost use Rattle.chpw_rules.specs.Fitting.{config_fits};

use crate::desk::words::number;
use chpw_rules::Config;
use chpw_table::Table;
use std::alloc::Global;
use std::io;
use support_realm::{config, name};

/// The first line of a block: `WORKERS ENTRIES: NAME ..`, or `WORKERS ENTRIES APPEND KEPT: NAME ..`.
#[derive(Clone, Copy, Drop)]
pub struct Opening<'a> {
    pub workers: u32,
    /// How many entries the history may have.
    pub entries: u32,
    /// The append that the journal fails at, counted from 1; none if it is 0.
    pub append: u32,
    /// How many bytes of that append it keeps.
    pub kept: u32,
    /// The principals.
    pub names: &'a str,
}

impl<'a> Opening<'a> {
    pub fn of(line: &'a str) -> Opening<'a> {
        let (numbers, names) = line.split_once(": ").unwrap_or((line, ""));
        let mut numbers = numbers.split(' ');
        Opening {
            workers: number(numbers.next()),
            entries: number(numbers.next()),
            append: number(numbers.next()),
            kept: number(numbers.next()),
            names,
        }
    }

    /// The configuration: each principal has a key of version 1 under 4 iterations.
    pub fn config(&self, alloc: Global) -> io::Result<Config>
        ensures fits { IfOk result (λ config. config_fits config ≡ true) }
    {
        let mut names = Vec::new(alloc);
        for text in self.names.split(' ') {
            names.push(name(alloc, text)?)?;
        }
        config(alloc, names, 4, self.entries)
    }

    /// The table before the first event.
    pub fn table(&self, alloc: Global) -> io::Result<Table> {
        Ok(Table::start(alloc, self.config(alloc)?, -1)?)
    }
}
