//! Standard input: the lines of a configuration, with `| ` before each, and messages in hexadecimal, a
//! line each.

use crate::no_such;
use hex::decode;
use std::alloc::Global;
use std::io::{self, BufRead};

/// A configuration, and messages.
#[derive(Drop)]
pub struct Given {
    pub config: String,
    pub messages: Vec<Vec<u8>>,
}

/// The first `count` messages, or fewer.
pub fn read_given<R: BufRead + Drop>(alloc: Global, reader: R, count: usize) -> io::Result<Given> {
    let mut given = Given {
        config: String::new(alloc),
        messages: Vec::new(alloc),
    };
    for line in reader.lines(alloc) {
        let line = line?;
        take(alloc, &mut given, line.as_str(), count)?;
    }
    Ok(given)
}

fn take(alloc: Global, given: &mut Given, line: &str, count: usize) -> io::Result<()> {
    match line.strip_prefix("| ") {
        Some(text) => {
            given.config.push_str(text)?;
            given.config.push_str("\n")?;
        }
        None if given.messages.len() < count => {
            let message = decode(alloc, line).map_err(|_| no_such())?;
            given.messages.push(message)?;
        }
        None => {}
    }
    Ok(())
}
