//! Layer: tests. Touches: standard input and output. Called by: nobody, it is run.
//!
//! Answers cases of the Kerberos crates: keys, keytabs, DER, messages.
//!
//! A line on standard input that is a topic's name in brackets begins the topic, and the lines below it are cases of it;
//! README.md lists their kinds. A case that can't be answered prints `refused: ` and the reason.
#![tactic(auto)]

mod der;
mod keys;
mod keytab;
mod messages;
mod refusal;
mod words;

use crate::refusal::Refusal;
use std::alloc::Global;
use std::io::{self, ErrorKind};
use support_cases::{Topics, no_topic, print_topics};

#[derive(Drop)]
struct Cases;

impl Topics for Cases {
    /// Want of memory ends the program.
    fn answer(&mut self, alloc: Global, topic: &str, case: &str) -> io::Result<String> {
        let answer = match topic {
            "keys" => keys::answer(alloc, case),
            "keytab" => keytab::answer(alloc, case),
            "der" => der::answer(alloc, case),
            "messages" => messages::answer(alloc, case),
            _ => return no_topic(alloc),
        };
        match answer {
            Ok(text) => Ok(text),
            Err(Refusal::Memory) => Err(io::Error::from(ErrorKind::OutOfMemory)),
            Err(refusal) => Ok(format!(in alloc; "refused: {refusal}")?),
        }
    }
}

fn main(rt: HostRuntime) -> io::Result<()> {
    print_topics(&rt, &mut Cases)
}
