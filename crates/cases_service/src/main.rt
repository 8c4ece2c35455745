//! Layer: tests. Touches: standard input and output. Called by: nobody, it is run.
//!
//! Answers cases of the service on one stream, and of the program's commands and command line.
//!
//! A line on standard input that is a topic's name in brackets begins the topic, and the lines below it are cases of it;
//! README.md lists their kinds.
#![tactic(auto)]

mod commands;
mod invocation;
mod stream;
mod words;

use std::alloc::Global;
use std::io;
use support_cases::{Topics, no_topic, print_topics};

/// What the lines before have set.
#[derive(Drop)]
struct Cases {
    stream: stream::Cases,
}

impl Topics for Cases {
    fn answer(&mut self, alloc: Global, topic: &str, case: &str) -> io::Result<String> {
        match topic {
            "stream" => self.stream.answer(alloc, case),
            "commands" => commands::answer(alloc, case),
            "invocation" => invocation::answer(alloc, case),
            _ => no_topic(alloc),
        }
    }
}

fn main(rt: HostRuntime) -> io::Result<()> {
    let alloc = rt.alloc();
    let mut cases = Cases {
        stream: stream::Cases::new(alloc),
    };
    let printed = print_topics(&rt, &mut cases);
    drop(cases);
    printed
}
