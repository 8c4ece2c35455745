//! Layer: tests. Touches: standard input and output. Called by: nobody, it is run.
//!
//! Answers cases of what meets the network, without a socket, and of the log.
//!
//! A line on standard input that is a topic's name in brackets begins the topic, and the lines below it are cases of it;
//! README.md lists their kinds.
#![tactic(auto)]

mod connections;
mod control;
mod frame;
mod log;
mod words;

use crate::connections::script::Script;
use std::alloc::Global;
use std::io;
use support_cases::{Topics, no_topic, print_topics};

#[derive(Drop)]
struct Cases {
    /// What the lines of connections are about, once one of them has started it.
    script: Option<Script>,
}

impl Topics for Cases {
    fn answer(&mut self, alloc: Global, topic: &str, case: &str) -> io::Result<String> {
        let answer = match topic {
            "frame" => frame::answer(alloc, case),
            "connections" => connections::answer(alloc, &mut self.script, case),
            "control" => control::answer(alloc, case),
            "log" => log::answer(alloc, case),
            _ => return no_topic(alloc),
        };
        Ok(answer?)
    }
}

fn main(rt: HostRuntime) -> io::Result<()> {
    print_topics(&rt, &mut Cases { script: None })
}
