//! Layer: tests. Touches: standard input and output. Called by: nobody, it is run.
//!
//! Answers cases of what a service holds: journals and reloads.
//!
//! A line on standard input that is a topic's name in brackets begins the topic, and the lines below it are cases of it;
//! README.md lists their kinds.
#![tactic(auto)]

mod journal;
mod pieces;
mod reload;
mod telling;

use crate::journal::show_journal_case;
use crate::reload::show_reload;
use std::alloc::Global;
use std::fs::{File, Files};
use std::io;
use support_cases::{Topics, no_topic, print_topics, text_of};

#[derive(Drop)]
struct Cases<'a, R: Files<File = File>> {
    rt: &'a R,
}

impl<R: Files<File = File>> Topics for Cases<'_, R> {
    fn answer(&mut self, alloc: Global, topic: &str, case: &str) -> io::Result<String> {
        let mut text = Vec::new(alloc);
        match topic {
            "journal" => show_journal_case(self.rt, alloc, &mut text, case)?,
            "reload" => show_reload(alloc, &mut text, case)?,
            _ => return no_topic(alloc),
        }
        Ok(String::from_str(alloc, text_of(&text))?)
    }
}

fn main(rt: HostRuntime) -> io::Result<()> {
    print_topics(&rt, &mut Cases { rt: &rt })
}
