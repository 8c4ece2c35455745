//! Deciders, asked by the answer to a message.

use crate::stream::messages::{Message, show_reply};
use crate::stream::setting::Setting;
use crate::stream::watched::{Mood, Watched};
use chpw_endpoints::Endpoints;
use chpw_messages::Service;
use chpw_serve::{NoGate, answer};
use std::alloc::{AllocError, Global};
use std::io;
use support_cases::text_of;
use support_realm::{Counting, Standing, World};

/// The replies to these messages, and how the decider was asked, or, where it `looks`, the names that were looked up.
pub fn answers_text(
    alloc: Global,
    setting: &Setting,
    who: &str,
    messages: &[&Message],
    looks: bool,
) -> io::Result<String> {
    let World { service, alone } = setting.start(alloc)?;
    let mut decider = Watched::of(alloc, alone, Mood::of(who));
    let text = asked_text(alloc, &service, &mut decider, messages, looks);
    drop((service, decider));
    text
}

fn asked_text(
    alloc: Global,
    service: &Service,
    decider: &mut Watched,
    messages: &[&Message],
    looks: bool,
) -> io::Result<String> {
    let mut text = String::new(alloc);
    let mut words = Counting::new();
    for message in messages {
        show_answer(alloc, &mut text, service, decider, message, words.nine())?;
    }
    show_asked(&mut text, decider, looks)?;
    Ok(text)
}

/// Adds a decider's reply to a message.
fn show_answer(
    alloc: Global,
    text: &mut String,
    service: &Service,
    decider: &mut Watched,
    message: &Message,
    words: [u32; 9],
) -> io::Result<()> {
    let (ends, now) = (Endpoints::LOOPBACK, Standing::at(1_000_100).moment());
    let bytes = &message.bytes;
    let reply = answer(
        alloc,
        service,
        ends,
        bytes,
        decider,
        &mut NoGate,
        words,
        now,
    )?;
    show_reply(alloc, text, message, &reply)
}

/// Adds the names that were looked up, or the counts that the decider was asked with, and how often it was asked.
fn show_asked(text: &mut String, decider: &Watched, looks: bool) -> Result<(), AllocError> {
    let (decides, derivings) = (decider.decides, decider.derivings);
    if looks {
        let names = text_of(&decider.names);
        return write!(text, "looked up{names}, decide {decides}");
    }
    write!(text, "decide {decides}, the last with counts")?;
    for count in decider.counts.as_slice() {
        write!(text, " {count}")?;
    }
    write!(text, ", decide_deriving {derivings}")
}
