//! Messages changed at each place, each served in a world of its own.

use crate::stream::messages::Message;
use crate::stream::serving::{How, served_text};
use crate::stream::setting::Setting;
use crate::words::put_framed;
use std::alloc::Global;
use std::io;
use support_cases::{Census, Change, no_case};

/// The results of a message with this change at each of its places.
pub fn varied_message(
    alloc: Global,
    setting: &Setting,
    change: Change,
    how: &How,
    messages: &[&Message],
) -> io::Result<String> {
    let [message] = messages else {
        return Err(no_case());
    };
    let mut census = Census::new(alloc);
    for place in 0..message.bytes.len() {
        let answer = result_at(alloc, setting, change, how, message, place)?;
        census.add(alloc, place, answer.as_str())?;
    }
    Ok(census.text(alloc)?)
}

/// The result of a message with this change at a place.
fn result_at(
    alloc: Global,
    setting: &Setting,
    change: Change,
    how: &How,
    message: &Message,
    place: usize,
) -> io::Result<String> {
    let Some(bytes) = change.apply(alloc, &message.bytes, place)? else {
        return Ok(String::from_str(alloc, "left out")?);
    };
    let mut stream = Vec::new(alloc);
    put_framed(&mut stream, &bytes)?;
    served_text(alloc, setting, how, &[message], &stream)
}
