//! A message that comes in two pieces, or isn't whole.

use crate::connections::script::Script;
use chpw_connections::ConnectionLimits;
use chpw_endpoints::Endpoints;
use std::alloc::Global;
use support_cases::{Census, Fault};

const BOUNDS: ConnectionLimits = ConnectionLimits {
    connections: 1,
    per_peer: 1,
    bytes: 100,
    idle: 100,
    grace: 100,
    wait: 100,
    linger: 100,
};

/// What comes of a message that is cut before each of its bytes and at its end. The rest follows, or the input ends
/// there.
pub fn each(alloc: Global, bytes: &[u8], is_ended: bool) -> Result<String, Fault> {
    let mut census = Census::new(alloc);
    for place in 0..=bytes.len() {
        let answer = cut_at(alloc, bytes, place, is_ended)?;
        census.add(alloc, place, answer.as_str())?;
    }
    Ok(census.text(alloc)?)
}

fn cut_at(alloc: Global, bytes: &[u8], place: usize, is_ended: bool) -> Result<String, Fault> {
    let mut script = Script::new(alloc, BOUNDS, 1)?;
    let Some(slot) = script.connections.accept(Endpoints::LOOPBACK, None, 0) else {
        return Ok(String::from_str(alloc, "no room")?);
    };
    let (front, rest) = bytes.split_at(place.min(bytes.len()));
    script.read(slot, front, 0);
    if is_ended {
        script.connections.input_ended(slot);
    } else {
        script.read(slot, rest, 1);
    }
    let taken = script.take(0, 1)?;
    let state = script.state(slot)?;
    Ok(format!(in alloc; "{taken}, {state}")?)
}
