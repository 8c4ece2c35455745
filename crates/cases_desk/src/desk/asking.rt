//! Requests of clients, and what they print for the replies.
ghost use Rattle.std.specs.Prelude.{◌≡◌, true};
ghost use Rattle.chpw_rules.specs.Fitting.{config_fits};

use crate::desk::words::{first_word, number};
use chpw_client::{LAST_START, LONGEST_PASSWORD, SentRequest, client_line, client_request};
use chpw_decider::Decider;
use chpw_endpoints::Endpoints;
use chpw_messages::Service;
use chpw_rules::Config;
use chpw_serve::{Gate, Observer, WorkerWords, answer};
use chpw_table::Moment;
use std::alloc::Global;
use std::io;
use support_cases::{no_case, text_of};
use support_realm::{config, name};

/// When everything is decided.
pub const NOW: Moment = Moment {
    seconds: 1_000_100,
    micros: 1,
};

/// A worker's words for one message.
const WORDS: [u32; 9] = [1, 2, 3, 4, 5, 6, 7, 8, 9];

/// `NAME MICROS PASSWORD`: the client asks in the second of `NOW`, with these microseconds, for a new password of its own.
/// The same line makes the same message.
pub fn request(alloc: Global, text: &str) -> io::Result<SentRequest> {
    let (client, text) = first_word(text);
    let (micros, password) = first_word(text);
    let now = Moment {
        seconds: NOW.seconds,
        micros: number(Some(micros)),
    };
    request_at(alloc, now, client, password)
}

/// The request of a client that asks at this moment for a new password of its own.
pub fn request_at(
    alloc: Global,
    now: Moment,
    client: &str,
    password: &str,
) -> io::Result<SentRequest> {
    let config = config(alloc, Vec::new(alloc), 4, 1)?;
    request_under(alloc, &config, now, client, password)
}

fn request_under(
    alloc: Global,
    config: &Config,
    now: Moment,
    client: &str,
    password: &str,
) -> io::Result<SentRequest>
    requires fits { config_fits config.now ≡ true }
{
    if now.seconds < 0
        || now.seconds > LAST_START
        || now.micros >= 1_000_000
        || password.len() > LONGEST_PASSWORD
        || config.service.as_slice().is_empty()
    {
        return Err(no_case());
    }
    let client = name(alloc, client)?;
    let sent = client_request(
        alloc,
        config,
        now,
        &client,
        password.as_bytes(),
        None,
        true,
        false,
        &mut WorkerWords::new([1; 32], 0),
    );
    Ok(sent?)
}

/// What the client prints for a worker's answer to its request.
pub fn printed_answer<P: Decider, G: Gate + Observer>(
    alloc: Global,
    service: &Service,
    place: &mut P,
    gate: &mut G,
    sent: &SentRequest,
) -> io::Result<String> {
    let message = sent.message.as_slice();
    let ends = Endpoints::LOOPBACK;
    let Ok(reply) = answer(alloc, service, ends, message, place, gate, WORDS, NOW) else {
        return Ok(String::from_str(alloc, "no reply")?);
    };
    match client_line(alloc, sent, &reply)? {
        Some((line, _)) => Ok(String::from_str(alloc, text_of(&line))?),
        None => Err(no_case()),
    }
}
