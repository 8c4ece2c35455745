//! Messages and replies.

use crate::words::put_framed;
use chpw_frame::{TcpOutcome, read_tcp, split_reply};
use krb_der::{KerberosTime, Microseconds};
use krb_keys::Key;
use krb_msgs::{OpenError, read_reply};
use std::alloc::Global;
use std::io::{self, Error, ErrorKind};
use support_cases::{bytes, no_case, text_of};

/// The session key and the subkey of every message here.
const SESSION: Key = Key::Aes256([0x33; 32]);

const SUBKEY: Key = Key::Aes256([0x44; 32]);

/// A message of a client, and the time of its authenticator.
#[derive(Drop)]
pub struct Message {
    pub name: String,
    pub ctime: i64,
    pub cusec: u32,
    pub bytes: Vec<u8>,
}

/// `NAME CTIME.CUSEC HEX`.
pub fn read_message(alloc: Global, text: &str) -> io::Result<Message> {
    let Some((name, rest)) = text.split_once(' ') else {
        return Err(no_case());
    };
    let Some((time, hex)) = rest.split_once(' ') else {
        return Err(no_case());
    };
    let Some((ctime, cusec)) = time.split_once('.') else {
        return Err(no_case());
    };
    Ok(Message {
        name: String::from_str(alloc, name)?,
        ctime: ctime.parse().unwrap_or(0),
        cusec: cusec.parse().unwrap_or(0),
        bytes: bytes(alloc, hex)?,
    })
}

/// The stream of these messages.
pub fn stream_of(alloc: Global, messages: &[&Message]) -> io::Result<Vec<u8>> {
    let mut stream = Vec::new(alloc);
    for message in messages {
        put_framed(&mut stream, &message.bytes)?;
    }
    Ok(stream)
}

/// What the replies written to a stream say, in their order, each to its message and each followed by a separator.
pub fn shown_replies(alloc: Global, messages: &[&Message], written: &[u8]) -> io::Result<String> {
    let mut left = written;
    let mut shown = String::new(alloc);
    for message in messages {
        let TcpOutcome::Message(reply) = read_tcp(alloc, &mut left)? else {
            break;
        };
        show_reply(alloc, &mut shown, message, &reply)?;
    }
    Ok(shown)
}

/// Adds what a reply to a message says, and a separator.
pub fn show_reply(
    alloc: Global,
    text: &mut String,
    message: &Message,
    reply: &[u8],
) -> io::Result<()> {
    let Ok(parts) = split_reply(reply) else {
        return Ok(text.push_str("no reply; ")?);
    };
    let (ctime, cusec) = (KerberosTime(message.ctime), Microseconds(message.cusec));
    let reply = match read_reply(alloc, &SESSION, &SUBKEY, ctime, cusec, parts.ap, parts.tail) {
        Ok(reply) => reply,
        Err(OpenError::Fault(fault)) => return Ok(write!(text, "{fault:?}; ")?),
        Err(OpenError::Memory) => return Err(Error::from(ErrorKind::OutOfMemory)),
    };
    let (code, said) = (reply.code, text_of(reply.text.as_slice()));
    match reply.error {
        Some(error) => Ok(write!(text, "code {code} error {error} {said}; ")?),
        None => Ok(write!(text, "code {code} {said}; ")?),
    }
}
