//! What messages open to, as text.

use crate::refusal::{Answer, Refusal};
use krb_keys::Key;
use krb_msgs::{ApFault, ApOpened, OpenError, PrivFault, Private, Reply, ReplyFault};
use std::alloc::{AllocError, Global};
use support_cases::text_of;

pub fn opening_text(alloc: Global, opened: Result<ApOpened, OpenError<ApFault>>) -> Answer {
    match opened {
        Ok(opened) => Ok(opened_text(alloc, &opened)?),
        Err(OpenError::Fault(fault)) => {
            let said = fault.refusal();
            let (code, error, text) = (said.code, said.error, said.text);
            Ok(format!(in alloc; "{fault:?} {code}/{error} {text}")?)
        }
        Err(OpenError::Memory) => Err(Refusal::Memory),
    }
}

fn opened_text(alloc: Global, opened: &ApOpened) -> Result<String, AllocError> {
    let mut shown = String::from_str(alloc, "opened")?;
    for component in opened.cname.name_string.as_slice() {
        write!(shown, " {}", text_of(component.as_slice()))?;
    }
    let crealm = text_of(opened.crealm.as_slice());
    let (flags, starts, ends) = (opened.flags.0, opened.starts.0, opened.ends.0);
    let (ctime, cusec) = (opened.ctime.0, opened.cusec.0);
    let (session, subkey) = (byte_of(&opened.session), byte_of(&opened.subkey));
    write!(
        shown,
        " of {crealm} flags {flags:08x} from {starts} to {ends} at {ctime}.{cusec:06} session {session:02x} subkey {subkey:02x}"
    )?;
    if let Some(number) = opened.seq_number {
        write!(shown, " seq {}", number.0)?;
    }
    Ok(shown)
}

/// The number that all bytes of a key are, or 0.
fn byte_of(key: &Key) -> u8 {
    match key {
        Key::Aes128(bytes) if *bytes == [bytes[0]; 16] => bytes[0],
        Key::Aes256(bytes) if *bytes == [bytes[0]; 32] => bytes[0],
        _ => 0,
    }
}

pub fn private_text(alloc: Global, opened: Result<Private, OpenError<PrivFault>>) -> Answer {
    match opened {
        Ok(private) => {
            let user = text_of(private.user_bytes.as_slice());
            match private.stamp {
                Some(stamp) => Ok(format!(in alloc; "opened {user} at {stamp}")?),
                None => Ok(format!(in alloc; "opened {user}")?),
            }
        }
        Err(OpenError::Fault(fault)) => Ok(format!(in alloc; "{fault:?}")?),
        Err(OpenError::Memory) => Err(Refusal::Memory),
    }
}

pub fn reading_text(alloc: Global, reply: Result<Reply, OpenError<ReplyFault>>) -> Answer {
    match reply {
        Ok(reply) => {
            let (code, text) = (reply.code, text_of(reply.text.as_slice()));
            match reply.error {
                Some(error) => Ok(format!(in alloc; "code {code} error {error} {text}")?),
                None => Ok(format!(in alloc; "code {code} {text}")?),
            }
        }
        Err(OpenError::Fault(fault)) => Ok(format!(in alloc; "{fault:?}")?),
        Err(OpenError::Memory) => Err(Refusal::Memory),
    }
}
