//! What a client prints of a reply.
ghost use Rattle.std.specs.Prelude.{◌≡◌, IfOk, option_map};
ghost use Rattle.chpw_client.specs.Lines.{IsLine, line_of, status_of};

use crate::request::SentRequest;
use chpw_frame::split_reply;
use chpw_printing::put_words;
use krb_msgs::{OpenError, Reply, read_reply};
use std::alloc::{AllocError, Global};

/// What is printed for the reply to a request, and the exit status: `code C TEXT` or `code C error E TEXT`, and 0 only
/// for code 0 in a sealed reply. The text is printed as the log prints it, since nobody knows who sent a KRB-ERROR: bytes
/// that aren't printable ASCII, and `\`, are `\x` and two hexadecimal digits. `None` if the reply can't be read.
pub fn client_line(
    alloc: Global,
    sent: &SentRequest,
    reply: &[u8],
) -> Result<Option<(Vec<u8>, u8)>, AllocError>
    ensures line { IfOk result (λ told. IsLine sent.now reply.now
        (option_map (λ t. (t.0.items, t.1)) told)) }
{
    let Ok(parts) = split_reply(reply) else {
        return Ok(None);
    };
    let said = read_reply(
        alloc,
        &sent.session,
        &sent.subkey,
        sent.ctime,
        sent.cusec,
        parts.ap,
        parts.tail,
    );
    match said {
        Ok(said) => Ok(Some((line(alloc, &said)?, status(&said)))),
        Err(OpenError::Fault(_)) => Ok(None),
        Err(OpenError::Memory) => Err(AllocError),
    }
}

fn line(alloc: Global, said: &Reply) -> Result<Vec<u8>, AllocError>
    ensures value { IfOk result (λ bytes. bytes.items ≡ line_of said.now) }
{
    let code = said.code;
    let head = match said.error {
        Some(error) => format!(in alloc; "code {code} error {error} ")?,
        None => format!(in alloc; "code {code} ")?,
    };
    let mut line = head.into_bytes();
    put_words(&mut line, said.text.as_slice())?;
    Ok(line)
}

fn status(said: &Reply) -> u8
    ensures value { result ≡ status_of said.now }
{
    if said.code == 0 && said.error.is_none() {
        0
    } else {
        1
    }
}
