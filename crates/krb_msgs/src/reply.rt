//! What a reply of the service says (RFC 3244 section 2).

ghost use Rattle.std.specs.Prelude.{◌≡◌, ◌↔◌, IsTrue, Some};
ghost use Rattle.krb_msgs.specs.Answers.{Answers};
ghost use Rattle.krb_msgs.specs.Replies.{IsApRep, IsKrbError, MatchesTime, OpensApRep, OpensError, OpensReply, OpensResult, SaysCode};

use crate::contents::copy_bytes;
use crate::fault::{OpenError, ReplyFault};
use crate::opening::{open_part, read_record};
use crate::private_message::is_private;
use krb_der::{
    ApRep, EncApRepPart, EncKrbPrivPart, KerberosTime, KrbError, KrbPriv, Microseconds, OctetString,
};
use krb_keys::{Key, USAGE_AP_REP_ENC_PART, USAGE_KRB_PRIV};
use krb_protocol::{KRB_AP_REP, KRB_ERROR, PVNO};
use std::alloc::Global;

/// A reply, once it is opened.
#[derive(Drop)]
pub struct Reply {
    /// The result code.
    pub code: u16,
    /// The text after it.
    pub text: OctetString,
    /// The error code of a KRB-ERROR.
    pub error: Option<i32>,
}

// The result code in the first two bytes, and the text after it.
fn reply_of(alloc: Global, bytes: &[u8], error: Option<i32>) -> Result<Reply, OpenError<ReplyFault>>
    ensures { Answers (SaysCode bytes.now error) result }
{
    match bytes {
        [high, low, text @ ..] => Ok(Reply {
            code: u16::from_be_bytes([*high, *low]),
            text: copy_bytes(alloc, text)?,
            error,
        }),
        _ => Err(OpenError::Fault(ReplyFault::NoCode)),
    }
}

fn is_ap_rep(message: &ApRep) -> bool
    ensures { IsTrue result ↔ IsApRep message.now }
{
    message.pvno == PVNO && message.msg_type == KRB_AP_REP
}

fn matches_time(ctime: KerberosTime, cusec: Microseconds, part: &EncApRepPart) -> bool
    ensures { IsTrue result ↔ MatchesTime ctime cusec part.now }
{
    part.ctime == ctime && part.cusec == cusec
}

// Whether an AP-REP answers the authenticator with this time.
fn open_ap_rep(
    alloc: Global,
    session: &Key,
    ctime: KerberosTime,
    cusec: Microseconds,
    bytes: &[u8],
) -> Result<(), OpenError<ReplyFault>>
    ensures { Answers (OpensApRep session.now ctime cusec bytes.now) result }
{
    let message: ApRep = read_record(alloc, bytes, ReplyFault::Malformed)?;
    if !is_ap_rep(&message) {
        return Err(OpenError::Fault(ReplyFault::Mismatch));
    }
    let part: EncApRepPart = open_part(
        alloc,
        session,
        USAGE_AP_REP_ENC_PART,
        message.enc_part,
        ReplyFault::NotSealed,
        ReplyFault::Malformed,
    )?;
    if !matches_time(ctime, cusec, &part) {
        return Err(OpenError::Fault(ReplyFault::Mismatch));
    }
    Ok(())
}

// What a KRB-PRIV says.
fn open_result(alloc: Global, subkey: &Key, bytes: &[u8]) -> Result<Reply, OpenError<ReplyFault>>
    ensures { Answers (OpensResult subkey.now bytes.now) result }
{
    let message: KrbPriv = read_record(alloc, bytes, ReplyFault::Malformed)?;
    if !is_private(&message) {
        return Err(OpenError::Fault(ReplyFault::Mismatch));
    }
    let part: EncKrbPrivPart = open_part(
        alloc,
        subkey,
        USAGE_KRB_PRIV,
        message.enc_part,
        ReplyFault::NotSealed,
        ReplyFault::Malformed,
    )?;
    reply_of(alloc, part.user_data.as_slice(), None)
}

fn is_krb_error(message: &KrbError) -> bool
    ensures { IsTrue result ↔ IsKrbError message.now }
{
    message.pvno == PVNO && message.msg_type == KRB_ERROR
}

fn error_code_in(message: &KrbError) -> Option<i32>
    ensures { result ≡ Some message.now.error_code }
{
    Some(message.error_code)
}

// What a KRB-ERROR says.
fn open_error(alloc: Global, bytes: &[u8]) -> Result<Reply, OpenError<ReplyFault>>
    ensures { Answers (OpensError bytes.now) result }
{
    let message: KrbError = read_record(alloc, bytes, ReplyFault::Malformed)?;
    if !is_krb_error(&message) {
        return Err(OpenError::Fault(ReplyFault::Mismatch));
    }
    match &message.e_data {
        Some(bytes) => reply_of(alloc, bytes.as_slice(), error_code_in(&message)),
        None => Err(OpenError::Fault(ReplyFault::NoCode)),
    }
}

/// Reads the reply to a request (RFC 3244 section 2), for its session key, subkey, and the time and microseconds of its
/// authenticator.
///
/// `ap_rep` is the AP-REP, and `tail` the KRB-PRIV after it. If `ap_rep` is empty, `tail` is a KRB-ERROR. Each message
/// is checked in the order [`ReplyFault::Malformed`], [`ReplyFault::Mismatch`], [`ReplyFault::NotSealed`], then its
/// sealed part [`ReplyFault::Malformed`], [`ReplyFault::Mismatch`], [`ReplyFault::NoCode`]. Sequence numbers aren't
/// compared.
pub fn read_reply(
    alloc: Global,
    session: &Key,
    subkey: &Key,
    ctime: KerberosTime,
    cusec: Microseconds,
    ap_rep: &[u8],
    tail: &[u8],
) -> Result<Reply, OpenError<ReplyFault>>
    ensures opens { Answers (OpensReply session.now subkey.now ctime cusec ap_rep.now tail.now)
        result }
{
    if ap_rep.is_empty() {
        return open_error(alloc, tail);
    }
    open_ap_rep(alloc, session, ctime, cusec, ap_rep)?;
    open_result(alloc, subkey, tail)
}
