//! Why a message is refused.

ghost use Rattle.std.specs.Prelude.{◌≡◌};
ghost use Rattle.krb_protocol.specs.Refusals.{said};
ghost use Rattle.krb_msgs.specs.Codes.{refusal_of, unauthenticated};
ghost use Rattle.krb_msgs.specs.declared.fault.OpenError.TheVariants.{Memory};

use krb_protocol::Refusal;
use krb_protocol::codes::{
    KDC_ERR_ETYPE_NOSUPP, KRB_AP_ERR_BAD_INTEGRITY, KRB_AP_ERR_BADADDR, KRB_AP_ERR_BADKEYVER,
    KRB_AP_ERR_BADMATCH, KRB_AP_ERR_BADVERSION, KRB_AP_ERR_MSG_TYPE, KRB_AP_ERR_NOKEY,
    KRB_AP_ERR_NOT_US, KRB_ERR_GENERIC, KRB5_KPASSWD_AUTHERROR, KRB5_KPASSWD_MALFORMED,
};
use std::alloc::AllocError;
use thiserror::Error;

/// Why an AP-REQ is refused, in the order of the checks. Each has the result code, the error code
/// and the text of its reply ([`ApFault::refusal`]).
#[derive(Clone, Copy, Debug, Drop, Error)]
pub enum ApFault {
    /// The bytes are no AP-REQ, or their ticket's outer part is none: 1, KRB_ERR_GENERIC (60).
    #[error("not an AP-REQ")]
    Malformed,
    /// pvno or tkt-vno isn't 5: 3, KRB_AP_ERR_BADVERSION (39).
    #[error("another protocol version")]
    Version,
    /// msg-type isn't 14: 3, KRB_AP_ERR_MSG_TYPE (40).
    #[error("another message type")]
    MessageType,
    /// The option use-session-key is set: 3, KRB_AP_ERR_NOKEY (45).
    #[error("a ticket under a session key")]
    UserToUser,
    /// The ticket is for another realm or service: 3, KRB_AP_ERR_NOT_US (35).
    #[error("a ticket for another service")]
    NotForUs,
    /// The ticket's encryption type isn't 17 or 18: 3, KDC_ERR_ETYPE_NOSUPP (14).
    #[error("a ticket of another encryption type")]
    TicketEtype,
    /// The service has no key of the ticket's encryption type and kvno: 3, KRB_AP_ERR_BADKEYVER
    /// (44).
    #[error("no such service key")]
    NoServiceKey,
    /// The ticket isn't sealed under the service's key, or isn't DER: 3,
    /// KRB_AP_ERR_BAD_INTEGRITY (31).
    #[error("the ticket cannot be opened")]
    BadTicket,
    /// The session key isn't of encryption type 17 or 18: 3, KDC_ERR_ETYPE_NOSUPP (14).
    #[error("a session key of another encryption type")]
    BadSessionKey,
    /// The authenticator isn't sealed under the session key, isn't DER, or its version isn't 5: 3,
    /// KRB_AP_ERR_BAD_INTEGRITY (31).
    #[error("the authenticator cannot be opened")]
    BadAuthenticator,
    /// Ticket and authenticator name different clients: 3, KRB_AP_ERR_BADMATCH (36).
    #[error("ticket and authenticator of different clients")]
    ClientMismatch,
    /// The ticket has addresses, and the peer's isn't among them: 3, KRB_AP_ERR_BADADDR (38).
    #[error("another address than the ticket's")]
    WrongAddress,
    /// There is no subkey, or it isn't of encryption type 17 or 18: 3, KDC_ERR_ETYPE_NOSUPP (14).
    #[error("no subkey")]
    NoSubkey,
}

impl ApFault {
    /// What the message is refused with; the text says no more than the result code.
    pub fn refusal(self) -> Refusal
        ensures value { said result ≡ refusal_of self }
    {
        match self {
            ApFault::Malformed => Refusal {
                code: KRB5_KPASSWD_MALFORMED,
                error: KRB_ERR_GENERIC,
                text: "malformed",
            },
            ApFault::Version => authentication_failed(KRB_AP_ERR_BADVERSION),
            ApFault::MessageType => authentication_failed(KRB_AP_ERR_MSG_TYPE),
            ApFault::UserToUser => authentication_failed(KRB_AP_ERR_NOKEY),
            ApFault::NotForUs => authentication_failed(KRB_AP_ERR_NOT_US),
            ApFault::NoServiceKey => authentication_failed(KRB_AP_ERR_BADKEYVER),
            ApFault::BadTicket => authentication_failed(KRB_AP_ERR_BAD_INTEGRITY),
            ApFault::BadAuthenticator => authentication_failed(KRB_AP_ERR_BAD_INTEGRITY),
            ApFault::ClientMismatch => authentication_failed(KRB_AP_ERR_BADMATCH),
            ApFault::WrongAddress => authentication_failed(KRB_AP_ERR_BADADDR),
            ApFault::TicketEtype => authentication_failed(KDC_ERR_ETYPE_NOSUPP),
            ApFault::BadSessionKey => authentication_failed(KDC_ERR_ETYPE_NOSUPP),
            ApFault::NoSubkey => authentication_failed(KDC_ERR_ETYPE_NOSUPP),
        }
    }
}

fn authentication_failed(error: i32) -> Refusal
    ensures value { said result ≡ unauthenticated error }
{
    Refusal {
        code: KRB5_KPASSWD_AUTHERROR,
        error,
        text: "authentication failed",
    }
}

/// Why a KRB-PRIV is refused, in the order of the checks, but that its sealed part is read after
/// [`PrivFault::NotSealed`].
#[derive(Clone, Copy, Debug, Drop, Error)]
pub enum PrivFault {
    /// The bytes are no KRB-PRIV, or its sealed part isn't DER.
    #[error("not a KRB-PRIV")]
    Malformed,
    /// pvno isn't 5 or msg-type isn't 21.
    #[error("another version or message type")]
    WrongMessage,
    /// It isn't sealed under the subkey.
    #[error("not sealed under the subkey")]
    NotSealed,
    /// Its sequence number isn't the authenticator's, and both are present.
    #[error("another sequence number")]
    WrongSeqNumber,
    /// Messages are strict, and it lacks the sequence number that the authenticator has, or the microseconds of its
    /// timestamp, or names another recipient than the service.
    #[error("no number, no microseconds or another recipient")]
    Loose,
}

/// Why a reply is refused. The AP-REP is checked in full before what follows it, and of each message the part in the
/// clear before the sealed part.
#[derive(Clone, Copy, Debug, Drop, Error)]
pub enum ReplyFault {
    /// A message or a sealed part isn't DER of its type.
    #[error("not a reply")]
    Malformed,
    /// pvno, msg-type, ctime or cusec has a wrong value.
    #[error("not the reply to this request")]
    Mismatch,
    /// A part isn't sealed under its key.
    #[error("not sealed under the session key or subkey")]
    NotSealed,
    /// There are no two bytes for a result code.
    #[error("no result code")]
    NoCode,
}

/// Why a message wasn't opened: its first fault, or want of memory.
#[derive(Drop)]
pub enum OpenError<F> {
    Fault(F),
    /// A growth was refused.
    Memory,
}

impl<F> From<AllocError> for OpenError<F> {
    ghost from_gives = { λ _ e. e ≡ Memory };

    fn from(_e: AllocError) -> OpenError<F> {
        OpenError::Memory
    }
}
