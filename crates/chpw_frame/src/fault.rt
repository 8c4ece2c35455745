//! Why a message can't be split.
ghost use Rattle.std.specs.Prelude.{◌≡◌};
ghost use Rattle.krb_protocol.specs.Refusals.{said};
ghost use Rattle.chpw_frame.specs.Faults.{refusal_of};

use krb_protocol::Refusal;
use krb_protocol::codes::{KRB_ERR_GENERIC, KRB5_KPASSWD_BAD_VERSION, KRB5_KPASSWD_MALFORMED};
use thiserror::Error;

/// What is wrong with a message's frame, in the order of the checks (RFC 3244 section 2). Each has the result code and
/// the error code of its reply.
#[derive(Clone, Copy, Debug, Drop, Error)]
pub enum FrameFault {
    /// It has fewer than 6 bytes, or its length field isn't its length: 1, KRB_ERR_GENERIC (60).
    #[error("another length than the message's")]
    BadLength,
    /// It has another version: 6, KRB_ERR_GENERIC (60).
    #[error("another version")]
    BadVersion,
    /// The AP part ends after the message; or it is empty, in a request: 1, KRB_ERR_GENERIC (60).
    #[error("no room for the AP part, or none there")]
    BadParts,
}

impl FrameFault {
    /// What its reply says.
    pub fn refusal(self) -> Refusal
        ensures value { said result ≡ refusal_of self }
    {
        let (code, text) = match self {
            FrameFault::BadLength => (KRB5_KPASSWD_MALFORMED, "malformed"),
            FrameFault::BadVersion => (KRB5_KPASSWD_BAD_VERSION, "bad version"),
            FrameFault::BadParts => (KRB5_KPASSWD_MALFORMED, "malformed"),
        };
        Refusal {
            code,
            error: KRB_ERR_GENERIC,
            text,
        }
    }
}
