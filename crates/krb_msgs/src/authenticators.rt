//! Authenticators (RFC 4120 section 5.5.1).

ghost use Rattle.krb_msgs.specs.Answers.{Answers};
ghost use Rattle.krb_msgs.specs.Authenticators.{OpensAuthenticator};

use crate::fault::{ApFault, OpenError};
use crate::opening::open_part;
use krb_der::{Authenticator, EncryptedData};
use krb_keys::{Key, USAGE_AP_REQ_AUTHENTICATOR};
use krb_protocol::PVNO;
use std::alloc::Global;

/// The authenticator under the session key.
pub fn open_authenticator(
    alloc: Global,
    session: &Key,
    sealed: EncryptedData,
) -> Result<Authenticator, OpenError<ApFault>>
    ensures { Answers (OpensAuthenticator session.now sealed) result }
{
    let fault = ApFault::BadAuthenticator;
    let usage = USAGE_AP_REQ_AUTHENTICATOR;
    let authenticator: Authenticator = open_part(alloc, session, usage, sealed, fault, fault)?;
    if authenticator.authenticator_vno != PVNO {
        return Err(OpenError::Fault(ApFault::BadAuthenticator));
    }
    Ok(authenticator)
}
