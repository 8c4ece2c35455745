//! The reply that is a KRB-ERROR (RFC 3244 section 2).
ghost use Rattle.std.specs.Prelude.{◌≡◌, ◌≤◌, ◌<◌, ◌+◌, ◌++◌, length, Some, IfOk};
ghost use Rattle.std.specs.Int.{to_be_bytes, w16};
ghost use Rattle.chpw_table.specs.Times.{IsMoment};
ghost use Rattle.chpw_serve.specs.Holding.{answer_in};
ghost use Rattle.chpw_messages.specs.Service.{IsRealm};
ghost use Rattle.chpw_messages.specs.Replies.{error_frame, error_record};

use chpw_frame::join_reply;
use chpw_table::Moment;
use krb_der::{Bytes, KerberosTime, KrbError, Microseconds, OctetString};
use krb_msgs::{copy_bytes, make_error, service_name};
use krb_protocol::{KRB_ERROR, PVNO, Refusal};
use std::alloc::{AllocError, Global};

/// A result code, high byte first, and a text (RFC 3244 section 2).
pub(crate) fn user_data(alloc: Global, code: u16, text: &str) -> Result<OctetString, AllocError>
    ensures value { IfOk result (λ bytes. bytes ≡ to_be_bytes w16 code ++ text.now) }
{
    let mut bytes = Vec::from_slice(alloc, &code.to_be_bytes())?;
    bytes.extend_from_slice(text.as_bytes())?;
    Ok(Bytes::of(bytes))
}

/// The KRB-ERROR for this refusal.
fn krb_error(
    alloc: Global,
    realm: &[u8],
    refusal: Refusal,
    now: Moment,
) -> Result<KrbError, AllocError>
    ensures value { IfOk result (λ e. e ≡ error_record realm.now (answer_in refusal) now) }
{
    Ok(KrbError {
        pvno: PVNO,
        msg_type: KRB_ERROR,
        ctime: None,
        cusec: None,
        stime: KerberosTime(now.seconds),
        susec: Microseconds(now.micros),
        error_code: refusal.error,
        crealm: None,
        cname: None,
        realm: copy_bytes(alloc, realm)?,
        sname: service_name(alloc)?,
        e_text: None,
        e_data: Some(user_data(alloc, refusal.code, refusal.text)?),
    })
}

/// The KRB-ERROR reply, for a realm of 1 to 255 bytes.
pub(crate) fn error_reply(
    alloc: Global,
    realm: &[u8],
    refusal: Refusal,
    now: Moment,
) -> Result<Vec<u8>, AllocError>
    requires realm { IsRealm realm.now }
    requires moment { IsMoment now }
    requires micros { now.micros < 1000000 }
    ensures frame { IfOk result (λ bytes. bytes.items ≡ error_frame realm.now (answer_in refusal) now) }
    ensures fits { IfOk result (λ bytes. length bytes.items ≤ 65535) }
{
    let error = krb_error(alloc, realm, refusal, now)?;
    let message = make_error(alloc, &error)?;
    join_reply(alloc, &[], &message)
}
