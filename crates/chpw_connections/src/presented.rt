//! The ticket that a datagram presents.
ghost use Rattle.std.specs.Prelude.{IfOk, IsTrue, ◌↔◌};
ghost use Rattle.chpw_connections.specs.Senders.{PresentsTicket};

use krb_codec::{ReadError, read_all};
use krb_der::ApReq;
use krb_msgs::is_for_us;
use std::alloc::{AllocError, Global};

/// Whether these bytes are an AP-REQ whose ticket is for kadmin/changepw of this realm. Nothing is opened. Its copy is
/// dropped; an error means that there is no memory for that.
pub(crate) fn presents_ticket(alloc: Global, realm: &[u8], ap: &[u8]) -> Result<bool, AllocError>
    ensures { IfOk result (λ presents. IsTrue presents ↔ PresentsTicket realm.now ap.now) }
{
    match read_all::<ApReq>(alloc, ap) {
        Ok(request) => Ok(is_for_us(realm, &request.ticket)),
        Err(ReadError::Fault(_)) => Ok(false),
        Err(ReadError::Memory) => Err(AllocError),
    }
}
