//! Tickets (RFC 4120 section 5.3).

ghost use Rattle.std.specs.Prelude.{◌≡◌};
ghost use Rattle.krb_keys.specs.Keys as keys;
ghost use Rattle.krb_msgs.specs.Answers.{Answers};
ghost use Rattle.krb_msgs.specs.Tickets.{OpensTicket};

use crate::fault::{ApFault, OpenError};
use crate::opening::open_part;
use krb_der::{EncTicketPart, EncryptionKey, Ticket};
use krb_keys::{Key, USAGE_TICKET, key_of};
use std::alloc::Global;

/// The key that a key field holds.
pub fn key_in(field: &EncryptionKey) -> Option<Key>
    ensures { result ≡ keys.key_of field.now.keytype field.now.keyvalue }
{
    key_of(field.keytype, field.keyvalue.as_slice()).ok()
}

/// The ticket's sealed part and the session key; refused as `BadTicket`, then `BadSessionKey`.
pub fn open_ticket(
    alloc: Global,
    key: &Key,
    ticket: Ticket,
) -> Result<(EncTicketPart, Key), OpenError<ApFault>>
    ensures { Answers (OpensTicket key.now ticket.enc_part) result }
{
    let fault = ApFault::BadTicket;
    let part: EncTicketPart = open_part(alloc, key, USAGE_TICKET, ticket.enc_part, fault, fault)?;
    match key_in(&part.key) {
        Some(session) => Ok((part, session)),
        None => Err(OpenError::Fault(ApFault::BadSessionKey)),
    }
}
