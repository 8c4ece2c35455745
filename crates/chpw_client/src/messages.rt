//! The messages of a request.
ghost use Rattle.std.specs.Prelude.{◌≡◌, ◌≤◌, ◌<◌, ◌^◌, length, IfOk};
ghost use Rattle.krb_der.specs.declared.ticket.Ticket.{Ticket};
ghost use Rattle.krb_msgs.specs.Making.{SpellsTicket};
ghost use Rattle.chpw_client.specs.Requests.{ap_req_text, longest_ap_req, longest_krb_priv, priv_text, ticket_text};
ghost use Rattle.chpw_client.specs.Words.{drawn_key};
ghost use Rattle.chpw_client.specs.Questions.{IsAskable, question_of};

use crate::drawing::{RequestWords, key_bytes};
use crate::records::{authenticator, private_part, ticket_part};
use crate::request_terms::RequestTerms;
use krb_keys::Key;
use krb_msgs::{make_ap_req, make_priv, make_ticket, word_bytes};
use krb_protocol::MUTUAL_REQUIRED;
use std::alloc::{AllocError, Global};

/// The option mutual-required alone, of 32 bits.
const OPTIONS: u32 = 1 << (31 - MUTUAL_REQUIRED);

/// The key of etype 18 of these words.
pub(crate) fn drawn_key(words: [u32; 8]) -> Key
    ensures value { result ≡ drawn_key words }
{
    Key::Aes256(key_bytes(words))
}

/// The AP-REQ, with its ticket.
pub(crate) fn ap_req(
    alloc: Global,
    asked: &RequestTerms<'_>,
    words: &RequestWords,
) -> Result<Vec<u8>, AllocError>
    requires askable { IsAskable (question_of asked.now) }
    ensures text { IfOk result (λ bytes. (t : Ticket)
        × SpellsTicket (ticket_text (question_of asked.entry.now) words.now) t
        × (bytes.items ≡ ap_req_text t (question_of asked.entry.now) words.now)) }
    ensures some { IfOk result (λ bytes. 0 < length bytes.items) }
    ensures short { IfOk result (λ bytes. length bytes.items ≤ longest_ap_req) }
{
    let part = ticket_part(alloc, asked, words)?;
    let authenticator = authenticator(alloc, asked, words)?;
    let ticket = make_ticket(
        alloc,
        asked.realm,
        &part,
        asked.service,
        word_bytes(words.ticket),
    )?;
    make_ap_req(
        alloc,
        &ticket,
        OPTIONS,
        &authenticator,
        &drawn_key(words.session),
        word_bytes(words.authenticator),
    )
}

/// The KRB-PRIV, sealed under the subkey.
pub(crate) fn krb_priv(
    alloc: Global,
    asked: &RequestTerms<'_>,
    words: &RequestWords,
) -> Result<Vec<u8>, AllocError>
    requires askable { IsAskable (question_of asked.now) }
    ensures text { IfOk result (λ bytes. bytes.items
        ≡ priv_text (question_of asked.entry.now) words.now) }
    ensures short { IfOk result (λ bytes. length bytes.items ≤ longest_krb_priv) }
{
    let part = private_part(alloc, asked)?;
    make_priv(
        alloc,
        &part,
        &drawn_key(words.subkey),
        word_bytes(words.private),
    )
}
