//! Messages made from their parts (RFC 4120 sections 3.2, 3.5, 5.3 and 5.9). A message has pvno 5, and its application
//! number as message type.

ghost use Rattle.std.specs.Prelude.{◌≡◌, true, IfOk};
ghost use Rattle.krb_codec.specs.Texts.{fits, text};
ghost use Rattle.krb_der.specs.Types as types;
ghost use Rattle.krb_der.specs.Types.{enc_ap_rep_part, enc_krb_priv_part, enc_ticket_part, krb_error};
ghost use Rattle.krb_der.specs.Values.{ap_rep_value, ap_req_value, authenticator_value};
ghost use Rattle.krb_der.specs.Values.{enc_ap_rep_part_value, enc_krb_priv_part_value};
ghost use Rattle.krb_der.specs.Values.{enc_ticket_part_value, krb_error_value, krb_priv_value, ticket_value};
ghost use Rattle.krb_der.specs.declared.ticket.Ticket.{Ticket};
ghost use Rattle.krb_msgs.specs.Making.{SpellsTicket, ap_rep_of, ap_req_of, priv_of, ticket_of};

use crate::contents::{copy_bytes, service_name};
use crate::sealed_part::seal_part;
use crate::service_keys::ServiceKey;
use krb_der::{
    ApRep, ApReq, Authenticator, EncApRepPart, EncKrbPrivPart, EncTicketPart, KerberosFlags,
    KrbError, KrbPriv, ReadError, Ticket, read_ticket, write_ap_rep, write_ap_req, write_krb_error,
    write_krb_priv, write_ticket,
};
use krb_keys::{
    CONFOUNDER_LEN, Key, USAGE_AP_REP_ENC_PART, USAGE_AP_REQ_AUTHENTICATOR, USAGE_KRB_PRIV,
    USAGE_TICKET,
};
use krb_protocol::{KRB_AP_REP, KRB_AP_REQ, KRB_PRIV, PVNO};
use std::alloc::{AllocError, Global};

/// A ticket of a realm's kadmin/changepw with this part, sealed under the service's key (RFC 4120
/// section 5.3).
pub fn make_ticket(
    alloc: Global,
    realm: &[u8],
    part: &EncTicketPart,
    service: &ServiceKey,
    confounder: [u8; CONFOUNDER_LEN],
) -> Result<Vec<u8>, AllocError>
    requires part { fits enc_ticket_part (enc_ticket_part_value part.now) ≡ true }
    requires message { fits types.ticket
        (ticket_value (ticket_of realm.now part.now service.now confounder)) ≡ true }
    ensures text { IfOk result (λ v. v.items ≡ text types.ticket
        (ticket_value (ticket_of realm.now part.now service.now confounder))) }
{
    let kvno = Some(service.kvno);
    let ticket = Ticket {
        tkt_vno: PVNO,
        realm: copy_bytes(alloc, realm)?,
        sname: service_name(alloc)?,
        enc_part: seal_part(alloc, &service.key, USAGE_TICKET, kvno, confounder, part)?,
    };
    write_ticket(alloc, &ticket)
}

/// An AP-REQ with a ticket's text and this authenticator, sealed under the session key (RFC 4120 section 5.5.1).
/// `options` are all 32 bits, the first the highest.
pub fn make_ap_req(
    alloc: Global,
    ticket: &[u8],
    options: u32,
    authenticator: &Authenticator,
    session: &Key,
    confounder: [u8; CONFOUNDER_LEN],
) -> Result<Vec<u8>, AllocError>
    requires ticket { (t : Ticket) × SpellsTicket ticket.now t }
    requires part { fits types.authenticator (authenticator_value authenticator.now) ≡ true }
    requires message { (t : Ticket) → SpellsTicket ticket.now t → fits types.ap_req
        (ap_req_value (ap_req_of t options authenticator.now session.now confounder)) ≡ true }
    ensures text { IfOk result (λ v. (t : Ticket) × SpellsTicket ticket.now t
        × (v.items ≡ text types.ap_req
        (ap_req_value (ap_req_of t options authenticator.now session.now confounder)))) }
{
    let usage = USAGE_AP_REQ_AUTHENTICATOR;
    let ticket = match read_ticket(alloc, ticket) {
        Ok(ticket) => ticket,
        Err(ReadError::Memory) => return Err(AllocError),
        Err(ReadError::Fault(_)) => unreachable!(),
    };
    let message = ApReq {
        pvno: PVNO,
        msg_type: KRB_AP_REQ,
        ap_options: KerberosFlags(options),
        ticket,
        authenticator: seal_part(alloc, session, usage, None, confounder, authenticator)?,
    };
    write_ap_req(alloc, &message)
}

/// An AP-REP with this part, sealed under the session key (RFC 4120 section 5.5.2).
pub fn make_ap_rep(
    alloc: Global,
    part: &EncApRepPart,
    session: &Key,
    confounder: [u8; CONFOUNDER_LEN],
) -> Result<Vec<u8>, AllocError>
    requires part { fits enc_ap_rep_part (enc_ap_rep_part_value part.now) ≡ true }
    requires message { fits types.ap_rep
        (ap_rep_value (ap_rep_of part.now session.now confounder)) ≡ true }
    ensures text { IfOk result (λ v. v.items ≡ text types.ap_rep
        (ap_rep_value (ap_rep_of part.now session.now confounder))) }
{
    let usage = USAGE_AP_REP_ENC_PART;
    let message = ApRep {
        pvno: PVNO,
        msg_type: KRB_AP_REP,
        enc_part: seal_part(alloc, session, usage, None, confounder, part)?,
    };
    write_ap_rep(alloc, &message)
}

/// A KRB-PRIV with this part, sealed under the subkey (RFC 4120 section 3.5.1).
pub fn make_priv(
    alloc: Global,
    part: &EncKrbPrivPart,
    subkey: &Key,
    confounder: [u8; CONFOUNDER_LEN],
) -> Result<Vec<u8>, AllocError>
    requires part { fits enc_krb_priv_part (enc_krb_priv_part_value part.now) ≡ true }
    requires message { fits types.krb_priv
        (krb_priv_value (priv_of part.now subkey.now confounder)) ≡ true }
    ensures text { IfOk result (λ v. v.items ≡ text types.krb_priv
        (krb_priv_value (priv_of part.now subkey.now confounder))) }
{
    let message = KrbPriv {
        pvno: PVNO,
        msg_type: KRB_PRIV,
        enc_part: seal_part(alloc, subkey, USAGE_KRB_PRIV, None, confounder, part)?,
    };
    write_krb_priv(alloc, &message)
}

/// A KRB-ERROR (RFC 4120 section 5.9.1).
pub fn make_error(alloc: Global, error: &KrbError) -> Result<Vec<u8>, AllocError>
    requires fits { fits krb_error (krb_error_value error.now) ≡ true }
    ensures text { IfOk result (λ v. v.items ≡ text krb_error (krb_error_value error.now)) }
{
    write_krb_error(alloc, error)
}
