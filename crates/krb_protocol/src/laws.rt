//! The constants are the protocol's numbers.

ghost use Rattle.std.specs.Prelude.{◌≡◌, ◌∷◌, [], pos};
ghost use Rattle.krb_protocol.specs.Numbers.{pvno, krb_ap_req, krb_ap_rep, krb_priv, krb_error};
ghost use Rattle.krb_protocol.specs.Numbers.{addr_type_ipv4, addr_type_ipv6, nt_principal, nt_srv_inst, use_session_key};
ghost use Rattle.krb_protocol.specs.Numbers.{mutual_required, ticket_invalid, ticket_initial};

use crate::codes::{
    KDC_ERR_ETYPE_NOSUPP, KRB_AP_ERR_BAD_INTEGRITY, KRB_AP_ERR_BADADDR, KRB_AP_ERR_BADKEYVER,
    KRB_AP_ERR_BADMATCH, KRB_AP_ERR_BADVERSION, KRB_AP_ERR_MSG_TYPE, KRB_AP_ERR_NOKEY,
    KRB_AP_ERR_NOT_US, KRB_AP_ERR_REPEAT, KRB_AP_ERR_SKEW, KRB_AP_ERR_TKT_EXPIRED,
    KRB_AP_ERR_TKT_NYV, KRB_ERR_FIELD_TOOLONG, KRB_ERR_GENERIC, KRB5_KPASSWD_ACCESSDENIED,
    KRB5_KPASSWD_AUTHERROR, KRB5_KPASSWD_BAD_VERSION, KRB5_KPASSWD_HARDERROR,
    KRB5_KPASSWD_INITIAL_FLAG_NEEDED, KRB5_KPASSWD_MALFORMED, KRB5_KPASSWD_SOFTERROR,
    KRB5_KPASSWD_SUCCESS,
};
use crate::numbers::{
    ADDR_TYPE_IPV4, ADDR_TYPE_IPV6, KRB_AP_REP, KRB_AP_REQ, KRB_ERROR, KRB_PRIV, MUTUAL_REQUIRED,
    NT_PRINCIPAL, NT_SRV_INST, PVNO, TICKET_INITIAL, TICKET_INVALID, USE_SESSION_KEY,
};

/// The constants are the numbers of RFC 4120 by their names.
pub fn numbers()
    ensures version { PVNO ≡ pvno }
    ensures requests { KRB_AP_REQ ≡ krb_ap_req }
    ensures replies { KRB_AP_REP ≡ krb_ap_rep }
    ensures private { KRB_PRIV ≡ krb_priv }
    ensures errors { KRB_ERROR ≡ krb_error }
    ensures addresses { (ADDR_TYPE_IPV4 ≡ addr_type_ipv4) × (ADDR_TYPE_IPV6 ≡ addr_type_ipv6) }
    ensures names { (NT_PRINCIPAL ≡ nt_principal) × (NT_SRV_INST ≡ nt_srv_inst) }
    ensures options { (USE_SESSION_KEY ≡ use_session_key) × (MUTUAL_REQUIRED ≡ mutual_required) }
    ensures flags { (TICKET_INVALID ≡ ticket_invalid) × (TICKET_INITIAL ≡ ticket_initial) }
{}

/// The result codes are those of RFC 3244 section 2, in its order from 0 on.
pub fn result_codes()
    ensures value { KRB5_KPASSWD_SUCCESS ∷ KRB5_KPASSWD_MALFORMED ∷ KRB5_KPASSWD_HARDERROR
        ∷ KRB5_KPASSWD_AUTHERROR ∷ KRB5_KPASSWD_SOFTERROR ∷ KRB5_KPASSWD_ACCESSDENIED
        ∷ KRB5_KPASSWD_BAD_VERSION ∷ KRB5_KPASSWD_INITIAL_FLAG_NEEDED ∷ []
        ≡ 0 ∷ 1 ∷ 2 ∷ 3 ∷ 4 ∷ 5 ∷ 6 ∷ 7 ∷ [] }
{}

/// The error codes are those of RFC 4120 section 7.5.9, by their names.
pub fn error_codes()
    ensures etype { KDC_ERR_ETYPE_NOSUPP ≡ pos 14 }
    ensures tickets { KRB_AP_ERR_BAD_INTEGRITY ∷ KRB_AP_ERR_TKT_EXPIRED ∷ KRB_AP_ERR_TKT_NYV
        ∷ KRB_AP_ERR_REPEAT ∷ KRB_AP_ERR_NOT_US ∷ KRB_AP_ERR_BADMATCH ∷ KRB_AP_ERR_SKEW
        ∷ KRB_AP_ERR_BADADDR ∷ KRB_AP_ERR_BADVERSION ∷ KRB_AP_ERR_MSG_TYPE ∷ []
        ≡ pos 31 ∷ pos 32 ∷ pos 33 ∷ pos 34 ∷ pos 35 ∷ pos 36 ∷ pos 37 ∷ pos 38 ∷ pos 39 ∷ pos 40 ∷ [] }
    ensures keys { (KRB_AP_ERR_BADKEYVER ≡ pos 44) × (KRB_AP_ERR_NOKEY ≡ pos 45) }
    ensures others { (KRB_ERR_GENERIC ≡ pos 60) × (KRB_ERR_FIELD_TOOLONG ≡ pos 61) }
{}
