//! What is true of the definitions that the contracts cite. A call does nothing at run time: it gives a proof the law.

ghost use Rattle.std.specs.Prelude.{◌≡◌};
ghost use Rattle.krb_keys.specs.KeyUsages.{usage_ticket, usage_ap_req_authenticator, usage_ap_rep_enc_part, usage_krb_priv};
ghost use Rattle.krb_keys.specs.Laws.{OnePlainText, SealedOpens, SealedIsLonger};
ghost use Rattle.krb_keys.specs.Vectors.{HmacValue, Pbkdf2Value, Fold64Value, Fold56Value, Fold168Value, Fold128Value, Aes128KeyValue, Aes256KeyValue};

use crate::sealing::{
    USAGE_AP_REP_ENC_PART, USAGE_AP_REQ_AUTHENTICATOR, USAGE_KRB_PRIV, USAGE_TICKET,
};

/// The key usages are those of RFC 4120 section 7.5.1.
pub fn key_usages()
    ensures ticket { USAGE_TICKET ≡ usage_ticket }
    ensures ap_req_authenticator { USAGE_AP_REQ_AUTHENTICATOR ≡ usage_ap_req_authenticator }
    ensures ap_rep_enc_part { USAGE_AP_REP_ENC_PART ≡ usage_ap_rep_enc_part }
    ensures krb_priv { USAGE_KRB_PRIV ≡ usage_krb_priv }
{}

/// A text seals at most one plain text under a key and a key usage.
pub fn one_plain_text()
    ensures only { OnePlainText }
{}

/// What is sealed opens: the sealed text of a plain text, with any confounder, seals it and no other.
pub fn sealed_opens()
    ensures only { SealedOpens }
{}

/// A sealed text is 28 bytes longer than its plain text.
pub fn sealed_is_longer()
    ensures len { SealedIsLonger }
{}

/// The definitions give the published values (RFC 2202, RFC 6070, RFC 3961, RFC 3962).
pub fn published_values()
    ensures hmac { HmacValue }
    ensures pbkdf2 { Pbkdf2Value }
    ensures fold_64 { Fold64Value }
    ensures fold_56 { Fold56Value }
    ensures fold_168 { Fold168Value }
    ensures fold_128 { Fold128Value }
    ensures aes_128_key { Aes128KeyValue }
    ensures aes_256_key { Aes256KeyValue }
{}
