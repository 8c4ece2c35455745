//! The records of a request.
ghost use Rattle.std.specs.Prelude.{◌≡◌, IfOk};
ghost use Rattle.krb_codec.specs.Texts.{text};
ghost use Rattle.krb_der.specs.Types.{change_passwd_data};
ghost use Rattle.krb_der.specs.Values.{change_passwd_data_value};
ghost use Rattle.chpw_client.specs.Requests.{authenticator as authenticator_of, change, principal as principal_of};
ghost use Rattle.chpw_client.specs.Requests.{private_part as private_part_of, sent_key as sent_key_of};
ghost use Rattle.chpw_client.specs.Requests.{ticket_part as ticket_part_of, user_data as user_data_of};
ghost use Rattle.chpw_client.specs.Questions.{IsAskable, question_of};

use crate::drawing::{RequestWords, key_bytes};
use crate::request_terms::RequestTerms;
use chpw_rules::{Items, Name};
use krb_der::{
    Authenticator, Bytes, ChangePasswdData, EncKrbPrivPart, EncTicketPart, EncryptionKey,
    GeneralString, KerberosFlags, KerberosTime, Microseconds, OctetString, PrincipalName,
    SeqNumber, SequenceOf, TransitedEncoding, write_change_passwd_data,
};
use krb_keys::AES256_CTS_HMAC_SHA1_96;
use krb_msgs::{copy_bytes, priv_part};
use krb_protocol::{NT_PRINCIPAL, PVNO, TICKET_INITIAL};
use std::alloc::{AllocError, Global};
use std::net::{IpAddr, Ipv4Addr};

/// Seconds for which a ticket is good.
const LIFETIME: i64 = 3600;

/// The flag initial, of 32 bits.
const INITIAL: u32 = 1 << (31 - TICKET_INITIAL);

fn components(alloc: Global, parts: &[Items<u8>]) -> Result<Vec<GeneralString>, AllocError>
    ensures value { IfOk result (λ copies. copies.items ≡ parts.now) }
{
    let mut copies = Vec::with_capacity(alloc, parts.len())?;
    for part in parts {
        copies.push(copy_bytes(alloc, part.as_slice())?)?;
    }
    Ok(copies)
}

fn principal(alloc: Global, name: &Name) -> Result<PrincipalName, AllocError>
    ensures value { IfOk result (λ p. p ≡ principal_of name.now) }
{
    Ok(PrincipalName {
        name_type: NT_PRINCIPAL,
        name_string: SequenceOf::of(components(alloc, name.parts.as_slice())?),
    })
}

fn sent_key(alloc: Global, words: [u32; 8]) -> Result<EncryptionKey, AllocError>
    ensures value { IfOk result (λ key. key ≡ sent_key_of words) }
{
    Ok(EncryptionKey {
        keytype: AES256_CTS_HMAC_SHA1_96,
        keyvalue: copy_bytes(alloc, &key_bytes(words))?,
    })
}

/// The sealed part of the ticket (RFC 4120 section 5.3).
pub(crate) fn ticket_part(
    alloc: Global,
    asked: &RequestTerms<'_>,
    words: &RequestWords,
) -> Result<EncTicketPart, AllocError>
    requires askable { IsAskable (question_of asked.now) }
    ensures value { IfOk result (λ part. part ≡ ticket_part_of (question_of asked.entry.now) words.now) }
{
    Ok(EncTicketPart {
        flags: KerberosFlags(if asked.initial { INITIAL } else { 0 }),
        key: sent_key(alloc, words.session)?,
        crealm: copy_bytes(alloc, asked.realm)?,
        cname: principal(alloc, asked.client)?,
        transited: TransitedEncoding {
            tr_type: 0,
            contents: copy_bytes(alloc, &[])?,
        },
        authtime: KerberosTime(asked.now.seconds),
        starttime: None,
        endtime: KerberosTime(asked.now.seconds + LIFETIME),
        renew_till: None,
        caddr: None,
        authorization_data: None,
    })
}

/// The authenticator (RFC 4120 section 5.5.1).
pub(crate) fn authenticator(
    alloc: Global,
    asked: &RequestTerms<'_>,
    words: &RequestWords,
) -> Result<Authenticator, AllocError>
    ensures value { IfOk result (λ a. a ≡ authenticator_of (question_of asked.entry.now) words.now) }
{
    Ok(Authenticator {
        authenticator_vno: PVNO,
        crealm: copy_bytes(alloc, asked.realm)?,
        cname: principal(alloc, asked.client)?,
        cksum: None,
        cusec: Microseconds(asked.now.micros),
        ctime: KerberosTime(asked.now.seconds),
        subkey: Some(sent_key(alloc, words.subkey)?),
        seq_number: Some(SeqNumber(0)),
        authorization_data: None,
    })
}

/// The new password and whose it is (RFC 3244 section 2).
fn change_data(alloc: Global, asked: &RequestTerms<'_>) -> Result<ChangePasswdData, AllocError>
    ensures value { IfOk result (λ d. d ≡ change (question_of asked.entry.now)) }
{
    let newpasswd = copy_bytes(alloc, asked.password)?;
    match asked.target {
        None => Ok(ChangePasswdData {
            newpasswd,
            targname: None,
            targrealm: None,
        }),
        Some(target) => Ok(ChangePasswdData {
            newpasswd,
            targname: Some(principal(alloc, target)?),
            targrealm: Some(copy_bytes(alloc, asked.realm)?),
        }),
    }
}

fn change_text(alloc: Global, asked: &RequestTerms<'_>) -> Result<Vec<u8>, AllocError>
    requires askable { IsAskable (question_of asked.now) }
    ensures text { IfOk result (λ bytes. bytes.items ≡ text change_passwd_data
        (change_passwd_data_value (change (question_of asked.entry.now)))) }
{
    let data = change_data(alloc, asked)?;
    write_change_passwd_data(alloc, &data)
}

/// The new password itself, or a ChangePasswdData.
fn user_data(alloc: Global, asked: &RequestTerms<'_>) -> Result<OctetString, AllocError>
    requires askable { IsAskable (question_of asked.now) }
    ensures value { IfOk result (λ bytes. bytes ≡ user_data_of (question_of asked.entry.now)) }
{
    if asked.old {
        copy_bytes(alloc, asked.password)
    } else {
        Ok(Bytes::of(change_text(alloc, asked)?))
    }
}

/// The sealed part of the KRB-PRIV (RFC 4120 section 5.7.1).
pub(crate) fn private_part(
    alloc: Global,
    asked: &RequestTerms<'_>,
) -> Result<EncKrbPrivPart, AllocError>
    requires askable { IsAskable (question_of asked.now) }
    ensures value { IfOk result (λ part. part ≡ private_part_of (question_of asked.entry.now)) }
{
    let own = IpAddr::V4(Ipv4Addr::LOCALHOST);
    priv_part(alloc, own, user_data(alloc, asked)?, 0)
}
