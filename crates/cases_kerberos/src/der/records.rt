//! Each record: its text is read, and what was read is written.

use crate::der::writers::Record;
use krb_der::{
    ReadError, fits, read_ap_rep, read_ap_req, read_authenticator, read_authorization_data,
    read_change_passwd_data, read_checksum, read_enc_ap_rep_part, read_enc_krb_priv_part,
    read_enc_ticket_part, read_encrypted_data, read_encryption_key, read_host_address,
    read_krb_error, read_krb_priv, read_principal_name, read_ticket, read_transited_encoding,
    text_len,
};
use std::alloc::Global;

/// The text of a record that was read.
#[derive(Drop)]
pub struct Text {
    /// Its length, as it is told before it is written; `None` for a record that doesn't fit.
    pub length: Option<usize>,
    /// Nothing for a record that doesn't fit.
    pub bytes: Vec<u8>,
}

/// Reads the text of a record and writes what was read; `None` if there is no such record.
pub fn again(alloc: Global, record: &str, der: &[u8]) -> Result<Option<Text>, ReadError> {
    match part_again(alloc, record, der)? {
        Some(text) => Ok(Some(text)),
        None => message_again(alloc, record, der),
    }
}

// What messages are made of.
fn part_again(alloc: Global, record: &str, der: &[u8]) -> Result<Option<Text>, ReadError> {
    let again = match record {
        "principal_name" => written(alloc, read_principal_name(alloc, der)),
        "encrypted_data" => written(alloc, read_encrypted_data(alloc, der)),
        "encryption_key" => written(alloc, read_encryption_key(alloc, der)),
        "host_address" => written(alloc, read_host_address(alloc, der)),
        "checksum" => written(alloc, read_checksum(alloc, der)),
        "transited_encoding" => written(alloc, read_transited_encoding(alloc, der)),
        "authorization_data" => written(alloc, read_authorization_data(alloc, der)),
        "change_passwd_data" => written(alloc, read_change_passwd_data(alloc, der)),
        _ => return Ok(None),
    };
    Ok(Some(again?))
}

// Tickets and messages, and what is sealed in them.
fn message_again(alloc: Global, record: &str, der: &[u8]) -> Result<Option<Text>, ReadError> {
    let again = match record {
        "ticket" => written(alloc, read_ticket(alloc, der)),
        "enc_ticket_part" => written(alloc, read_enc_ticket_part(alloc, der)),
        "authenticator" => written(alloc, read_authenticator(alloc, der)),
        "ap_req" => written(alloc, read_ap_req(alloc, der)),
        "ap_rep" => written(alloc, read_ap_rep(alloc, der)),
        "enc_ap_rep_part" => written(alloc, read_enc_ap_rep_part(alloc, der)),
        "krb_priv" => written(alloc, read_krb_priv(alloc, der)),
        "enc_krb_priv_part" => written(alloc, read_enc_krb_priv_part(alloc, der)),
        "krb_error" => written(alloc, read_krb_error(alloc, der)),
        _ => return Ok(None),
    };
    Ok(Some(again?))
}

/// A record that was read, written.
fn written<T: Record>(alloc: Global, found: Result<T, ReadError>) -> Result<Text, ReadError> {
    let value = found?;
    let length = text_len(&value);
    let bytes = if fits(&value) {
        value.text(alloc)?
    } else {
        Vec::new(alloc)
    };
    Ok(Text { length, bytes })
}
