//! Values of records: each kind of number, and the bits of flags; and whether values can be written.

use krb_der::{
    EncApRepPart, KerberosFlags, KerberosTime, Microseconds, ReadError, SeqNumber, read_ap_req,
    read_enc_ap_rep_part, read_encrypted_data, read_host_address, text_len,
};
use std::alloc::{AllocError, Global};

/// The value that a text of a record holds, if there is such a name:
///
/// - `addr_type` of a HostAddress, an Int32;
/// - `kvno` of an EncryptedData, a UInt32, or `absent`;
/// - `ctime`, `cusec` and `seq_number` of an EncAPRepPart, the last one or `absent`;
/// - `ap_options` of an AP-REQ, the numbers of the bits that are set.
pub fn value_text(alloc: Global, name: &str, text: &[u8]) -> Result<Option<String>, ReadError> {
    match name {
        "addr_type" => host_value(alloc, text),
        "kvno" => sealed_value(alloc, text),
        "ctime" | "cusec" | "seq_number" => part_value(alloc, name, text),
        "ap_options" => options_value(alloc, text),
        _ => Ok(None),
    }
}

fn host_value(alloc: Global, text: &[u8]) -> Result<Option<String>, ReadError> {
    let host = read_host_address(alloc, text)?;
    number_text(alloc, Some(i64::from(host.addr_type)))
}

fn sealed_value(alloc: Global, text: &[u8]) -> Result<Option<String>, ReadError> {
    let sealed = read_encrypted_data(alloc, text)?;
    number_text(alloc, sealed.kvno.map(i64::from))
}

fn part_value(alloc: Global, name: &str, text: &[u8]) -> Result<Option<String>, ReadError> {
    let part = read_enc_ap_rep_part(alloc, text)?;
    let number = match name {
        "ctime" => Some(part.ctime.0),
        "cusec" => Some(i64::from(part.cusec.0)),
        _ => part.seq_number.map(|number| i64::from(number.0)),
    };
    number_text(alloc, number)
}

fn options_value(alloc: Global, text: &[u8]) -> Result<Option<String>, ReadError> {
    let request = read_ap_req(alloc, text)?;
    Ok(Some(bits(alloc, request.ap_options)?))
}

fn number_text(alloc: Global, number: Option<i64>) -> Result<Option<String>, ReadError> {
    let value = match number {
        Some(number) => format!(in alloc; "{number}"),
        None => String::from_str(alloc, "absent"),
    };
    Ok(Some(value?))
}

/// The bits that are set, bit 0 the first of the text; there are no others.
fn bits(alloc: Global, flags: KerberosFlags) -> Result<String, AllocError> {
    let mut shown = String::from_str(alloc, "bits")?;
    for bit in 0..u32::BITS {
        if flags.is_set(bit) {
            write!(shown, " {bit}")?;
        }
    }
    if flags.is_set(u32::BITS) || flags.is_set(u32::MAX) {
        shown.push_str(" and others")?;
    }
    Ok(shown)
}

/// `CTIME CUSEC`: the length of the text of an EncAPRepPart with these, `none` if they can't be written.
pub fn part_length(alloc: Global, words: &str) -> Result<String, AllocError> {
    let (ctime, cusec) = words.split_once(' ').unwrap_or((words, ""));
    let part = EncApRepPart {
        ctime: KerberosTime(ctime.parse().unwrap_or(0)),
        cusec: Microseconds(cusec.parse().unwrap_or(0)),
        subkey: None,
        seq_number: Some(SeqNumber(5)),
    };
    match text_len(&part) {
        Some(length) => format!(in alloc; "{length}"),
        None => String::from_str(alloc, "none"),
    }
}
