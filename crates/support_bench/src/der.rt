//! `der read N` reads the text of an AP-REQ with its ticket N times, `der write N` writes the record N
//! times. The length of the text is printed.

use krb_der::{
    ApReq, Bytes, EncryptedData, KerberosFlags, PrincipalName, ReadError, SequenceOf, Ticket, fits,
    read_ap_req, write_ap_req,
};
use krb_protocol::{KRB_AP_REQ, NT_SRV_INST, PVNO};
use std::alloc::{AllocError, Global};
use std::io;

const AES256: i32 = 18;

fn bytes<const TAG: u8>(alloc: Global, text: &[u8]) -> Result<Bytes<TAG>, AllocError> {
    Ok(Bytes::of(Vec::from_slice(alloc, text)?))
}

fn encrypted_data(
    alloc: Global,
    kvno: Option<u32>,
    cipher: &[u8],
) -> Result<EncryptedData, AllocError> {
    Ok(EncryptedData {
        etype: AES256,
        kvno,
        cipher: bytes(alloc, cipher)?,
    })
}

fn service_name(alloc: Global) -> Result<PrincipalName, AllocError> {
    let mut components = Vec::new(alloc);
    components.push(bytes(alloc, b"kadmin")?)?;
    components.push(bytes(alloc, b"changepw")?)?;
    Ok(PrincipalName {
        name_type: NT_SRV_INST,
        name_string: SequenceOf::of(components),
    })
}

fn ticket(alloc: Global) -> Result<Ticket, AllocError> {
    let realm = bytes(alloc, b"EXAMPLE.COM")?;
    let sname = service_name(alloc)?;
    Ok(Ticket {
        tkt_vno: PVNO,
        realm,
        sname,
        enc_part: encrypted_data(alloc, Some(3), &[0x5a; 330])?,
    })
}

fn request(alloc: Global) -> Result<ApReq, AllocError> {
    let authenticator = encrypted_data(alloc, None, &[0xa5; 240])?;
    Ok(ApReq {
        pvno: PVNO,
        msg_type: KRB_AP_REQ,
        ap_options: KerberosFlags(0x2000_0000),
        ticket: ticket(alloc)?,
        authenticator,
    })
}

// The bytes of the text that was read or written `count` times.
fn text_len(alloc: Global, writes: bool, count: u32) -> Result<usize, ReadError> {
    let request = request(alloc)?;
    let length = text_len_of(alloc, &request, writes, count);
    drop(request);
    length
}

fn text_len_of(
    alloc: Global,
    request: &ApReq,
    writes: bool,
    count: u32,
) -> Result<usize, ReadError> {
    if !fits(request) {
        return Ok(0);
    }
    let mut text = write_ap_req(alloc, request)?;
    for _ in 0..count {
        if writes {
            text = write_ap_req(alloc, request)?;
        } else {
            read(alloc, &text)?;
        }
    }
    Ok(text.len())
}

fn read(alloc: Global, text: &[u8]) -> Result<(), ReadError> {
    drop(read_ap_req(alloc, text)?);
    Ok(())
}

/// Does it `count` times.
pub fn measure(rt: &(impl Print + AllocGlobal), what: &str, count: u32) -> io::Result<()> {
    match text_len(rt.alloc(), what == "write", count) {
        Ok(size) => println!(rt; "{size} bytes"),
        Err(_) => Err(io::Error::from(io::ErrorKind::OutOfMemory)),
    }
}
