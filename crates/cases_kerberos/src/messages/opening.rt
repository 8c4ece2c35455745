//! Messages, opened or read.

use crate::messages::showing::{opening_text, private_text, reading_text};
use crate::refusal::{Answer, Refusal};
use crate::words::{bytes, key};
use krb_der::{
    Bytes, KerberosFlags, KerberosTime, Microseconds, PrincipalName, SeqNumber, SequenceOf,
};
use krb_keys::Key;
use krb_msgs::{ApOpened, ServiceKey, Strictness, open_ap, open_priv, read_reply};
use std::alloc::{AllocError, Global};
use std::net::{IpAddr, Ipv4Addr};

const REALM: &[u8] = b"EXAMPLE.COM";

const SESSION: Key = Key::Aes256([0x33; 32]);

const SUBKEY: Key = Key::Aes256([0x44; 32]);

/// When the client asked, and the microseconds.
const CTIME: KerberosTime = KerberosTime(1_000_100);

const CUSEC: Microseconds = Microseconds(1);

/// PEER KVNO ETYPE KEY KVNO ETYPE KEY MESSAGE
pub fn opened_ap_req(alloc: Global, words: &[&str]) -> Answer {
    let [
        peer,
        kvno,
        etype,
        key,
        other_kvno,
        other_etype,
        other_key,
        text,
    ] = words
    else {
        return Err(Refusal::WordCount);
    };
    let held = [
        service_key(alloc, kvno, etype, key)?,
        service_key(alloc, other_kvno, other_etype, other_key)?,
    ];
    let Ok(peer) = peer.parse() else {
        return Err(Refusal::BadNumber);
    };
    let text = bytes(alloc, text)?;
    opening_text(alloc, open_ap(alloc, REALM, &held, &text, peer))
}

fn service_key(alloc: Global, kvno: &str, etype: &str, bytes: &str) -> Result<ServiceKey, Refusal> {
    Ok(ServiceKey {
        kvno: kvno.parse()?,
        key: key(alloc, etype, bytes)?,
    })
}

/// STRICTNESS NUMBER MESSAGE
pub fn opened_krb_priv(alloc: Global, words: &[&str]) -> Answer {
    let [strictness, number, text] = words else {
        return Err(Refusal::WordCount);
    };
    let strictness = if *strictness == "strict" {
        Strictness::Strict
    } else {
        Strictness::Lenient
    };
    let text = bytes(alloc, text)?;
    let opened = opened_before(alloc, number.parse().ok())?;
    let here = IpAddr::V4(Ipv4Addr::LOCALHOST);
    let private = open_priv(alloc, strictness, here, &opened, &text);
    drop(opened);
    private_text(alloc, private)
}

/// What the AP-REQ before a KRB-PRIV opened to.
fn opened_before(alloc: Global, number: Option<u32>) -> Result<ApOpened, AllocError> {
    Ok(ApOpened {
        crealm: Bytes::of(Vec::from_slice(alloc, REALM)?),
        cname: PrincipalName {
            name_type: 1,
            name_string: SequenceOf::of(Vec::new(alloc)),
        },
        flags: KerberosFlags(0),
        starts: KerberosTime(1_000_000),
        ends: KerberosTime(1_003_600),
        ctime: CTIME,
        cusec: CUSEC,
        session: SESSION,
        subkey: SUBKEY,
        seq_number: number.map(SeqNumber),
    })
}

/// KEY CTIME CUSEC AP-REP KRB-PRIV
pub fn read_private(alloc: Global, words: &[&str]) -> Answer {
    let [session, ctime, cusec, head, tail] = words else {
        return Err(Refusal::WordCount);
    };
    let session = key(alloc, "18", session)?;
    let ctime = KerberosTime(ctime.parse()?);
    let cusec = Microseconds(cusec.parse()?);
    let (head, tail) = (bytes(alloc, head)?, bytes(alloc, tail)?);
    reading_text(
        alloc,
        read_reply(alloc, &session, &SUBKEY, ctime, cusec, &head, &tail),
    )
}

/// MESSAGE, a KRB-ERROR
pub fn read_error(alloc: Global, words: &[&str]) -> Answer {
    let [text] = words else {
        return Err(Refusal::WordCount);
    };
    let text = bytes(alloc, text)?;
    reading_text(
        alloc,
        read_reply(alloc, &SESSION, &SUBKEY, CTIME, CUSEC, &[], &text),
    )
}
