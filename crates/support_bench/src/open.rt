//! `open it N` opens an AP-REQ of a usual client with its KRB-PRIV N times. Both are the first messages of standard
//! input. Their lengths are printed and that of the user-data.

use crate::no_such;
use krb_keys::Key;
use krb_msgs::{ApOpened, ServiceKey, Strictness, open_ap, open_priv};
use std::alloc::Global;
use std::io;
use std::net::{IpAddr, Ipv4Addr};

const REALM: &[u8] = b"EXAMPLE.COM";

const SERVICE: ServiceKey = ServiceKey {
    kvno: 3,
    key: Key::Aes256([0x5a; 32]),
};

const PEER: IpAddr = IpAddr::V4(Ipv4Addr::LOCALHOST);

// The bytes of the user-data, where both are opened.
fn user_len(alloc: Global, ap_req: &[u8], krb_priv: &[u8]) -> Option<usize> {
    let Ok(opened) = open_ap(alloc, REALM, &[SERVICE], ap_req, PEER) else {
        return None;
    };
    let length = private_len(alloc, &opened, krb_priv);
    drop(opened);
    length
}

fn private_len(alloc: Global, opened: &ApOpened, krb_priv: &[u8]) -> Option<usize> {
    let Ok(private) = open_priv(alloc, Strictness::Lenient, PEER, opened, krb_priv) else {
        return None;
    };
    Some(private.user_bytes.as_slice().len())
}

/// Does it `count` times.
pub fn measure(
    rt: &(impl Print + AllocGlobal),
    messages: &[Vec<u8>],
    count: u32,
) -> io::Result<()> {
    let [ap_req, krb_priv, ..] = messages else {
        return Err(no_such());
    };
    let mut user = 0;
    for _ in 0..count {
        user = user_len(rt.alloc(), ap_req, krb_priv).ok_or(no_such())?;
    }
    let (first, second) = (ap_req.len(), krb_priv.len());
    println!(rt; "AP-REQ of {first} bytes, KRB-PRIV of {second}, user-data of {user}")
}
