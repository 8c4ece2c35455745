//! Cases of krb_msgs, a line of words each; messages and keys are in hexadecimal.
//!
//! - `ap-req PEER KVNO ETYPE KEY KVNO ETYPE KEY MESSAGE`: what it opens to that comes from this address, for a service with
//!   these two keys.
//! - `krb-priv lenient NUMBER MESSAGE`, `krb-priv strict NUMBER MESSAGE`: what it opens to after an AP-REQ with this sequence
//!   number, `-` for none.
//! - `reply KEY CTIME CUSEC AP-REP KRB-PRIV`: what a client reads that asked at this time, under this session key.
//! - `krb-error MESSAGE`: what a client reads.

mod opening;
mod showing;

use crate::messages::opening::{opened_ap_req, opened_krb_priv, read_error, read_private};
use crate::refusal::{Answer, Refusal};
use std::alloc::Global;

/// The answer to a case.
pub fn answer(alloc: Global, line: &str) -> Answer {
    let words: Vec<&str> = line.split_whitespace().collect(alloc)?;
    let Some((kind, words)) = words.split_first() else {
        return Err(Refusal::NoSuchCase);
    };
    match *kind {
        "ap-req" => opened_ap_req(alloc, words),
        "krb-priv" => opened_krb_priv(alloc, words),
        "reply" => read_private(alloc, words),
        "krb-error" => read_error(alloc, words),
        _ => Err(Refusal::NoSuchCase),
    }
}
