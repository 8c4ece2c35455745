//! The reply of an AP-REP and a KRB-PRIV (RFC 3244 section 2), made with nine random words.
ghost use Rattle.std.specs.Prelude.{◌≡◌, ◌≤◌, length, IfOk, take, drop};
ghost use Rattle.krb_msgs.specs.Addresses.{octets_of};
ghost use Rattle.krb_msgs.specs.Making.{word_bytes};
ghost use Rattle.chpw_table.specs.Replies.{by_private};
ghost use Rattle.chpw_serve.specs.Holding.{IsReplyTime};
ghost use Rattle.chpw_messages.specs.Replies.{ap_rep_part, ap_rep_text, priv_part as priv_part_of, priv_text, private_frame, seq_number_of};

use crate::replies::user_data;
use chpw_frame::join_reply;
use chpw_serve::Seal;
use krb_der::{EncApRepPart, EncKrbPrivPart, KerberosTime, Microseconds, SeqNumber};
use krb_msgs::{make_ap_rep, make_priv, priv_part, word_bytes};
use std::alloc::{AllocError, Global};
use std::net::IpAddr;

/// The confounder made of the first four words.
fn front_confounder(words: [u32; 9]) -> [u8; 16]
    ensures value { result ≡ word_bytes (take 4 words) }
{
    word_bytes([words[0], words[1], words[2], words[3]])
}

/// The confounder made of the last four words.
fn back_confounder(words: [u32; 9]) -> [u8; 16]
    ensures value { result ≡ word_bytes (drop 5 words) }
{
    word_bytes([words[5], words[6], words[7], words[8]])
}

/// The sequence number of both parts, made of the fifth word, below 2^31.
fn seq_number(words: [u32; 9]) -> u32
    ensures value { result ≡ seq_number_of words }
{
    words[4] % (1 << 31)
}

fn ap_rep_part(seal: &Seal, words: [u32; 9]) -> EncApRepPart
    ensures value { result ≡ ap_rep_part seal.now words }
{
    EncApRepPart {
        ctime: KerberosTime(seal.ctime),
        cusec: Microseconds(seal.cusec),
        subkey: None,
        seq_number: Some(SeqNumber(seq_number(words))),
    }
}

/// The AP-REP, sealed under the session key.
fn ap_rep(alloc: Global, seal: &Seal, words: [u32; 9]) -> Result<Vec<u8>, AllocError>
    requires times { IsReplyTime seal.now }
    ensures text { IfOk result (λ v. v.items ≡ ap_rep_text seal.now words) }
    ensures short { IfOk result (λ v. length v.items ≤ 500) }
{
    let part = ap_rep_part(seal, words);
    make_ap_rep(alloc, &part, &seal.session, front_confounder(words))
}

/// The sealed part of the KRB-PRIV, from this address.
fn private_part(
    alloc: Global,
    from: IpAddr,
    code: u16,
    text: &str,
    words: [u32; 9],
) -> Result<EncKrbPrivPart, AllocError>
    ensures value { IfOk result (λ p. p ≡ priv_part_of from (by_private code text.now) words) }
    ensures address { IfOk result (λ p. length (octets_of from) ≤ 16) }
{
    let user_data = user_data(alloc, code, text)?;
    priv_part(alloc, from, user_data, seq_number(words))
}

/// The KRB-PRIV, sealed under the subkey.
fn krb_priv(
    alloc: Global,
    seal: &Seal,
    code: u16,
    text: &str,
    words: [u32; 9],
) -> Result<Vec<u8>, AllocError>
    requires text { length text.now ≤ 100 }
    ensures text { IfOk result (λ v. v.items
        ≡ priv_text seal.now (by_private code text.now) words) }
    ensures short { IfOk result (λ v. length v.items ≤ 1000) }
{
    let part = private_part(alloc, seal.address, code, text, words)?;
    make_priv(alloc, &part, &seal.subkey, back_confounder(words))
}

/// The reply with this result code and text of at most 100 bytes.
pub(crate) fn private_reply(
    alloc: Global,
    seal: &Seal,
    code: u16,
    text: &str,
    words: [u32; 9],
) -> Result<Vec<u8>, AllocError>
    requires times { IsReplyTime seal.now }
    requires text { length text.now ≤ 100 }
    ensures frame { IfOk result (λ bytes. bytes.items
        ≡ private_frame seal.now (by_private code text.now) words) }
    ensures fits { IfOk result (λ bytes. length bytes.items ≤ 65535) }
{
    let front = ap_rep(alloc, seal, words)?;
    let tail = krb_priv(alloc, seal, code, text, words)?;
    join_reply(alloc, &front, &tail)
}
