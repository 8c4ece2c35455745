//! AP-REP and its sealed part (RFC 4120 section 5.5.2).

ghost use Rattle.std.specs.Prelude.{◌≡◌, refl, true, IfOk, Ok};
ghost use Rattle.krb_codec.specs.Shapes.{Value};
ghost use Rattle.krb_der.specs.Types.{ap_rep, enc_ap_rep_part};
ghost use Rattle.krb_der.specs.Values.{ap_rep_value, enc_ap_rep_part_value};
ghost use Rattle.krb_codec.specs.Grammar.{Spells};
ghost use Rattle.krb_codec.specs.Reading.{Gives, reads_all};
ghost use Rattle.krb_codec.specs.Texts.{text, fits};

use crate::encrypted_data::{EncryptedData, EncryptionKey};
use krb_codec::{
    Application, Element, KerberosTime, Layout, Microseconds, Optional, Read, ReadError, Region,
    Required, SeqNumber, Sink, Write, read_all, write_all,
};
use std::alloc::{AllocError, Global};

/// The reply to an AP-REQ (RFC 4120 section 5.5.2).
#[derive(Drop)]
pub struct ApRep {
    /// [`PVNO`](crate::PVNO).
    pub pvno: i32,
    /// [`KRB_AP_REP`](crate::KRB_AP_REP).
    pub msg_type: i32,
    /// An [`EncApRepPart`](crate::EncApRepPart) under the session key.
    pub enc_part: EncryptedData,
}

impl Element for ApRep {
    ghost shape = { ap_rep };

    ghost value = { ap_rep_value };

    ghost legal = { refl };
}

type ReplyFields = Application<
    15,
    (
        Required<0, i32>,
        Required<1, i32>,
        Required<2, EncryptedData>,
    ),
>;

impl Read for ApRep {
    fn read(alloc: Global, region: &mut Region<'_>) -> Result<ApRep, ReadError> {
        let (pvno, msg_type, enc_part) = ReplyFields::read(alloc, region)?;
        Ok(ApRep {
            pvno,
            msg_type,
            enc_part,
        })
    }
}

impl Write for ApRep {
    fn write<S: Sink>(&self, sink: &mut S) -> Result<(), AllocError> {
        ReplyFields::put(sink, (&self.pvno, &self.msg_type, &self.enc_part))
    }
}

/// The ApRep that a whole text spells (RFC 4120 section 5.5.2), or the first fault.
///
/// `Memory` where a growth is refused.
pub fn read_ap_rep(alloc: Global, text: &[u8]) -> Result<ApRep, ReadError>
    ensures value { IfOk result (λ x. Spells ap_rep text.now (ap_rep_value x)) }
    ensures found { (v : Value ap_rep) → Spells ap_rep text.now v
        → Gives ap_rep_value result (Ok v) }
    ensures first { Gives ap_rep_value result (reads_all ap_rep text.now) }
{
    read_all(alloc, text)
}

/// The text of an ApRep that fits. An error where a growth is refused.
pub fn write_ap_rep(alloc: Global, value: &ApRep) -> Result<Vec<u8>, AllocError>
    requires fits { fits ap_rep (ap_rep_value value.now) ≡ true }
    ensures text { IfOk result (λ v. v.items ≡ text ap_rep (ap_rep_value value.now)) }
{
    write_all(alloc, value)
}

/// The sealed part of an AP-REP (RFC 4120 section 5.5.2).
#[derive(Drop)]
pub struct EncApRepPart {
    /// The authenticator's.
    pub ctime: KerberosTime,
    /// The authenticator's.
    pub cusec: Microseconds,
    pub subkey: Option<EncryptionKey>,
    pub seq_number: Option<SeqNumber>,
}

impl Element for EncApRepPart {
    ghost shape = { enc_ap_rep_part };

    ghost value = { enc_ap_rep_part_value };

    ghost legal = { refl };
}

type PartFields = Application<
    27,
    (
        Required<0, KerberosTime>,
        Required<1, Microseconds>,
        Optional<2, EncryptionKey>,
        Optional<3, SeqNumber>,
    ),
>;

impl Read for EncApRepPart {
    fn read(alloc: Global, region: &mut Region<'_>) -> Result<EncApRepPart, ReadError> {
        let (ctime, cusec, subkey, seq_number) = PartFields::read(alloc, region)?;
        Ok(EncApRepPart {
            ctime,
            cusec,
            subkey,
            seq_number,
        })
    }
}

impl Write for EncApRepPart {
    fn write<S: Sink>(&self, sink: &mut S) -> Result<(), AllocError> {
        PartFields::put(
            sink,
            (&self.ctime, &self.cusec, &self.subkey, &self.seq_number),
        )
    }
}

/// The EncApRepPart that a whole text spells (RFC 4120 section 5.5.2), or the first fault.
///
/// `Memory` where a growth is refused.
pub fn read_enc_ap_rep_part(alloc: Global, text: &[u8]) -> Result<EncApRepPart, ReadError>
    ensures value { IfOk result (λ x. Spells enc_ap_rep_part text.now (enc_ap_rep_part_value x)) }
    ensures found { (v : Value enc_ap_rep_part) → Spells enc_ap_rep_part text.now v
        → Gives enc_ap_rep_part_value result (Ok v) }
    ensures first { Gives enc_ap_rep_part_value result (reads_all enc_ap_rep_part text.now) }
{
    read_all(alloc, text)
}

/// The text of an EncApRepPart that fits. An error where a growth is refused.
pub fn write_enc_ap_rep_part(alloc: Global, value: &EncApRepPart) -> Result<Vec<u8>, AllocError>
    requires fits { fits enc_ap_rep_part (enc_ap_rep_part_value value.now) ≡ true }
    ensures text { IfOk result (λ v. v.items
        ≡ text enc_ap_rep_part (enc_ap_rep_part_value value.now)) }
{
    write_all(alloc, value)
}
