//! KRB-PRIV and its sealed part (RFC 4120 section 5.7.1).

ghost use Rattle.std.specs.Prelude.{◌≡◌, refl, true, IfOk, Ok};
ghost use Rattle.krb_codec.specs.Shapes.{Value};
ghost use Rattle.krb_der.specs.Types.{enc_krb_priv_part, krb_priv};
ghost use Rattle.krb_der.specs.Values.{enc_krb_priv_part_value, krb_priv_value};
ghost use Rattle.krb_codec.specs.Grammar.{Spells};
ghost use Rattle.krb_codec.specs.Reading.{Gives, reads_all};
ghost use Rattle.krb_codec.specs.Texts.{text, fits};

use crate::encrypted_data::EncryptedData;
use crate::host_address::HostAddress;
use krb_codec::{
    Application, Element, KerberosTime, Layout, Microseconds, OctetString, Optional, Read,
    ReadError, Region, Required, SeqNumber, Sink, Write, read_all, write_all,
};
use std::alloc::{AllocError, Global};

/// A sealed message (RFC 4120 section 5.7.1).
#[derive(Drop)]
pub struct KrbPriv {
    /// [`PVNO`](crate::PVNO).
    pub pvno: i32,
    /// [`KRB_PRIV`](crate::KRB_PRIV).
    pub msg_type: i32,
    /// An [`EncKrbPrivPart`](crate::EncKrbPrivPart).
    pub enc_part: EncryptedData,
}

impl Element for KrbPriv {
    ghost shape = { krb_priv };

    ghost value = { krb_priv_value };

    ghost legal = { refl };
}

type MessageFields = Application<
    21,
    (
        Required<0, i32>,
        Required<1, i32>,
        Required<3, EncryptedData>,
    ),
>;

impl Read for KrbPriv {
    fn read(alloc: Global, region: &mut Region<'_>) -> Result<KrbPriv, ReadError> {
        let (pvno, msg_type, enc_part) = MessageFields::read(alloc, region)?;
        Ok(KrbPriv {
            pvno,
            msg_type,
            enc_part,
        })
    }
}

impl Write for KrbPriv {
    fn write<S: Sink>(&self, sink: &mut S) -> Result<(), AllocError> {
        MessageFields::put(sink, (&self.pvno, &self.msg_type, &self.enc_part))
    }
}

/// The KrbPriv that a whole text spells (RFC 4120 section 5.7.1), or the first fault.
///
/// `Memory` where a growth is refused.
pub fn read_krb_priv(alloc: Global, text: &[u8]) -> Result<KrbPriv, ReadError>
    ensures value { IfOk result (λ x. Spells krb_priv text.now (krb_priv_value x)) }
    ensures found { (v : Value krb_priv) → Spells krb_priv text.now v
        → Gives krb_priv_value result (Ok v) }
    ensures first { Gives krb_priv_value result (reads_all krb_priv text.now) }
{
    read_all(alloc, text)
}

/// The text of a KrbPriv that fits. An error where a growth is refused.
pub fn write_krb_priv(alloc: Global, value: &KrbPriv) -> Result<Vec<u8>, AllocError>
    requires fits { fits krb_priv (krb_priv_value value.now) ≡ true }
    ensures text { IfOk result (λ v. v.items ≡ text krb_priv (krb_priv_value value.now)) }
{
    write_all(alloc, value)
}

/// The sealed part of a KRB-PRIV (RFC 4120 section 5.7.1).
#[derive(Drop)]
pub struct EncKrbPrivPart {
    pub user_data: OctetString,
    pub timestamp: Option<KerberosTime>,
    /// The microseconds of `timestamp`.
    pub usec: Option<Microseconds>,
    pub seq_number: Option<SeqNumber>,
    /// The sender's address.
    pub s_address: HostAddress,
    /// The receiver's address.
    pub r_address: Option<HostAddress>,
}

impl Element for EncKrbPrivPart {
    ghost shape = { enc_krb_priv_part };

    ghost value = { enc_krb_priv_part_value };

    ghost legal = { refl };
}

type PartFields = Application<
    28,
    (
        Required<0, OctetString>,
        (
            Optional<1, KerberosTime>,
            Optional<2, Microseconds>,
            Optional<3, SeqNumber>,
        ),
        (Required<4, HostAddress>, Optional<5, HostAddress>),
    ),
>;

impl Read for EncKrbPrivPart {
    fn read(alloc: Global, region: &mut Region<'_>) -> Result<EncKrbPrivPart, ReadError> {
        let fields = PartFields::read(alloc, region)?;
        let (user_data, (timestamp, usec, seq_number), (s_address, r_address)) = fields;
        Ok(EncKrbPrivPart {
            user_data,
            timestamp,
            usec,
            seq_number,
            s_address,
            r_address,
        })
    }
}

impl Write for EncKrbPrivPart {
    fn write<S: Sink>(&self, sink: &mut S) -> Result<(), AllocError> {
        PartFields::put(
            sink,
            (
                &self.user_data,
                (&self.timestamp, &self.usec, &self.seq_number),
                (&self.s_address, &self.r_address),
            ),
        )
    }
}

/// The EncKrbPrivPart that a whole text spells (RFC 4120 section 5.7.1), or the first fault.
///
/// `Memory` where a growth is refused.
pub fn read_enc_krb_priv_part(alloc: Global, text: &[u8]) -> Result<EncKrbPrivPart, ReadError>
    ensures value { IfOk result (λ x. Spells enc_krb_priv_part
        text.now (enc_krb_priv_part_value x)) }
    ensures found { (v : Value enc_krb_priv_part) → Spells enc_krb_priv_part text.now v
        → Gives enc_krb_priv_part_value result (Ok v) }
    ensures first { Gives enc_krb_priv_part_value result (reads_all enc_krb_priv_part text.now) }
{
    read_all(alloc, text)
}

/// The text of an EncKrbPrivPart that fits. An error where a growth is refused.
pub fn write_enc_krb_priv_part(alloc: Global, value: &EncKrbPrivPart) -> Result<Vec<u8>, AllocError>
    requires fits { fits enc_krb_priv_part (enc_krb_priv_part_value value.now) ≡ true }
    ensures text { IfOk result (λ v. v.items
        ≡ text enc_krb_priv_part (enc_krb_priv_part_value value.now)) }
{
    write_all(alloc, value)
}
