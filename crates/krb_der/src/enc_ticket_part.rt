//! The sealed part of a ticket (RFC 4120 section 5.3).

ghost use Rattle.std.specs.Prelude.{◌≡◌, refl, true, IfOk, Ok};
ghost use Rattle.krb_codec.specs.Shapes.{Value};
ghost use Rattle.krb_der.specs.Types.{enc_ticket_part, transited_encoding};
ghost use Rattle.krb_der.specs.Values.{enc_ticket_part_value, transited_encoding_value};
ghost use Rattle.krb_codec.specs.Grammar.{Spells};
ghost use Rattle.krb_codec.specs.Reading.{Gives, reads_all};
ghost use Rattle.krb_codec.specs.Texts.{text, fits};

use crate::authorization_data::AuthorizationData;
use crate::encrypted_data::EncryptionKey;
use crate::host_address::HostAddress;
use crate::principal_name::PrincipalName;
use crate::typed_octets::TypedOctets;
use krb_codec::{
    Application, Element, GeneralString, KerberosFlags, KerberosTime, Layout, OctetString,
    Optional, Read, ReadError, Region, Required, SequenceOf, Sink, Write, read_all, write_all,
};
use std::alloc::{AllocError, Global};

/// The realms that took part in authentication (RFC 4120 section 5.3).
#[derive(Drop)]
pub struct TransitedEncoding {
    pub tr_type: i32,
    pub contents: OctetString,
}

impl Element for TransitedEncoding {
    ghost shape = { transited_encoding };

    ghost value = { transited_encoding_value };

    ghost legal = { refl };
}

impl Read for TransitedEncoding {
    fn read(alloc: Global, region: &mut Region<'_>) -> Result<TransitedEncoding, ReadError> {
        let (tr_type, contents) = TypedOctets::read(alloc, region)?;
        Ok(TransitedEncoding { tr_type, contents })
    }
}

impl Write for TransitedEncoding {
    fn write<S: Sink>(&self, sink: &mut S) -> Result<(), AllocError> {
        TypedOctets::put(sink, (&self.tr_type, &self.contents))
    }
}

/// The TransitedEncoding that a whole text spells (RFC 4120 section 5.3), or the first fault.
///
/// `Memory` where a growth is refused.
pub fn read_transited_encoding(alloc: Global, text: &[u8]) -> Result<TransitedEncoding, ReadError>
    ensures value { IfOk result (λ x. Spells transited_encoding
        text.now (transited_encoding_value x)) }
    ensures found { (v : Value transited_encoding) → Spells transited_encoding text.now v
        → Gives transited_encoding_value result (Ok v) }
    ensures first { Gives transited_encoding_value result (reads_all transited_encoding text.now) }
{
    read_all(alloc, text)
}

/// The text of a TransitedEncoding that fits. An error where a growth is refused.
pub fn write_transited_encoding(
    alloc: Global,
    value: &TransitedEncoding,
) -> Result<Vec<u8>, AllocError>
    requires fits { fits transited_encoding (transited_encoding_value value.now) ≡ true }
    ensures text { IfOk result (λ v. v.items
        ≡ text transited_encoding (transited_encoding_value value.now)) }
{
    write_all(alloc, value)
}

/// The sealed part of a ticket (RFC 4120 section 5.3).
#[derive(Drop)]
pub struct EncTicketPart {
    /// Bits [`TICKET_INVALID`](crate::TICKET_INVALID) and
    /// [`TICKET_INITIAL`](crate::TICKET_INITIAL).
    pub flags: KerberosFlags,
    /// The session key.
    pub key: EncryptionKey,
    /// The client's realm.
    pub crealm: GeneralString,
    /// The client.
    pub cname: PrincipalName,
    pub transited: TransitedEncoding,
    pub authtime: KerberosTime,
    /// If absent, `authtime`.
    pub starttime: Option<KerberosTime>,
    pub endtime: KerberosTime,
    pub renew_till: Option<KerberosTime>,
    /// The addresses from which it may be used.
    pub caddr: Option<SequenceOf<HostAddress>>,
    pub authorization_data: Option<AuthorizationData>,
}

impl Element for EncTicketPart {
    ghost shape = { enc_ticket_part };

    ghost value = { enc_ticket_part_value };

    ghost legal = { refl };
}

type PartFields = Application<
    3,
    (
        (
            Required<0, KerberosFlags>,
            Required<1, EncryptionKey>,
            Required<2, GeneralString>,
            Required<3, PrincipalName>,
        ),
        (
            Required<4, TransitedEncoding>,
            Required<5, KerberosTime>,
            Optional<6, KerberosTime>,
        ),
        (Required<7, KerberosTime>, Optional<8, KerberosTime>),
        (
            Optional<9, SequenceOf<HostAddress>>,
            Optional<10, AuthorizationData>,
        ),
    ),
>;

impl Read for EncTicketPart {
    fn read(alloc: Global, region: &mut Region<'_>) -> Result<EncTicketPart, ReadError> {
        let (
            (flags, key, crealm, cname),
            (transited, authtime, starttime),
            (endtime, renew_till),
            (caddr, authorization_data),
        ) = PartFields::read(alloc, region)?;
        Ok(EncTicketPart {
            flags,
            key,
            crealm,
            cname,
            transited,
            authtime,
            starttime,
            endtime,
            renew_till,
            caddr,
            authorization_data,
        })
    }
}

impl Write for EncTicketPart {
    fn write<S: Sink>(&self, sink: &mut S) -> Result<(), AllocError> {
        PartFields::put(
            sink,
            (
                (&self.flags, &self.key, &self.crealm, &self.cname),
                (&self.transited, &self.authtime, &self.starttime),
                (&self.endtime, &self.renew_till),
                (&self.caddr, &self.authorization_data),
            ),
        )
    }
}

/// The EncTicketPart that a whole text spells (RFC 4120 section 5.3), or the first fault.
///
/// `Memory` where a growth is refused.
pub fn read_enc_ticket_part(alloc: Global, text: &[u8]) -> Result<EncTicketPart, ReadError>
    ensures value { IfOk result (λ x. Spells enc_ticket_part text.now (enc_ticket_part_value x)) }
    ensures found { (v : Value enc_ticket_part) → Spells enc_ticket_part text.now v
        → Gives enc_ticket_part_value result (Ok v) }
    ensures first { Gives enc_ticket_part_value result (reads_all enc_ticket_part text.now) }
{
    read_all(alloc, text)
}

/// The text of an EncTicketPart that fits. An error where a growth is refused.
pub fn write_enc_ticket_part(alloc: Global, value: &EncTicketPart) -> Result<Vec<u8>, AllocError>
    requires fits { fits enc_ticket_part (enc_ticket_part_value value.now) ≡ true }
    ensures text { IfOk result (λ v. v.items
        ≡ text enc_ticket_part (enc_ticket_part_value value.now)) }
{
    write_all(alloc, value)
}
