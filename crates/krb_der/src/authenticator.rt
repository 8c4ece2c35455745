//! Authenticators (RFC 4120 section 5.5.1).

ghost use Rattle.std.specs.Prelude.{◌≡◌, refl, true, IfOk, Ok};
ghost use Rattle.krb_codec.specs.Shapes.{Value};
ghost use Rattle.krb_der.specs.Types.{authenticator};
ghost use Rattle.krb_der.specs.Values.{authenticator_value};
ghost use Rattle.krb_codec.specs.Grammar.{Spells};
ghost use Rattle.krb_codec.specs.Reading.{Gives, reads_all};
ghost use Rattle.krb_codec.specs.Texts.{text, fits};

use crate::authorization_data::AuthorizationData;
use crate::encrypted_data::{Checksum, EncryptionKey};
use crate::principal_name::PrincipalName;
use krb_codec::{
    Application, Element, GeneralString, KerberosTime, Layout, Microseconds, Optional, Read,
    ReadError, Region, Required, SeqNumber, Sink, Write, read_all, write_all,
};
use std::alloc::{AllocError, Global};

/// What proves that a client knows the session key (RFC 4120 section 5.5.1).
#[derive(Drop)]
pub struct Authenticator {
    /// [`PVNO`](crate::PVNO).
    pub authenticator_vno: i32,
    /// The client's realm.
    pub crealm: GeneralString,
    /// The client.
    pub cname: PrincipalName,
    pub cksum: Option<Checksum>,
    /// The microseconds of `ctime`.
    pub cusec: Microseconds,
    /// The client's time.
    pub ctime: KerberosTime,
    pub subkey: Option<EncryptionKey>,
    pub seq_number: Option<SeqNumber>,
    pub authorization_data: Option<AuthorizationData>,
}

impl Element for Authenticator {
    ghost shape = { authenticator };

    ghost value = { authenticator_value };

    ghost legal = { refl };
}

type Fields = Application<
    2,
    (
        Required<0, i32>,
        (
            Required<1, GeneralString>,
            Required<2, PrincipalName>,
            Optional<3, Checksum>,
        ),
        (Required<4, Microseconds>, Required<5, KerberosTime>),
        (
            Optional<6, EncryptionKey>,
            Optional<7, SeqNumber>,
            Optional<8, AuthorizationData>,
        ),
    ),
>;

impl Read for Authenticator {
    fn read(alloc: Global, region: &mut Region<'_>) -> Result<Authenticator, ReadError> {
        let (
            authenticator_vno,
            (crealm, cname, cksum),
            (cusec, ctime),
            (subkey, seq_number, authorization_data),
        ) = Fields::read(alloc, region)?;
        Ok(Authenticator {
            authenticator_vno,
            crealm,
            cname,
            cksum,
            cusec,
            ctime,
            subkey,
            seq_number,
            authorization_data,
        })
    }
}

impl Write for Authenticator {
    fn write<S: Sink>(&self, sink: &mut S) -> Result<(), AllocError> {
        Fields::put(
            sink,
            (
                &self.authenticator_vno,
                (&self.crealm, &self.cname, &self.cksum),
                (&self.cusec, &self.ctime),
                (&self.subkey, &self.seq_number, &self.authorization_data),
            ),
        )
    }
}

/// The Authenticator that a whole text spells (RFC 4120 section 5.5.1), or the first fault.
///
/// `Memory` where a growth is refused.
pub fn read_authenticator(alloc: Global, text: &[u8]) -> Result<Authenticator, ReadError>
    ensures value { IfOk result (λ x. Spells authenticator text.now (authenticator_value x)) }
    ensures found { (v : Value authenticator) → Spells authenticator text.now v
        → Gives authenticator_value result (Ok v) }
    ensures first { Gives authenticator_value result (reads_all authenticator text.now) }
{
    read_all(alloc, text)
}

/// The text of an Authenticator that fits. An error where a growth is refused.
pub fn write_authenticator(alloc: Global, value: &Authenticator) -> Result<Vec<u8>, AllocError>
    requires fits { fits authenticator (authenticator_value value.now) ≡ true }
    ensures text { IfOk result (λ v. v.items ≡ text authenticator (authenticator_value value.now)) }
{
    write_all(alloc, value)
}
