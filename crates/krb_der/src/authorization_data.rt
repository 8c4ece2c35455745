//! Authorization data (RFC 4120 section 5.2.6).

ghost use Rattle.std.specs.Prelude.{◌≡◌, refl, true, IfOk, Ok};
ghost use Rattle.krb_codec.specs.Shapes.{Value};
ghost use Rattle.krb_der.specs.Types.{authorization_data, authorization_entry};
ghost use Rattle.krb_der.specs.Values.{authorization_data_value, authorization_entry_value};
ghost use Rattle.krb_codec.specs.Grammar.{Spells};
ghost use Rattle.krb_codec.specs.Reading.{Gives, reads_all};
ghost use Rattle.krb_codec.specs.Texts.{text, fits};

use crate::typed_octets::TypedOctets;
use krb_codec::{
    Element, Layout, OctetString, Read, ReadError, Region, SequenceOf, Sink, Write, read_all,
    write_all,
};
use std::alloc::{AllocError, Global};

/// An element of authorization data (RFC 4120 section 5.2.6).
#[derive(Drop)]
pub struct AuthorizationEntry {
    pub ad_type: i32,
    pub ad_data: OctetString,
}

/// Authorization data (RFC 4120 section 5.2.6).
pub type AuthorizationData = SequenceOf<AuthorizationEntry>;

impl Element for AuthorizationEntry {
    ghost shape = { authorization_entry };

    ghost value = { authorization_entry_value };

    ghost legal = { refl };
}

impl Read for AuthorizationEntry {
    fn read(alloc: Global, region: &mut Region<'_>) -> Result<AuthorizationEntry, ReadError> {
        let (ad_type, ad_data) = TypedOctets::read(alloc, region)?;
        Ok(AuthorizationEntry { ad_type, ad_data })
    }
}

impl Write for AuthorizationEntry {
    fn write<S: Sink>(&self, sink: &mut S) -> Result<(), AllocError> {
        TypedOctets::put(sink, (&self.ad_type, &self.ad_data))
    }
}

/// The AuthorizationData that a whole text spells (RFC 4120 section 5.2.6), or the first fault.
///
/// `Memory` where a growth is refused.
pub fn read_authorization_data(alloc: Global, text: &[u8]) -> Result<AuthorizationData, ReadError>
    ensures value { IfOk result (λ x. Spells authorization_data
        text.now (authorization_data_value x)) }
    ensures found { (v : Value authorization_data) → Spells authorization_data text.now v
        → Gives authorization_data_value result (Ok v) }
    ensures first { Gives authorization_data_value result (reads_all authorization_data text.now) }
{
    read_all(alloc, text)
}

/// The text of an AuthorizationData that fits. An error where a growth is refused.
pub fn write_authorization_data(
    alloc: Global,
    value: &AuthorizationData,
) -> Result<Vec<u8>, AllocError>
    requires fits { fits authorization_data (authorization_data_value value.now) ≡ true }
    ensures text { IfOk result (λ v. v.items
        ≡ text authorization_data (authorization_data_value value.now)) }
{
    write_all(alloc, value)
}
