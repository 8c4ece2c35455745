//! Names of principals (RFC 4120 section 5.2.2).

ghost use Rattle.std.specs.Prelude.{◌≡◌, refl, true, IfOk, Ok};
ghost use Rattle.krb_codec.specs.Shapes.{Value};
ghost use Rattle.krb_der.specs.Types.{principal_name};
ghost use Rattle.krb_der.specs.Values.{principal_name_value};
ghost use Rattle.krb_codec.specs.Grammar.{Spells};
ghost use Rattle.krb_codec.specs.Reading.{Gives, reads_all};
ghost use Rattle.krb_codec.specs.Texts.{text, fits};

use krb_codec::{
    Element, GeneralString, Layout, Read, ReadError, Region, Required, Sequence, SequenceOf, Sink,
    Write, read_all, write_all,
};
use std::alloc::{AllocError, Global};

/// A name of a principal, without its realm (RFC 4120 section 5.2.2).
#[derive(Drop)]
pub struct PrincipalName {
    /// What kind of name it is; no part of its identity.
    pub name_type: i32,
    pub name_string: SequenceOf<GeneralString>,
}

impl Element for PrincipalName {
    ghost shape = { principal_name };

    ghost value = { principal_name_value };

    ghost legal = { refl };
}

type Fields = Sequence<(Required<0, i32>, Required<1, SequenceOf<GeneralString>>)>;

impl Read for PrincipalName {
    fn read(alloc: Global, region: &mut Region<'_>) -> Result<PrincipalName, ReadError> {
        let (name_type, name_string) = Fields::read(alloc, region)?;
        Ok(PrincipalName {
            name_type,
            name_string,
        })
    }
}

impl Write for PrincipalName {
    fn write<S: Sink>(&self, sink: &mut S) -> Result<(), AllocError> {
        Fields::put(sink, (&self.name_type, &self.name_string))
    }
}

/// The PrincipalName that a whole text spells (RFC 4120 section 5.2.2), or the first fault.
///
/// `Memory` where a growth is refused.
pub fn read_principal_name(alloc: Global, text: &[u8]) -> Result<PrincipalName, ReadError>
    ensures value { IfOk result (λ x. Spells principal_name text.now (principal_name_value x)) }
    ensures found { (v : Value principal_name) → Spells principal_name text.now v
        → Gives principal_name_value result (Ok v) }
    ensures first { Gives principal_name_value result (reads_all principal_name text.now) }
{
    read_all(alloc, text)
}

/// The text of a PrincipalName that fits. An error where a growth is refused.
pub fn write_principal_name(alloc: Global, value: &PrincipalName) -> Result<Vec<u8>, AllocError>
    requires fits { fits principal_name (principal_name_value value.now) ≡ true }
    ensures text { IfOk result (λ v. v.items
        ≡ text principal_name (principal_name_value value.now)) }
{
    write_all(alloc, value)
}
