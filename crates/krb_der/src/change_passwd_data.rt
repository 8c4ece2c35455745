//! ChangePasswdData (RFC 3244 section 2).

ghost use Rattle.std.specs.Prelude.{◌≡◌, refl, true, IfOk, Ok};
ghost use Rattle.krb_codec.specs.Shapes.{Value};
ghost use Rattle.krb_der.specs.Types.{change_passwd_data};
ghost use Rattle.krb_der.specs.Values.{change_passwd_data_value};
ghost use Rattle.krb_codec.specs.Grammar.{Spells};
ghost use Rattle.krb_codec.specs.Reading.{Gives, reads_all};
ghost use Rattle.krb_codec.specs.Texts.{text, fits};

use crate::principal_name::PrincipalName;
use krb_codec::{
    Element, ExtensibleSequence, GeneralString, Layout, OctetString, Optional, Read, ReadError,
    Region, Required, Sink, Write, read_all, write_all,
};
use std::alloc::{AllocError, Global};

/// The tags of fields that later versions may add.
const FIRST_FURTHER: u8 = 0xa3;

const LAST_FURTHER: u8 = 0xbe;

/// The new password, and whose it is (RFC 3244 section 2). Further fields, which later versions may add, are skipped
/// and not kept.
#[derive(Drop)]
pub struct ChangePasswdData {
    pub newpasswd: OctetString,
    /// If absent, the client.
    pub targname: Option<PrincipalName>,
    pub targrealm: Option<GeneralString>,
}

impl Element for ChangePasswdData {
    ghost shape = { change_passwd_data };

    ghost value = { change_passwd_data_value };

    ghost legal = { refl };
}

type Fields = ExtensibleSequence<
    FIRST_FURTHER,
    LAST_FURTHER,
    (
        Required<0, OctetString>,
        Optional<1, PrincipalName>,
        Optional<2, GeneralString>,
    ),
>;

impl Read for ChangePasswdData {
    fn read(alloc: Global, region: &mut Region<'_>) -> Result<ChangePasswdData, ReadError> {
        let fields = Fields::read(alloc, region)?;
        let (newpasswd, targname, targrealm) = fields;
        Ok(ChangePasswdData {
            newpasswd,
            targname,
            targrealm,
        })
    }
}

impl Write for ChangePasswdData {
    fn write<S: Sink>(&self, sink: &mut S) -> Result<(), AllocError> {
        Fields::put(sink, (&self.newpasswd, &self.targname, &self.targrealm))
    }
}

/// The ChangePasswdData that a whole text spells (RFC 3244 section 2), or the first fault.
///
/// `Memory` where a growth is refused.
pub fn read_change_passwd_data(alloc: Global, text: &[u8]) -> Result<ChangePasswdData, ReadError>
    ensures value { IfOk result (λ x. Spells change_passwd_data
        text.now (change_passwd_data_value x)) }
    ensures found { (v : Value change_passwd_data) → Spells change_passwd_data text.now v
        → Gives change_passwd_data_value result (Ok v) }
    ensures first { Gives change_passwd_data_value result (reads_all change_passwd_data text.now) }
{
    read_all(alloc, text)
}

/// The text of a ChangePasswdData that fits. An error where a growth is refused.
pub fn write_change_passwd_data(
    alloc: Global,
    value: &ChangePasswdData,
) -> Result<Vec<u8>, AllocError>
    requires fits { fits change_passwd_data (change_passwd_data_value value.now) ≡ true }
    ensures text { IfOk result (λ v. v.items
        ≡ text change_passwd_data (change_passwd_data_value value.now)) }
{
    write_all(alloc, value)
}
