//! KRB-ERROR (RFC 4120 section 5.9.1).

ghost use Rattle.std.specs.Prelude.{◌≡◌, refl, true, IfOk, Ok};
ghost use Rattle.krb_codec.specs.Shapes.{Value};
ghost use Rattle.krb_der.specs.Types.{krb_error};
ghost use Rattle.krb_der.specs.Values.{krb_error_value};
ghost use Rattle.krb_codec.specs.Grammar.{Spells};
ghost use Rattle.krb_codec.specs.Reading.{Gives, reads_all};
ghost use Rattle.krb_codec.specs.Texts.{text, fits};

use crate::principal_name::PrincipalName;
use krb_codec::{
    Application, Element, GeneralString, KerberosTime, Layout, Microseconds, OctetString, Optional,
    Read, ReadError, Region, Required, Sink, Write, read_all, write_all,
};
use std::alloc::{AllocError, Global};

/// An error message (RFC 4120 section 5.9.1).
#[derive(Drop)]
pub struct KrbError {
    /// [`PVNO`](crate::PVNO).
    pub pvno: i32,
    /// [`KRB_ERROR`](crate::KRB_ERROR).
    pub msg_type: i32,
    /// The client's time.
    pub ctime: Option<KerberosTime>,
    pub cusec: Option<Microseconds>,
    /// The server's time.
    pub stime: KerberosTime,
    pub susec: Microseconds,
    pub error_code: i32,
    /// The client's realm.
    pub crealm: Option<GeneralString>,
    /// The client.
    pub cname: Option<PrincipalName>,
    /// The service's realm.
    pub realm: GeneralString,
    /// The service.
    pub sname: PrincipalName,
    pub e_text: Option<GeneralString>,
    pub e_data: Option<OctetString>,
}

impl Element for KrbError {
    ghost shape = { krb_error };

    ghost value = { krb_error_value };

    ghost legal = { refl };
}

type Fields = Application<
    30,
    (
        (
            Required<0, i32>,
            Required<1, i32>,
            Optional<2, KerberosTime>,
            Optional<3, Microseconds>,
        ),
        (
            Required<4, KerberosTime>,
            Required<5, Microseconds>,
            Required<6, i32>,
        ),
        (
            Optional<7, GeneralString>,
            Optional<8, PrincipalName>,
            Required<9, GeneralString>,
            Required<10, PrincipalName>,
        ),
        (Optional<11, GeneralString>, Optional<12, OctetString>),
    ),
>;

impl Read for KrbError {
    fn read(alloc: Global, region: &mut Region<'_>) -> Result<KrbError, ReadError> {
        let (
            (pvno, msg_type, ctime, cusec),
            (stime, susec, error_code),
            (crealm, cname, realm, sname),
            (e_text, e_data),
        ) = Fields::read(alloc, region)?;
        Ok(KrbError {
            pvno,
            msg_type,
            ctime,
            cusec,
            stime,
            susec,
            error_code,
            crealm,
            cname,
            realm,
            sname,
            e_text,
            e_data,
        })
    }
}

impl Write for KrbError {
    fn write<S: Sink>(&self, sink: &mut S) -> Result<(), AllocError> {
        Fields::put(
            sink,
            (
                (&self.pvno, &self.msg_type, &self.ctime, &self.cusec),
                (&self.stime, &self.susec, &self.error_code),
                (&self.crealm, &self.cname, &self.realm, &self.sname),
                (&self.e_text, &self.e_data),
            ),
        )
    }
}

/// The KrbError that a whole text spells (RFC 4120 section 5.9.1), or the first fault.
///
/// `Memory` where a growth is refused.
pub fn read_krb_error(alloc: Global, text: &[u8]) -> Result<KrbError, ReadError>
    ensures value { IfOk result (λ x. Spells krb_error text.now (krb_error_value x)) }
    ensures found { (v : Value krb_error) → Spells krb_error text.now v
        → Gives krb_error_value result (Ok v) }
    ensures first { Gives krb_error_value result (reads_all krb_error text.now) }
{
    read_all(alloc, text)
}

/// The text of a KrbError that fits. An error where a growth is refused.
pub fn write_krb_error(alloc: Global, value: &KrbError) -> Result<Vec<u8>, AllocError>
    requires fits { fits krb_error (krb_error_value value.now) ≡ true }
    ensures text { IfOk result (λ v. v.items ≡ text krb_error (krb_error_value value.now)) }
{
    write_all(alloc, value)
}
