//! AP-REQ (RFC 4120 section 5.5.1).

ghost use Rattle.std.specs.Prelude.{◌≡◌, refl, true, IfOk, Ok};
ghost use Rattle.krb_codec.specs.Shapes.{Value};
ghost use Rattle.krb_der.specs.Types.{ap_req};
ghost use Rattle.krb_der.specs.Values.{ap_req_value};
ghost use Rattle.krb_codec.specs.Grammar.{Spells};
ghost use Rattle.krb_codec.specs.Reading.{Gives, reads_all};
ghost use Rattle.krb_codec.specs.Texts.{text, fits};

use crate::encrypted_data::EncryptedData;
use crate::ticket::Ticket;
use krb_codec::{
    Application, Element, KerberosFlags, Layout, Read, ReadError, Region, Required, Sink, Write,
    read_all, write_all,
};
use std::alloc::{AllocError, Global};

/// A request of a client to a service (RFC 4120 section 5.5.1).
#[derive(Drop)]
pub struct ApReq {
    /// [`PVNO`](crate::PVNO).
    pub pvno: i32,
    /// [`KRB_AP_REQ`](crate::KRB_AP_REQ).
    pub msg_type: i32,
    /// Bits [`USE_SESSION_KEY`](crate::USE_SESSION_KEY) and
    /// [`MUTUAL_REQUIRED`](crate::MUTUAL_REQUIRED).
    pub ap_options: KerberosFlags,
    pub ticket: Ticket,
    /// An [`Authenticator`](crate::Authenticator) under the session key.
    pub authenticator: EncryptedData,
}

impl Element for ApReq {
    ghost shape = { ap_req };

    ghost value = { ap_req_value };

    ghost legal = { refl };
}

type Fields = Application<
    14,
    (
        Required<0, i32>,
        Required<1, i32>,
        Required<2, KerberosFlags>,
        (Required<3, Ticket>, Required<4, EncryptedData>),
    ),
>;

impl Read for ApReq {
    fn read(alloc: Global, region: &mut Region<'_>) -> Result<ApReq, ReadError> {
        let fields = Fields::read(alloc, region)?;
        let (pvno, msg_type, ap_options, (ticket, authenticator)) = fields;
        Ok(ApReq {
            pvno,
            msg_type,
            ap_options,
            ticket,
            authenticator,
        })
    }
}

impl Write for ApReq {
    fn write<S: Sink>(&self, sink: &mut S) -> Result<(), AllocError> {
        Fields::put(
            sink,
            (
                &self.pvno,
                &self.msg_type,
                &self.ap_options,
                (&self.ticket, &self.authenticator),
            ),
        )
    }
}

/// The ApReq that a whole text spells (RFC 4120 section 5.5.1), or the first fault.
///
/// `Memory` where a growth is refused.
pub fn read_ap_req(alloc: Global, text: &[u8]) -> Result<ApReq, ReadError>
    ensures value { IfOk result (λ x. Spells ap_req text.now (ap_req_value x)) }
    ensures found { (v : Value ap_req) → Spells ap_req text.now v
        → Gives ap_req_value result (Ok v) }
    ensures first { Gives ap_req_value result (reads_all ap_req text.now) }
{
    read_all(alloc, text)
}

/// The text of an ApReq that fits. An error where a growth is refused.
pub fn write_ap_req(alloc: Global, value: &ApReq) -> Result<Vec<u8>, AllocError>
    requires fits { fits ap_req (ap_req_value value.now) ≡ true }
    ensures text { IfOk result (λ v. v.items ≡ text ap_req (ap_req_value value.now)) }
{
    write_all(alloc, value)
}
