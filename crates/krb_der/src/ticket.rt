//! Tickets (RFC 4120 section 5.3).

ghost use Rattle.std.specs.Prelude.{◌≡◌, refl, true, IfOk, Ok};
ghost use Rattle.krb_codec.specs.Shapes.{Value};
ghost use Rattle.krb_der.specs.Types.{ticket};
ghost use Rattle.krb_der.specs.Values.{ticket_value};
ghost use Rattle.krb_codec.specs.Grammar.{Spells};
ghost use Rattle.krb_codec.specs.Reading.{Gives, reads_all};
ghost use Rattle.krb_codec.specs.Texts.{text, fits};

use crate::encrypted_data::EncryptedData;
use crate::principal_name::PrincipalName;
use krb_codec::{
    Application, Element, GeneralString, Layout, Read, ReadError, Region, Required, Sink, Write,
    read_all, write_all,
};
use std::alloc::{AllocError, Global};

/// A ticket (RFC 4120 section 5.3).
#[derive(Drop)]
pub struct Ticket {
    /// [`PVNO`](crate::PVNO).
    pub tkt_vno: i32,
    /// The service's realm.
    pub realm: GeneralString,
    /// The service.
    pub sname: PrincipalName,
    /// An [`EncTicketPart`](crate::EncTicketPart) under the service's key.
    pub enc_part: EncryptedData,
}

impl Element for Ticket {
    ghost shape = { ticket };

    ghost value = { ticket_value };

    ghost legal = { refl };
}

type Fields = Application<
    1,
    (
        Required<0, i32>,
        Required<1, GeneralString>,
        Required<2, PrincipalName>,
        Required<3, EncryptedData>,
    ),
>;

impl Read for Ticket {
    fn read(alloc: Global, region: &mut Region<'_>) -> Result<Ticket, ReadError> {
        let (tkt_vno, realm, sname, enc_part) = Fields::read(alloc, region)?;
        Ok(Ticket {
            tkt_vno,
            realm,
            sname,
            enc_part,
        })
    }
}

impl Write for Ticket {
    fn write<S: Sink>(&self, sink: &mut S) -> Result<(), AllocError> {
        Fields::put(
            sink,
            (&self.tkt_vno, &self.realm, &self.sname, &self.enc_part),
        )
    }
}

/// The Ticket that a whole text spells (RFC 4120 section 5.3), or the first fault.
///
/// `Memory` where a growth is refused.
pub fn read_ticket(alloc: Global, text: &[u8]) -> Result<Ticket, ReadError>
    ensures value { IfOk result (λ x. Spells ticket text.now (ticket_value x)) }
    ensures found { (v : Value ticket) → Spells ticket text.now v
        → Gives ticket_value result (Ok v) }
    ensures first { Gives ticket_value result (reads_all ticket text.now) }
{
    read_all(alloc, text)
}

/// The text of a Ticket that fits. An error where a growth is refused.
pub fn write_ticket(alloc: Global, value: &Ticket) -> Result<Vec<u8>, AllocError>
    requires fits { fits ticket (ticket_value value.now) ≡ true }
    ensures text { IfOk result (λ v. v.items ≡ text ticket (ticket_value value.now)) }
{
    write_all(alloc, value)
}
