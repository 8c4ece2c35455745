//! Addresses of hosts (RFC 4120 section 5.2.5).

ghost use Rattle.std.specs.Prelude.{◌≡◌, refl, true, IfOk, Ok};
ghost use Rattle.krb_codec.specs.Shapes.{Value};
ghost use Rattle.krb_der.specs.Types.{host_address};
ghost use Rattle.krb_der.specs.Values.{host_address_value};
ghost use Rattle.krb_codec.specs.Grammar.{Spells};
ghost use Rattle.krb_codec.specs.Reading.{Gives, reads_all};
ghost use Rattle.krb_codec.specs.Texts.{text, fits};

use crate::typed_octets::TypedOctets;
use krb_codec::{
    Element, Layout, OctetString, Read, ReadError, Region, Sink, Write, read_all, write_all,
};
use std::alloc::{AllocError, Global};

/// An address of a host (RFC 4120 section 5.2.5).
#[derive(Drop)]
pub struct HostAddress {
    /// 2 for IPv4.
    pub addr_type: i32,
    /// High byte first.
    pub address: OctetString,
}

impl Element for HostAddress {
    ghost shape = { host_address };

    ghost value = { host_address_value };

    ghost legal = { refl };
}

impl Read for HostAddress {
    fn read(alloc: Global, region: &mut Region<'_>) -> Result<HostAddress, ReadError> {
        let (addr_type, address) = TypedOctets::read(alloc, region)?;
        Ok(HostAddress { addr_type, address })
    }
}

impl Write for HostAddress {
    fn write<S: Sink>(&self, sink: &mut S) -> Result<(), AllocError> {
        TypedOctets::put(sink, (&self.addr_type, &self.address))
    }
}

/// The HostAddress that a whole text spells (RFC 4120 section 5.2.5), or the first fault.
///
/// `Memory` where a growth is refused.
pub fn read_host_address(alloc: Global, text: &[u8]) -> Result<HostAddress, ReadError>
    ensures value { IfOk result (λ x. Spells host_address text.now (host_address_value x)) }
    ensures found { (v : Value host_address) → Spells host_address text.now v
        → Gives host_address_value result (Ok v) }
    ensures first { Gives host_address_value result (reads_all host_address text.now) }
{
    read_all(alloc, text)
}

/// The text of a HostAddress that fits. An error where a growth is refused.
pub fn write_host_address(alloc: Global, value: &HostAddress) -> Result<Vec<u8>, AllocError>
    requires fits { fits host_address (host_address_value value.now) ≡ true }
    ensures text { IfOk result (λ v. v.items ≡ text host_address (host_address_value value.now)) }
{
    write_all(alloc, value)
}
