//! Addresses of hosts as messages have them (RFC 4120 section 7.5.3).
ghost use Rattle.std.specs.Prelude.{◌≡◌, ◌≤◌, length, IfOk};
ghost use Rattle.krb_msgs.specs.Addresses as specs_of;
ghost use Rattle.krb_msgs.specs.Addresses.{host_address, octets_of};

use crate::contents::copy_bytes;
use krb_der::HostAddress;
use krb_protocol::{ADDR_TYPE_IPV4, ADDR_TYPE_IPV6};
use std::alloc::{AllocError, Global};
use std::net::IpAddr;

// Whether an address is this host's.
pub(crate) fn is_host(address: &HostAddress, host: IpAddr) -> bool
    ensures value { result ≡ specs_of.is_host host address.now }
{
    match host {
        IpAddr::V4(ip) => is_address(address, ADDR_TYPE_IPV4, &ip.octets()),
        IpAddr::V6(ip) => is_address(address, ADDR_TYPE_IPV6, &ip.octets()),
    }
}

// Whether an address has this type and these bytes.
fn is_address(address: &HostAddress, addr_type: i32, octets: &[u8]) -> bool
    ensures value { result ≡ specs_of.is_address addr_type octets.now address.now }
{
    address.addr_type == addr_type && address.address.as_slice() == octets
}

// A host's address.
pub(crate) fn address_of(alloc: Global, host: IpAddr) -> Result<HostAddress, AllocError>
    ensures value { IfOk result (λ address. address ≡ host_address host) }
    ensures short { IfOk result (λ address. length (octets_of host) ≤ 16) }
{
    match host {
        IpAddr::V4(ip) => typed_address(alloc, ADDR_TYPE_IPV4, &ip.octets()),
        IpAddr::V6(ip) => typed_address(alloc, ADDR_TYPE_IPV6, &ip.octets()),
    }
}

// The address of this type and with these bytes.
fn typed_address(alloc: Global, addr_type: i32, octets: &[u8]) -> Result<HostAddress, AllocError>
    ensures value { IfOk result (λ address. address ≡ record { addr_type = addr_type; address = octets.now }) }
{
    Ok(HostAddress {
        addr_type,
        address: copy_bytes(alloc, octets)?,
    })
}
