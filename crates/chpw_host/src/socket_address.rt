//! The address of a Unix socket (unix(7)).
ghost use Rattle.std.specs.Prelude.{◌≡◌, ◌+◌, ◌≤◌, length, option_map};
ghost use Rattle.chpw_host.specs.SocketAddresses as specs_of;

use libc::net::{_SS_SIZE, AF_UNIX};

/// The most bytes in a name: with the zero after a path there are 108.
const LONGEST_NAME: usize = 107;

/// The first byte of a path.
const PATH: u8 = b'/';

/// What stands in a name for the zero that begins one of the abstract namespace.
const ABSTRACT: u8 = b'@';

/// C's `sockaddr_un` in a buffer, and how many of its bytes count.
#[derive(Clone, Copy, Drop)]
pub(crate) struct Address {
    pub raw: [u8; _SS_SIZE],
    pub length: u32,
    ghost fits: { length ≤ 128 },
}

/// The address of this name: an absolute path, or `@` and a name in Linux's abstract namespace. None for any other name,
/// and for one of more than 107 bytes.
pub(crate) fn address_of(name: &[u8]) -> Option<Address>
    ensures value { option_map (λ a. (a.raw, a.length)) result ≡ specs_of.address_of name.now }
{
    let [first, rest @ ..] = name else {
        return None;
    };
    if rest.len() >= LONGEST_NAME {
        return None;
    }
    match *first {
        PATH => Some(address_with(2, name)),
        ABSTRACT => Some(address_with(3, rest)),
        _ => None,
    }
}

// The address with this text from this byte on, after the family: with the zero after it, or before it.
fn address_with(at: usize, text: &[u8]) -> Address
    requires at { at ≤ 3 }
    requires fits { length text.now ≤ 107 }
    ensures value { (result.raw, result.length) ≡ specs_of.filled at text.now }
{
    let mut raw = [0; _SS_SIZE];
    put(&mut raw, 0, &(AF_UNIX as u16).to_ne_bytes());
    put(&mut raw, at, text);
    Address {
        raw,
        length: text.len() as u32 + 3,
    }
}

/// Writes these bytes over others, from this one on.
pub(crate) fn put(raw: &mut [u8], at: usize, bytes: &[u8])
    requires fits { at + length bytes.now ≤ length raw.old }
    ensures value { raw.new ≡ specs_of.put raw.old at bytes.now }
{
    raw[at..at + bytes.len()].copy_from_slice(bytes);
}
