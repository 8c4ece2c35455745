//! The contents of BIT STRINGs of 32 flags (X.690 section 8.6, RFC 4120 section 5.2.8). Their
//! element is in `flags`.

ghost use Rattle.std.specs.Prelude.{◌≡◌, ◌<◌, slice_index};
ghost use Rattle.krb_codec.specs.BitStrings.{bits_in, bits_octets, ends_in_zeros, first_word};

use crate::fault::{DerFault, FaultKind};

/// The flags that the contents of a BIT STRING at a place spell: its first 32 bits, of which bit 0 is the highest of
/// the number. Missing ones are 0, later ones are ignored.
///
/// `BadInteger` at the place where the first byte isn't 0 to 7, isn't 0 although no byte follows, or counts a bit of
/// the last byte that is set.
#[tactic(auto, unfolding(crate::specs::BitStrings::bits_in))]
pub fn bits_in(place: usize, content: &[u8]) -> Result<u32, DerFault>
    ensures { result ≡ bits_in place content.now }
{
    match content {
        [unused, bytes @ ..] if *unused < 8 && ends_in_zeros(*unused, bytes) => {
            Ok(first_word(bytes))
        }
        _ => Err(DerFault {
            place,
            kind: FaultKind::BadInteger,
        }),
    }
}

/// The contents of the BIT STRING of 32 flags, bit 0 the number's highest.
#[tactic(auto, unfolding(crate::specs::BitStrings::bits_octets))]
pub fn bits_octets(flags: u32) -> [u8; 5]
    ensures { result ≡ bits_octets flags }
{
    let [a, b, c, d] = flags.to_be_bytes();
    [0, a, b, c, d]
}

#[tactic(auto, unfolding(crate::specs::BitStrings::ends_in_zeros))]
fn ends_in_zeros(unused: u8, bytes: &[u8]) -> bool
    requires { unused < 8 }
    ensures { result ≡ ends_in_zeros unused bytes.now }
{
    match bytes {
        [] => unused == 0,
        [.., last] => *last % (1 << unused) == 0,
    }
}

#[tactic(auto, using(crate::proofs::BitStringLemmas::first_word_is))]
fn first_word(bytes: &[u8]) -> u32
    ensures { result ≡ first_word bytes.now }
{
    u32::from_be_bytes([
        byte_at(bytes, 0),
        byte_at(bytes, 1),
        byte_at(bytes, 2),
        byte_at(bytes, 3),
    ])
}

/// A byte, or 0 after the last one.
fn byte_at(bytes: &[u8], i: usize) -> u8
    ensures { result ≡ slice_index bytes.now i }
{
    if i < bytes.len() { bytes[i] } else { 0 }
}
