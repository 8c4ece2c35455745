//! The contents of INTEGERs (X.690 section 8.3). Their elements are in `numbers`.

ghost use Rattle.std.specs.Prelude.{◌≡◌, ◌≤◌, ◌<◌, ◌∷◌, ◌≤ℤ◌, length, IfOk};
ghost use Rattle.krb_codec.specs.Integers.{integer_in, sequence_number_in, is_shortest_integer, repeats_sign, signed, without_sign};

use crate::fault::{DerFault, FaultKind};

/// The greatest number of bytes that an `i64` fills.
const LONGEST: usize = 8;

const LEAST_SEQUENCE_NUMBER: i64 = -0x8000_0000;

const GREATEST_SEQUENCE_NUMBER: i64 = 0xffff_ffff;

/// The number that the contents of an INTEGER at a place spell (X.690 section 8.3), from `low` to `high`.
///
/// Faults, in this order, each at the element's place: `BadInteger` where the contents are empty or
/// not in their shortest form, `OutOfRange`.
pub fn integer_in(low: i64, high: i64, place: usize, content: &[u8]) -> Result<i64, DerFault>
    ensures value { result ≡ integer_in low high place content.now }
    ensures within { IfOk result (λ n. (low ≤ℤ n) × (n ≤ℤ high)) }
{
    if !is_shortest(content) {
        return Err(DerFault {
            place,
            kind: FaultKind::BadInteger,
        });
    }
    if content.len() <= LONGEST {
        let n = to_signed(content);
        if low <= n && n <= high {
            return Ok(n);
        }
    }
    Err(DerFault {
        place,
        kind: FaultKind::OutOfRange,
    })
}

/// The sequence number that the contents of an INTEGER at a place spell (RFC 4120 section 5.5.1): a negative one is
/// read modulo 2^32.
///
/// Faults as for [`integer_in`], from -2^31 to 2^32 - 1.
pub fn sequence_number_in(place: usize, content: &[u8]) -> Result<u32, DerFault>
    ensures value { result ≡ sequence_number_in place content.now }
{
    let n = integer_in(
        LEAST_SEQUENCE_NUMBER,
        GREATEST_SEQUENCE_NUMBER,
        place,
        content,
    )?;
    Ok(n.rem_euclid(0x1_0000_0000) as u32)
}

/// The bytes without the leading ones that only repeat the sign: of a number's bytes, high byte first, the contents of
/// its INTEGER.
pub fn without_sign(bytes: &[u8]) -> &[u8]
    ensures value { result.now ≡ without_sign bytes.now }
    ensures within { length result.now ≤ length bytes.now }
{
    match bytes {
        [first, rest @ ..] if repeats_sign(*first, rest) => without_sign(rest),
        _ => bytes,
    }
}

fn is_shortest(content: &[u8]) -> bool
    ensures { result ≡ is_shortest_integer content.now }
{
    match content {
        [] => false,
        [first, rest @ ..] => !repeats_sign(*first, rest),
    }
}

fn repeats_sign(first: u8, rest: &[u8]) -> bool
    ensures { result ≡ repeats_sign first rest.now }
{
    match rest {
        [] => false,
        [second, ..] => first == 0 && *second < 0x80 || first == 0xff && *second >= 0x80,
    }
}

/// The number in two's complement.
fn to_signed(content: &[u8]) -> i64
    requires { length content.now ≤ LONGEST }
    ensures { result ≡ signed content.now }
{
    match content {
        [] => 0,
        [first, rest @ ..] => signed_from(*first, rest),
    }
}

/// The number in two's complement whose first byte has the sign.
fn signed_from(first: u8, rest: &[u8]) -> i64
    requires { length rest.now < LONGEST }
    ensures { result ≡ signed (first ∷ rest.now) }
{
    let mut n = i64::from(first.cast_signed());
    for byte in rest {
        n = 256 * n + i64::from(*byte);
    }
    n
}
