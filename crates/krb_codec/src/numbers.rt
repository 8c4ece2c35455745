//! INTEGERs as elements: Int32, UInt32, Microseconds (RFC 4120 section 5.2.4) and sequence numbers
//! (section 5.5.1). Their contents are in `integer`.

ghost use Rattle.std.specs.Prelude.{◌≤ℤ◌, IfOk, refl, pos};
ghost use Rattle.krb_codec.specs.Shapes.{primitive, integer, int32, uint32, microseconds, seq_number};
ghost use Rattle.krb_codec.specs.Reading.{Gives, reads};
ghost use Rattle.krb_codec.specs.Sinks.{puts};

use crate::element::Element;
use crate::fault::ReadError;
use crate::integer::{integer_in, sequence_number_in, without_sign};
use crate::reading::Read;
use crate::region::Region;
use crate::sink::Sink;
use crate::tag::INTEGER;
use crate::writing::Write;
use std::alloc::{AllocError, Global};

const MICROSECONDS: u32 = 1_000_000;

/// Microseconds, 0 to 999,999 on the wire (RFC 4120 section 5.2.4).
#[derive(Clone, Copy, PartialEq, Eq)]
pub struct Microseconds(pub u32);

/// A sequence number (RFC 4120 section 5.5.1). One that is negative on the wire is read modulo 2^32.
#[derive(Clone, Copy, PartialEq, Eq)]
pub struct SeqNumber(pub u32);

impl Element for i32 {
    ghost shape = { int32 };

    ghost value = { λ n. n };

    ghost legal = { refl };
}

impl Read for i32 {
    fn read(_alloc: Global, region: &mut Region<'_>) -> Result<i32, ReadError> {
        let n = read_integer(region, i64::from(i32::MIN), i64::from(i32::MAX))?;
        Ok(n as i32)
    }
}

impl Write for i32 {
    #[tactic(auto, unfolding(crate::specs::Sinks::puts, crate::specs::Integers::integer_octets))]
    fn write<S: Sink>(&self, sink: &mut S) -> Result<(), AllocError> {
        sink.put(INTEGER, without_sign(&i64::from(*self).to_be_bytes()), true)
    }
}

impl Element for u32 {
    ghost shape = { uint32 };

    ghost value = { λ n. pos n };

    ghost legal = { refl };
}

impl Read for u32 {
    fn read(_alloc: Global, region: &mut Region<'_>) -> Result<u32, ReadError> {
        let n = read_integer(region, 0, i64::from(u32::MAX))?;
        Ok(n as u32)
    }
}

impl Write for u32 {
    #[tactic(auto, unfolding(crate::specs::Sinks::puts, crate::specs::Integers::integer_octets))]
    fn write<S: Sink>(&self, sink: &mut S) -> Result<(), AllocError> {
        sink.put(INTEGER, without_sign(&i64::from(*self).to_be_bytes()), true)
    }
}

impl Element for Microseconds {
    ghost shape = { microseconds };

    ghost value = { λ m. pos m.0 };

    ghost legal = { refl };
}

impl Read for Microseconds {
    fn read(_alloc: Global, region: &mut Region<'_>) -> Result<Microseconds, ReadError> {
        let n = read_integer(region, 0, 999_999)?;
        Ok(Microseconds(n as u32))
    }
}

impl Write for Microseconds {
    #[tactic(auto, unfolding(crate::specs::Sinks::puts, crate::specs::Integers::integer_octets))]
    fn write<S: Sink>(&self, sink: &mut S) -> Result<(), AllocError> {
        let octets = i64::from(self.0).to_be_bytes();
        sink.put(INTEGER, without_sign(&octets), self.0 < MICROSECONDS)
    }
}

impl Element for SeqNumber {
    ghost shape = { seq_number };

    ghost value = { λ n. n.0 };

    ghost legal = { refl };
}

impl Read for SeqNumber {
    #[tactic(auto, unfolding(crate::specs::Reading::reads))]
    fn read(_alloc: Global, region: &mut Region<'_>) -> Result<SeqNumber, ReadError> {
        let place = region.place();
        let content = region.element(INTEGER)?;
        Ok(SeqNumber(sequence_number_in(place, content.rest())?))
    }
}

impl Write for SeqNumber {
    #[tactic(auto, unfolding(crate::specs::Sinks::puts, crate::specs::Integers::integer_octets))]
    fn write<S: Sink>(&self, sink: &mut S) -> Result<(), AllocError> {
        sink.put(
            INTEGER,
            without_sign(&i64::from(self.0).to_be_bytes()),
            true,
        )
    }
}

/// Takes the INTEGER that is next, of a number from `low` to `high`.
#[tactic(auto, unfolding(crate::specs::Reading::reads))]
fn read_integer(region: &mut Region<'_>, low: i64, high: i64) -> Result<i64, ReadError>
    ensures read { Gives (λ n. (n, region.new)) result
        (reads (primitive (integer low high)) region.old) }
    ensures within { IfOk result (λ n. (low ≤ℤ n) × (n ≤ℤ high)) }
{
    let place = region.place();
    let content = region.element(INTEGER)?;
    Ok(integer_in(low, high, place, content.rest())?)
}
